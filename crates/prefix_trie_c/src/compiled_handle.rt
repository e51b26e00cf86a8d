//! Handles of compiled tables.
ghost use Rattle.std.specs.Prelude.{◌≡◌, false, true, Option, Some, None, IfSome};
ghost use Rattle.std.specs.Option.{option_map};
ghost use Rattle.prefix_trie_c.specs.declared.compiled.Shared.{Shared};
ghost use Rattle.prefix_trie_c.specs.Held.{loose_value};
ghost use Rattle.prefix_trie_c.specs.HeldCompiled.{compiled_owns, shared_coded};

use crate::compiled::Shared;
use crate::loose::Loose;
use core::mem::replace_with;
use std::alloc::Global;
use std::marker::{Model, Send};
use std::mem::{forget, replace};
use std::ptr::null_mut;

/// A pointer to an owner of a compiled table, or null.
///
/// It is empty while the pointer is null. Else it owns the owner and the right to free its block.
#[repr(C)]
pub struct CompiledHandle {
    at: *mut u8,
    alloc: Global,
    pub ghost shared: { Option Shared } by { shared_coded },
}

impl Model for CompiledHandle {
    ghost also_owns = { λ h. compiled_owns h.alloc h.at h.shared };
}

impl CompiledHandle {
    /// Returns an empty handle.
    pub(crate) fn empty(alloc: Global) -> CompiledHandle
        ensures { result.shared ≡ None }
    {
        CompiledHandle {
            at: null_mut(),
            alloc,
        }
    }

    /// Returns the handle of an owner, which stays where it is.
    #[inline(always)]
    pub(crate) fn of_loose(loose: Loose<Shared, Global>) -> CompiledHandle
        ensures shared { result.shared ≡ Some loose.value }
        ensures place { result.at ≡ loose.at }
    {
        let Loose { at, alloc } = loose;
        CompiledHandle {
            at: at as *mut u8,
            alloc,
        }
    }

    /// Returns the handle's owner, if it has one.
    #[inline(always)]
    pub(crate) fn into_loose(self) -> Option<Loose<Shared, Global>>
        ensures shared { option_map loose_value result ≡ self.shared }
        ensures place { IfSome result (λ loose. loose.at ≡ self.at) }
    {
        let CompiledHandle { at, alloc } = self;
        if at.is_null() {
            None
        } else {
            Some(Loose {
                at: at as *mut Shared,
                alloc,
            })
        }
    }

    /// Returns whether the handle is empty.
    // The compiler sees that the place is left as it was, and writes nothing. Nor does it in a lookup after this test.
    #[inline(always)]
    pub(crate) fn is_empty(&mut self, alloc: Global) -> bool
        ensures empty { result ≡ true → self.old.shared ≡ None }
        ensures filled { result ≡ false → self.old.shared ≡ None → ⊥ }
        ensures shared { self.new.shared ≡ self.old.shared }
        ensures place { (self.new.shared ≡ None → ⊥) → self.new.at ≡ self.old.at }
    {
        replace_with(self, alloc, look_into)
    }

    /// Takes the owner out of a handle, which is empty afterwards.
    pub(crate) fn open(&mut self, alloc: Global) -> Option<Loose<Shared, Global>>
        ensures shared { option_map loose_value result ≡ self.old.shared }
        ensures place { IfSome result (λ loose. loose.at ≡ self.old.at) }
        ensures emptied { self.new.shared ≡ None }
    {
        replace(self, CompiledHandle::empty(alloc)).into_loose()
    }

    /// Puts an owner into an empty handle.
    pub(crate) fn close(&mut self, shared: Loose<Shared, Global>)
        requires { self.old.shared ≡ None }
        ensures shared { self.new.shared ≡ Some shared.value }
        ensures place { self.new.at ≡ shared.at }
    {
        // The empty handle owns nothing that its drop would free.
        forget(replace(self, CompiledHandle::of_loose(shared)));
    }
}

/// Returns a handle, and whether it is empty.
#[inline(always)]
fn look_into(handle: CompiledHandle, alloc: Global) -> (CompiledHandle, bool)
    ensures empty { result.1 ≡ true → handle.shared ≡ None }
    ensures filled { result.1 ≡ false → handle.shared ≡ None → ⊥ }
    ensures shared { result.0.shared ≡ handle.shared }
    ensures place { (handle.shared ≡ None → ⊥) → result.0.at ≡ handle.at }
{
    match handle.into_loose() {
        Some(loose) => (CompiledHandle::of_loose(loose), false),
        None => (CompiledHandle::empty(alloc), true),
    }
}

// It may go to another thread, as its table may.
unsafe impl Send for CompiledHandle {}

impl Drop for CompiledHandle {
    fn drop(self) {
        if let Some(loose) = self.into_loose() {
            drop(loose.into_box());
        }
    }
}
