//! Handles: what C keeps of a table.
ghost use Rattle.std.specs.Prelude.{◌≡◌, false, true, Option, Some, None, IfSome};
ghost use Rattle.std.specs.Option.{option_map};
ghost use Rattle.prefix_trie_c.specs.declared.tables.Tables.{Tables};
ghost use Rattle.prefix_trie_c.specs.Held.{handle_owns, held_coded, loose_value};

use crate::loose::Loose;
use crate::tables::Tables;
use core::mem::replace_with;
use std::alloc::Global;
use std::marker::{Model, Send};
use std::mem::{forget, replace};
use std::ptr::null_mut;

/// A pointer to a table, or null.
///
/// It is empty while the pointer is null. Else it owns the table and the right to free its block.
#[repr(C)]
pub struct Handle {
    at: *mut u8,
    alloc: Global,
    pub ghost tables: { Option Tables } by { held_coded },
}

impl Model for Handle {
    ghost also_owns = { λ h. handle_owns h.alloc h.at h.tables };
}

impl Handle {
    /// Returns an empty handle.
    pub(crate) fn empty(alloc: Global) -> Handle
        ensures { result.tables ≡ None }
    {
        Handle {
            at: null_mut(),
            alloc,
        }
    }

    /// Returns the handle of a table, which stays where it is.
    #[inline(always)]
    pub(crate) fn of_loose(loose: Loose<Tables, Global>) -> Handle
        ensures tables { result.tables ≡ Some loose.value }
        ensures place { result.at ≡ loose.at }
    {
        let Loose { at, alloc } = loose;
        Handle {
            at: at as *mut u8,
            alloc,
        }
    }

    /// Returns the handle's table, if it has one.
    #[inline(always)]
    pub(crate) fn into_loose(self) -> Option<Loose<Tables, Global>>
        ensures tables { option_map loose_value result ≡ self.tables }
        ensures place { IfSome result (λ loose. loose.at ≡ self.at) }
    {
        let Handle { at, alloc } = self;
        if at.is_null() {
            None
        } else {
            Some(Loose {
                at: at as *mut Tables,
                alloc,
            })
        }
    }

    /// Returns whether the handle is empty.
    // The compiler sees that the place is left as it was, and writes nothing. Nor does it in a lookup after this test.
    #[inline(always)]
    pub(crate) fn is_empty(&mut self, alloc: Global) -> bool
        ensures empty { result ≡ true → self.old.tables ≡ None }
        ensures filled { result ≡ false → self.old.tables ≡ None → ⊥ }
        ensures tables { self.new.tables ≡ self.old.tables }
        ensures place { (self.new.tables ≡ None → ⊥) → self.new.at ≡ self.old.at }
    {
        replace_with(self, alloc, look_into)
    }

    /// Takes the table out of a handle, which is empty afterwards.
    pub(crate) fn open(&mut self, alloc: Global) -> Option<Loose<Tables, Global>>
        ensures tables { option_map loose_value result ≡ self.old.tables }
        ensures place { IfSome result (λ loose. loose.at ≡ self.old.at) }
        ensures emptied { self.new.tables ≡ None }
    {
        replace(self, Handle::empty(alloc)).into_loose()
    }

    /// Puts a table into an empty handle.
    pub(crate) fn close(&mut self, tables: Loose<Tables, Global>)
        requires { self.old.tables ≡ None }
        ensures tables { self.new.tables ≡ Some tables.value }
        ensures place { self.new.at ≡ tables.at }
    {
        // The empty handle owns nothing that its drop would free.
        forget(replace(self, Handle::of_loose(tables)));
    }
}

/// Returns a handle, and whether it is empty.
#[inline(always)]
fn look_into(handle: Handle, alloc: Global) -> (Handle, bool)
    ensures empty { result.1 ≡ true → handle.tables ≡ None }
    ensures filled { result.1 ≡ false → handle.tables ≡ None → ⊥ }
    ensures tables { result.0.tables ≡ handle.tables }
    ensures place { (handle.tables ≡ None → ⊥) → result.0.at ≡ handle.at }
{
    match handle.into_loose() {
        Some(loose) => (Handle::of_loose(loose), false),
        None => (Handle::empty(alloc), true),
    }
}

// It may go to another thread, as its maps may.
unsafe impl Send for Handle {}

impl Drop for Handle {
    fn drop(self) {
        if let Some(loose) = self.into_loose() {
            drop(loose.into_box());
        }
    }
}
