//! The calls that compile a table, and that share and free a compiled table.
ghost use Rattle.std.specs.Prelude.{◌≡◌, MatchResult, None, Some};
ghost use Rattle.prefix_trie_c.specs.Calls.{OnTables, refusal_code};
ghost use Rattle.prefix_trie_c.specs.Compiled.{Compiles, Fills, IfEmpty, OnCompiled, Shares};

use crate::codes::{DONE, IN_USE, MEMORY, NULL, code_of};
use crate::compiled::Shared;
use crate::compiled_handle::CompiledHandle;
use crate::handle::Handle;
use crate::loose::Loose;
use prefix_trie::Refusal;
use std::alloc::Global;

/// Compiles a table, and fills an empty handle with the compiled table.
#[unsafe(no_mangle)]
pub extern "C" fn prefix_trie_c_compile(
    handle: &mut Handle,
    alloc: Global,
    compiled: &mut CompiledHandle,
) -> u32
    ensures answer { OnTables handle.old handle.new result
        (λ t u. (u ≡ t) × IfEmpty compiled.old compiled.new result
        (Compiles t compiled.new.shared result)) }
    ensures kept { handle.old.tables ≡ None → compiled.new ≡ compiled.old }
{
    let Some(mut tables) = handle.open(alloc) else {
        return NULL;
    };
    let code = match compiled.open(alloc) {
        Some(shared) => {
            compiled.close(shared);
            IN_USE
        }
        None => fill(compiled, Shared::new(tables.as_mut(), alloc), alloc),
    };
    handle.close(tables);
    code
}

/// Fills an empty handle with one more owner of a compiled table.
#[unsafe(no_mangle)]
pub extern "C" fn prefix_trie_c_table_share(
    handle: &mut CompiledHandle,
    alloc: Global,
    shared: &mut CompiledHandle,
) -> u32
    ensures answer { OnCompiled handle.old handle.new result
        (λ s t. (t ≡ s) × IfEmpty shared.old shared.new result
        (Shares s shared.new.shared result)) }
    ensures kept { handle.old.shared ≡ None → shared.new ≡ shared.old }
{
    let Some(mut owner) = handle.open(alloc) else {
        return NULL;
    };
    let code = match shared.open(alloc) {
        Some(other) => {
            shared.close(other);
            IN_USE
        }
        None => fill(shared, owner.as_mut().share(), alloc),
    };
    handle.close(owner);
    code
}

/// Fills an empty handle, unless there is nothing to fill it with or an allocation fails.
fn fill(handle: &mut CompiledHandle, made: Result<Shared, Refusal>, alloc: Global) -> u32
    requires { handle.old.shared ≡ None }
    ensures { MatchResult made (λ shared. Fills shared handle.new.shared result)
        (λ cause. (handle.new.shared ≡ None) × (result ≡ refusal_code cause)) }
{
    let shared = match made {
        Ok(shared) => shared,
        Err(cause) => return code_of(cause),
    };
    match Box::new(alloc, shared) {
        Ok(shared) => {
            handle.close(Loose::of(shared));
            DONE
        }
        Err(_) => MEMORY,
    }
}

/// Frees the owner of a handle, which is empty afterwards. The last owner frees the compiled table.
#[unsafe(no_mangle)]
pub extern "C" fn prefix_trie_c_table_free(handle: &mut CompiledHandle, alloc: Global)
    ensures { handle.new.shared ≡ None }
{
    if let Some(shared) = handle.open(alloc) {
        drop(shared.into_box());
    }
}
