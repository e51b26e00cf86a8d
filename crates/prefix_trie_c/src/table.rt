//! The calls that make, clear and free a table.
ghost use Rattle.std.specs.Prelude.{◌≡◌, None, MatchOption};
ghost use Rattle.prefix_trie_c.specs.Calls.{Clears, Creates, OnTables};
ghost use Rattle.prefix_trie_c.specs.declared.codes.TheConstants.{DONE, IN_USE};

use crate::codes::{DONE, IN_USE, MEMORY, NULL, code_of};
use crate::handle::Handle;
use crate::loose::Loose;
use crate::tables::Tables;
use std::alloc::Global;

/// Fills an empty handle with a table that has no entries.
#[unsafe(no_mangle)]
pub extern "C" fn prefix_trie_c_new(handle: &mut Handle, alloc: Global) -> u32
    ensures { MatchOption handle.old.tables (Creates handle.new.tables result)
        (λ _. (result ≡ IN_USE) × (handle.new.tables ≡ handle.old.tables)
        × (handle.new.at ≡ handle.old.at)) }
{
    match handle.open(alloc) {
        Some(tables) => {
            handle.close(tables);
            IN_USE
        }
        None => create(handle, alloc),
    }
}

/// Fills an empty handle.
fn create(handle: &mut Handle, alloc: Global) -> u32
    requires { handle.old.tables ≡ None }
    ensures { Creates handle.new.tables result }
{
    let tables = match Tables::new(alloc) {
        Ok(tables) => tables,
        Err(refusal) => return code_of(refusal),
    };
    match Box::new(alloc, tables) {
        Ok(tables) => {
            handle.close(Loose::of(tables));
            DONE
        }
        Err(_) => MEMORY,
    }
}

/// Frees the table of a handle, which is empty afterwards.
#[unsafe(no_mangle)]
pub extern "C" fn prefix_trie_c_free(handle: &mut Handle, alloc: Global)
    ensures { handle.new.tables ≡ None }
{
    if let Some(tables) = handle.open(alloc) {
        drop(tables.into_box());
    }
}

/// Removes all entries of a table.
#[unsafe(no_mangle)]
pub extern "C" fn prefix_trie_c_clear(handle: &mut Handle, alloc: Global) -> u32
    ensures { OnTables handle.old handle.new result
        (λ t u. (result ≡ DONE) × Clears 32 t.v4 u.v4 × Clears 128 t.v6 u.v6) }
{
    let Some(mut tables) = handle.open(alloc) else {
        return NULL;
    };
    tables.as_mut().clear();
    handle.close(tables);
    DONE
}
