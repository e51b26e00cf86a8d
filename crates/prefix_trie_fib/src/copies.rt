//! Copies of arrays.
ghost use Rattle.std.specs.Prelude.{◌≡◌, IfOk};

use std::alloc::{AllocError, Allocator};

/// Copies the items of an array, in memory of its own.
pub(crate) fn copy_of<T: Copy, A: Allocator + Clone>(
    array: &Vec<T, A>,
) -> Result<Vec<T, A>, AllocError>
    ensures { IfOk result (λ copy. copy.items ≡ array.now.items) }
{
    let mut copy = Vec::with_capacity(array.allocator().clone()?, array.len())?;
    copy.extend_from_slice(array)?;
    Ok(copy)
}
