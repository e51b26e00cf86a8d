//! Copies of slots.
ghost use Rattle.std.specs.Prelude.{◌≡◌, IfOk};

use super::Slots;
use super::free::Groups;
use std::alloc::{AllocError, Allocator};

impl<A: Allocator + Clone> Slots<A> {
    /// Copies the slots, in memory of its own.
    pub(crate) fn clone(&self) -> Result<Self, AllocError>
        ensures items { IfOk result (λ copy. copy.items.items ≡ self.now.items.items) }
        ensures root { IfOk result (λ copy. copy.root_bits ≡ self.now.root_bits) }
        ensures levels { IfOk result (λ copy. copy.levels ≡ self.now.levels) }
    {
        let items = copy_of(&self.items)?;
        let groups = self.groups.clone()?;
        Ok(Slots {
            items,
            groups,
            root_bits: self.root_bits,
            levels: self.levels,
        })
    }
}

impl<A: Allocator + Clone> Groups<A> {
    /// Copies the list of free groups, with capacity for all.
    fn clone(&self) -> Result<Self, AllocError>
        ensures made { IfOk result (λ copy. copy.made ≡ self.now.made) }
        ensures free { IfOk result (λ copy. copy.free.items ≡ self.now.free.items) }
    {
        let mut free = copy_of(&self.free)?;
        free.reserve(self.made.saturating_sub(free.len()))?;
        Ok(Groups {
            made: self.made,
            free,
        })
    }
}

/// Copies the items of an array, in memory of its own.
fn copy_of<A: Allocator + Clone>(array: &Vec<u32, A>) -> Result<Vec<u32, A>, AllocError>
    ensures { IfOk result (λ copy. copy.items ≡ array.now.items) }
{
    let mut copy = Vec::with_capacity(array.allocator().clone()?, array.len())?;
    copy.extend_from_slice(array)?;
    Ok(copy)
}
