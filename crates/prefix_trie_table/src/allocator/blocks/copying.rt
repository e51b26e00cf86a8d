//! Cloning an array with its blocks.
ghost use Rattle.std.specs.Prelude.{◌≡◌, IfOk};
ghost use Rattle.std.specs.List.{AllZip};

use crate::allocator::blocks::Blocks;
use crate::allocator::slots::Slot;
use std::alloc::{AllocError, Allocator};
use std::marker::PhantomData;

impl<S: Slot + Clone, A: Allocator + Clone> Blocks<S, Vec<S, A>, A> {
    /// Clones the array with its blocks, used and free. All memory is allocated before the first value is cloned.
    ///
    /// # Errors
    ///
    /// Returns an error if an allocation fails, for the array or in the `clone` of a value.
    pub fn clone(&self) -> Result<Self, AllocError>
        ensures slots { IfOk result (λ copy. AllZip S.is_clone self.now.slots copy.slots) }
        ensures rest { IfOk result
            (λ copy. copy ≡ record self.now { slots = copy.slots; capacities = copy.capacities }) }
        ensures same { IfOk result
            (λ copy. ((x y : S) → S.is_clone x y → y ≡ x)
            → copy ≡ record self.now { capacities = copy.capacities }) }
    {
        let lists = Vec::from_clones(self.lists.allocator().clone()?, &self.lists)?;
        let slots = Vec::from_clones(self.slots.allocator().clone()?, &self.slots)?;
        Ok(Blocks {
            slots,
            first: self.first,
            lists,
            limit: self.limit,
            of: PhantomData,
        })
    }
}
