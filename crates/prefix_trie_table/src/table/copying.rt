//! Copying a table, and empty tables like it.
ghost use Rattle.std.specs.Prelude.{◌≡◌, IfErr, IfOk};
ghost use Rattle.prefix_trie_bits.specs.declared.prefix.Refusal.TheVariants.{Memory};
ghost use Rattle.prefix_trie_bits.specs.Model.Blocks.{no_layout};
ghost use Rattle.prefix_trie_bits.specs.Model.Entries.{no_entries};
ghost use Rattle.prefix_trie_bits.specs.Model.Nodes.{root_alone};
ghost use Rattle.prefix_trie_table.specs.Copies.{AreCloned};

use crate::allocator::nodes::VisitCounter;
use crate::table::Table;
use prefix_trie_bits::prefix::Refusal;
use std::alloc::{AllocError, Allocator};

impl<T: Drop, A: Allocator + Clone, V: VisitCounter> Table<T, A, V> {
    /// Creates an empty table with a clone of this table's allocator, and the same limit.
    ///
    /// # Errors
    ///
    /// Returns `Memory` if an allocation fails.
    pub fn new_like(&self) -> Result<Self, Refusal>
        ensures entries { IfOk result (λ t. t.entries ≡ no_entries) }
        ensures nodes { IfOk result (λ t. t.nodes ≡ root_alone) }
        ensures space { IfOk result
            (λ t. t.space
            ≡ record { limit = self.now.space.limit; node_slots = 1; cell_slots = 0 }) }
        ensures layout { IfOk result (λ t. t.layout ≡ no_layout) }
        ensures memory { IfErr result (λ cause. cause ≡ Memory) }
    {
        let Ok(alloc) = self.cells.allocator().clone() else {
            return Err(Refusal::Memory);
        };
        Table::new(alloc, self.cells.limit())
    }
}

impl<T: Clone, A: Allocator + Clone, V: VisitCounter> Table<T, A, V> {
    /// Creates a table with the same keys, nodes and blocks, whose values are clones, in memory of its own.
    ///
    /// All memory for the arrays is allocated before the first value is cloned.
    ///
    /// # Errors
    ///
    /// Returns an error if an allocation fails, for the arrays or in the clone of a value.
    pub fn clone(&self) -> Result<Self, AllocError>
        ensures entries { IfOk result (λ copy. AreCloned T.is_clone self.now.entries copy.entries) }
        ensures nodes { IfOk result (λ copy. copy.nodes ≡ self.now.nodes) }
        ensures space { IfOk result (λ copy. copy.space ≡ self.now.space) }
        ensures layout { IfOk result (λ copy. copy.layout ≡ self.now.layout) }
        ensures same { IfOk result
            (λ copy. ((x y : T) → T.is_clone x y → y ≡ x) → copy ≡ self.now) }
    {
        let nodes = self.nodes.clone()?;
        let cells = self.cells.clone()?;
        Ok(Table {
            nodes,
            cells,
            count: self.count,
        })
    }
}
