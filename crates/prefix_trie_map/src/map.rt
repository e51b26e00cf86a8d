//! Maps from prefixes to values, looked up exactly and by longest match.
//!
//! A key is the path of a prefix: its first `prefix_len` bits.
//!
//! Two prefixes with the same path are one key, whatever their host bits.
//!
//! Contracts see a map as its entries, its nodes, its space and its layout. The entries are a finite map from paths to
//! values. The space is the slot limit and the lengths of the two arrays. The layout is how the arrays are cut into
//! blocks.
ghost use Rattle.std.specs.Prelude.{◌≡◌, ◌<◌, ◌-◌, ◌^◌, ◌↔◌, IfOk, OnOk, IfErr, OnErr, IsTrue};
ghost use Rattle.std.specs.FinMap.{get, len};
ghost use Rattle.prefix_trie_bits.specs.declared.prefix.Refusal.TheVariants.{Memory};
ghost use Rattle.prefix_trie_bits.specs.Model.Blocks.{no_layout};
ghost use Rattle.prefix_trie_bits.specs.Model.Entries.{no_entries, with_entry};
ghost use Rattle.prefix_trie_bits.specs.Model.Nodes.{root_alone, with_needed};
ghost use Rattle.prefix_trie_bits.specs.Model.Step.{Insert};
ghost use Rattle.prefix_trie_bits.specs.Calls.Storage.{StepByPath};
ghost use Rattle.prefix_trie_map.specs.Steps.{stored_state, insert_reply};
ghost use Rattle.prefix_trie_map.specs.Whole.{IsWhole};

mod bulk;
mod clone;
mod collecting;
mod combined;
mod counting;
mod cover;
pub mod entry;
mod equality;
mod into_iter;
mod iter;
mod iter_from;
mod lending;
mod located;
mod lookup;
mod memory;
mod projection;
mod removal;
mod retain;
mod slots;
mod splitting;
mod visits;
mod writing;

pub use combined::{Combination, CombinedCursor};
pub use cover::{Cover, CoverKeys, CoverValues};
pub use into_iter::{IntoIter, IntoKeys, IntoValues};
pub use iter::{Iter, Keys, Values};
use prefix_trie_bits::prefix::{Prefix, Refusal, Refused};
pub use prefix_trie_table::allocator::block_count::BlockCount;
use prefix_trie_table::table::Table;
pub use projection::{Keyed, KeysOf};
use std::alloc::Allocator;
use std::marker::{Model, PhantomData};
pub use visits::Visits;
pub use writing::{IterMut, ValuesMut};

/// A map from prefixes to values, in memory of the allocator `A`.
///
/// The map stores the path of a prefix, not the prefix itself. Every call that takes a prefix requires that it fits.
///
/// In examples, a comment `map = {..}` says what a map of `Ipv4Prefix` and `u32` holds at the start. The comment after
/// an expression is its value as `{:?}` prints it, or the list of what an iterator returns.
///
/// # Examples
///
/// ```rust
/// let mut map: PrefixMap<Ipv4Prefix, u32, Global> = PrefixMap::new(alloc)?;
/// map.insert("10.1.0.0/16".parse()?, 1)?;         // None
/// map.insert("10.1.255.255/16".parse()?, 2)?;     // Some(1): both have one path
/// map.get(&"10.1.0.0/16".parse()?);               // Some(2)
/// map.get(&"10.1.0.0/17".parse()?);               // None
/// map.get_lpm(&"10.1.2.3/32".parse()?);           // Some((10.1.0.0/16, 2))
/// ```
#[derive(Drop)]
pub struct PrefixMap<P: Prefix, T: Drop, A: Allocator> {
    table: Table<T, A, Visits>,
    marker: PhantomData<P>,
}

// Contracts see what they see of the table. No key is longer than the width of P, and the nodes are such as keys need.
impl<P: Prefix, T: Drop, A: Allocator> Model for PrefixMap<P, T, A> {
    ghost use Rattle.prefix_trie_table.specs.Model.Contents.{Contents};
    ghost use Rattle.prefix_trie_table.specs.Shape.{contents_code};
    ghost use Rattle.prefix_trie_bits.specs.Laws.Steps.{IsMap};
    ghost use Rattle.prefix_trie_map.specs.Steps.{state};

    ghost Value = { Contents T };

    ghost coded = { contents_code T.code };

    ghost view = { λ m. m.table };

    ghost invariant = { λ m. IsMap P.R.bit_width (state m.table) };
}

impl<P: Prefix, T: Drop, A: Allocator + Clone> PrefixMap<P, T, A> {
    /// Creates an empty map.
    ///
    /// Neither of its arrays can ever be longer than `u32::MAX` slots.
    ///
    /// # Errors
    ///
    /// Returns `Memory` if an allocation fails. No map exists then.
    ///
    /// # Examples
    ///
    /// ```rust
    /// let map: PrefixMap<Ipv4Prefix, u32, Global> = PrefixMap::new(alloc)?;
    /// (map.len(), map.node_count());      // (0, 1)
    /// ```
    #[inline]
    pub fn new(alloc: A) -> Result<Self, Refusal>
        ensures entries { IfOk result (λ map. map.entries ≡ no_entries) }
        ensures nodes { IfOk result (λ map. map.nodes ≡ root_alone) }
        ensures space { IfOk result
            (λ map. map.space ≡ record { limit = 2 ^ 32 - 1; node_slots = 1; cell_slots = 0 }) }
        ensures layout { IfOk result (λ map. map.layout ≡ no_layout) }
        ensures only_memory { IfErr result (λ refusal. refusal ≡ Memory) }
    {
        Self::with_slot_limit(alloc, u32::MAX)
    }
}

impl<P: Prefix, T: Drop, A: Allocator> PrefixMap<P, T, A> {
    /// Returns the number of entries. It is stored, so the call reads no node.
    ///
    /// # Examples
    ///
    /// ```rust
    /// // map = {10.0.0.0/8: 1, 10.1.0.0/16: 2}
    /// map.len();      // 2
    /// ```
    #[inline]
    pub fn len(&self) -> usize
        ensures count { result ≡ len self.now.entries }
        ensures whole { IsWhole P.R.bit_width self.now }
    {
        self.table.len()
    }

    // Brings into the caller's proof what holds of every map. The compiler removes it.
    #[inline]
    fn known_valid(&self)
        ensures whole { IsWhole P.R.bit_width self.now }
        ensures few { len self.now.entries < 2 ^ 64 }
    {
        let _ = self.len();
    }

    /// Returns whether there are no entries.
    ///
    /// # Examples
    ///
    /// ```rust
    /// // map = {10.1.0.0/16: 1}
    /// map.is_empty();     // false
    /// map.clear();
    /// map.is_empty();     // true
    /// ```
    #[inline]
    pub fn is_empty(&self) -> bool
        ensures none { IsTrue result ↔ (self.now.entries ≡ no_entries) }
        ensures whole { IsWhole P.R.bit_width self.now }
    {
        self.len() == 0
    }

    /// Sets the value of a prefix and returns the previous one.
    ///
    /// Inserting a prefix that is already stored never fails and does not allocate. A new prefix makes at most 56 slots
    /// for nodes and 31 for values (`slot_laws`).
    ///
    /// # Errors
    ///
    /// Returns the value back, with the cause, if a new prefix needs a block that cannot be made: `Memory` if an
    /// allocation fails, `IndexRange` if the missing blocks would exceed the slot limit. Entries and nodes are
    /// unchanged then.
    ///
    /// # Examples
    ///
    /// ```rust
    /// // map = {}
    /// map.insert("10.1.0.0/16".parse()?, 1)?;     // None
    /// map.insert("10.1.2.3/16".parse()?, 2)?;     // Some(1): both have one path
    /// ```
    #[inline]
    pub fn insert(&mut self, prefix: P, value: T) -> Result<Option<T>, Refused<T>>
        requires { P.IsFitting prefix }
        ensures before { IfOk result (λ before. before ≡ get self.old.entries (P.path prefix)) }
        ensures entries { OnOk result
            (self.new.entries ≡ with_entry self.old.entries (P.path prefix) value) }
        ensures nodes { OnOk result (self.new.nodes ≡ with_needed self.old.nodes (P.path prefix)) }

        // An error changes neither the entries nor the nodes.
        ensures unchanged { OnErr result
            ((self.new.entries ≡ self.old.entries) × (self.new.nodes ≡ self.old.nodes)) }
        ensures returned { IfErr result (λ refused. refused.value ≡ value) }

        // This is a step of the model, of the storage too. A stored key needs no block. A new key uses free blocks, and
        // exactly the missing ones are made. An error means that a block is missing: for `IndexRange`, the missing
        // blocks would exceed the limit; for `Memory`, a missing block would fit the limit.
        ensures step { StepByPath P.R.bit_width (stored_state self.old)
            (Insert (P.path prefix) value) (insert_reply result) (stored_state self.new) }
    {
        self.table.insert(prefix.path(), value, &mut Visits::new())
    }
}
