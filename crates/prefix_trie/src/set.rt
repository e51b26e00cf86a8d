//! Sets of prefixes: maps without values.
//! The key of a prefix is its path, its first `prefix_len` bits: two prefixes with the same path are one key, whatever
//! their host bits.
//!
//! Contracts see a set as a map whose values are units: its entries, its nodes, its space and its layout.
ghost use Rattle.std.specs.Prelude.{◌≡◌, ◌-◌, ◌^◌, ◌↔◌, IfOk, OnOk, IfErr, OnErr, IfSome, IsErr, IsTrue, not};
ghost use Rattle.std.specs.Option.{option_map};
ghost use Rattle.std.specs.FinMap.{contains_key, len};
ghost use Rattle.prefix_trie_bits.specs.declared.prefix.Refusal.TheVariants.{Memory, IndexRange};
ghost use Rattle.prefix_trie_bits.specs.Model.Bits.{number};
ghost use Rattle.prefix_trie_bits.specs.Model.Addresses.{address_total};
ghost use Rattle.prefix_trie_bits.specs.Model.Blocks.{no_layout};
ghost use Rattle.prefix_trie_bits.specs.Model.Entries.{no_entries, with_entry};
ghost use Rattle.prefix_trie_bits.specs.Model.Nodes.{root_alone, with_needed};
ghost use Rattle.prefix_trie_bits.specs.Model.Step.{Insert};
ghost use Rattle.prefix_trie_bits.specs.Calls.Storage.{StepByPath};
ghost use Rattle.prefix_trie_map.specs.Steps.{stored_state};
ghost use Rattle.prefix_trie_map.specs.Whole.{IsWhole};
ghost use Rattle.prefix_trie.specs.Sets.{set_insert_reply};

mod collecting;
mod equality;
mod iter;
mod lookup;
mod memory;
mod removal;
mod splitting;

pub use iter::{IntoIter, Iter};
use prefix_trie_bits::prefix::{Prefix, Refusal};
use prefix_trie_map::map::PrefixMap;
use std::alloc::{AllocError, Allocator};
use std::marker::Model;

/// A set of prefixes, in memory of the allocator `A`.
///
/// Prefixes are not stored, only their paths. Every call that takes a prefix requires that it fits.
///
/// In examples, a comment `set = {..}` says what a set of `Ipv4Prefix` holds at the start. The
/// comment after an expression is its value as `{:?}` prints it, or the list of what an iterator
/// returns.
///
/// # Examples
///
/// ```rust
/// let network = "10.1.0.0/16".parse::<Ipv4Prefix>()?;
/// let mut set = PrefixSet::new(alloc)?;
/// set.insert(network)?;                       // true
/// set.insert("10.1.255.255/16".parse()?)?;    // false: both have one path
/// set.contains(&network);                     // true
/// set.contains(&"10.1.0.0/17".parse()?);      // false
/// set.get_lpm(&"10.1.2.3/32".parse()?);       // Some(10.1.0.0/16)
/// ```
#[derive(Drop)]
pub struct PrefixSet<P: Prefix, A: Allocator> {
    map: PrefixMap<P, (), A>,
}

// Contracts see the map.
impl<P: Prefix, A: Allocator> Model for PrefixSet<P, A> {
    ghost use base.Stored.{coded_unit};
    ghost use Rattle.prefix_trie_table.specs.Model.Contents.{Contents};
    ghost use Rattle.prefix_trie_table.specs.Shape.{contents_code};

    ghost Value = { Contents (Unit {0}) };

    ghost coded = { contents_code coded_unit };

    ghost view = { λ s. s.map };
}

impl<P: Prefix, A: Allocator + Clone> PrefixSet<P, A> {
    /// Creates an empty set with a slot limit of `u32::MAX`.
    ///
    /// # Errors
    ///
    /// Returns `Memory` if an allocation fails. No set exists then.
    ///
    /// # Examples
    ///
    /// ```rust
    /// let set: PrefixSet<Ipv4Prefix, Global> = PrefixSet::new(alloc)?;
    /// (set.len(), set.node_count());      // (0, 1)
    /// ```
    #[inline]
    pub fn new(alloc: A) -> Result<Self, Refusal>
        ensures entries { IfOk result (λ set. set.entries ≡ no_entries) }
        ensures nodes { IfOk result (λ set. set.nodes ≡ root_alone) }
        ensures space { IfOk result
            (λ set. set.space ≡ record { limit = 2 ^ 32 - 1; node_slots = 1; cell_slots = 0 }) }
        ensures layout { IfOk result (λ set. set.layout ≡ no_layout) }
        ensures only_memory { IfErr result (λ refusal. refusal ≡ Memory) }
    {
        Ok(PrefixSet {
            map: PrefixMap::new(alloc)?,
        })
    }

    /// Creates an empty set whose two arrays, of nodes and of keys, are never longer than `limit` slots.
    ///
    /// # Errors
    ///
    /// Returns `IndexRange` if `limit` is 0, since the root needs a slot. Otherwise returns `Memory` if an allocation
    /// fails. No set exists then.
    ///
    /// # Examples
    ///
    /// ```rust
    /// let mut set = PrefixSet::with_slot_limit(alloc, 4)?;
    /// set.insert("0.0.0.0/32".parse::<Ipv4Prefix>()?);    // Err(IndexRange): it needs six more nodes
    /// set.insert("0.0.0.0/4".parse()?)?;                  // true
    /// ```
    #[inline]
    pub fn with_slot_limit(alloc: A, limit: u32) -> Result<Self, Refusal>
        ensures entries { IfOk result (λ set. set.entries ≡ no_entries) }
        ensures nodes { IfOk result (λ set. set.nodes ≡ root_alone) }
        ensures space { IfOk result
            (λ set. set.space ≡ record { limit = limit; node_slots = 1; cell_slots = 0 }) }
        ensures layout { IfOk result (λ set. set.layout ≡ no_layout) }
        ensures range { IfErr result (λ cause. (cause ≡ IndexRange) ↔ (limit ≡ 0)) }
        ensures none { limit ≡ 0 → IsErr result }
    {
        Ok(PrefixSet {
            map: PrefixMap::with_slot_limit(alloc, limit)?,
        })
    }

    /// Creates a set with the same keys and nodes, in memory of its own.
    ///
    /// Slots are copied one by one, free ones too: both arrays have the same length, blocks and limit as in this set.
    ///
    /// # Errors
    ///
    /// Returns an error if an allocation fails. No copy exists then.
    ///
    /// # Examples
    ///
    /// ```rust
    /// // set = {10.1.0.0/16}
    /// let mut copy = set.clone()?;
    /// copy.clear();
    /// (set.len(), copy.len());        // (1, 0): the two share nothing
    /// ```
    pub fn clone(&self) -> Result<Self, AllocError>
        ensures { IfOk result (λ copy. copy ≡ self.now) }
    {
        let map = self.map.clone()?;
        Ok(PrefixSet { map })
    }
}

impl<P: Prefix, A: Allocator> PrefixSet<P, A> {
    /// Returns the map of units whose keys the set has, for calls that take maps.
    ///
    /// # Examples
    ///
    /// ```rust
    /// // set = {10.0.0.0/8, 10.1.0.0/16}
    /// set.as_map().get(&"10.1.0.0/16".parse()?);    // Some(())
    /// ```
    #[inline]
    pub fn as_map(&self) -> &PrefixMap<P, (), A>
        ensures { result.now ≡ self.now }
    {
        &self.map
    }

    /// Returns the set of a map's keys. The map becomes the set, and nothing is copied.
    ///
    /// # Examples
    ///
    /// ```rust
    /// // set = {10.0.0.0/8, 10.1.0.0/16}
    /// PrefixSet::from_map(set.as_map().clone()?).len();       // 2
    /// ```
    #[inline]
    pub fn from_map(map: PrefixMap<P, (), A>) -> Self
        ensures { result ≡ map }
    {
        PrefixSet { map }
    }

    /// Returns the number of keys.
    ///
    /// # Examples
    ///
    /// ```rust
    /// // set = {10.0.0.0/8, 10.1.0.0/16}
    /// set.len();      // 2
    /// ```
    #[inline]
    pub fn len(&self) -> usize
        ensures count { result ≡ len self.now.entries }
        ensures whole { IsWhole P.R.bit_width self.now }
    {
        self.map.len()
    }

    /// Returns whether there are no keys.
    ///
    /// # Examples
    ///
    /// ```rust
    /// // set = {10.1.0.0/16}
    /// set.is_empty();     // false
    /// set.clear();
    /// set.is_empty();     // true
    /// ```
    #[inline]
    pub fn is_empty(&self) -> bool
        ensures none { IsTrue result ↔ (self.now.entries ≡ no_entries) }
        ensures whole { IsWhole P.R.bit_width self.now }
    {
        self.map.is_empty()
    }

    /// Returns the number of nodes, including the root; a new set has 1.
    ///
    /// The number is not stored: each call reads every slot of the array of nodes once, free ones
    /// too.
    ///
    /// # Examples
    ///
    /// ```rust
    /// // set = {0.0.0.0/32}
    /// set.node_count();       // 7: the root, and a node for each five bits
    /// ```
    #[inline]
    pub fn node_count(&self) -> usize
        ensures count { result ≡ len self.now.nodes }
        ensures whole { IsWhole P.R.bit_width self.now }
    {
        self.map.node_count()
    }

    /// Returns the number of addresses that the keys contain, each counted once.
    ///
    /// An address is a prefix of the full width. The result is `None` exactly if all addresses are covered, since their
    /// number does not fit. A key within another one adds nothing, and the nodes under a key are not read.
    ///
    /// # Examples
    ///
    /// ```rust
    /// // set = {192.0.2.0/24, 192.0.2.128/25, 198.51.100.0/24}
    /// set.address_count();    // Some(512)
    /// ```
    #[inline]
    pub fn address_count(&self) -> Option<P::R>
        ensures key { IfSome result (λ r. P.R.IsKey r) }
        ensures count { option_map (λ r. number (P.R.bits r)) result
            ≡ address_total P.R.bit_width self.now.entries }
        ensures whole { IsWhole P.R.bit_width self.now }
    {
        self.map.address_count()
    }

    /// Returns the number of slots of the array of nodes, used or free; a new set has 1.
    ///
    /// It never exceeds the limit. Changes may add slots. Only `clear`, `compact`, and
    /// `drop_children` and `remove_children` of a prefix of length 0 remove slots.
    ///
    /// # Examples
    ///
    /// ```rust
    /// // set = {10.1.0.0/16}
    /// set.node_slots();       // 4: the root, and three blocks of one slot
    /// ```
    #[inline]
    pub fn node_slots(&self) -> usize
        ensures slots { result ≡ self.now.space.node_slots }
        ensures whole { IsWhole P.R.bit_width self.now }
    {
        self.map.node_slots()
    }

    /// Returns the number of slots of the array of keys, used or free; a new set has none.
    ///
    /// It never exceeds the limit.
    ///
    /// # Examples
    ///
    /// ```rust
    /// // set = {10.1.0.0/16}
    /// set.cell_slots();       // 1
    /// ```
    #[inline]
    pub fn cell_slots(&self) -> usize
        ensures slots { result ≡ self.now.space.cell_slots }
        ensures whole { IsWhole P.R.bit_width self.now }
    {
        self.map.cell_slots()
    }

    /// Inserts a prefix and returns whether it is new.
    ///
    /// Inserting a stored prefix never fails. An insertion makes at most 56 slots for nodes and 31
    /// for keys (`slot_laws`).
    ///
    /// # Errors
    ///
    /// For a new prefix, returns `Memory` if an allocation failed, and `IndexRange` if the missing
    /// blocks would exceed the slot limit. The keys and nodes are unchanged then.
    ///
    /// # Examples
    ///
    /// ```rust
    /// // set = {}
    /// set.insert("10.1.0.0/16".parse()?)?;            // true
    /// set.insert("10.1.255.255/16".parse()?)?;        // false: both have one path
    /// ```
    #[inline]
    pub fn insert(&mut self, prefix: P) -> Result<bool, Refusal>
        requires { P.IsFitting prefix }
        ensures is_new { IfOk result
            (λ is_new. is_new ≡ not (contains_key self.old.entries (P.path prefix))) }
        ensures entries { OnOk result
            (self.new.entries ≡ with_entry self.old.entries (P.path prefix) tt) }
        ensures nodes { OnOk result (self.new.nodes ≡ with_needed self.old.nodes (P.path prefix)) }

        // An error changes neither the keys nor the nodes.
        ensures unchanged { OnErr result
            ((self.new.entries ≡ self.old.entries) × (self.new.nodes ≡ self.old.nodes)) }

        // It is a step of the model and its storage, on a map of units (as `PrefixMap::insert`).
        ensures step { StepByPath P.R.bit_width (stored_state self.old) (Insert (P.path prefix) tt)
            (set_insert_reply result) (stored_state self.new) }
    {
        match self.map.insert(prefix, ()) {
            Ok(before) => Ok(before.is_none()),
            Err(refused) => Err(refused.cause),
        }
    }
}
