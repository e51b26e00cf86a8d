//! The two maps of a table.
ghost use Rattle.std.specs.Prelude.{◌≡◌, IfOk, IfErr};
ghost use Rattle.prefix_trie_bits.specs.declared.prefix.Refusal.TheVariants.{Memory};
ghost use Rattle.prefix_trie_c.specs.Calls.{Clears, IsNewMap};

use prefix_trie::{Ipv4Prefix, Ipv6Prefix, PrefixMap, Refusal};
use std::alloc::Global;

/// A map of IPv4 networks and a map of IPv6 networks.
#[derive(Drop)]
pub struct Tables {
    pub v4: PrefixMap<Ipv4Prefix, u64, Global>,
    pub v6: PrefixMap<Ipv6Prefix, u64, Global>,
}

impl Tables {
    /// Creates two empty maps, with the largest slot limit.
    ///
    /// # Errors
    ///
    /// Returns `Memory` if an allocation fails.
    pub(crate) fn new(alloc: Global) -> Result<Tables, Refusal>
        ensures v4 { IfOk result (λ tables. IsNewMap tables.v4) }
        ensures v6 { IfOk result (λ tables. IsNewMap tables.v6) }
        ensures only_memory { IfErr result (λ refusal. refusal ≡ Memory) }
    {
        let v4 = PrefixMap::new(alloc)?;
        let v6 = PrefixMap::new(alloc)?;
        Ok(Tables { v4, v6 })
    }

    /// Removes all entries.
    pub(crate) fn clear(&mut self)
        ensures v4 { Clears 32 self.old.v4 self.new.v4 }
        ensures v6 { Clears 128 self.old.v6 self.new.v6 }
    {
        self.v4.clear();
        self.v6.clear();
    }
}
