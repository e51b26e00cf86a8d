//! Networks that share no address with those of a table.
ghost use Rattle.std.specs.Prelude.{◌≡◌, ◌<◌, IfErr, IfOk, MatchOption};
ghost use Rattle.prefix_trie_joint.specs.Networks.{ip_width};
ghost use Rattle.prefix_trie_joint.specs.declared.prefix.IpPrefix.{IpPrefix};
ghost use Rattle.route_tables.specs.AddressLists.{IsOfSet};
ghost use Rattle.route_tables.specs.FreeNetworks.{IsFirstFree, IsFreeWithin};
ghost use Rattle.route_tables.specs.Tables.{Values};

use address_ranges::JointAddressSet;
use prefix_trie::{Ipv4Prefix, Ipv6Prefix, Prefix};
use prefix_trie_joint::IpPrefix;
use std::alloc::Global;
use std::error::Error;
use std::fmt::{self, Display, Formatter, Write};

/// Why no network of a length is looked for: addresses have fewer bits.
#[derive(Clone, Copy, Debug, PartialEq, Eq)]
pub struct LengthError {
    /// The length.
    pub len: u8,
    /// The number of bits of an address.
    pub width: u8,
}

impl Display for LengthError {
    fn fmt<W: Write>(&self, f: &mut Formatter<W>) -> fmt::Result {
        let (len, width) = (self.len, self.width);
        write!(f, "length {len} is above {width}")
    }
}

impl Error for LengthError {}

/// Returns the network of all IPv4 addresses, or of all IPv6 addresses if a length is above 32.
///
/// # Examples
///
/// ```rust
/// all_addresses(24);      // V4(0.0.0.0/0)
/// all_addresses(64);      // V6(0000:0000:0000:0000:0000:0000:0000:0000/0)
/// ```
pub fn all_addresses(len: u8) -> IpPrefix {
    if len <= 32 {
        IpPrefix::V4(Ipv4Prefix::from_repr_len(0, 0))
    } else {
        IpPrefix::V6(Ipv6Prefix::from_repr_len(0, 0))
    }
}

/// Returns the first network of a length that lies within a network and shares no address with those of a table, or `None`
/// if there is none.
///
/// The table is given by the addresses that its networks have.
///
/// # Errors
///
/// Returns the length if it is above the width of an address.
///
/// # Examples
///
/// ```rust
/// let mut list = AddressList::new(alloc)?;
/// list.add(b"10.0.0.0/24\n10.0.2.0-10.0.2.9\n", Reading::default(), alloc)?;
/// let set = list.finish()?;
/// first_free(&set, 24, "10.0.0.0/8".parse()?);        // Ok(Some(V4(10.0.1.0/24)))
/// first_free(&set, 23, "10.0.0.0/22".parse()?);       // Ok(None)
/// first_free(&set, 33, "10.0.0.0/8".parse()?);        // Err(LengthError { len: 33, width: 32 })
/// ```
pub fn first_free(
    set: &JointAddressSet<Global>,
    len: u8,
    within: IpPrefix,
) -> Result<Option<IpPrefix>, LengthError>
    ensures found { (m : Values) → IsOfSet m set.now → IfOk result
        (λ found. MatchOption found ((network : IpPrefix) → ¬ (IsFreeWithin m len within network))
        (IsFirstFree m len within)) }
    ensures too_long { IfErr result (λ error. (error.len ≡ len) × (error.width ≡ ip_width within)
        × (ip_width within < len)) }
{
    match within {
        IpPrefix::V4(within) => {
            if len > 32 {
                return Err(LengthError { len, width: 32 });
            }
            match set.ipv4.first_free_within(len, &within) {
                Some(network) => Ok(Some(IpPrefix::V4(network))),
                None => Ok(None),
            }
        }
        IpPrefix::V6(within) => {
            if len > 128 {
                return Err(LengthError { len, width: 128 });
            }
            match set.ipv6.first_free_within(len, &within) {
                Some(network) => Ok(Some(IpPrefix::V6(network))),
                None => Ok(None),
            }
        }
    }
}
