//! Sets of addresses as sorted ranges.
#![tactic(auto)]

mod append;
mod before;
mod builder;
mod count;
mod covers;
mod joint;
pub mod laws;
mod left;
mod networks;
mod operation;
mod order;
mod ranges;
mod rank;
mod same;
mod set;
mod sweep;
mod toggle;

pub use builder::AddressSetBuilder;
pub use count::AddressCount;
pub use joint::{JointAddressSet, JointAddressSetBuilder};
pub use networks::{Networks, NetworksOfLength};
pub use ranges::Ranges;
pub use set::{AddressSet, networks_of};
