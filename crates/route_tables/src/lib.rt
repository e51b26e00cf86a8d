//! Tables of IP networks as text: reading them, looking up, comparing, minimising, checking and counting.
//!
//! Each network has a value.
//!
//! This is the proved core of the program `routes`. A table is a joint map, `Table`, of IPv4 and IPv6 networks. What is
//! done family by family is generic over `P: Prefix`, on a `FamilyTable<P>`.
#![tactic(auto)]

pub mod access;
pub mod address_list;
pub mod address_sets;
pub mod announcements;
pub mod arguments;
mod as_numbers;
pub mod commands;
pub mod diff;
pub mod fewest;
pub mod formats;
pub mod free;
pub mod laws;
pub mod line;
pub mod lines;
pub mod load;
pub mod lookup;
pub mod matching;
pub mod messages;
pub mod minimise;
pub mod network;
pub mod pieces;
pub mod plain_lists;
pub mod questions;
pub mod range;
mod rule;
pub mod stats;
pub mod table;
pub mod value;
pub mod vrp_lines;
