//! Origin validation: may this AS announce this route?
//!
//! A validated ROA payload (VRP) is a prefix, a maximum length and an origin AS. `Vrps` is a table of the VRPs that a relying
//! party gathered, and `Vrps::validate` returns the state of a route by RFC 6811, with a VRP that decides.
//!
//! - A VRP *covers* a route if its prefix contains the route's prefix. A prefix contains itself.
//! - A VRP *matches* a route if it covers the route, the route's length is at most the maximum length, and the origin AS is the
//!   same and not 0.
//! - A route is *not found* if no VRP covers it, *valid* if one matches it, and *invalid* otherwise.
//!
//! # Examples
//!
//! ```rust
//! let vrp = Vrp { prefix: "10.0.0.0/8".parse()?, max_len: 16, origin: 64500 };
//! let vrps = Vrps::new(vec![in alloc; vrp]?, alloc)?;
//! vrps.validate(&"10.1.0.0/16".parse()?, Some(64500)) == Validity::Valid(vrp);       // true
//! vrps.validate(&"10.1.2.0/24".parse()?, Some(64500)) == Validity::Invalid(vrp);     // true: longer than 16
//! vrps.validate(&"10.1.0.0/16".parse()?, Some(64501)) == Validity::Invalid(vrp);     // true: another AS
//! vrps.validate(&"11.0.0.0/8".parse()?, Some(64500));                                // NotFound
//! ```
#![tactic(auto)]

mod chains;
mod validity;
mod vrp;
mod vrps;

pub use validity::Validity;
pub use vrp::Vrp;
pub use vrps::Vrps;
