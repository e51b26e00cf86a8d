//! The validation state of a route.
use crate::vrp::Vrp;

/// The validation state of a route, with a VRP that decides.
#[derive(Clone, Copy, Debug, PartialEq, Eq)]
pub enum Validity {
    /// This VRP matches the route.
    Valid(Vrp),
    /// No VRP matches the route, and this one covers it. None with a longer prefix does.
    Invalid(Vrp),
    /// No VRP covers the route.
    NotFound,
}
