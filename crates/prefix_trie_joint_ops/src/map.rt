//! Operations on whole joint maps.

mod aggregation;
mod covering_union_walk;
mod walks;

pub use aggregation::{aggregate, aggregate_consistent, aggregated};
pub use covering_union_walk::{CoveringUnionWalk, covering_union};
pub use walks::{
    CoveringDifferenceWalk, DifferenceWalk, IntersectionWalk, UnionWalk, covering_difference,
    difference, intersection, union,
};
