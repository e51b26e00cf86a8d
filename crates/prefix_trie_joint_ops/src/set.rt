//! Operations on whole joint sets.

mod aggregation;
mod comparing;
mod covering_union_walk;
mod walks;

pub use aggregation::{aggregate, aggregate_consistent, aggregated};
pub use comparing::{intersects, is_disjoint, is_subset};
pub use covering_union_walk::{CoveringUnionWalk, covering_union};
pub use walks::{
    CoveringDifferenceWalk, DifferenceWalk, IntersectionWalk, UnionWalk, covering_difference,
    difference, intersection, union,
};
