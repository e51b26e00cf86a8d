//! Operations on whole sets.

mod aggregation;
mod comparing;
mod covering_union_walk;
mod optimal;
mod walks;

pub use aggregation::{aggregate_consistent, keep_marked, marks_of};
pub use comparing::{intersects, is_disjoint, is_subset};
pub use covering_union_walk::{CoveringUnionWalk, covering_union};
pub use optimal::{aggregate, aggregated};
pub use walks::{
    CoveringDifferenceWalk, DifferenceWalk, IntersectionWalk, UnionWalk, covering_difference,
    difference, intersection, union,
};
