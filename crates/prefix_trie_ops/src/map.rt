//! Operations on whole maps.

mod aggregation;
mod covering_difference_walk;
mod covering_union_walk;
mod difference_walk;
mod intersection_walk;
mod optimal;
mod sides;
mod union_walk;

pub use aggregation::{aggregate_consistent, keep_marked, marks_of};
pub use covering_difference_walk::{CoveringDifferenceWalk, Uncovered, covering_difference};
pub use covering_union_walk::{CoveringUnionWalk, covering_union};
pub use difference_walk::{DifferenceWalk, Missing, difference};
pub use intersection_walk::{IntersectionWalk, intersection};
pub use optimal::{aggregate, aggregated};
pub use sides::Side;
pub use union_walk::{UnionWalk, union};
