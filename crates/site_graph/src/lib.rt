//! The flow of a source, as the analysis sees it: the points of its evaluation with their edges, its accesses, and
//! which points are reached from which; and rows of bits, in which relations between points or sites are kept.
#![tactic(auto)]

pub mod bit_rows;
pub mod flow;
pub mod laws;
mod making;
pub mod plan;
pub mod point;
pub mod reaching;
pub mod site;

pub use bit_rows::BitRows;
pub use flow::{Edge, Edges, Flow, ObjectList};
pub use laws::{plain_plans_wait_in_time, ways_are_of_order};
pub use plan::{Conflicts, Phases, Plan, WaitRows};
pub use point::{LocalList, NODE_MARK, Point, PointKind, Points};
pub use reaching::{first_edges, reach, reach_from, search, search_any};
pub use site::{Form, IndexForm, Site, SiteKind, SiteList, Sites};
