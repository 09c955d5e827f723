//! What the analysis answers beside bit rows.

use crate::bit_rows::BitRows;
use crate::site::SiteList;
use sqlite_items::Items;

/// For each point the sites that are waited for before it, seen as a list of lists.
pub type WaitRows = Items<SiteList>;

/// Where code waits: for each point the sites that it waits for, in rising order, and the sites whose writes are sent
/// one-way.
#[derive(Debug, Drop)]
pub struct Plan {
    pub waits: WaitRows,
    pub oneway: SiteList,
}

/// The pairs of sites that may reach one cell, one of them writing it: from two nodes, and from one node.
#[derive(Debug, Drop)]
pub struct Conflicts {
    pub cross: BitRows,
    pub own: BitRows,
}

/// Whether all nodes pass the same barriers in step, and the pairs of sites at which two nodes may stand between the
/// same two releases.
#[derive(Debug, Drop)]
pub struct Phases {
    pub aligned: bool,
    pub meets: BitRows,
}
