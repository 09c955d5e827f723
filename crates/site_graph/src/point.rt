//! The points of a flow.

ghost use Rattle.std.specs.Prelude.{◌≡◌};
ghost use Rattle.site_graph.specs.Graph as graph;
ghost use Rattle.site_graph.specs.Order as order;

use crate::site::SiteList;
use sqlite_items::Items;

/// Stands among the locals that a point reads where what it reads may differ from node to node by itself.
pub const NODE_MARK: u32 = u32::MAX;

/// What a point does. Sites are counted from 1.
#[derive(Clone, Copy, Debug, PartialEq, Eq)]
pub enum PointKind {
    /// Where each node begins.
    Start,
    Plain,
    /// The access of the site with this number.
    Access(u32),
    /// `sync()`
    Sync,
    /// `barrier()`
    Barrier,
    /// `all_store_sync()`
    StoreSync,
    /// A call of a function of the source.
    Call,
    /// A `return`, or the end of a body.
    Return,
}

impl PointKind {
    /// Whether the nodes wait there for each other.
    pub fn is_barrier(self) -> bool
        ensures { result ≡ graph.is_barrier self }
    {
        matches!(self, PointKind::Barrier | PointKind::StoreSync)
    }

    /// Whether it is `sync()`.
    pub fn is_sync(self) -> bool
        ensures { result ≡ order.is_sync self }
    {
        matches!(self, PointKind::Sync)
    }
}

/// Numbers of locals, counted from 0 in their function, and the node mark; seen as a list.
pub type LocalList = Items<u32>;

/// One step of evaluation. `function` is the number of its function in text order, and for Start that of
/// `splitc_main`. `takes` are the sites whose fetched value is an operand of the step. `reads` are the locals that
/// occur in the expressions whose values it gives or takes, with the node mark, and `writes` is the local that it
/// sets. Both lists rise, without repeats.
#[derive(Debug, Drop)]
pub struct Point {
    pub kind: PointKind,
    pub function: u32,
    pub takes: SiteList,
    pub reads: LocalList,
    pub writes: Option<u32>,
}

/// The points by number, which is counted from 0; seen as a list.
pub type Points = Items<Point>;
