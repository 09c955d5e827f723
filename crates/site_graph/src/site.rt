//! The accesses of a source, and which cells each of them may reach as far as its text tells.

ghost use Rattle.std.specs.Prelude.{◌≡◌};
ghost use Rattle.site_graph.specs.Graph as graph;

use sc_base::CopyMode;
use sqlite_items::Items;

/// How a site accesses cells.
#[derive(Clone, Copy, Debug, PartialEq, Eq)]
pub enum SiteKind {
    Read,
    Write,
    Get,
    Put,
    Store,
    Copy(CopyMode),
}

impl SiteKind {
    /// Whether the access is over, in the source, before the node's next step.
    pub fn is_blocking(self) -> bool
        ensures { result ≡ graph.is_blocking self }
    {
        matches!(
            self,
            SiteKind::Read | SiteKind::Write | SiteKind::Copy(CopyMode::Blocking)
        )
    }

    /// Whether the access is over, in the source, at the node's next sync.
    pub fn is_split(self) -> bool
        ensures { result ≡ graph.is_split self }
    {
        matches!(
            self,
            SiteKind::Get | SiteKind::Put | SiteKind::Copy(CopyMode::Split)
        )
    }
}

/// What is known of the index of an element of a spread array with one dimension, on the node `MYPROC` of `PROCS`.
#[derive(Clone, Copy, Debug, PartialEq, Eq)]
pub enum IndexForm {
    /// It is `k * MYPROC + c`.
    Linear { k: i64, c: i64 },
    /// It is the remainder of `k * MYPROC + c` divided by `PROCS`, from 0 to `PROCS - 1`.
    Wrapped { k: i64, c: i64 },
    /// It leaves the same remainder as `MYPROC + c` when it is divided by `PROCS`.
    Mine { c: i64 },
    Any,
}

/// Which cells an access may reach. Objects are counted from 0.
#[derive(Clone, Copy, Debug, PartialEq, Eq)]
pub enum Form {
    /// Elements of a spread object, which stands with all its indices.
    Element { object: u32, index: IndexForm },
    /// The executing node's own cells of an ordinary object, which stands with all its indices.
    Own { object: u32 },
    /// The executing node's own cells of the exposed objects: a use of a local pointer.
    OwnExposed,
    /// All nodes' cells of the exposed objects: a use of a global or spread pointer.
    Exposed,
}

/// An access of the source. `line` is the line that its requests have, `reads` and `writes` say which cells it may
/// read and write, and `fills` is the local that a filling read sets.
#[derive(Clone, Copy, Debug, PartialEq, Eq)]
pub struct Site {
    pub kind: SiteKind,
    pub line: u32,
    pub reads: Option<Form>,
    pub writes: Option<Form>,
    pub fills: Option<u32>,
}

/// The sites by number, which is counted from 1; seen as a list.
pub type Sites = Items<Site>;

/// Numbers of sites, seen as a list.
pub type SiteList = Items<u32>;
