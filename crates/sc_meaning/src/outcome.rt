//! What a run of a source leaves: how each node ended, what it printed, and what its cells hold.

ghost use Rattle.std.specs.Prelude.{◌≡◌};

use sc_base::{Bytes, End, Value};
use std::marker::Model;

/// The nodes' ends by number, seen as a list.
#[derive(Debug, Drop)]
pub struct Ends {
    ends: Vec<End>,
}

impl Model for Ends {
    ghost use Rattle.std.specs.Prelude.{List};
    ghost use Rattle.sc_base.specs.declared.value.End.{End};

    ghost Value = { List End };

    ghost view = { λ e. e.ends.items };
}

impl Ends {
    /// The ends of the vector, in its order.
    pub fn from_vec(ends: Vec<End>) -> Ends
        ensures { result ≡ ends.items }
    {
        Ends { ends }
    }

    /// All the ends, by the number of the node.
    pub fn as_slice(&self) -> &[End]
        ensures { result.now ≡ self.now }
    {
        self.ends.as_slice()
    }
}

/// The bytes that each node printed, by number, seen as a list.
#[derive(Debug, Drop)]
pub struct Streams {
    streams: Vec<Bytes>,
}

impl Model for Streams {
    ghost use Rattle.std.specs.Prelude.{ℕ, List};

    ghost Value = { List (List ℕ) };

    ghost view = { λ s. s.streams.items };
}

impl Streams {
    /// The bytes of the vector, in its order.
    pub fn from_vec(streams: Vec<Bytes>) -> Streams
        ensures { result ≡ streams.items }
    {
        Streams { streams }
    }

    /// All the bytes, by the number of the node.
    pub fn as_slice(&self) -> &[Bytes]
        ensures { result.now ≡ self.now }
    {
        self.streams.as_slice()
    }
}

/// What the cells of one object hold on one node, by their offset, seen as a list.
#[derive(Debug, Drop)]
pub struct ObjectCells {
    values: Vec<Value>,
}

impl Model for ObjectCells {
    ghost use Rattle.std.specs.Prelude.{List};
    ghost use Rattle.sc_base.specs.declared.value.Value.{Value as CellValue};

    ghost Value = { List CellValue };

    ghost view = { λ c. c.values.items };
}

impl ObjectCells {
    /// The values of the vector, in its order.
    pub fn from_vec(values: Vec<Value>) -> ObjectCells
        ensures { result ≡ values.items }
    {
        ObjectCells { values }
    }

    /// All the values, by their offset.
    pub fn as_slice(&self) -> &[Value]
        ensures { result.now ≡ self.now }
    {
        self.values.as_slice()
    }
}

/// What the cells of one node hold, by their object, seen as a list.
#[derive(Debug, Drop)]
pub struct NodeCells {
    objects: Vec<ObjectCells>,
}

impl Model for NodeCells {
    ghost use Rattle.std.specs.Prelude.{List};
    ghost use Rattle.sc_base.specs.declared.value.Value.{Value as CellValue};

    ghost Value = { List (List CellValue) };

    ghost view = { λ c. c.objects.items };
}

impl NodeCells {
    /// The objects of the vector, in its order.
    pub fn from_vec(objects: Vec<ObjectCells>) -> NodeCells
        ensures { result ≡ objects.items }
    {
        NodeCells { objects }
    }

    /// All the objects, by their number.
    pub fn as_slice(&self) -> &[ObjectCells]
        ensures { result.now ≡ self.now }
    {
        self.objects.as_slice()
    }
}

/// What all cells hold, by node, object and offset, seen as a list.
#[derive(Debug, Drop)]
pub struct Cells {
    nodes: Vec<NodeCells>,
}

impl Model for Cells {
    ghost use Rattle.std.specs.Prelude.{List};
    ghost use Rattle.sc_base.specs.declared.value.Value.{Value as CellValue};

    ghost Value = { List (List (List CellValue)) };

    ghost view = { λ c. c.nodes.items };
}

impl Cells {
    /// The nodes' cells of the vector, in its order.
    pub fn from_vec(nodes: Vec<NodeCells>) -> Cells
        ensures { result ≡ nodes.items }
    {
        Cells { nodes }
    }

    /// The cells of all nodes, by number.
    pub fn as_slice(&self) -> &[NodeCells]
        ensures { result.now ≡ self.now }
    {
        self.nodes.as_slice()
    }
}

/// What a run shows in the end: of each node its end, the bytes that it printed, and its cells.
#[derive(Debug, Drop)]
pub struct Outcome {
    pub ends: Ends,
    pub printed: Streams,
    pub memory: Cells,
}
