//! What the nodes leave at their end.

ghost use Rattle.std.specs.Prelude.{◌≡◌};

use sc_base::{Bytes, End};
use std::marker::Model;

/// What a node printed, and how it ended.
#[derive(Debug, Drop)]
pub struct NodeResult {
    pub printed: Bytes,
    pub end: End,
}

/// The results of the nodes by number, seen as a list.
#[derive(Debug, Drop)]
pub struct NodeResults {
    results: Vec<NodeResult>,
}

impl Model for NodeResults {
    ghost use Rattle.std.specs.Prelude.{List};
    ghost use Rattle.sc_isa.specs.declared.results.NodeResult.{NodeResult};

    ghost Value = { List NodeResult };

    ghost view = { λ r. r.results.items };
}

impl NodeResults {
    pub fn from_vec(results: Vec<NodeResult>) -> NodeResults
        ensures { result ≡ results.items }
    {
        NodeResults { results }
    }

    pub fn as_slice(&self) -> &[NodeResult]
        ensures { result.now ≡ self.now }
    {
        self.results.as_slice()
    }
}
