//! The flow of a source.

ghost use Rattle.std.specs.Prelude.{◌≡◌, Some};
ghost use Rattle.site_graph.specs.Graph.{site_at};
ghost use Rattle.site_graph.specs.Kept.{IsSiteOf};

use crate::point::Points;
use crate::site::{Site, Sites};
use sqlite_items::Items;
use std::marker::Model;

/// An edge: evaluation may go from the point `from` directly to the point `to`.
#[derive(Clone, Copy, Debug, PartialEq, Eq)]
pub struct Edge {
    pub from: u32,
    pub to: u32,
}

/// Edges, seen as a list.
pub type Edges = Items<Edge>;

/// Numbers of objects, counted from 0; seen as a list.
pub type ObjectList = Items<u32>;

/// The flow of a source, seen as its four lists. Points are numbered from 0, which is Start, and sites from 1.
/// `edges` rise by `from` and then by `to`, and `exposed`, the objects that pointers may reach, rise too, both without
/// repeats. Each number of a point or site in it is one of its own, and each site has exactly one point.
#[derive(Debug, Drop)]
pub struct Flow {
    pub points: Points,
    pub edges: Edges,
    pub sites: Sites,
    pub exposed: ObjectList,
}

impl Model for Flow {
    ghost use Rattle.site_graph.specs.Graph.{Graph};

    ghost Value = { Graph };

    ghost use Rattle.site_graph.specs.Kept.{IsFlow};

    ghost view = { λ f. record { points = f.points; edges = f.edges; sites = f.sites; exposed = f.exposed } };

    ghost invariant = { λ f. IsFlow (record { points = f.points; edges = f.edges; sites = f.sites; exposed = f.exposed }) };
}

impl Flow {
    /// The site with this number, which is counted from 1.
    pub fn site(&self, number: u32) -> Site
        requires { IsSiteOf self.now number }
        ensures { site_at self.now number ≡ Some result }
    {
        self.sites.as_slice()[number as usize - 1]
    }
}
