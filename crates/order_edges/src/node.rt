//! The edges at the own items of a node and at its effects.

ghost use Rattle.std.specs.Prelude.{◌≡◌, ◌++◌, ◌≤◌, suc, IfOk, OnOk, reverse, length};
ghost use Rattle.order_edges.specs.declared.line.Kind.TheVariants.{Own, Arrivals, Effects};
ghost use Rattle.order_edges.specs.Lines.{number_in, edges_if};
ghost use Rattle.order_edges.specs.Kinds.{line_of, step_at, own_edges, arrival_edges, waits};
ghost use Rattle.order_edges.specs.Kinds.{effect_edges, item_edges, node_edges};
ghost use Rattle.order_edges.specs.Tables.{releases_in, node_in, node_at};

use crate::line::{Kind, Line, look, number_in, positions};
use crate::link::link;
use crate::nexts::nexts;
use crate::steps::{Step, steps};
use crate::tables::{Node, Releases};
use least_order::Edge;
use sc_isa::{Entry, Track};
use sc_meaning::SourceEvent;
use std::alloc::{AllocError, Global};

fn line_of(kind: Kind, node: u32, last: u64) -> Line
    ensures { result ≡ record { kind = kind; node = node; last = last } }
{
    Line { kind, node, last }
}

impl Node {
    pub fn new(
        alloc: Global,
        journal: &[Entry],
        items: &[SourceEvent],
        node: u32,
    ) -> Result<Node, AllocError>
        ensures { IfOk result (λ n. node_in n ≡ node_at (reverse journal.now) items.now node) }
    {
        let steps = steps(alloc, journal, node)?;
        let last = steps.len() as u64 - 1;
        let own = positions(alloc, items, line_of(Kind::Own, node, last))?;
        let issues = positions(alloc, items, line_of(Kind::Issues, node, last))?;
        let syncs = positions(alloc, items, line_of(Kind::Syncs, node, last))?;
        let syncs = nexts(alloc, syncs.as_slice())?;
        Ok(Node {
            node,
            last,
            steps,
            own,
            issues,
            syncs,
        })
    }

    fn number_in(&self, kind: Kind, item: SourceEvent) -> Option<u64>
        ensures { result ≡ number_in (line_of (node_in self.now) kind) item }
    {
        number_in(line_of(kind, self.node, self.last), item)
    }

    /// The node's request with this number.
    fn step(&self, number: u64) -> Step
        requires { number ≤ self.now.last }
        ensures { result ≡ step_at (node_in self.now) number }
    {
        self.steps[number as usize]
    }

    /// The own item after the one with this number.
    fn next(&self, number: u64) -> Option<usize>
        requires { number ≤ self.now.last }
        ensures { result ≡ (node_in self.now).own (suc number) }
    {
        look(self.own.as_slice(), number + 1)
    }

    /// Adds the edges at an own item: to the next one, and from the last release that the node has passed.
    fn add_own(
        &self,
        edges: &mut Vec<Edge>,
        releases: &Releases,
        at: usize,
        item: SourceEvent,
    ) -> Result<(), AllocError>
        ensures { let own = number_in (line_of (node_in self.now) Own) item in OnOk result (edges.new.items
            ≡ edges.old.items ++ edges_if own (own_edges (releases_in releases.now) (node_in self.now) at)) }
    {
        let Some(number) = self.number_in(Kind::Own, item) else {
            return Ok(());
        };
        link(edges, Some(at), self.next(number))?;
        link(edges, releases.passed(self.step(number).arrivals), Some(at))
    }

    /// Adds the edge from an arrival to its release.
    fn add_arrival(
        &self,
        edges: &mut Vec<Edge>,
        releases: &Releases,
        at: usize,
        item: SourceEvent,
    ) -> Result<(), AllocError>
        ensures { let arrival = number_in (line_of (node_in self.now) Arrivals) item in OnOk result (edges.new.items
            ≡ edges.old.items ++ edges_if arrival (arrival_edges (releases_in releases.now) (node_in self.now) at)) }
    {
        let Some(number) = self.number_in(Kind::Arrivals, item) else {
            return Ok(());
        };
        link(edges, Some(at), releases.next(self.step(number).arrivals))
    }

    /// What an effect of the request with this number has to come before, besides the writing of what it reads.
    fn waits(&self, releases: &Releases, number: u64) -> Option<usize>
        requires { number ≤ self.now.last }
        ensures { let step = step_at (node_in self.now) number in
            result ≡ waits (releases_in releases.now) (node_in self.now) step.track step.arrivals number }
    {
        let step = self.step(number);
        match step.track? {
            Track::Store => releases.next_stores(step.arrivals),
            Track::Covered => self.next(number),
            Track::Counter(counter) => {
                if counter == 0 {
                    look(self.syncs.as_slice(), number + 1)
                } else {
                    self.next(number)
                }
            }
        }
    }

    /// Adds the edges at an effect: from its issue, and to what waits for it.
    fn add_effect(
        &self,
        edges: &mut Vec<Edge>,
        releases: &Releases,
        at: usize,
        item: SourceEvent,
    ) -> Result<(), AllocError>
        ensures { let effect = number_in (line_of (node_in self.now) Effects) item in OnOk result (edges.new.items
            ≡ edges.old.items ++ edges_if effect (effect_edges (releases_in releases.now) (node_in self.now) at)) }
    {
        let Some(number) = self.number_in(Kind::Effects, item) else {
            return Ok(());
        };
        link(edges, look(self.issues.as_slice(), number), Some(at))?;
        link(edges, Some(at), self.waits(releases, number))
    }

    /// Adds the edges at the item.
    fn add_item(
        &self,
        edges: &mut Vec<Edge>,
        releases: &Releases,
        at: usize,
        item: SourceEvent,
    ) -> Result<(), AllocError>
        ensures { OnOk result (edges.new.items
            ≡ edges.old.items ++ item_edges (releases_in releases.now) (node_in self.now) at item) }
    {
        self.add_own(edges, releases, at, item)?;
        self.add_arrival(edges, releases, at, item)?;
        self.add_effect(edges, releases, at, item)
    }

    /// Adds the edges at all items.
    pub fn add(
        &self,
        edges: &mut Vec<Edge>,
        releases: &Releases,
        items: &[SourceEvent],
    ) -> Result<(), AllocError>
        ensures { OnOk result (edges.new.items ≡ edges.old.items
            ++ node_edges (releases_in releases.now) (node_in self.now) items.now (length items.now)) }
    {
        for (at, item) in items.iter().enumerate() {
            self.add_item(edges, releases, at, *item)?;
        }
        Ok(())
    }
}
