//! The releases of a run, and the edges between them.

ghost use Rattle.std.specs.Prelude.{◌≡◌, ◌++◌, ◌==◌, ◌&&◌, ℕ, All, IfOk, OnOk, reverse, length, min, if◌then◌else◌};
ghost use Rattle.journal_order.specs.Listed.{IsOn};
ghost use Rattle.order_edges.specs.Lines.{Tells, look};
ghost use Rattle.order_edges.specs.Kinds.{release_line, next_release, next_stores, release_edge, release_edges};
ghost use Rattle.order_edges.specs.Tables.{stored, releases_in, releases_of};

use crate::line::{Kind, Line, look, number_in, positions};
use crate::link::link;
use crate::nexts::nexts;
use crate::tables::Releases;
use journal_order::passed::releases;
use least_order::Edge;
use sc_isa::Entry;
use sc_meaning::SourceEvent;
use std::alloc::{AllocError, Global};

/// Notes the release with this number, if there is one and a node waits for stores at it.
fn note(table: &mut Vec<Option<usize>>, releases: &[Option<usize>], stores: bool, number: u64)
    requires { length table.old.items ≡ length releases.now }
    ensures size { length table.new.items ≡ length releases.now }
    ensures noted { (m : ℕ) → look table.new.items m
        ≡ (if stores && (number == m) then look releases.now m else look table.old.items m) }
{
    if stores && number < table.len() as u64 {
        table[number as usize] = releases[number as usize];
    }
}

/// The releases at which some node waits for stores.
fn stored(
    alloc: Global,
    journal: &[Entry],
    nodes: u32,
    releases: &[Option<usize>],
) -> Result<Vec<Option<usize>>, AllocError>
    requires { All (IsOn nodes) journal.now }
    ensures { IfOk result (λ table. Tells table.items (length releases.now)
        (stored (reverse journal.now) (look releases.now))) }
{
    let mut arrivals = vec![in alloc; 0u64; nodes as usize]?;
    let mut table = vec![in alloc; None; releases.len()]?;
    for entry in journal {
        if let Entry::Arrived { node, stores } = *entry {
            let number = arrivals[node as usize] + 1;
            arrivals[node as usize] = number;
            note(&mut table, releases, stores, number);
        }
    }
    Ok(table)
}

impl Releases {
    #[tactic(auto, using(crate::proofs::Loops::few_releases, crate::proofs::Loops::same_releases))]
    pub fn new(
        alloc: Global,
        journal: &[Entry],
        nodes: u32,
        items: &[SourceEvent],
    ) -> Result<Releases, AllocError>
        requires { All (IsOn nodes) journal.now }
        ensures { IfOk result (λ r. releases_in r ≡ releases_of (reverse journal.now) items.now) }
    {
        let last = releases(alloc, journal, nodes)?;
        let line = Line {
            kind: Kind::Releases,
            node: 0,
            last,
        };
        let table = positions(alloc, items, line)?;
        let stored = stored(alloc, journal, nodes, table.as_slice())?;
        let stores = nexts(alloc, stored.as_slice())?;
        Ok(Releases {
            last,
            items: table,
            stores,
        })
    }

    fn line(&self) -> Line
        ensures { result ≡ release_line (releases_in self.now) }
    {
        Line {
            kind: Kind::Releases,
            node: 0,
            last: self.last,
        }
    }

    /// The last release among the first ones, so many of them.
    pub fn passed(&self, passed: u64) -> Option<usize>
        ensures { result ≡ (releases_in self.now).items (min passed self.now.last) }
    {
        look(self.items.as_slice(), passed.min(self.last))
    }

    /// The release after so many.
    pub fn next(&self, passed: u64) -> Option<usize>
        ensures { result ≡ next_release (releases_in self.now) passed }
    {
        if passed < self.last {
            look(self.items.as_slice(), passed + 1)
        } else {
            None
        }
    }

    /// The first release after so many at which some node waits for stores.
    pub fn next_stores(&self, passed: u64) -> Option<usize>
        ensures { result ≡ next_stores (releases_in self.now) passed }
    {
        if passed < self.last {
            look(self.stores.as_slice(), passed + 1)
        } else {
            None
        }
    }

    /// Adds an edge from the item to the next one, if it is a release.
    fn add_at(&self, edges: &mut Vec<Edge>, at: usize, item: SourceEvent) -> Result<(), AllocError>
        ensures { OnOk result (edges.new.items ≡ edges.old.items ++ release_edge (releases_in self.now) at item) }
    {
        let Some(number) = number_in(self.line(), item) else {
            return Ok(());
        };
        link(edges, Some(at), self.next(number))
    }

    /// Adds an edge from each release to the next one.
    pub fn add(&self, edges: &mut Vec<Edge>, items: &[SourceEvent]) -> Result<(), AllocError>
        ensures { OnOk result (edges.new.items
            ≡ edges.old.items ++ release_edges (releases_in self.now) items.now (length items.now)) }
    {
        for (at, item) in items.iter().enumerate() {
            self.add_at(edges, at, *item)?;
        }
        Ok(())
    }
}
