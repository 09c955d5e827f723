//! A flow while it is drawn, and what single points add to it.

ghost use Rattle.std.specs.Prelude.{◌≡◌, ◌++◌, map, length, slice_get, IfOk, OnOk};
ghost use Rattle.std.specs.Option.{option_map};
ghost use Rattle.flow_form.specs.Exits as exits;
ghost use Rattle.flow_form.specs.Steps as steps;
ghost use Rattle.flow_form.specs.Occurring.{occurring_constant};
ghost use Rattle.flow_form.specs.Written as written;
ghost use Rattle.flow_form.specs.FlowOf.{edge};
ghost use Rattle.flow_draw.specs.Around.{within_of, returns_by};
ghost use Rattle.flow_draw.specs.Drawings.{fresh, outer_of, beside, noting, taking, taking_first, sited, passed, called, site_by, stepped, joined, put, backed, turned, met, met_after};

use crate::around::Around;
use crate::locals::Locals;
use flow_form::count::added;
use sc_core::{Constant, Operation};
use site_graph::{Edge, Edges, Form, Point, PointKind, Points, Site, SiteKind, SiteList, Sites};
use sqlite_items::{Items, at};
use std::alloc::{AllocError, Global};

/// A flow while it is drawn: its points, edges and sites so far. `froms` are the points from which evaluation goes on
/// at the next one, but for calls. `takes` are the sites whose fetched value the next step takes, and `occurs` the
/// locals that occur in its arguments, with the node mark.
#[derive(Debug, Drop)]
pub struct Drawing {
    pub points: Points,
    pub edges: Edges,
    pub sites: Sites,
    pub froms: Items<u32>,
    pub takes: SiteList,
    pub occurs: Locals,
}

/// What was taken and occurred before the first argument of a step.
#[derive(Debug, Drop)]
pub struct Outer {
    pub takes: SiteList,
    pub occurs: Locals,
}

/// The number. One that 32 bits do not hold counts as want of memory.
fn number_of(count: usize) -> Result<u32, AllocError>
    ensures { IfOk result (λ number. number ≡ count) }
{
    match u32::try_from(count) {
        Ok(number) => Ok(number),
        Err(_) => Err(AllocError),
    }
}

/// Edges from these points to this one.
fn enter(edges: &mut Edges, froms: &[u32], to: u32) -> Result<(), AllocError>
    ensures { OnOk result (edges.new ≡ edges.old ++ map (λ from. edge from to) froms.now) }
{
    for from in froms {
        edges.push(Edge { from: *from, to })?;
    }
    Ok(())
}

/// The first point of the function, if it is one of the source.
fn first_of(around: &Around, function: u32) -> Option<u32>
    ensures { result ≡ option_map (λ e. e.first) (slice_get around.now.entries.now function) }
{
    match at(around.entries, function as usize) {
        Some(entry) => Some(entry.first),
        None => None,
    }
}

/// The points at which the function returns.
fn returns_of(around: &Around, function: u32) -> Result<Items<u32>, AllocError>
    ensures { IfOk result (λ points. points ≡ returns_by around.now.entries.now function) }
{
    match at(around.entries, function as usize) {
        Some(entry) => {
            let points = Items::from_slice(around.alloc, entry.returns.as_slice())?;
            Ok(points)
        }
        None => Ok(Items::new(around.alloc)),
    }
}

/// What the point of an operation does, where an access is that of this site.
fn kind_of(operation: Operation, site: u32) -> PointKind
    ensures { result ≡ steps.kind_of operation site }
{
    match operation {
        Operation::Read | Operation::Write => PointKind::Access(site),
        Operation::Call { .. } => PointKind::Call,
        _ => PointKind::Plain,
    }
}

/// The function that an operation calls, if any.
fn callee_of(operation: Operation) -> Option<u32>
    ensures { result ≡ steps.callee_of operation }
{
    match operation {
        Operation::Call { function, .. } => Some(function),
        _ => None,
    }
}

/// The local that an operation sets, if any.
fn set_by(operation: Operation) -> Option<u32>
    ensures { result ≡ written.set_by operation }
{
    match operation {
        Operation::Set(local) => Some(local),
        _ => None,
    }
}

/// The site of an operation whose first argument has this form.
pub fn site_by(operation: Operation, line: u32, form: Form) -> Option<Site>
    ensures { result ≡ site_by operation line form }
{
    match operation {
        Operation::Read => Some(Site {
            kind: SiteKind::Read,
            line,
            reads: Some(form),
            writes: None,
            fills: None,
        }),
        Operation::Write => Some(Site {
            kind: SiteKind::Write,
            line,
            reads: None,
            writes: Some(form),
            fills: None,
        }),
        _ => None,
    }
}

impl Drawing {
    /// Begins the arguments of a step: nothing is taken yet, and nothing occurs. It answers what was before.
    #[tactic(auto, using(std::proofs::lemmas::Grind::common_steps), unfolding(crate::specs::Drawings::fresh, crate::specs::Drawings::outer_of))]
    pub fn begin(&mut self, alloc: Global) -> Outer
        ensures outer { result ≡ outer_of self.old }
        ensures drawing { self.new ≡ fresh self.old }
    {
        let takes = std::mem::replace(&mut self.takes, Items::new(alloc));
        let occurs = std::mem::replace(&mut self.occurs, Locals::new(alloc));
        Outer { takes, occurs }
    }

    /// Ends what `begin` began.
    #[tactic(auto, using(std::proofs::lemmas::Grind::common_steps), unfolding(crate::specs::Drawings::beside))]
    pub fn end(&mut self, outer: Outer) -> Result<(), AllocError>
        ensures { OnOk result (self.new ≡ beside outer self.old) }
    {
        let Outer {
            mut takes,
            mut occurs,
        } = outer;
        for site in self.takes.as_slice() {
            takes.push(*site)?;
        }
        occurs.note_all(self.occurs.as_slice())?;
        self.takes = takes;
        self.occurs = occurs;
        Ok(())
    }

    /// What a constant adds to what occurs.
    #[tactic(auto, using(std::proofs::lemmas::Grind::common_steps), unfolding(crate::specs::Drawings::noting))]
    pub fn constant(&mut self, constant: Constant) -> Result<(), AllocError>
        ensures { OnOk result (self.new ≡ noting (occurring_constant constant) self.old) }
    {
        self.occurs.note_constant(constant)?;
        Ok(())
    }

    /// The next point, to which evaluation comes from `froms`. It takes and reads what was noted, and evaluation goes
    /// on from it. It answers its number.
    #[tactic(auto, using(std::proofs::lemmas::Grind::common_steps), unfolding(crate::specs::Drawings::passed))]
    pub fn pass(
        &mut self,
        around: &Around,
        kind: PointKind,
        writes: Option<u32>,
    ) -> Result<u32, AllocError>
        ensures drawing { OnOk result (self.new ≡ passed around.now.function kind writes self.old) }
        ensures number { IfOk result (λ t. t ≡ length self.old.points) }
    {
        let number = number_of(self.points.len())?;
        enter(&mut self.edges, self.froms.as_slice(), number)?;
        let mut froms = Items::new(around.alloc);
        froms.push(number)?;
        self.froms = froms;
        let takes = std::mem::replace(&mut self.takes, Items::new(around.alloc));
        let reads = Items::from_slice(around.alloc, self.occurs.as_slice())?;
        self.points.push(Point {
            kind,
            function: around.function,
            takes,
            reads,
            writes,
        })?;
        Ok(number)
    }

    /// A site more, if there is one.
    #[tactic(auto, using(std::proofs::lemmas::Grind::common_steps), unfolding(crate::specs::Drawings::sited))]
    pub fn access(&mut self, site: Option<Site>) -> Result<(), AllocError>
        ensures { OnOk result (self.new ≡ sited site self.old) }
    {
        if let Some(site) = site {
            self.sites.push(site)?;
        }
        Ok(())
    }

    /// The operation gives what it fetched at the site with this number, where it fetches.
    #[tactic(auto, using(std::proofs::lemmas::Grind::common_steps), unfolding(crate::specs::Drawings::taking))]
    fn fetch(&mut self, operation: Operation, sites: u32) -> Result<(), AllocError>
        ensures { OnOk result (self.new ≡ taking (exits.fetched_by operation sites) self.old) }
    {
        match operation {
            Operation::Read => {
                let site = added(sites, 1)?;
                self.takes.push(site)?;
                Ok(())
            }
            _ => Ok(()),
        }
    }

    /// The point with this number calls the function, if any: evaluation goes on where that returns.
    #[tactic(auto, using(std::proofs::lemmas::Grind::common_steps, crate::proofs::Joining::calls), unfolding(crate::specs::Drawings::called))]
    fn call(&mut self, around: &Around, point: u32, callee: Option<u32>) -> Result<(), AllocError>
        ensures { OnOk result (self.new
            ≡ called around.now.entries.now (within_of around.now) point callee self.old) }
    {
        match callee {
            None => Ok(()),
            Some(function) => {
                self.froms = returns_of(around, function)?;
                if let Some(to) = first_of(around, function) {
                    self.edges.push(Edge { from: point, to })?;
                }
                Ok(())
            }
        }
    }

    /// The step of an operation behind its arguments, and the site that it accesses, if any.
    #[tactic(auto, using(std::proofs::lemmas::Grind::common_steps), unfolding(crate::specs::Drawings::stepped, crate::specs::Drawings::noting))]
    pub fn step(
        &mut self,
        around: &Around,
        operation: Operation,
        site: Option<Site>,
    ) -> Result<(), AllocError>
        ensures { OnOk result (self.new
            ≡ stepped around.now.entries.now (within_of around.now) operation site self.old) }
    {
        let sites = number_of(self.sites.len())?;
        let number = added(sites, 1)?;
        self.occurs.note_operation(around.params, operation)?;
        let point = self.pass(around, kind_of(operation, number), set_by(operation))?;
        self.access(site)?;
        self.fetch(operation, sites)?;
        self.call(around, point, callee_of(operation))?;
        Ok(())
    }

    /// What an update joins is joined: the step of its operation, which reads all that occurs in the update.
    #[tactic(auto, using(std::proofs::lemmas::Grind::common_steps), unfolding(crate::specs::Drawings::joined, crate::specs::Drawings::noting))]
    pub fn join(
        &mut self,
        around: &Around,
        operation: Operation,
        back: Option<Operation>,
        line: u32,
    ) -> Result<(), AllocError>
        ensures { OnOk result (self.new
            ≡ joined around.now.entries.now (within_of around.now) operation back line self.old) }
    {
        self.occurs.note_operation(around.params, operation)?;
        self.occurs.note_back(around.params, back)?;
        let site = site_by(operation, line, Form::Exposed);
        self.step(around, operation, site)?;
        Ok(())
    }

    /// An update writes its cell, behind a pointer of this form, whose value may be fetched at these sites.
    #[tactic(auto, using(std::proofs::lemmas::Grind::common_steps), unfolding(crate::specs::Drawings::put, crate::specs::Drawings::taking_first))]
    pub fn put(
        &mut self,
        around: &Around,
        takes: SiteList,
        form: Form,
        line: u32,
    ) -> Result<(), AllocError>
        ensures { OnOk result (self.new
            ≡ put around.now.entries.now (within_of around.now) takes form line self.old) }
    {
        let mut takes = takes;
        for site in self.takes.as_slice() {
            takes.push(*site)?;
        }
        self.takes = takes;
        let site = site_by(Operation::Write, line, form);
        self.step(around, Operation::Write, site)?;
        Ok(())
    }

    /// What takes the old value of an update back, if anything does.
    #[tactic(auto, using(std::proofs::lemmas::Grind::common_steps), unfolding(crate::specs::Drawings::backed))]
    pub fn take_back(
        &mut self,
        around: &Around,
        back: Option<Operation>,
        line: u32,
    ) -> Result<(), AllocError>
        ensures { OnOk result (self.new
            ≡ backed around.now.entries.now (within_of around.now) back line self.old) }
    {
        match back {
            None => Ok(()),
            Some(operation) => {
                let site = site_by(operation, line, Form::Exposed);
                self.step(around, operation, site)?;
                Ok(())
            }
        }
    }

    /// Evaluation goes on from this point. It answers from where it went on before.
    #[tactic(auto, using(std::proofs::lemmas::Grind::common_steps), unfolding(crate::specs::Drawings::turned))]
    pub fn turn(&mut self, alloc: Global, point: u32) -> Result<Items<u32>, AllocError>
        ensures ways { IfOk result (λ ways. ways ≡ self.old.froms) }
        ensures drawing { OnOk result (self.new ≡ turned point self.old) }
    {
        let mut froms = Items::new(alloc);
        froms.push(point)?;
        Ok(std::mem::replace(&mut self.froms, froms))
    }

    /// Evaluation goes on from these points too, which come first.
    #[tactic(auto, using(std::proofs::lemmas::Grind::common_steps), unfolding(crate::specs::Drawings::met))]
    pub fn meet(&mut self, ways: Items<u32>) -> Result<(), AllocError>
        ensures { OnOk result (self.new ≡ met ways self.old) }
    {
        let mut froms = ways;
        for from in self.froms.as_slice() {
            froms.push(*from)?;
        }
        self.froms = froms;
        Ok(())
    }

    /// Evaluation goes on from these points too, which come behind, the last first.
    #[tactic(auto, using(std::proofs::lemmas::Grind::common_steps, crate::proofs::Joining::afters))]
    pub fn meet_after(&mut self, ways: Vec<u32>) -> Result<(), AllocError>
        ensures { OnOk result (self.new ≡ met_after ways.items self.old) }
    {
        let mut ways = ways;
        while let Some(from) = ways.pop() {
            self.froms.push(from)?;
        }
        Ok(())
    }
}
