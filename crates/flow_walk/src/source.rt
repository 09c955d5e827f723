//! The flow of a whole source.

ghost use Rattle.std.specs.Prelude.{◌≡◌, ◌≤◌, IfOk, IfErr, OnOk, ltb};
ghost use Rattle.sc_base.specs.declared.limits.TheConstants.{LIMITS};
ghost use Rattle.sc_core.specs.Forms.{exposes_of};
ghost use Rattle.sc_core.specs.ViewStatements.{plain_function, plain_program};
ghost use Rattle.site_graph.specs.Kept.{IsFlow};
ghost use Rattle.site_graph.specs.Rising.{rising};
ghost use Rattle.flow_form.specs.Accesses.{accesses_of};
ghost use Rattle.flow_form.specs.FlowOf.{flow_of, IsCause, within};
ghost use Rattle.flow_form.specs.Scans.{whole_of};
ghost use Rattle.flow_draw.specs.Around.{within_of, returns_by};
ghost use Rattle.flow_walk.specs.Sources.{walk_none, walk_fresh, walk_function, started, walk_source};

use crate::walk::{Walk, number_of};
use flow_draw::{Around, Drawing, Locals};
use flow_form::gather::Wanted;
use flow_form::sorted::{rising_edges, rising_numbers};
use flow_form::{Entry, FlowError, Whole, scan_source};
use sc_core::{CoreFunction, CoreProgram};
use site_graph::{Edge, Edges, Flow, ObjectList, PointKind, Points, Sites};
use sqlite_items::{Items, at};
use std::alloc::{AllocError, Global};

impl Walk {
    /// Nothing is drawn yet.
    #[tactic(auto, using(std::proofs::lemmas::Grind::common_steps), unfolding(crate::specs::Sources::walk_none))]
    fn new(alloc: Global) -> Walk
        ensures { result ≡ walk_none }
    {
        Walk {
            drawing: Drawing {
                points: Items::new(alloc),
                edges: Items::new(alloc),
                sites: Items::new(alloc),
                froms: Items::new(alloc),
                takes: Items::new(alloc),
                occurs: Locals::new(alloc),
            },
            breaks: Items::new(alloc),
            continues: Items::new(alloc),
            ends: Items::new(alloc),
        }
    }

    /// Start, of the function where each node begins, to whose first point evaluation goes on.
    #[tactic(auto, using(std::proofs::lemmas::Grind::common_steps, crate::proofs::Starting::starts), unfolding(crate::specs::Sources::started, crate::specs::Steps::walk_point))]
    fn start(&mut self, around: &Around) -> Result<(), AllocError>
        ensures { OnOk result (self.new ≡ started around.now.entries.now (within_of around.now) self.old) }
    {
        let from = number_of(self.drawing.points.len())?;
        self.point(around, PointKind::Start)?;
        if let Some(entry) = at(around.entries, around.function as usize) {
            self.drawing.edges.push(Edge {
                from,
                to: entry.first,
            })?;
        }
        Ok(())
    }

    /// Before a function, to whose first point only calls lead.
    #[tactic(auto, using(std::proofs::lemmas::Grind::common_steps), unfolding(crate::specs::Sources::walk_fresh, crate::specs::Steps::walk_from))]
    fn begin(&mut self, alloc: Global)
        ensures { self.new ≡ walk_fresh self.old }
    {
        self.drawing.froms = Items::new(alloc);
        self.breaks = Items::new(alloc);
        self.continues = Items::new(alloc);
    }

    /// A function: its first point, its body, and its end.
    #[tactic(auto, using(std::proofs::lemmas::Grind::common_steps), unfolding(crate::specs::Sources::walk_function))]
    fn function(&mut self, around: &Around, f: &CoreFunction) -> Result<(), AllocError>
        ensures { OnOk result (self.new ≡ walk_function around.now.entries.now (within_of around.now) (plain_function f.now) self.old) }
    {
        self.begin(around.alloc);
        self.point(around, PointKind::Plain)?;
        self.statement(around, &f.body)?;
        self.point(around, PointKind::Return)?;
        Ok(())
    }

    /// The function with this number.
    fn function_at(
        &mut self,
        alloc: Global,
        nodes: u32,
        entries: &[Entry],
        number: usize,
        f: &CoreFunction,
    ) -> Result<(), AllocError>
        ensures { OnOk result (self.new ≡ walk_function entries.now
            (within nodes (returns_by entries.now) number (plain_function f.now)) (plain_function f.now) self.old) }
    {
        let around = Around {
            alloc,
            nodes,
            entries,
            function: number_of(number)?,
            params: number_of(f.params.len())?,
            mines: &[],
        };
        self.function(&around, f)?;
        Ok(())
    }
}

/// A source on so many nodes, with its functions' entries.
#[tactic(auto, using(std::proofs::lemmas::Grind::common_steps, crate::proofs::Starting::functions), unfolding(crate::specs::Sources::walk_source))]
fn walk(
    alloc: Global,
    nodes: u32,
    entries: &[Entry],
    program: &CoreProgram,
) -> Result<Walk, AllocError>
    ensures { IfOk result (λ x. x ≡ walk_source entries.now nodes (plain_program program.now)) }
{
    let mut walk = Walk::new(alloc);
    let main = Around {
        alloc,
        nodes,
        entries,
        function: program.main,
        params: 0,
        mines: &[],
    };
    walk.start(&main)?;
    let functions = program.functions.as_slice();
    for i in 0..functions.len() {
        walk.function_at(alloc, nodes, entries, i, &functions[i])?;
    }
    Ok(walk)
}

/// The objects that a source exposes.
#[tactic(auto, using(std::proofs::lemmas::Grind::common_steps, crate::proofs::Sourcing::exposing))]
fn exposed(alloc: Global, program: &CoreProgram) -> Result<ObjectList, AllocError>
    ensures { IfOk result (λ it. it ≡ rising ltb (exposes_of (plain_program program.now))) }
{
    let mut found = Items::new(alloc);
    Wanted::Exposed.functions(&mut found, program.functions.as_slice())?;
    let numbers = Vec::from_slice(alloc, found.as_slice())?;
    Ok(rising_numbers(numbers))
}

/// The flow of these lists.
fn made(points: Points, edges: Edges, sites: Sites, exposed: ObjectList) -> Flow
    requires { IsFlow (record { points = points; edges = edges; sites = sites; exposed = exposed }) }
    ensures { result ≡ record { points = points; edges = edges; sites = sites; exposed = exposed } }
{
    Flow {
        points,
        edges,
        sites,
        exposed,
    }
}

/// The flow of a source with few enough sites, of which the functions are these.
fn drawn(
    alloc: Global,
    program: &CoreProgram,
    nodes: u32,
    whole: &Whole,
) -> Result<Flow, AllocError>
    requires whole { whole.now ≡ whole_of (plain_program program.now).functions }
    requires few { accesses_of (plain_program program.now) ≤ LIMITS.sites }
    ensures { IfOk result (λ f. f ≡ flow_of nodes (plain_program program.now)) }
{
    let _points = whole.count.points;
    let walk = walk(alloc, nodes, whole.entries.as_slice(), program)?;
    let exposed = exposed(alloc, program)?;
    let edges = Vec::from_slice(alloc, walk.drawing.edges.as_slice())?;
    Ok(made(
        walk.drawing.points,
        rising_edges(edges),
        walk.drawing.sites,
        exposed,
    ))
}

/// The flow of a source on so many nodes: its points in the order of the text, its edges and accesses, and the objects
/// that it exposes. Refused is exactly a source with more accesses than the limit, with how many it has.
pub fn flow(alloc: Global, program: &CoreProgram, nodes: u32) -> Result<Flow, FlowError>
    ensures flow { IfOk result (λ f. f ≡ flow_of nodes (plain_program program.now)) }
    ensures few { IfOk result (λ f. accesses_of (plain_program program.now) ≤ LIMITS.sites) }
    ensures cause { IfErr result (λ e. IsCause e (plain_program program.now)) }
{
    let whole = match scan_source(alloc, program) {
        Ok(whole) => whole,
        Err(error) => return Err(error),
    };
    match drawn(alloc, program, nodes, &whole) {
        Ok(flow) => Ok(flow),
        Err(_) => Err(FlowError::OutOfMemory),
    }
}
