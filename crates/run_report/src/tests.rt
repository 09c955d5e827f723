//! A report by hand, and the status of each end.

ghost use Rattle.std.specs.Prelude.{◌≡◌, ◌<◌, false, IfOk, length};
ghost use Rattle.std.specs.List.{All};
ghost use Rattle.sc_layout.specs.Bound.{IsWhole};
ghost use Rattle.sc_layout.specs.Layout.{IsLawful};

use crate::report::report_text;
use crate::status::{Status, status_of_results};
use node_memory::NodeMemory;
use sc_base::{
    Bound, BoundStep, BoundSteps, Bounds, Bytes, End, FaultKind, OutOfMemory, Place, Shape, Star,
    Stars, Ty, Value,
};
use sc_isa::NodeResult;
use sc_layout::{Layout, LayoutError, layout};
use sc_tree::Names;
use std::alloc::{AllocError, Global};
use std::test::Fail;

fn bound(alloc: Global, value: i64) -> Result<Bound, AllocError>
    ensures { IfOk result (λ b. IsWhole b.steps) }
{
    let mut steps = Vec::new(alloc);
    steps.push(BoundStep::Number(value))?;
    Ok(Bound {
        steps: BoundSteps::from_vec(steps),
        line: 1,
    })
}

fn bounds(alloc: Global, values: &[i64]) -> Result<Bounds, AllocError>
    ensures whole { IfOk result (λ bs. All (λ b. IsWhole b.steps) bs) }
    ensures count { IfOk result (λ bs. length bs ≡ length values.now) }
{
    let mut bounds = Vec::new(alloc);
    for value in values {
        let one = bound(alloc, *value)?;
        bounds.push(one)?;
    }
    Ok(Bounds::from_vec(bounds))
}

fn int_type(alloc: Global, stars: &[Star]) -> Result<Ty, AllocError>
    ensures { IfOk result (λ ty. ty.void ≡ false) }
{
    Ok(Ty {
        void: false,
        stars: Stars::from_vec(Vec::from_slice(alloc, stars)?),
    })
}

fn ordinary(alloc: Global, name: u32, stars: &[Star], left: &[i64]) -> Result<Shape, AllocError>
    ensures { IfOk result IsLawful }
{
    Ok(Shape {
        name,
        ty: int_type(alloc, stars)?,
        spread: false,
        left: bounds(alloc, left)?,
        right: Bounds::from_vec(Vec::new(alloc)),
        at: 1,
        line: 1,
    })
}

fn spread(alloc: Global, name: u32, left: &[i64], right: &[i64]) -> Result<Shape, AllocError>
    requires { 0 < length left.now }
    ensures { IfOk result IsLawful }
{
    Ok(Shape {
        name,
        ty: int_type(alloc, &[])?,
        spread: true,
        left: bounds(alloc, left)?,
        right: bounds(alloc, right)?,
        at: 1,
        line: 1,
    })
}

fn and_one(mut shapes: Vec<Shape>, shape: Shape) -> Result<Vec<Shape>, AllocError>
    requires lawful { All IsLawful shapes.items }
    requires one { IsLawful shape }
    ensures { IfOk result (λ all. All IsLawful all.items) }
{
    shapes.push(shape)?;
    Ok(shapes)
}

/// `int G[2][2]; int A[3]::[2]; int *global p;` on two nodes, where p has the name 0, A the name 1 and G the name 2.
fn three_objects(alloc: Global) -> Result<Layout, LayoutError> {
    let mut shapes = Vec::new(alloc);
    shapes = and_one(shapes, ordinary(alloc, 2, &[], &[2, 2])?)?;
    shapes = and_one(shapes, spread(alloc, 1, &[3], &[2])?)?;
    shapes = and_one(shapes, ordinary(alloc, 0, &[Star::Global], &[])?)?;
    layout(alloc, shapes.as_slice(), 2)
}

/// Lets the cell hold the value, where the layout has it and the value fits it.
fn write(memory: &mut NodeMemory, object: u32, node: u32, offset: u32, value: Value) {
    let layout = memory.layout();
    if object >= layout.count() || node >= layout.nodes() || offset >= layout.extent(node, object) {
        return;
    }
    let place = Place {
        object,
        node,
        offset,
    };
    if layout.fits(place, value) {
        memory.write(place, value);
    }
}

/// A memory of the three objects, with these values in their cells.
fn their_memory(alloc: Global) -> Result<NodeMemory, LayoutError> {
    let layout = three_objects(alloc)?;
    let Ok(mut memory) = NodeMemory::new(alloc, &layout) else {
        return Err(LayoutError::OutOfMemory);
    };
    let rows = [
        (0, 0, [0, -5, 7, 1]),
        (0, 1, [2, 3, i64::MIN, i64::MAX]),
        (1, 0, [10, 11, 40, 41]),
        (1, 1, [20, 21, 98, 99]),
    ];
    for (object, node, values) in rows {
        for (offset, value) in values.iter().enumerate() {
            write(&mut memory, object, node, offset as u32, Value::Int(*value));
        }
    }
    let pointer = Value::Ptr {
        object: 1,
        node: 1,
        offset: 1,
    };
    write(&mut memory, 2, 0, 0, pointer);
    Ok(memory)
}

fn their_names(alloc: Global) -> Result<Names, OutOfMemory> {
    let mut names = Names::new(alloc);
    names.add(b"p")?;
    names.add(b"A")?;
    names.add(b"G")?;
    Ok(names)
}

fn node(alloc: Global, printed: &[u8], end: End) -> Result<NodeResult, AllocError> {
    Ok(NodeResult {
        printed: Bytes::from_vec(Vec::from_slice(alloc, printed)?),
        end,
    })
}

/// The report; no bytes where there are more or fewer results than nodes.
fn report_of(
    alloc: Global,
    nodes: &[NodeResult],
    shows_memory: bool,
) -> Result<Vec<u8>, LayoutError> {
    let memory = their_memory(alloc)?;
    let layout = memory.layout();
    let Ok(names) = their_names(alloc) else {
        return Err(LayoutError::OutOfMemory);
    };
    if layout.nodes() as usize != nodes.len() {
        return Ok(Vec::new(alloc));
    }
    match report_text(alloc, &names, layout, nodes, &memory, shows_memory) {
        Ok(text) => Ok(text),
        Err(_) => Err(LayoutError::OutOfMemory),
    }
}

#[test]
fn two_nodes_and_three_objects(rt: HostRuntime) -> Result<(), Fail> {
    let alloc = rt.alloc();
    let fault = End::Fault {
        kind: FaultKind::Divide,
        line: 3,
    };
    let nodes = vec![in alloc; node(alloc, b"1\n2", End::Ended)?, node(alloc, b"", fault)?]?;
    let ends = "== node 0 ==\n1\n2\n-- ended --\n== node 1 ==\n-- fault Divide line 3 --\n";
    let cells = "== memory ==\nG@0 = 0 -5 7 1\nG@1 = 2 3 -9223372036854775808 9223372036854775807\n\
        A = 10 11 20 21 40 41\np@0 = A@1+1\np@1 = null\n";
    let plain = report_of(alloc, nodes.as_slice(), false)?;
    assert_eq!(rt; plain.as_slice(), ends.as_bytes());
    let whole = report_of(alloc, nodes.as_slice(), true)?;
    let wanted = format!(in alloc; "{ends}{cells}")?;
    assert_eq!(rt; whole.as_slice(), wanted.as_bytes());
    Ok(())
}

#[test]
fn each_kind_of_end(rt: HostRuntime) -> Result<(), Fail> {
    let alloc = rt.alloc();
    let fault = End::Fault {
        kind: FaultKind::NullUse,
        line: 70,
    };
    let mut nodes = Vec::new(alloc);
    for (end, status, code) in [
        (End::Ended, Status::Ended, 0),
        (End::Waiting, Status::Waiting, 11),
        (End::Cut, Status::Cut, 12),
        (fault, Status::Fault, 10),
        (End::Cut, Status::Fault, 10),
    ] {
        nodes.push(node(alloc, b"x\n", end)?)?;
        let found = status_of_results(nodes.as_slice());
        assert_eq!(rt; found, status, "with {end:?}");
        assert_eq!(rt; found.code(), code, "with {end:?}");
    }
    Ok(())
}
