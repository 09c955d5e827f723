//! Rows by hand: which forms allow a common cell.

ghost use Rattle.std.specs.Prelude.{◌≡◌, ◌<◌, ◌+◌, ◌↔◌, IfOk, IfSome, IsTrue, false, length};
ghost use Rattle.std.specs.List.{All};
ghost use Rattle.sc_layout.specs.Bound.{IsWhole};
ghost use Rattle.sc_layout.specs.Layout.{IsLawful};
ghost use Rattle.site_graph.specs.Kept.{Names, NamesForm, NamesSite};

use crate::conflicts;
use crate::region::region_of;
use crate::sharing::overlap;
use sc_base::{Bound, BoundStep, BoundSteps, Bounds, Shape, Stars, Ty};
use sc_layout::{Layout, LayoutError, layout};
use site_graph::{BitRows, Edge, Flow, Form, IndexForm, Phases, Point, PointKind, Site, SiteKind};
use sqlite_items::Items;
use std::alloc::{AllocError, Global};
use std::test::Fail;

fn number(alloc: Global, value: i64) -> Result<Bound, AllocError>
    ensures { IfOk result (λ b. IsWhole b.steps) }
{
    let mut steps = Vec::new(alloc);
    steps.push(BoundStep::Number(value))?;
    Ok(Bound {
        steps: BoundSteps::from_vec(steps),
        line: 7,
    })
}

fn numbers(alloc: Global, values: &[i64]) -> Result<Bounds, AllocError>
    ensures whole { IfOk result (λ bs. All (λ b. IsWhole b.steps) bs) }
    ensures count { IfOk result (λ bs. length bs ≡ length values.now) }
{
    let mut bounds = Vec::new(alloc);
    for value in values {
        let bound = number(alloc, *value)?;
        bounds.push(bound)?;
    }
    Ok(Bounds::from_vec(bounds))
}

fn int_type(alloc: Global) -> Ty
    ensures { result.void ≡ false }
{
    Ty {
        void: false,
        stars: Stars::from_vec(Vec::new(alloc)),
    }
}

fn ordinary(alloc: Global, bounds: Bounds) -> Shape
    requires { All (λ b. IsWhole b.steps) bounds }
    ensures { IsLawful result }
{
    Shape {
        name: 0,
        ty: int_type(alloc),
        spread: false,
        left: bounds,
        right: Bounds::from_vec(Vec::new(alloc)),
        at: 1,
        line: 1,
    }
}

fn spread(alloc: Global, left: &[i64], right: &[i64]) -> Result<Shape, AllocError>
    requires { 0 < length left.now }
    ensures { IfOk result IsLawful }
{
    Ok(Shape {
        name: 0,
        ty: int_type(alloc),
        spread: true,
        left: numbers(alloc, left)?,
        right: numbers(alloc, right)?,
        at: 1,
        line: 1,
    })
}

fn and_one(mut shapes: Vec<Shape>, shape: Shape) -> Result<Vec<Shape>, AllocError>
    requires lawful { All IsLawful shapes.items }
    requires one { IsLawful shape }
    ensures { IfOk result (λ all. All IsLawful all.items) }
{
    shapes.push(shape)?;
    Ok(shapes)
}

/// Four blocks of two cells on so many nodes as object 0, and three cells on each node as object 1.
fn two_objects(alloc: Global, nodes: u32) -> Result<Layout, LayoutError>
    requires { 0 < nodes }
{
    let shapes = and_one(Vec::new(alloc), spread(alloc, &[4], &[2])?)?;
    let shapes = and_one(shapes, ordinary(alloc, numbers(alloc, &[3])?))?;
    layout(alloc, shapes.as_slice(), nodes)
}

fn is_named(layout: &Layout, form: Form) -> bool
    ensures { IsTrue result ↔ NamesForm (length layout.now.objects) form }
{
    match form {
        Form::Element { object, .. } | Form::Own { object } => object < layout.count(),
        Form::OwnExposed | Form::Exposed => true,
    }
}

/// Whether the first form allows a cell on the node `p` that the second allows on `q`, where object 0 is exposed.
fn common(layout: &Layout, a: Form, p: u32, b: Form, q: u32) -> Option<bool> {
    if layout.count() == 0 || p >= layout.nodes() || q >= layout.nodes() {
        return None;
    }
    if !is_named(layout, a) || !is_named(layout, b) {
        return None;
    }
    let Some(first) = region_of(layout, a, p) else {
        return Some(false);
    };
    let Some(second) = region_of(layout, b, q) else {
        return Some(false);
    };
    Some(overlap(layout, &[0], &first, &second))
}

fn element(index: IndexForm) -> Form {
    Form::Element { object: 0, index }
}

fn linear(k: i64, c: i64) -> Form {
    element(IndexForm::Linear { k, c })
}

#[test]
fn forms_share_cells_as_by_hand(rt: HostRuntime) -> Result<(), Fail> {
    let layout = two_objects(rt.alloc(), 3)?;
    let wrapped = element(IndexForm::Wrapped { k: 1, c: 1 });
    let mine = element(IndexForm::Mine { c: 1 });
    let any = element(IndexForm::Any);
    let near = Form::Own { object: 0 };
    let own = Form::Own { object: 1 };
    for (row, a, p, b, q, share) in [
        (0, linear(1, 1), 0, linear(1, 0), 1, true),
        (1, linear(1, 1), 0, linear(1, 0), 2, false),
        (2, linear(-1, 0), 1, any, 0, false),
        (3, linear(i64::MAX, i64::MAX), 2, any, 0, false),
        (4, wrapped, 2, linear(0, 0), 0, true),
        (5, wrapped, 2, linear(0, 3), 0, false),
        (6, mine, 0, near, 1, false),
        (7, mine, 0, near, 2, true),
        (8, mine, 2, Form::OwnExposed, 1, true),
        (9, mine, 1, Form::OwnExposed, 2, true),
        (10, any, 0, Form::Exposed, 2, true),
        (11, own, 0, Form::Exposed, 0, false),
        (12, own, 0, own, 1, false),
        (13, own, 1, own, 1, true),
    ] {
        assert_eq!(rt; common(&layout, a, p, b, q), Some(share), "in row {row}");
    }
    Ok(())
}

fn point(alloc: Global, kind: PointKind) -> Point {
    Point {
        kind,
        function: 0,
        takes: Items::new(alloc),
        reads: Items::new(alloc),
        writes: None,
    }
}

fn site(writes: Form) -> Site {
    Site {
        kind: SiteKind::Write,
        line: 1,
        reads: None,
        writes: Some(writes),
        fills: None,
    }
}

/// A write by each of the two forms, one behind the other, where object 0 is exposed.
fn two_writes(alloc: Global, a: Form, b: Form) -> Result<Option<Flow>, AllocError> {
    let mut points = Items::new(alloc);
    points.push(point(alloc, PointKind::Start))?;
    points.push(point(alloc, PointKind::Access(1)))?;
    points.push(point(alloc, PointKind::Access(2)))?;
    let edges = Items::from_slice(alloc, &[Edge { from: 0, to: 1 }, Edge { from: 1, to: 2 }])?;
    let sites = Items::from_slice(alloc, &[site(a), site(b)])?;
    let exposed = Items::from_slice(alloc, &[0])?;
    Ok(Flow::new(points, edges, sites, exposed))
}

/// Of two sites each pair meets.
fn all_meet(alloc: Global) -> Option<Phases>
    ensures { IfSome result (λ p. (p.meets.rows ≡ 3) × (p.meets.columns ≡ 3)) }
{
    let mut meets = BitRows::new(alloc, 3, 3).ok()?;
    meets.set(1, 1);
    meets.set(1, 2);
    meets.set(2, 1);
    meets.set(2, 2);
    Some(Phases {
        aligned: false,
        meets,
    })
}

/// Whether the layout has all objects that the flow names.
fn all_named(flow: &Flow, layout: &Layout) -> bool
    ensures { IsTrue result → Names (length layout.now.objects) flow.now }
{
    let objects = layout.count();
    flow.sites
        .as_slice()
        .iter()
        .all(|site| site_named(objects, *site))
        && flow
            .exposed
            .as_slice()
            .iter()
            .all(|object| *object < objects)
}

fn site_named(objects: u32, site: Site) -> bool
    ensures { IsTrue result ↔ NamesSite objects site }
{
    site.reads.is_none_or(|form| form_named(objects, form))
        && site.writes.is_none_or(|form| form_named(objects, form))
}

fn form_named(objects: u32, form: Form) -> bool
    ensures { IsTrue result ↔ NamesForm objects form }
{
    match form {
        Form::Element { object, .. } | Form::Own { object } => object < objects,
        Form::OwnExposed | Form::Exposed => true,
    }
}

/// Whether the writes by the two forms conflict: from one node, and from two.
fn conflict(alloc: Global, layout: &Layout, a: Form, b: Form) -> Option<(bool, bool)> {
    let flow = two_writes(alloc, a, b).ok()??;
    if flow.sites.as_slice().len() != 2 || !all_named(&flow, layout) {
        return None;
    }
    let phases = all_meet(alloc)?;
    let found = conflicts(alloc, &flow, &phases, layout).ok()?;
    Some((pair(&found.own)?, pair(&found.cross)?))
}

/// Whether the pair of the two sites is set, where it is set both ways round or neither.
fn pair(rows: &BitRows) -> Option<bool> {
    if rows.rows() < 3 || rows.columns() < 3 {
        return None;
    }
    let set = rows.get(1, 2);
    if set != rows.get(2, 1) {
        return None;
    }
    Some(set)
}

#[test]
fn forms_conflict_as_by_hand(rt: HostRuntime) -> Result<(), Fail> {
    let one = two_objects(rt.alloc(), 1)?;
    let three = two_objects(rt.alloc(), 3)?;
    let wrapped = element(IndexForm::Wrapped { k: 1, c: 1 });
    let mine = element(IndexForm::Mine { c: 0 });
    let next = element(IndexForm::Mine { c: 1 });
    let any = element(IndexForm::Any);
    let near = Form::Own { object: 0 };
    let own = Form::Own { object: 1 };
    for (row, layout, a, b, conflicts) in [
        (0, &three, linear(0, 3), linear(0, 3), (true, true)),
        (1, &one, linear(0, 3), linear(0, 3), (true, false)),
        (2, &three, linear(0, 8), any, (false, false)),
        (3, &three, linear(0, 1), linear(0, 2), (false, false)),
        (4, &three, own, own, (true, false)),
        (5, &three, own, any, (false, false)),
        (6, &three, mine, mine, (true, false)),
        (7, &three, mine, next, (false, true)),
        (8, &three, linear(2, 1), linear(2, 1), (true, false)),
        (9, &three, linear(2, 1), linear(1, 1), (true, true)),
        (10, &three, linear(-2, 4), linear(2, 0), (true, true)),
        (11, &three, linear(-2, 5), linear(2, 0), (false, false)),
        (12, &three, wrapped, wrapped, (true, false)),
        (13, &three, wrapped, linear(1, 0), (false, true)),
        (14, &three, mine, near, (true, true)),
        (15, &three, linear(2, 2), Form::OwnExposed, (false, true)),
        (16, &three, any, Form::Exposed, (true, true)),
        (17, &one, any, Form::Exposed, (true, false)),
        (18, &three, linear(2, 0), Form::OwnExposed, (true, false)),
    ] {
        assert_eq!(rt;
            conflict(rt.alloc(), layout, a, b),
            Some(conflicts),
            "in row {row}"
        );
    }
    Ok(())
}
