//! Whether two forms allow a common cell, from one node or from two.

ghost use Rattle.std.specs.Prelude.{◌≡◌, ◌≢◌, ◌<◌, ◌↔◌, ℕ, length, IsTrue, IfSome, Some};
ghost use Rattle.sc_layout.specs.Layout.{IsLayout};
ghost use Rattle.site_graph.specs.Kept.{Names, NamesForm};
ghost use Rattle.site_graph.specs.Graph.{Graph};
ghost use Rattle.alias_conflicts.specs.Regions.{FormsShare};
ghost use Rattle.alias_conflicts.specs.Across.{FormsAcross, FormsFrom, FormsOwn, MayMeet, object_named};

use crate::nodes::{is_alike, is_met_first, only_node};
use crate::region::region_of;
use crate::sharing::{agrees, overlap};
use sc_layout::Layout;
use site_graph::{Flow, Form};

/// Whether the first form allows a cell on some node that the second allows on another.
pub(crate) fn forms_across(flow: &Flow, layout: &Layout, a: Option<Form>, b: Option<Form>) -> bool
    requires lawful { IsLayout layout.now }
    requires names { Names (length layout.now.objects) flow.now }
    requires a { IfSome a (NamesForm (length layout.now.objects)) }
    requires b { IfSome b (NamesForm (length layout.now.objects)) }
    ensures { IsTrue result ↔ FormsAcross layout.now flow.now a b }
{
    let Some(first) = a else {
        return false;
    };
    let Some(second) = b else {
        return false;
    };
    may_meet(first, second) && across_by_either(flow, layout, first, second)
}

/// Whether the first form allows a cell on some node that the second allows on another, asked of the one that tells more.
fn across_by_either(flow: &Flow, layout: &Layout, a: Form, b: Form) -> bool
    requires lawful { IsLayout layout.now }
    requires names { Names (length layout.now.objects) flow.now }
    requires a { NamesForm (length layout.now.objects) a }
    requires b { NamesForm (length layout.now.objects) b }
    ensures { IsTrue result ↔ FormsAcross layout.now flow.now (Some a) (Some b) }
{
    if is_met_first(layout, a, b) {
        across(flow, layout, b, a)
    } else {
        across(flow, layout, a, b)
    }
}

/// Whether both allow a common cell on one node.
pub(crate) fn forms_own(flow: &Flow, layout: &Layout, a: Option<Form>, b: Option<Form>) -> bool
    requires lawful { IsLayout layout.now }
    requires names { Names (length layout.now.objects) flow.now }
    requires a { IfSome a (NamesForm (length layout.now.objects)) }
    requires b { IfSome b (NamesForm (length layout.now.objects)) }
    ensures { IsTrue result ↔ FormsOwn layout.now flow.now a b }
{
    let Some(first) = a else {
        return false;
    };
    let Some(second) = b else {
        return false;
    };
    may_meet(first, second) && own(flow, layout, first, second)
}

/// Whether the forms do not name different objects.
fn may_meet(a: Form, b: Form) -> bool
    ensures { IsTrue result ↔ MayMeet a b }
{
    match object_of(a) {
        Some(object) => agrees(object_of(b), object),
        None => true,
    }
}

/// The object that the form names, if it names one.
fn object_of(form: Form) -> Option<u32>
    ensures { result ≡ object_named form }
{
    match form {
        Form::Element { object, .. } => Some(object),
        Form::Own { object } => Some(object),
        Form::OwnExposed | Form::Exposed => None,
    }
}

/// Whether both allow a common cell on one node.
fn own(flow: &Flow, layout: &Layout, a: Form, b: Form) -> bool
    requires lawful { IsLayout layout.now }
    requires names { Names (length layout.now.objects) flow.now }
    requires a { NamesForm (length layout.now.objects) a }
    requires b { NamesForm (length layout.now.objects) b }
    ensures { IsTrue result ↔ FormsOwn layout.now flow.now (Some a) (Some b) }
{
    for p in 0..layout.nodes() {
        if share(flow, layout, a, p, b, p) {
            return true;
        }
    }
    false
}

/// Whether the first form allows a cell on some node that the second allows on another.
fn across(flow: &Flow, layout: &Layout, a: Form, b: Form) -> bool
    requires lawful { IsLayout layout.now }
    requires names { Names (length layout.now.objects) flow.now }
    requires a { NamesForm (length layout.now.objects) a }
    requires b { NamesForm (length layout.now.objects) b }
    ensures { IsTrue result ↔ FormsAcross layout.now flow.now (Some a) (Some b) }
{
    for p in 0..layout.nodes() {
        if elsewhere(flow, layout, a, p, b) {
            return true;
        }
    }
    false
}

/// Whether the first form allows a cell on the node `p` that the second allows on another. Most forms say on which.
fn elsewhere(flow: &Flow, layout: &Layout, a: Form, p: u32, b: Form) -> bool
    requires lawful { IsLayout layout.now }
    requires names { Names (length layout.now.objects) flow.now }
    requires a { NamesForm (length layout.now.objects) a }
    requires b { NamesForm (length layout.now.objects) b }
    requires p { p < layout.now.nodes }
    ensures { IsTrue result ↔ FormsFrom layout.now flow.now (Some a) p (Some b) }
{
    if is_alike(layout, b) {
        let other = if p == 0 { 1 } else { 0 };
        return is_on(flow, layout, a, p, b, other);
    }
    match only_node(layout, a, p, b) {
        Some(only) => is_on(flow, layout, a, p, b, only),
        None => on_some(flow, layout, a, p, b),
    }
}

/// Whether there is this node, it is not `p`, and the second form allows a cell there that the first allows on `p`.
fn is_on(flow: &Flow, layout: &Layout, a: Form, p: u32, b: Form, q: u32) -> bool
    requires lawful { IsLayout layout.now }
    requires names { Names (length layout.now.objects) flow.now }
    requires a { NamesForm (length layout.now.objects) a }
    requires b { NamesForm (length layout.now.objects) b }
    requires p { p < layout.now.nodes }
    ensures { IsTrue result ↔ ((q < layout.now.nodes) × (p ≢ q) × FormsShare layout.now flow.now (Some a) p (Some b) q) }
{
    q < layout.nodes() && q != p && share(flow, layout, a, p, b, q)
}

/// Whether the first form allows a cell on the node `p` that the second allows on another, node by node.
fn on_some(flow: &Flow, layout: &Layout, a: Form, p: u32, b: Form) -> bool
    requires lawful { IsLayout layout.now }
    requires names { Names (length layout.now.objects) flow.now }
    requires a { NamesForm (length layout.now.objects) a }
    requires b { NamesForm (length layout.now.objects) b }
    requires p { p < layout.now.nodes }
    ensures { IsTrue result ↔ FormsFrom layout.now flow.now (Some a) p (Some b) }
{
    for q in 0..layout.nodes() {
        if is_on(flow, layout, a, p, b, q) {
            return true;
        }
    }
    false
}

/// Whether the first form allows a cell on the node `p` that the second allows on `q`.
fn share(flow: &Flow, layout: &Layout, a: Form, p: u32, b: Form, q: u32) -> bool
    requires lawful { IsLayout layout.now }
    requires names { Names (length layout.now.objects) flow.now }
    requires a { NamesForm (length layout.now.objects) a }
    requires b { NamesForm (length layout.now.objects) b }
    requires p { p < layout.now.nodes }
    requires q { q < layout.now.nodes }
    ensures { IsTrue result ↔ FormsShare layout.now flow.now (Some a) p (Some b) q }
{
    let Some(first) = region_of(layout, a, p) else {
        return false;
    };
    let Some(second) = region_of(layout, b, q) else {
        return false;
    };
    overlap(layout, flow.exposed.as_slice(), &first, &second)
}
