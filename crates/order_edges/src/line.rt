//! Items that are numbered: the own items of a node, those of one kind among them, its effects, or the releases.

ghost use Rattle.std.specs.Prelude.{◌≡◌, ℕ, ◌<◌, ◌^◌, suc, length, IfOk, Some, if◌then◌else◌};
ghost use Rattle.order_edges.specs.Lines.{belongs, node_of, number_of, number_in, has_number, position, look, Tells};

use sc_meaning::SourceEvent;
use std::alloc::{AllocError, Global};

/// Which items are numbered.
#[derive(Clone, Copy)]
pub enum Kind {
    Own,
    Issues,
    Syncs,
    Arrivals,
    Effects,
    Releases,
}

/// The items of this kind on the node, with numbers up to `last`, which is that of the node's end.
#[derive(Clone, Copy)]
pub struct Line {
    pub kind: Kind,
    pub node: u32,
    pub last: u64,
}

fn belongs(kind: Kind, item: SourceEvent) -> bool
    ensures { result ≡ belongs kind item }
{
    match item {
        SourceEvent::Do { .. } => matches!(kind, Kind::Own),
        SourceEvent::Issue { .. } => matches!(kind, Kind::Own | Kind::Issues),
        SourceEvent::Effect { .. } => matches!(kind, Kind::Effects),
        SourceEvent::Sync { .. } => matches!(kind, Kind::Own | Kind::Syncs),
        SourceEvent::Arrive { .. } => matches!(kind, Kind::Own | Kind::Arrivals),
        SourceEvent::Release { .. } => matches!(kind, Kind::Releases),
        SourceEvent::End { .. } => matches!(kind, Kind::Own),
    }
}

fn node_of(item: SourceEvent) -> u32
    ensures { result ≡ node_of item }
{
    match item {
        SourceEvent::Do { node, .. } => node,
        SourceEvent::Issue { node, .. } => node,
        SourceEvent::Effect { node, .. } => node,
        SourceEvent::Sync { node, .. } => node,
        SourceEvent::Arrive { node, .. } => node,
        SourceEvent::Release { .. } => 0,
        SourceEvent::End { node, .. } => node,
    }
}

fn number_of(last: u64, item: SourceEvent) -> u64
    ensures { result ≡ number_of last item }
{
    match item {
        SourceEvent::Do { request, .. } => request,
        SourceEvent::Issue { request, .. } => request,
        SourceEvent::Effect { request, .. } => request,
        SourceEvent::Sync { request, .. } => request,
        SourceEvent::Arrive { request, .. } => request,
        SourceEvent::Release { number } => number,
        SourceEvent::End { .. } => last,
    }
}

/// The item's number, if it is one of the line.
pub fn number_in(line: Line, item: SourceEvent) -> Option<u64>
    ensures { result ≡ number_in line item }
{
    let number = number_of(line.last, item);
    if belongs(line.kind, item) && node_of(item) == line.node && number <= line.last {
        Some(number)
    } else {
        None
    }
}

/// Notes under the item's number where it stands, if it is one of the line.
fn note(table: &mut Vec<Option<usize>>, line: Line, at: usize, item: SourceEvent)
    requires { length table.old.items ≡ suc line.last }
    ensures size { length table.new.items ≡ suc line.last }
    ensures noted { (k : ℕ) → look table.new.items k
        ≡ (if has_number line k item then Some at else look table.old.items k) }
{
    if let Some(number) = number_in(line, item) {
        table[number as usize] = Some(at);
    }
}

/// For each number the place in the list of the item with this number.
pub fn positions(
    alloc: Global,
    items: &[SourceEvent],
    line: Line,
) -> Result<Vec<Option<usize>>, AllocError>
    requires { line.last < 2 ^ 63 }
    ensures { IfOk result (λ table. Tells table.items (suc line.last) (position line items.now)) }
{
    let mut table = vec![in alloc; None; line.last as usize + 1]?;
    for (at, item) in items.iter().enumerate() {
        note(&mut table, line, at, *item);
    }
    Ok(table)
}

/// What the table has under the number.
pub fn look(table: &[Option<usize>], number: u64) -> Option<usize>
    ensures { result ≡ look table.now number }
{
    match table.get(number as usize) {
        Some(found) => *found,
        None => None,
    }
}
