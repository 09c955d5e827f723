//! Relations over the same numbers, as rows of bits: their union, one after another, and paths.

ghost use Rattle.std.specs.Prelude.{◌≡◌, ◌<◌, IfOk};
ghost use Rattle.site_graph.specs.Bits.{AreInOrder};
ghost use Rattle.delay_sets.specs.Relations.{IsUnion, IsClosed, IsComposed, IsStep, IsWithRow};

use sc_base::OutOfMemory;
use site_graph::BitRows;
use std::alloc::Global;

/// Adds the pairs of `more`.
pub fn unite(rows: &mut BitRows, more: &BitRows)
    requires same_rows { more.now.rows ≡ rows.old.rows }
    requires same_columns { more.now.columns ≡ rows.old.columns }
    ensures united { IsUnion rows.old more.now rows.new }
    ensures in_order { AreInOrder more.now }
{
    for row in 0..more.rows() {
        rows.add_common(row, more, row, more, row);
    }
}

/// Sets the pairs that a path of one or more of the pairs joins.
pub fn close(rows: &mut BitRows)
    requires { rows.old.columns ≡ rows.old.rows }
    ensures { IsClosed rows.old rows.new }
{
    for inner in 0..rows.rows() {
        step(rows, inner);
    }
}

/// Where the paths with inner numbers below `inner` are set, sets those on which `inner` may stand too. After Warshall, "A
/// theorem on boolean matrices" (1962).
fn step(rows: &mut BitRows, inner: u32)
    requires square { rows.old.columns ≡ rows.old.rows }
    requires inner { inner < rows.old.rows }
    ensures { IsStep inner rows.old rows.new }
{
    for row in 0..rows.rows() {
        if rows.get(row, inner) {
            rows.join(row, inner);
        }
    }
}

/// The pairs that a pair of `first` and one of `second` behind it join.
pub fn composed(alloc: Global, first: &BitRows, second: &BitRows) -> Result<BitRows, OutOfMemory>
    requires { first.now.columns ≡ second.now.rows }
    ensures { IfOk result (IsComposed first.now second.now) }
{
    let mut rows = BitRows::new(alloc, first.rows(), second.columns())?;
    for row in 0..first.rows() {
        compose_row(&mut rows, row, first, second);
    }
    Ok(rows)
}

/// Sets in the row what the rows of `second` have that are set in the row of `first`.
fn compose_row(rows: &mut BitRows, row: u32, first: &BitRows, second: &BitRows)
    requires same { first.now.columns ≡ second.now.rows }
    requires columns { rows.old.columns ≡ second.now.columns }
    requires row { row < rows.old.rows }
    requires first { row < first.now.rows }
    ensures joined { IsWithRow row first.now second.now rows.old rows.new }
    ensures in_order { AreInOrder second.now }
{
    for inner in 0..second.rows() {
        if first.get(row, inner) {
            rows.add_common(row, second, inner, second, inner);
        }
    }
}
