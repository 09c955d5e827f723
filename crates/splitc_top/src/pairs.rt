//! The text of delays.

ghost use Rattle.std.specs.Prelude.{◌≡◌, ◌<◌, ◌++◌, IfOk, OnOk};
ghost use Rattle.run_report.specs.Report.{each_from};
ghost use Rattle.splitc_top.specs.Pairs.{has_pair, pair_line, delay_lines};

use run_report::values::add_marked;
use sc_base::OutOfMemory;
use site_graph::BitRows;
use splitc_compile::Compiled;
use std::alloc::{AllocError, Global};

/// A line for each pair of accesses of which the first has to be over before the second begins, by the first and then
/// by the second.
pub fn delay_text(alloc: Global, compiled: &Compiled) -> Result<Vec<u8>, OutOfMemory>
    ensures { IfOk result (λ text. text.items ≡ delay_lines compiled.now.delays) }
{
    let mut text = Vec::new(alloc);
    for row in 0..compiled.delays.rows() {
        match add_row(&mut text, &compiled.delays, row) {
            Ok(()) => {}
            Err(_) => return Err(OutOfMemory),
        }
    }
    Ok(text)
}

/// Adds the lines of the pairs whose first is this.
fn add_row(to: &mut Vec<u8>, pairs: &BitRows, row: u32) -> Result<(), AllocError>
    requires { row < pairs.now.rows }
    ensures { OnOk result (to.new.items ≡ to.old.items ++ each_from 0 pairs.now.columns (pair_line pairs.now row)) }
{
    for column in 0..pairs.columns() {
        add_pair(to, pairs, row, column)?;
    }
    Ok(())
}

/// Adds the line of the pair, if it is set.
fn add_pair(to: &mut Vec<u8>, pairs: &BitRows, row: u32, column: u32) -> Result<(), AllocError>
    requires row { row < pairs.now.rows }
    requires column { column < pairs.now.columns }
    ensures { OnOk result (to.new.items ≡ to.old.items ++ pair_line pairs.now row column) }
{
    if !is_set(pairs, row, column) {
        return Ok(());
    }
    to.extend_from_slice(b"delay")?;
    add_marked(to, b' ', row)?;
    add_marked(to, b' ', column)?;
    to.push(b'\n')?;
    Ok(())
}

/// Whether the pair is set.
fn is_set(pairs: &BitRows, row: u32, column: u32) -> bool
    requires row { row < pairs.now.rows }
    requires column { column < pairs.now.columns }
    ensures { result ≡ has_pair pairs.now row column }
{
    pairs.get(row, column)
}
