//! One event of a source, as text.

ghost use Rattle.std.specs.Prelude.{◌≡◌, ◌++◌, OnOk};
ghost use Rattle.std.specs.Fmt.{decimal};
ghost use Rattle.history_report.specs.History.{end_word, step_text, access_text, place_text, event_text};
ghost use Rattle.run_report.specs.Report.{line};

use itoa::Buffer;
use run_report::nodes::fault_name;
use run_report::values::{add_marked, add_value, name_of};
use sc_base::{End, Place, Value};
use sc_layout::Layout;
use sc_meaning::SourceEvent;
use sc_tree::Names;
use std::alloc::AllocError;

/// Adds the number.
fn add_number(to: &mut Vec<u8>, number: u64) -> Result<(), AllocError>
    ensures { OnOk result (to.new.items ≡ to.old.items ++ decimal number) }
{
    let mut buffer = Buffer::new();
    to.extend_from_slice(buffer.format(number).as_bytes())
}

/// Adds how a node ended.
fn add_end(to: &mut Vec<u8>, end: End) -> Result<(), AllocError>
    ensures { OnOk result (to.new.items ≡ to.old.items ++ end_word end) }
{
    match end {
        End::Ended => to.extend_from_slice(b"ended"),
        End::Fault { kind, line } => {
            to.extend_from_slice(b"fault ")?;
            to.extend_from_slice(fault_name(kind).as_bytes())?;
            to.extend_from_slice(b" line ")?;
            add_number(to, line as u64)
        }
        End::Cut => to.extend_from_slice(b"cut"),
        End::Waiting => to.extend_from_slice(b"waiting"),
    }
}

/// Adds the word, the node and the number of one of its requests.
fn add_step(to: &mut Vec<u8>, word: &[u8], node: u32, request: u64) -> Result<(), AllocError>
    ensures { OnOk result (to.new.items ≡ to.old.items ++ step_text word.now node request) }
{
    to.extend_from_slice(word)?;
    to.push(b' ')?;
    add_number(to, node as u64)?;
    to.push(b' ')?;
    add_number(to, request)
}

/// Adds the place by the name of its object.
fn add_place(
    to: &mut Vec<u8>,
    names: &Names,
    layout: &Layout,
    place: Place,
) -> Result<(), AllocError>
    ensures { OnOk result (to.new.items ≡ to.old.items ++ place_text names.now layout.now place) }
{
    to.extend_from_slice(name_of(names, layout, place.object))?;
    add_marked(to, b'@', place.node)?;
    add_marked(to, b'+', place.offset)
}

/// Adds what is read or written, and the value.
fn add_access(
    to: &mut Vec<u8>,
    names: &Names,
    layout: &Layout,
    wrote: bool,
    place: Place,
    value: Value,
) -> Result<(), AllocError>
    ensures { OnOk result (to.new.items ≡ to.old.items ++ access_text names.now layout.now wrote place value) }
{
    if wrote {
        to.extend_from_slice(b" write ")?;
    } else {
        to.extend_from_slice(b" read ")?;
    }
    add_place(to, names, layout, place)?;
    to.extend_from_slice(b" = ")?;
    add_value(to, names, layout, value)
}

/// Adds the text of the event, without its newline.
fn add_event(
    to: &mut Vec<u8>,
    names: &Names,
    layout: &Layout,
    event: SourceEvent,
) -> Result<(), AllocError>
    ensures { OnOk result (to.new.items ≡ to.old.items ++ event_text names.now layout.now event) }
{
    match event {
        SourceEvent::Do {
            node,
            request,
            wrote,
            place,
            value,
        } => {
            add_step(to, b"do", node, request)?;
            add_access(to, names, layout, wrote, place, value)
        }
        SourceEvent::Issue { node, request } => add_step(to, b"issue", node, request),
        SourceEvent::Effect {
            node,
            request,
            cell,
            wrote,
            place,
            value,
        } => {
            add_step(to, b"effect", node, request)?;
            add_marked(to, b' ', cell)?;
            add_access(to, names, layout, wrote, place, value)
        }
        SourceEvent::Sync { node, request } => add_step(to, b"sync", node, request),
        SourceEvent::Arrive { node, request, .. } => add_step(to, b"arrive", node, request),
        SourceEvent::Release { number } => {
            to.extend_from_slice(b"release ")?;
            add_number(to, number)
        }
        SourceEvent::End { node, end } => {
            to.extend_from_slice(b"end ")?;
            add_number(to, node as u64)?;
            to.push(b' ')?;
            add_end(to, end)
        }
    }
}

/// Adds the line of the event.
pub fn add_line(
    to: &mut Vec<u8>,
    names: &Names,
    layout: &Layout,
    event: SourceEvent,
) -> Result<(), AllocError>
    ensures { OnOk result (to.new.items ≡ to.old.items ++ line (event_text names.now layout.now event)) }
{
    add_event(to, names, layout, event)?;
    to.push(b'\n')?;
    Ok(())
}
