//! The effects of a run as events of the source.

ghost use Rattle.std.specs.Prelude.{◌≡◌, IfOk, map, reverse};
ghost use Rattle.sc_layout.specs.Start.{start};
ghost use Rattle.sc_meaning.specs.OfAccess.{is_blocking, is_done_at_once};
ghost use Rattle.source_order.specs.Items.{all_effects};
ghost use Rattle.journal_effects.specs.Issues.{event_as, event_in};
ghost use Rattle.journal_effects.specs.Numbered.{AreNumbered};
ghost use Rattle.journal_effects.specs.Occurred.{effect_of};

use crate::effect::CellEffect;
use crate::entries::with_entry;
use crate::issues::Issues;
use crate::occurred::Occurred;
use sc_base::OutOfMemory;
use sc_isa::{Access, Entry, Track};
use sc_layout::Layout;
use sc_meaning::SourceEvent;
use std::alloc::Global;

/// Whether an access on the track is over, in the source, before its node's next own step.
fn is_blocking(track: Track) -> bool
    ensures { result ≡ is_blocking track }
{
    match track {
        Track::Counter(counter) => counter != 0,
        Track::Store => false,
        Track::Covered => true,
    }
}

/// Whether the access is a blocking read or write, which is one event of the source.
fn is_done_at_once(access: Access) -> bool
    ensures { result ≡ is_done_at_once access }
{
    match access {
        Access::Read { track, .. } => is_blocking(track),
        Access::Write { track, .. } => is_blocking(track),
        Access::Copy { .. } => false,
    }
}

/// The effect as an event of the request with this number.
fn event_as(at_once: bool, request: u64, effect: CellEffect) -> SourceEvent
    ensures { result ≡ event_as at_once request (effect_of effect) }
{
    if at_once {
        SourceEvent::Do {
            node: effect.node,
            request,
            wrote: effect.wrote,
            place: effect.place,
            value: effect.value,
        }
    } else {
        SourceEvent::Effect {
            node: effect.node,
            request,
            cell: effect.cell,
            wrote: effect.wrote,
            place: effect.place,
            value: effect.value,
        }
    }
}

fn event_of(issues: &Issues, effect: CellEffect) -> SourceEvent
    ensures { result ≡ event_in issues.now (effect_of effect) }
{
    match issues.get(effect.node, effect.number) {
        Some(issue) => event_as(is_done_at_once(issue.access), issue.request, effect),
        None => event_as(false, 0, effect),
    }
}

fn events_of(
    alloc: Global,
    issues: &Issues,
    effects: &[CellEffect],
) -> Result<Vec<SourceEvent>, OutOfMemory>
    ensures { IfOk result (λ events. events.items ≡ map (λ e. event_in issues.now (effect_of e)) effects.now) }
{
    let mut events = Vec::new(alloc);
    for effect in effects {
        let Ok(()) = events.push(event_of(issues, *effect)) else {
            return Err(OutOfMemory);
        };
    }
    Ok(events)
}

/// The effects of a run over the layout, in their order: a blocking read or write as a `Do`, and each other part as an
/// `Effect`. Reads that take effect with their issue have what the memory holds then.
pub fn effects(
    alloc: Global,
    journal: &[Entry],
    layout: &Layout,
) -> Result<Vec<SourceEvent>, OutOfMemory>
    requires { AreNumbered journal.now }
    ensures { IfOk result (λ events. events.items ≡ all_effects (start layout.now) (reverse journal.now)) }
{
    let mut issues = Issues::new(alloc);
    let mut occurred = Occurred::new(alloc);
    for entry in journal {
        occurred = with_entry(occurred, layout, &issues, *entry)?;
        issues.note(*entry)?;
    }
    events_of(alloc, &issues, occurred.as_slice())
}
