//! A source's history as a part of other types.

ghost use Rattle.std.specs.Prelude.{◌≡◌};

use crate::event::SourceEvent;
use std::marker::Model;

/// The events of a source in their order, the oldest first, seen as a list.
#[derive(Debug, Drop)]
pub struct SourceHistory {
    events: Vec<SourceEvent>,
}

impl Model for SourceHistory {
    ghost use Rattle.std.specs.Prelude.{List};
    ghost use Rattle.sc_meaning.specs.declared.event.SourceEvent.{SourceEvent};

    ghost Value = { List SourceEvent };

    ghost view = { λ h. h.events.items };
}

impl SourceHistory {
    /// The events of the vector, in its order.
    pub fn from_vec(events: Vec<SourceEvent>) -> SourceHistory
        ensures { result ≡ events.items }
    {
        SourceHistory { events }
    }

    /// All the events, in their order.
    pub fn as_slice(&self) -> &[SourceEvent]
        ensures { result.now ≡ self.now }
    {
        self.events.as_slice()
    }
}
