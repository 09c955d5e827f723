//! Whole histories of the small sources.

use sc_base::{End, Place, Value};
use sc_meaning::SourceEvent;

pub const S0: Place = Place {
    object: 0,
    node: 0,
    offset: 0,
};

pub const S1: Place = Place {
    object: 0,
    node: 1,
    offset: 0,
};

pub const S2: Place = Place {
    object: 0,
    node: 0,
    offset: 1,
};

pub const S3: Place = Place {
    object: 0,
    node: 1,
    offset: 1,
};

/// A put, two gets that read in another order than they were issued, a sync, a store, a barrier, a read and a write.
pub const EXCHANGED: &[SourceEvent] = &[
    SourceEvent::Issue {
        node: 0,
        request: 0,
    },
    SourceEvent::Issue {
        node: 0,
        request: 1,
    },
    SourceEvent::Issue {
        node: 0,
        request: 2,
    },
    SourceEvent::Effect {
        node: 0,
        request: 0,
        cell: 0,
        wrote: true,
        place: S1,
        value: Value::Int(5),
    },
    SourceEvent::Effect {
        node: 0,
        request: 2,
        cell: 0,
        wrote: false,
        place: S1,
        value: Value::Int(5),
    },
    SourceEvent::Effect {
        node: 0,
        request: 1,
        cell: 0,
        wrote: false,
        place: S3,
        value: Value::Int(0),
    },
    SourceEvent::Sync {
        node: 0,
        request: 3,
    },
    SourceEvent::Issue {
        node: 1,
        request: 0,
    },
    SourceEvent::Arrive {
        node: 1,
        request: 1,
        stores: true,
    },
    SourceEvent::Arrive {
        node: 0,
        request: 4,
        stores: false,
    },
    SourceEvent::Effect {
        node: 1,
        request: 0,
        cell: 0,
        wrote: true,
        place: S2,
        value: Value::Int(7),
    },
    SourceEvent::Release { number: 1 },
    SourceEvent::Do {
        node: 0,
        request: 5,
        wrote: false,
        place: S2,
        value: Value::Int(7),
    },
    SourceEvent::End {
        node: 0,
        end: End::Ended,
    },
    SourceEvent::Do {
        node: 1,
        request: 2,
        wrote: true,
        place: S0,
        value: Value::Int(4),
    },
    SourceEvent::End {
        node: 1,
        end: End::Ended,
    },
];

/// Copies in each way, their cells in any order.
pub const COPIED: &[SourceEvent] = &[
    SourceEvent::Arrive {
        node: 1,
        request: 0,
        stores: true,
    },
    SourceEvent::Do {
        node: 0,
        request: 0,
        wrote: true,
        place: S0,
        value: Value::Int(3),
    },
    SourceEvent::Issue {
        node: 0,
        request: 1,
    },
    SourceEvent::Effect {
        node: 0,
        request: 1,
        cell: 1,
        wrote: false,
        place: S2,
        value: Value::Int(0),
    },
    SourceEvent::Effect {
        node: 0,
        request: 1,
        cell: 0,
        wrote: false,
        place: S0,
        value: Value::Int(3),
    },
    SourceEvent::Effect {
        node: 0,
        request: 1,
        cell: 0,
        wrote: true,
        place: S1,
        value: Value::Int(3),
    },
    SourceEvent::Effect {
        node: 0,
        request: 1,
        cell: 1,
        wrote: true,
        place: S3,
        value: Value::Int(0),
    },
    SourceEvent::Issue {
        node: 0,
        request: 2,
    },
    SourceEvent::Effect {
        node: 0,
        request: 2,
        cell: 0,
        wrote: false,
        place: S1,
        value: Value::Int(3),
    },
    SourceEvent::Effect {
        node: 0,
        request: 2,
        cell: 0,
        wrote: true,
        place: S2,
        value: Value::Int(3),
    },
    SourceEvent::Sync {
        node: 0,
        request: 3,
    },
    SourceEvent::Issue {
        node: 0,
        request: 4,
    },
    SourceEvent::Arrive {
        node: 0,
        request: 5,
        stores: true,
    },
    SourceEvent::Effect {
        node: 0,
        request: 4,
        cell: 0,
        wrote: false,
        place: S0,
        value: Value::Int(3),
    },
    SourceEvent::Effect {
        node: 0,
        request: 4,
        cell: 0,
        wrote: true,
        place: S3,
        value: Value::Int(3),
    },
    SourceEvent::Release { number: 1 },
    SourceEvent::End {
        node: 1,
        end: End::Ended,
    },
    SourceEvent::End {
        node: 0,
        end: End::Ended,
    },
];

/// A store that takes effect after the barrier, which does not wait for it, and after both ends.
pub const STORED_LATE: &[SourceEvent] = &[
    SourceEvent::Issue {
        node: 0,
        request: 0,
    },
    SourceEvent::Arrive {
        node: 0,
        request: 1,
        stores: false,
    },
    SourceEvent::Arrive {
        node: 1,
        request: 0,
        stores: false,
    },
    SourceEvent::Release { number: 1 },
    SourceEvent::End {
        node: 0,
        end: End::Ended,
    },
    SourceEvent::End {
        node: 1,
        end: End::Ended,
    },
    SourceEvent::Effect {
        node: 0,
        request: 0,
        cell: 0,
        wrote: true,
        place: S1,
        value: Value::Int(9),
    },
];

/// A barrier that another node never reaches, and a put without a sync.
pub const FORSAKEN: &[SourceEvent] = &[
    SourceEvent::Arrive {
        node: 0,
        request: 0,
        stores: false,
    },
    SourceEvent::Issue {
        node: 1,
        request: 0,
    },
    SourceEvent::End {
        node: 1,
        end: End::Ended,
    },
    SourceEvent::Effect {
        node: 1,
        request: 0,
        cell: 0,
        wrote: true,
        place: S0,
        value: Value::Int(6),
    },
    SourceEvent::End {
        node: 0,
        end: End::Waiting,
    },
];

/// A write, a read and an end.
pub const PRINTED: &[SourceEvent] = &[
    SourceEvent::Do {
        node: 0,
        request: 0,
        wrote: true,
        place: S0,
        value: Value::Int(7),
    },
    SourceEvent::Do {
        node: 0,
        request: 1,
        wrote: false,
        place: S0,
        value: Value::Int(7),
    },
    SourceEvent::End {
        node: 0,
        end: End::Ended,
    },
];

/// A request is issued.
pub fn issue(node: u32, request: u64) -> SourceEvent {
    SourceEvent::Issue { node, request }
}

/// A sync.
pub fn sync(node: u32, request: u64) -> SourceEvent {
    SourceEvent::Sync { node, request }
}

/// An arrival.
pub fn arrive(node: u32, request: u64, stores: bool) -> SourceEvent {
    SourceEvent::Arrive {
        node,
        request,
        stores,
    }
}

/// An end.
pub fn over(node: u32, end: End) -> SourceEvent {
    SourceEvent::End { node, end }
}

/// A blocking read or write.
pub fn done(node: u32, request: u64, wrote: bool, place: Place, value: Value) -> SourceEvent {
    SourceEvent::Do {
        node,
        request,
        wrote,
        place,
        value,
    }
}

/// A part of a transfer.
pub fn effect(
    node: u32,
    request: u64,
    cell: u32,
    wrote: bool,
    place: Place,
    value: Value,
) -> SourceEvent {
    SourceEvent::Effect {
        node,
        request,
        cell,
        wrote,
        place,
        value,
    }
}
