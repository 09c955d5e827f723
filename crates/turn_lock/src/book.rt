//! What a guarded value stands for.

ghost use Rattle.std.specs.Prelude.{◌≡◌, ℕ, Bool, List, length};

/// An entry of a list. It belongs to a lane, and one that closes is the last of its lane.
pub trait Lane {
    // the lane of an entry
    ghost lane: { Self → ℕ };

    // whether an entry closes its lane
    ghost closes: { Self → Bool };

    /// The lane of the entry, counted from 0.
    fn lane(&self) -> u32
        ensures { result ≡ lane self.now };

    /// Whether the entry is the last of its lane.
    fn closes(&self) -> bool
        ensures { result ≡ closes self.now };
}

/// A value that stands for a list of entries. The lock sees the list in contracts alone, and calls only `len`.
pub trait Book {
    type Entry: Lane + Drop;

    // the list that a value stands for
    ghost entries: { Self → List Self.Entry };

    /// The length of the list.
    fn len(&self) -> u64
        ensures { result ≡ length (entries self.now) };
}
