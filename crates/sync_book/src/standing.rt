//! Where a node stands.

/// Where a node stands between two barriers.
#[derive(Clone, Copy, Debug, PartialEq, Eq)]
pub enum Standing {
    /// It has left each barrier at which it arrived.
    Away,
    /// It has arrived at the next release, and there waits for all stores where `stores` is true.
    Arrived { stores: bool },
    /// Its arrival was released, and it has not left.
    Released,
}

impl Standing {
    ghost use Rattle.std.specs.Prelude.{◌≡◌};
    ghost use Rattle.sync_book.specs.Book.{is_arrived, waits_for_stores};

    /// The node has arrived at the next release.
    pub fn is_arrived(self) -> bool
        ensures { result ≡ is_arrived self }
    {
        matches!(self, Standing::Arrived { .. })
    }

    /// The node has arrived at the next release, and there waits for all stores.
    pub fn waits_for_stores(self) -> bool
        ensures { result ≡ waits_for_stores self }
    {
        match self {
            Standing::Arrived { stores } => stores,
            _ => false,
        }
    }
}
