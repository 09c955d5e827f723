//! What bytes come from and what they go to.

ghost use Rattle.std.specs.Prelude.{ℕ, ◌<◌, List, length};
ghost use Rattle.std.specs.declared.option.Option.{Option};
ghost use Rattle.sc_io.specs.Streams.{Takes, Puts, TakeCause, PutCause};

/// What a source answers.
#[derive(Clone, Copy, Debug, PartialEq, Eq)]
pub enum Take {
    /// So many bytes were given.
    Got(usize),
    /// No byte is left.
    End,
    /// The source failed and gave no byte.
    Failed,
}

/// What a sink answers.
#[derive(Clone, Copy, Debug, PartialEq, Eq)]
pub enum Put {
    /// So many bytes were taken.
    Done(usize),
    /// The sink failed and took no byte.
    Failed,
}

/// What bytes come from.
pub trait Source {
    /// The bytes that are left, where the source tells them.
    ghost left: { Self → Option (List ℕ) };

    /// How often the source has failed.
    ghost faults: { Self → ℕ };

    /// Moves the next bytes to the front of `into`, which is not empty: as many as `Got` says, at least one.
    /// `End` and `Failed` move none.
    fn take(&mut self, into: &mut [u8]) -> Take
        requires { 0 < length into.old }
        ensures bytes { Takes (left self.old) (left self.new) result into.new }
        ensures cause { TakeCause (faults self.old) (faults self.new) result };
}

/// What bytes go to.
pub trait Sink {
    /// The bytes that it holds, where the sink tells them.
    ghost held: { Self → Option (List ℕ) };

    /// How often the sink has failed.
    ghost faults: { Self → ℕ };

    /// Appends the first of the bytes, which are not empty: as many as `Done` says, at least one. `Failed`
    /// appends none.
    fn put(&mut self, bytes: &[u8]) -> Put
        requires { 0 < length bytes.now }
        ensures bytes { Puts (held self.old) (held self.new) result bytes.now }
        ensures cause { PutCause (faults self.old) (faults self.new) result };
}
