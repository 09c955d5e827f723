//! What each step tells the seat that takes it. These types are for the proofs alone.

ghost use Rattle.std.specs.Prelude.{List, []};
ghost use Rattle.turn_lock.specs.Rule.{drew, looked, published, passed, heard, left, given, both, spent};

use crate::book::{Book, Lane};
use crate::rule::View;
use atomic_table::{Join, Play, Split};
use std::marker::{Brand, PhantomData};

/// A ticket is drawn.
pub(crate) struct Draw;

impl<T: Book> Play<Option<T>, View<T::Entry>> for Draw {
    // the seat has the ticket that was found
    ghost then = { drew };
}

/// The ticket that is served is looked at.
pub(crate) struct Look;

impl<T: Book> Play<Option<T>, View<T::Entry>> for Look {
    // the seat gains the turn exactly where its ticket is served
    ghost then = { looked T.entries T.Entry.lane T.Entry.closes };
}

/// The entries that a step adds. The call picks them.
pub(crate) trait Said<E> {
    // the entries
    ghost said: { List E };
}

impl<E> Said<E> for Brand {
    // none, where a call picks none
    ghost said = { [] };
}

/// The entries of `N` are published.
pub(crate) struct Publish<N> {
    said: PhantomData<N>,
}

impl<T: Book, N: Said<T::Entry>> Play<Option<T>, View<T::Entry>> for Publish<N> {
    // the seat has seen them, last
    ghost then = { published N.said };
}

/// The turn is passed on.
pub(crate) struct Pass;

impl<T: Book> Play<Option<T>, View<T::Entry>> for Pass {
    // the seat has neither ticket nor slot
    ghost then = { passed };
}

/// A seat's lanes are cut in two, or two seats' lanes are put together.
pub(crate) struct Lanes;

impl<E> Split<View<E>> for Lanes {
    // what the splitting seat keeps
    ghost left = { left };

    // what the new seat begins with
    ghost right = { given };
}

impl<E> Join<View<E>> for Lanes {
    // what the joining seat then has
    ghost both = { both };

    // what is left of the other seat
    ghost spent = { spent };
}

/// After a join the seat hears how its two lists lie.
pub(crate) struct Hear;

impl<T: Book> Play<Option<T>, View<T::Entry>> for Hear {
    // the shorter list begins the longer
    ghost then = { heard T.Entry.lane };
}
