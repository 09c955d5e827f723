//! What the pool keeps of one message.

ghost use Rattle.std.specs.Prelude.{◌≡◌};
ghost use Rattle.msg_pool.specs.Slots.{link_of, with_next, with_previous};

use crate::message::Message;

/// The lists that a message is in: all messages are one list, and so are those of one issuer, and those to one target.
#[derive(Clone, Copy, Debug)]
pub enum Grouping {
    Every,
    Issuer,
    Target,
}

/// The keys of the messages that stand behind a message and before it on one list.
#[derive(Clone, Copy, Debug)]
pub struct Link {
    pub next: Option<usize>,
    pub previous: Option<usize>,
}

/// A message with the number of the puts before it, and its neighbours on each of its three lists.
#[derive(Clone, Copy, Debug)]
pub struct Slot {
    pub serial: u64,
    pub message: Message,
    pub every: Link,
    pub issuer: Link,
    pub target: Link,
}

impl Slot {
    /// The neighbours on that list.
    pub fn link(&self, grouping: Grouping) -> Link
        ensures { result ≡ link_of grouping self.now }
    {
        match grouping {
            Grouping::Every => self.every,
            Grouping::Issuer => self.issuer,
            Grouping::Target => self.target,
        }
    }

    /// From now on this one stands behind the message on that list.
    pub fn set_next(&mut self, grouping: Grouping, next: Option<usize>)
        ensures { self.new ≡ with_next grouping next self.old }
    {
        match grouping {
            Grouping::Every => self.every.next = next,
            Grouping::Issuer => self.issuer.next = next,
            Grouping::Target => self.target.next = next,
        }
    }

    /// From now on this one stands before the message on that list.
    pub fn set_previous(&mut self, grouping: Grouping, previous: Option<usize>)
        ensures { self.new ≡ with_previous grouping previous self.old }
    {
        match grouping {
            Grouping::Every => self.every.previous = previous,
            Grouping::Issuer => self.issuer.previous = previous,
            Grouping::Target => self.target.previous = previous,
        }
    }
}
