//! The instructions that issue an access.

ghost use Rattle.std.specs.Prelude.{◌≡◌, ℕ, ◌+◌, ◌<◌, ◌≤◌, ◌^◌, ◌&&◌, [], List, length, nat_lt, nat_le, slice_get, slice_index, slice_set};
ghost use Rattle.sc_isa.specs.declared.code.Code.{Code};
ghost use Rattle.sc_isa.specs.declared.access.Track.{Track};
ghost use Rattle.sc_isa.specs.declared.access.Track.TheVariants as tracks;
ghost use Rattle.sc_base.specs.declared.value.Place.{Place};
ghost use Rattle.sc_isa.specs.Deeds.{read, write, fill, get, put, send, copy, gets};
ghost use Rattle.sc_isa.specs.State.{Flight};
ghost use Rattle.sc_isa.specs.Moves.{taken, act_done};
ghost use Rattle.sc_isa.specs.Table.{gained, acted, copy_track};
ghost use Rattle.node_machine.specs.View.{Does, Counts, AfterDone, state_of, filled};

use crate::machine::{After, GOES_ON, Machine, Move, STICKS, fails};
use node_values::copying::{Copying, bulk};
use node_values::places::{Spotted, spot};
use sc_base::{CopyMode, Place};
use sc_isa::{Access, Code, Operand, Slot, Track};
use sc_layout::Layout;

impl Machine {
    /// A write that leaves its value.
    pub(crate) fn write(
        &mut self,
        layout: &Layout,
        own: u32,
        site: u32,
        track: Track,
        line: u32,
    ) -> Move
        ensures done { (code : Code) → Does self.old result self.new
            (λ s. gained code layout.now own write site track line s (taken 2 [] s.frame.stack)) }
        ensures counters { length self.new.reads ≡ length self.old.reads }
    {
        let Some(two) = self.frames.take_two() else {
            return STICKS;
        };
        match spot(layout, two.a) {
            Spotted::Found(place) => {
                self.frames.push(Operand::Here(two.b));
                Move::Issues(
                    Access::Write {
                        place,
                        value: two.b,
                        track,
                    },
                    After::GoesOn,
                )
            }
            Spotted::Missing(kind) => fails(kind, line),
            Spotted::Nowhere => STICKS,
        }
    }

    /// A put or a one-way store, which leave nothing.
    pub(crate) fn put(&mut self, layout: &Layout, site: u32, track: Track, line: u32) -> Move
        ensures puts { Does self.old result self.new
            (λ s. acted layout.now put site track line s (taken 2 [] s.frame.stack)) }
        ensures sends { Does self.old result self.new
            (λ s. acted layout.now send site track line s (taken 2 [] s.frame.stack)) }
        ensures counters { length self.new.reads ≡ length self.old.reads }
    {
        let Some(two) = self.frames.take_two() else {
            return STICKS;
        };
        match spot(layout, two.a) {
            Spotted::Found(place) => Move::Issues(
                Access::Write {
                    place,
                    value: two.b,
                    track,
                },
                After::GoesOn,
            ),
            Spotted::Missing(kind) => fails(kind, line),
            Spotted::Nowhere => STICKS,
        }
    }

    /// The number of a new read on the counter.
    pub(crate) fn count_read(&mut self, counter: u32) -> u64
        requires { slice_index self.old.reads counter + 1 < 2 ^ 64 }
        ensures number { result ≡ slice_index self.old.reads counter }
        ensures reads { self.new ≡ record self.old { reads = slice_set self.old.reads counter (result + 1) } }
    {
        let number = self.reads.get(counter);
        self.reads.set(counter, number + 1);
        number
    }

    /// A read, whose value lands on top.
    #[tactic(auto, using(crate::proofs::Flying::counts_more))]
    pub(crate) fn read(&mut self, layout: &Layout, own: u32, site: u32, line: u32) -> Move
        requires counter { site < length self.old.reads }
        requires room { slice_index self.old.reads site + 1 < 2 ^ 64 }
        ensures done { (code : Code) (track : Track) → Does self.old result self.new
            (λ s. gained code layout.now own read site track line s (taken 1 [] s.frame.stack)) }
        ensures counters { length self.new.reads ≡ length self.old.reads }
    {
        let Some(pointer) = self.frames.take_one() else {
            return STICKS;
        };
        match spot(layout, pointer) {
            Spotted::Found(place) => {
                let number = self.count_read(site);
                self.frames.push(Operand::Landing {
                    counter: site,
                    number,
                });
                Move::Issues(read_of(place, site), After::GoesOn)
            }
            Spotted::Missing(kind) => fails(kind, line),
            Spotted::Nowhere => STICKS,
        }
    }

    /// A read whose value lands in a local, which is tested after the request.
    pub(crate) fn fill(&mut self, layout: &Layout, site: u32, local: u32, line: u32) -> Move
        requires counter { site < length self.old.reads }
        requires room { slice_index self.old.reads site + 1 < 2 ^ 64 }
        ensures done { (track : Track) → Does self.old result self.new
            (λ s. acted layout.now (fill local) site track line s (taken 1 [] s.frame.stack)) }
        ensures counters { length self.new.reads ≡ length self.old.reads }
    {
        let Some(pointer) = self.frames.take_one() else {
            return STICKS;
        };
        match spot(layout, pointer) {
            Spotted::Found(place) => {
                let after = self.fill_local(site, local, line);
                Move::Issues(read_of(place, site), after)
            }
            Spotted::Missing(kind) => fails(kind, line),
            Spotted::Nowhere => STICKS,
        }
    }

    /// A read lands in the local, of whatever place.
    #[tactic(auto, using(crate::proofs::Flying::counts_more))]
    fn fill_local(&mut self, site: u32, local: u32, line: u32) -> After
        requires counter { site < length self.old.reads }
        requires room { slice_index self.old.reads site + 1 < 2 ^ 64 }
        ensures done { (place : Place) (flying : List Flight) → Counts self.old.reads flying
            → AfterDone (filled place site local line (state_of self.old flying)) result self.new }
        ensures counters { length self.new.reads ≡ length self.old.reads }
    {
        match self.local(local, line) {
            Ok(_) => {
                let number = self.count_read(site);
                let operand = Operand::Landing {
                    counter: site,
                    number,
                };
                self.frames.set_local(local, Slot::Holds(operand));
                After::GoesOn
            }
            Err(after) => after,
        }
    }

    /// An explicit get into a local, which is tested before the place is.
    pub(crate) fn get(&mut self, layout: &Layout, site: u32, local: u32, line: u32) -> Move
        requires counter { 0 < length self.old.reads }
        requires room { slice_index self.old.reads 0 + 1 < 2 ^ 64 }
        ensures done { (track : Track) → Does self.old result self.new
            (λ s. acted layout.now (get local) site track line s (taken 1 [] s.frame.stack)) }
        ensures counters { length self.new.reads ≡ length self.old.reads }
    {
        let Some(pointer) = self.frames.take_one() else {
            return STICKS;
        };
        match spot(layout, pointer) {
            Spotted::Found(place) => self.get_local(place, local, line),
            Spotted::Missing(kind) => match self.local(local, line) {
                Ok(_) => fails(kind, line),
                Err(after) => Move::Comes(after),
            },
            Spotted::Nowhere => STICKS,
        }
    }

    /// A get of the place into the local.
    #[tactic(auto, using(crate::proofs::Flying::counts_more))]
    fn get_local(&mut self, place: Place, local: u32, line: u32) -> Move
        requires counter { 0 < length self.old.reads }
        requires room { slice_index self.old.reads 0 + 1 < 2 ^ 64 }
        ensures done { (site : ℕ) (track : Track) → Does self.old result self.new
            (λ s. act_done site track line s (gets local place)) }
        ensures counters { length self.new.reads ≡ length self.old.reads }
    {
        match self.local(local, line) {
            Ok(_) => {
                let number = self.count_read(0);
                self.frames.set_local(local, Slot::Pending { number });
                Move::Issues(read_of(place, 0), After::GoesOn)
            }
            Err(after) => Move::Comes(after),
        }
    }

    pub(crate) fn copy(&mut self, layout: &Layout, site: u32, track: Track, line: u32) -> Move
        ensures done { Does self.old result self.new
            (λ s. acted layout.now copy site track line s (taken 3 [] s.frame.stack)) }
        ensures counters { length self.new.reads ≡ length self.old.reads }
    {
        let Some(three) = self.frames.take_three() else {
            return STICKS;
        };
        match bulk(layout, three.a, three.b, three.c) {
            Copying::Nothing => GOES_ON,
            Copying::Copies { from, to, cells } => Move::Issues(
                Access::Copy {
                    from,
                    to,
                    cells,
                    track,
                },
                After::GoesOn,
            ),
            Copying::Fails(kind) => fails(kind, line),
            Copying::Wrong => STICKS,
        }
    }
}

pub(crate) fn read_of(place: Place, counter: u32) -> Access
    ensures { result ≡ Access.Read place (Track.Counter counter) }
{
    Access::Read {
        place,
        track: Track::Counter(counter),
    }
}

/// How a copy is waited for.
pub(crate) fn copy_track(site: u32, mode: CopyMode) -> Track
    ensures { result ≡ copy_track site mode }
{
    match mode {
        CopyMode::Blocking => Track::Counter(site),
        CopyMode::Split => Track::Counter(0),
        CopyMode::OneWay => Track::Store,
    }
}

/// Whether the code has the site.
pub(crate) fn has_site(code: &Code, site: u32) -> bool
    ensures { result ≡ (nat_lt 0 site && nat_le site code.now.sites) }
{
    0 < site && site <= code.sites
}
