//! A history that is judged event by event.

ghost use Rattle.std.specs.Prelude.{◌≡◌, ◌<◌, ◌&&◌, ◌==◌, ℕ, List, [], ◌∷◌, length, true, false, reverse, IfOk, OnOk, IfSome};
ghost use Rattle.sc_core.specs.Core.{Program};
ghost use Rattle.sc_meaning.specs.Whole.{outcome};
ghost use Rattle.sc_replay.specs.Judging.{Tells};
ghost use Rattle.sc_core.specs.ViewStatements.{plain_program};
ghost use Rattle.sc_meaning.specs.declared.event.SourceEvent.{SourceEvent as Event};
ghost use Rattle.sc_meaning.specs.declared.event.SourceEvent.TheVariants as event;
ghost use Rattle.sc_base.specs.declared.value.End.TheVariants as end_of;
ghost use Rattle.sc_meaning.specs.Past.{Processes};
ghost use Rattle.sc_meaning.specs.Source.{processes_of};
ghost use Rattle.replay_books.specs.Tables.{goes_on_at, made_at, is_complete_in};
ghost use Rattle.replay_tables.specs.Cells.{holds};
ghost use Rattle.replay_stages.specs.Laws.{is_read_now};
ghost use Rattle.history_replay.specs.Reached.{Reached, NextAt, Taken};

use crate::nodes::Nodes;
use core_run::Answer;
use replay_tables::requests::{
    is_barrier, is_issued, is_read_of, is_sync, is_write_of, same_value,
};
use replay_tables::{CellTable, Tables};
use sc_base::{End, OutOfMemory, Place, Value};
use sc_core::CoreProgram;
use sc_layout::Layout;
use sc_meaning::{Ends, Outcome, Request, SourceEvent, Streams};
use std::alloc::Global;

/// The nodes of a source where a list of events has led them, with the tables of what was read of the list. After an
/// `Err` of `take` or `outcome` it is not to be used.
#[derive(Drop)]
pub struct Judge<'a> {
    alloc: Global,
    layout: &'a Layout,
    tables: Tables,
    cells: CellTable,
    nodes: Nodes<'a>,
}

impl<'a> Judge<'a> {
    /// All nodes before the first event.
    pub fn new(
        alloc: Global,
        program: &'a CoreProgram,
        layout: &'a Layout,
        budget: u64,
    ) -> Result<Judge<'a>, OutOfMemory>
        ensures reached { IfOk result (Reached (processes_of layout.now (plain_program program.now) budget) []) }
        ensures layout { IfOk result (λ made. made.layout.now ≡ layout.now) }
    {
        let tables = Tables::new(alloc, layout.nodes())?;
        let cells = CellTable::new(alloc, layout)?;
        let nodes = Nodes::new(alloc, program, layout, budget)?;
        Ok(Judge {
            alloc,
            layout,
            tables,
            cells,
            nodes,
        })
    }

    /// Reads one event: false where no legal and complete history goes on so.
    pub fn take(&mut self, event: SourceEvent) -> Result<bool, OutOfMemory>
        ensures taken { (processes : Processes) (past : List Event) → Reached processes past self.old
            → IfOk result (Taken processes past event self.new) }
        ensures kept { OnOk result (self.new.layout ≡ self.old.layout) }
    {
        match event {
            SourceEvent::Do {
                node,
                request,
                wrote,
                place,
                value,
            } => {
                if wrote {
                    self.write(node, request, place, value)
                } else {
                    self.read(node, request, place, value)
                }
            }
            SourceEvent::Issue { node, request } => self.issue(node, request),
            SourceEvent::Effect {
                node,
                request,
                cell,
                wrote,
                place,
                value,
            } => self.effect(node, request, cell, wrote, place, value),
            SourceEvent::Sync { node, request } => self.sync(node, request),
            SourceEvent::Arrive {
                node,
                request,
                stores,
            } => self.arrive(node, request, stores),
            SourceEvent::Release { number } => self.release(number),
            SourceEvent::End { node, end } => self.end(node, end),
        }
    }

    /// Whether there is such a node, it can go on now, and its next request has this number.
    fn is_turn(&self, node: u32, number: u64) -> bool
        ensures turn { result ≡ (goes_on_at self.now.tables node && (made_at self.now.tables node == number)) }
        ensures within { result ≡ true → node < length self.now.tables.rows }
    {
        self.tables.goes_on(node) && self.tables.made(node) == number
    }

    /// The node's next request, if it can make it now and it has this number.
    fn next_request(&mut self, node: u32, number: u64) -> Result<Option<Request>, OutOfMemory>
        ensures next { (processes : Processes) (past : List Event) → Reached processes past self.old
            → IfOk result (NextAt processes past node number self.new) }
        ensures kept { OnOk result (self.new.layout ≡ self.old.layout) }
        ensures within { IfOk result (λ o. IfSome o (λ r. node < length self.new.tables.rows)) }
    {
        if !self.is_turn(node, number) {
            return Ok(None);
        }
        self.nodes.request(node)
    }

    /// Whether the request is a read of the place, which holds the value.
    fn is_read_now(&self, request: Request, place: Place, value: Value) -> bool
        ensures { result ≡ is_read_now (holds self.now.layout.now self.now.cells) place value request }
    {
        is_read_of(request, place) && same_value(value, self.cells.read(self.layout, place))
    }

    /// A blocking read, which shows what the place holds.
    fn read(
        &mut self,
        node: u32,
        number: u64,
        place: Place,
        value: Value,
    ) -> Result<bool, OutOfMemory>
        ensures taken { (processes : Processes) (past : List Event) → Reached processes past self.old
            → IfOk result (Taken processes past (event.Do node number false place value) self.new) }
        ensures kept { OnOk result (self.new.layout ≡ self.old.layout) }
    {
        let Some(request) = self.next_request(node, number)? else {
            return Ok(false);
        };
        if !self.is_read_now(request, place, value) {
            return Ok(false);
        }
        self.tables.make(self.alloc, node, request)?;
        self.nodes.answer(node, Answer::Shown(value))
    }

    /// A blocking write.
    fn write(
        &mut self,
        node: u32,
        number: u64,
        place: Place,
        value: Value,
    ) -> Result<bool, OutOfMemory>
        ensures taken { (processes : Processes) (past : List Event) → Reached processes past self.old
            → IfOk result (Taken processes past (event.Do node number true place value) self.new) }
        ensures kept { OnOk result (self.new.layout ≡ self.old.layout) }
    {
        let Some(request) = self.next_request(node, number)? else {
            return Ok(false);
        };
        if !is_write_of(request, place, value) {
            return Ok(false);
        }
        self.tables.make(self.alloc, node, request)?;
        self.cells.write(place, value)?;
        self.nodes.pass(node)?;
        Ok(true)
    }

    /// A transfer is issued.
    fn issue(&mut self, node: u32, number: u64) -> Result<bool, OutOfMemory>
        ensures taken { (processes : Processes) (past : List Event) → Reached processes past self.old
            → IfOk result (Taken processes past (event.Issue node number) self.new) }
        ensures kept { OnOk result (self.new.layout ≡ self.old.layout) }
    {
        let Some(request) = self.next_request(node, number)? else {
            return Ok(false);
        };
        if !is_issued(request) {
            return Ok(false);
        }
        self.tables.make(self.alloc, node, request)?;
        self.nodes.pass(node)?;
        Ok(true)
    }

    /// A part of an issued transfer occurs.
    fn effect(
        &mut self,
        node: u32,
        number: u64,
        cell: u32,
        wrote: bool,
        place: Place,
        value: Value,
    ) -> Result<bool, OutOfMemory>
        ensures taken { (processes : Processes) (past : List Event) → Reached processes past self.old
            → IfOk result (Taken processes past (event.Effect node number cell wrote place value) self.new) }
        ensures kept { OnOk result (self.new.layout ≡ self.old.layout) }
    {
        let shown = self.cells.read(self.layout, place);
        if !self
            .tables
            .may_occur(node, number, cell, wrote, place, value, shown)
        {
            return Ok(false);
        }
        self.tables.occur(node, number, cell, wrote, value);
        if wrote {
            self.cells.write(place, value)?;
        }
        Ok(true)
    }

    /// A sync, by which the gets land.
    fn sync(&mut self, node: u32, number: u64) -> Result<bool, OutOfMemory>
        ensures taken { (processes : Processes) (past : List Event) → Reached processes past self.old
            → IfOk result (Taken processes past (event.Sync node number) self.new) }
        ensures kept { OnOk result (self.new.layout ≡ self.old.layout) }
    {
        let Some(request) = self.next_request(node, number)? else {
            return Ok(false);
        };
        if !is_sync(request) {
            return Ok(false);
        }
        if !self.tables.split_over(node) {
            return Ok(false);
        }
        let values = self.tables.landing(self.alloc, node)?;
        self.tables.sync(self.alloc, node, request)?;
        let landed = Answer::Landed(values.as_slice());
        self.nodes.answer(node, landed)
    }

    /// An arrival at a barrier.
    fn arrive(&mut self, node: u32, number: u64, stores: bool) -> Result<bool, OutOfMemory>
        ensures taken { (processes : Processes) (past : List Event) → Reached processes past self.old
            → IfOk result (Taken processes past (event.Arrive node number stores) self.new) }
        ensures kept { OnOk result (self.new.layout ≡ self.old.layout) }
    {
        let Some(request) = self.next_request(node, number)? else {
            return Ok(false);
        };
        if !is_barrier(request, stores) {
            return Ok(false);
        }
        self.tables.arrive(self.alloc, node, request, stores)?;
        Ok(true)
    }

    /// A release of all nodes.
    fn release(&mut self, number: u64) -> Result<bool, OutOfMemory>
        ensures taken { (processes : Processes) (past : List Event) → Reached processes past self.old
            → IfOk result (Taken processes past (event.Release number) self.new) }
        ensures kept { OnOk result (self.new.layout ≡ self.old.layout) }
    {
        if !self.tables.may_release(number) {
            return Ok(false);
        }
        self.tables.release()?;
        self.nodes.pass_barrier(self.layout.nodes())
    }

    /// The end of a node.
    fn end(&mut self, node: u32, end: End) -> Result<bool, OutOfMemory>
        ensures taken { (processes : Processes) (past : List Event) → Reached processes past self.old
            → IfOk result (Taken processes past (event.End node end) self.new) }
        ensures kept { OnOk result (self.new.layout ≡ self.old.layout) }
    {
        if is_waiting(end) {
            self.give_up(node)
        } else {
            self.finish(node, end)
        }
    }

    /// The end of a node that goes on.
    fn finish(&mut self, node: u32, end: End) -> Result<bool, OutOfMemory>
        ensures taken { (processes : Processes) (past : List Event) → Reached processes past self.old → (end ≡ end_of.Waiting → ⊥)
            → IfOk result (Taken processes past (event.End node end) self.new) }
        ensures kept { OnOk result (self.new.layout ≡ self.old.layout) }
    {
        if !self.tables.goes_on(node) {
            return Ok(false);
        }
        if !self.nodes.ends_as(node, end)? {
            return Ok(false);
        }
        self.tables.end(node, end);
        Ok(true)
    }

    /// The end of a node at a barrier that is not released, which it finds broken.
    fn give_up(&mut self, node: u32) -> Result<bool, OutOfMemory>
        ensures taken { (processes : Processes) (past : List Event) → Reached processes past self.old
            → IfOk result (Taken processes past (event.End node end_of.Waiting) self.new) }
        ensures kept { OnOk result (self.new.layout ≡ self.old.layout) }
    {
        if !self.tables.stands(node) {
            return Ok(false);
        }
        if !self.nodes.answer(node, Answer::Broken)? {
            return Ok(false);
        }
        if !self.nodes.ends_as(node, End::Waiting)? {
            return Ok(false);
        }
        self.tables.end(node, End::Waiting);
        Ok(true)
    }

    /// Whether what was read is complete.
    pub fn is_complete(&self) -> bool
        ensures { result ≡ is_complete_in self.now.tables }
    {
        self.tables.is_complete()
    }

    /// What the nodes show where each of them has ended.
    pub fn outcome(&mut self) -> Result<Outcome, OutOfMemory>
        ensures { (program : Program) (budget : ℕ) (history : List Event)
            → Reached (processes_of self.old.layout.now program budget) (reverse history) self.old
            → is_complete_in self.old.tables ≡ true
            → IfOk result (Tells self.old.layout.now (outcome (processes_of self.old.layout.now program budget) history)) }
    {
        let Ok(ends) = self.tables.ends(self.alloc) else {
            return Err(OutOfMemory);
        };
        let printed = self.nodes.texts(self.alloc)?;
        let Ok(memory) = self.cells.copied(self.alloc) else {
            return Err(OutOfMemory);
        };
        Ok(Outcome {
            ends: Ends::from_vec(ends),
            printed: Streams::from_vec(printed),
            memory,
        })
    }
}

/// Whether the end is that of a node at a barrier which is not released.
fn is_waiting(end: End) -> bool
    ensures waiting { result ≡ true → end ≡ end_of.Waiting }
    ensures other { result ≡ false → end ≡ end_of.Waiting → ⊥ }
{
    match end {
        End::Waiting => true,
        _ => false,
    }
}
