//! The fabric, and what is read of it.

ghost use Rattle.std.specs.Prelude.{◌≡◌, ◌≤◌, ◌+◌, ◌*◌, [], length, reverse, IfOk, OnOk, OnErr};
ghost use Rattle.fabric.specs.Effects.{awaited};
ghost use Rattle.fabric.specs.State.{need_of, HasFewCells};
ghost use Rattle.fabric.specs.Kept.{IsOfJournal, OpenCellsPend};

use crate::log::Log;
use crate::reads::Reads;
use msg_pool::MsgPool;
use node_memory::NodeMemory;
use sc_base::OutOfMemory;
use sc_isa::{Access, Journal, NodeResults};
use sc_layout::Layout;
use std::alloc::Global;
use std::marker::Model;
use sync_book::SyncBook;

/// The memory, the messages in flight, the books and the journal of a run. Memory, messages and books are those of the
/// journal. All calls but `new` and `reserve` take no memory.
#[derive(Drop)]
pub struct Fabric {
    pub(crate) memory: NodeMemory,
    pub(crate) pool: MsgPool,
    pub(crate) book: SyncBook,
    pub(crate) reads: Reads,
    pub(crate) log: Log,
    pub(crate) spare: u64,
}

impl Model for Fabric {
    ghost use Rattle.fabric.specs.State as state;
    ghost use Rattle.fabric.specs.Kept as kept;

    ghost Value = { state.State };

    ghost view = { λ f. record { memory = f.memory; pool = f.pool; book = f.book; past = f.log.past; spare = f.spare } };

    ghost invariant = { λ f. kept.IsFabric (record { memory = f.memory; pool = f.pool; book = f.book; past = f.log.past; spare = f.spare }) f.reads f.log.nodes f.log.room };
}

impl Fabric {
    /// Nothing has happened yet, among the nodes of the layout, whose counters go from 0 to `sites`.
    pub fn new(alloc: Global, layout: &Layout, sites: u32) -> Result<Fabric, OutOfMemory>
        ensures layout { IfOk result (λ f. f.memory.layout ≡ layout.now) }
        ensures sites { IfOk result (λ f. f.book.sites ≡ sites) }
        ensures past { IfOk result (λ f. f.past ≡ []) }
    {
        let nodes = layout.nodes();
        let memory = NodeMemory::new(alloc, layout)?;
        let pool = MsgPool::new(alloc, nodes)?;
        let book = SyncBook::new(alloc, nodes, sites)?;
        let log = Log::new(alloc, nodes)?;
        Ok(Fabric {
            memory,
            pool,
            book,
            reads: Reads::new(alloc),
            log,
            spare: 0,
        })
    }

    /// Makes `spare` at least `count`. A refused call leaves all as it was, and never less room.
    pub fn reserve(&mut self, count: u32) -> Result<(), OutOfMemory>
        ensures enough { OnOk result (count ≤ self.new.spare) }
        ensures kept { self.old.spare ≤ self.new.spare }
        ensures refused { OnErr result (self.new.spare ≡ self.old.spare) }
        ensures pool { self.new.pool ≡ record self.old.pool { spare = self.new.pool.spare } }
        ensures rest { self.new ≡ record self.old { spare = self.new.spare; pool = self.new.pool } }
    {
        if u64::from(count) <= self.spare {
            return Ok(());
        }
        let room = room_for(self.pool.count(), count)?;
        self.pool.reserve(count)?;
        self.reads.reserve(count)?;
        self.log.reserve(room)?;
        self.spare = u64::from(count);
        Ok(())
    }

    /// How much room an access needs for itself and all that follows from it.
    pub fn need(access: &Access) -> u32
        requires { HasFewCells access.now }
        ensures { result ≡ need_of access.now }
    {
        match access {
            Access::Read { .. } => 3,
            Access::Write { .. } => 3,
            Access::Copy { cells, .. } => 1 + 3 * *cells,
        }
    }

    /// How many entries the journal has.
    pub fn entries(&self) -> u64
        ensures is { result ≡ length self.now.past }
        ensures of_journal { IsOfJournal self.now }
    {
        self.log.len()
    }

    /// The books.
    pub fn book(&self) -> &SyncBook
        ensures is { result.now ≡ self.now.book }
        ensures of_journal { IsOfJournal self.now }
    {
        &self.book
    }

    /// The messages in flight: of each node as many as it has issued cells with a part still to occur.
    pub fn pool(&self) -> &MsgPool
        ensures is { result.now ≡ self.now.pool }
        ensures of_journal { IsOfJournal self.now }
        ensures open_cells { OpenCellsPend self.now }
    {
        &self.pool
    }

    /// How many reads of the node on the counter were issued since its last wait there.
    pub fn landing(&self, node: u32, counter: u32) -> u64
        ensures { result ≡ length (awaited node counter self.now.past) }
    {
        self.reads.count(node, counter)
    }

    /// What the run leaves, with what its nodes left.
    pub fn into_run(self, nodes: NodeResults) -> Run
        ensures journal { reverse result.journal ≡ self.past }
        ensures nodes { result.nodes ≡ nodes }
        ensures memory { result.memory ≡ self.memory }
        ensures of_journal { IsOfJournal self }
    {
        let Fabric {
            memory,
            pool: _,
            book: _,
            reads: _,
            log,
            spare: _,
        } = self;
        Run {
            journal: Journal::from_vec(log.into_entries()),
            nodes,
            memory,
        }
    }
}

/// The journal of a run, what each node left, by number, and the memory.
#[derive(Drop)]
pub struct Run {
    pub journal: Journal,
    pub nodes: NodeResults,
    pub memory: NodeMemory,
}

/// Room in the journal for so many entries, and for two deliveries of each message.
fn room_for(messages: u64, count: u32) -> Result<usize, OutOfMemory>
    ensures { IfOk result (λ room. room ≡ messages * 2 + count) }
{
    let Some(deliveries) = messages.checked_mul(2) else {
        return Err(OutOfMemory);
    };
    let Some(room) = deliveries.checked_add(u64::from(count)) else {
        return Err(OutOfMemory);
    };
    Ok(room as usize)
}
