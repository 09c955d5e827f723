//! The steps of one node: what it asks becomes the next entry of the journal, and the node goes on by the answer.

ghost use Rattle.std.specs.Prelude.{◌≡◌, ◌<◌, ◌≤◌, ◌||◌, ℕ, Some, true, false, length, is_some, OnOk};
ghost use Rattle.sc_isa.specs.Sound.{IsSound};
ghost use Rattle.sync_book.specs.Book.{broken_by};
ghost use Rattle.fabric.specs.Causes.{may_pass};
ghost use Rattle.run_moves.specs.Moves.{step_of};
ghost use Rattle.node_machine.specs.declared.node.Asked.TheVariants as event;
ghost use Rattle.run_moves.specs.OfCode.{machine_of};
ghost use Rattle.code_sim.specs.Enough.{Suffices};
ghost use Rattle.code_sim.specs.Asking.{IsRunner};
ghost use Rattle.code_sim.specs.UnderWay.{IsLaid, IsStepped, one_if};

use crate::node::Runner;
use fabric::Fabric;
use node_machine::{Answer, Asked};
use sc_base::{End, OutOfMemory};
use sc_isa::{Access, Code, Landed};
use sc_layout::Layout;
use std::alloc::Global;
use sync_book::SyncBook;

/// Whether the node passes its barrier now.
fn passes(book: &SyncBook, number: u32) -> bool
    requires { number < length book.now.nodes }
    ensures { result ≡ may_pass book.now number }
{
    book.released(number) || book.can_release()
}

/// Whether the node passes its barrier now, or finds it broken.
fn leaves(book: &SyncBook, number: u32) -> bool
    requires { number < length book.now.nodes }
    ensures { result ≡ (may_pass book.now number || is_some (broken_by book.now)) }
{
    passes(book, number) || book.broken().is_some()
}

/// Whether the fabric allows now what the node asks.
pub fn may_step(fabric: &Fabric, runner: &Runner, number: u32, code: &Code, layout: &Layout) -> bool
    requires sound { IsSound code.now layout.now }
    requires laid { IsLaid code.now layout.now fabric.now }
    requires within { number < layout.now.nodes }
    requires runner { IsRunner code.now layout.now runner.now.node.budget fabric.now.past number runner.now }
    ensures { (many : ℕ) → Suffices code.now layout.now runner.now.node.budget many
        → length (step_of (machine_of layout.now code.now runner.now.node.budget many) fabric.now.past number) ≡ one_if result }
{
    let _ = code;
    let _ = layout;
    let book = fabric.book();
    match runner.asks {
        Some(Asked::Wait { counter }) => book.outstanding(number, counter) == 0,
        Some(Asked::Pass) => leaves(book, number),
        Some(Asked::Issue(_)) => true,
        Some(Asked::Arrive { .. }) => true,
        Some(Asked::Finish(_)) => true,
        None => false,
    }
}

fn issue(
    fabric: &mut Fabric,
    runner: &mut Runner,
    number: u32,
    code: &Code,
    layout: &Layout,
    access: Access,
) -> Result<(), OutOfMemory>
    requires sound { IsSound code.now layout.now }
    requires laid { IsLaid code.now layout.now fabric.old }
    requires within { number < layout.now.nodes }
    requires runner { IsRunner code.now layout.now runner.old.node.budget fabric.old.past number runner.old }
    requires asks { runner.old.asks ≡ Some (event.Issue access) }
    ensures { OnOk result (IsStepped code.now layout.now runner.old.node.budget number fabric.old fabric.new runner.new) }
{
    // Read for the proof alone, which learns that the fabric is that of its journal, and the layout lawful.
    let _entries = fabric.entries();
    let _count = layout.count();
    fabric.reserve(Fabric::need(&access))?;
    fabric.issue(number, access);
    runner.go_on(code, layout, Answer::Issued)?;
    Ok(())
}

fn wait(
    alloc: Global,
    fabric: &mut Fabric,
    runner: &mut Runner,
    number: u32,
    code: &Code,
    layout: &Layout,
    counter: u32,
) -> Result<(), OutOfMemory>
    requires sound { IsSound code.now layout.now }
    requires laid { IsLaid code.now layout.now fabric.old }
    requires within { number < layout.now.nodes }
    requires runner { IsRunner code.now layout.now runner.old.node.budget fabric.old.past number runner.old }
    requires asks { runner.old.asks ≡ Some (event.Wait counter) }
    requires allowed { (many : ℕ) → Suffices code.now layout.now runner.old.node.budget many
        → length (step_of (machine_of layout.now code.now runner.old.node.budget many) fabric.old.past number) ≡ 1 }
    ensures { OnOk result (IsStepped code.now layout.now runner.old.node.budget number fabric.old fabric.new runner.new) }
{
    let _entries = fabric.entries();
    let mut landed = Landed::new(alloc);
    landed.reserve(fabric.landing(number, counter))?;
    fabric.reserve(1)?;
    fabric.try_wait(number, counter, &mut landed);
    runner.go_on(code, layout, Answer::Landed(landed))?;
    Ok(())
}

fn arrive(
    fabric: &mut Fabric,
    runner: &mut Runner,
    number: u32,
    code: &Code,
    layout: &Layout,
    stores: bool,
) -> Result<(), OutOfMemory>
    requires sound { IsSound code.now layout.now }
    requires laid { IsLaid code.now layout.now fabric.old }
    requires within { number < layout.now.nodes }
    requires runner { IsRunner code.now layout.now runner.old.node.budget fabric.old.past number runner.old }
    requires asks { runner.old.asks ≡ Some (event.Arrive stores) }
    ensures { OnOk result (IsStepped code.now layout.now runner.old.node.budget number fabric.old fabric.new runner.new) }
{
    let _entries = fabric.entries();
    fabric.reserve(1)?;
    fabric.arrive(number, stores);
    runner.go_on(code, layout, Answer::Arrived)?;
    Ok(())
}

/// The node passes its barrier.
fn pass(
    fabric: &mut Fabric,
    runner: &mut Runner,
    number: u32,
    code: &Code,
    layout: &Layout,
) -> Result<(), OutOfMemory>
    requires sound { IsSound code.now layout.now }
    requires laid { IsLaid code.now layout.now fabric.old }
    requires within { number < layout.now.nodes }
    requires runner { IsRunner code.now layout.now runner.old.node.budget fabric.old.past number runner.old }
    requires asks { runner.old.asks ≡ Some event.Pass }
    requires allowed { may_pass fabric.old.book number ≡ true }
    ensures { OnOk result (IsStepped code.now layout.now runner.old.node.budget number fabric.old fabric.new runner.new) }
{
    let _entries = fabric.entries();
    fabric.reserve(1)?;
    fabric.try_pass(number);
    runner.go_on(code, layout, Answer::Passed)?;
    Ok(())
}

/// The node gives up at its barrier, which is broken.
fn give_up(
    fabric: &mut Fabric,
    runner: &mut Runner,
    number: u32,
    code: &Code,
    layout: &Layout,
) -> Result<(), OutOfMemory>
    requires sound { IsSound code.now layout.now }
    requires laid { IsLaid code.now layout.now fabric.old }
    requires within { number < layout.now.nodes }
    requires runner { IsRunner code.now layout.now runner.old.node.budget fabric.old.past number runner.old }
    requires asks { runner.old.asks ≡ Some event.Pass }
    requires stays { may_pass fabric.old.book number ≡ false }
    requires allowed { (many : ℕ) → Suffices code.now layout.now runner.old.node.budget many
        → length (step_of (machine_of layout.now code.now runner.old.node.budget many) fabric.old.past number) ≡ 1 }
    ensures { OnOk result (IsStepped code.now layout.now runner.old.node.budget number fabric.old fabric.new runner.new) }
{
    let _entries = fabric.entries();
    fabric.reserve(1)?;
    fabric.finish(number, End::Waiting);
    runner.give_up(code, layout)?;
    Ok(())
}

fn pass_or_give_up(
    fabric: &mut Fabric,
    runner: &mut Runner,
    number: u32,
    code: &Code,
    layout: &Layout,
) -> Result<(), OutOfMemory>
    requires sound { IsSound code.now layout.now }
    requires laid { IsLaid code.now layout.now fabric.old }
    requires within { number < layout.now.nodes }
    requires runner { IsRunner code.now layout.now runner.old.node.budget fabric.old.past number runner.old }
    requires asks { runner.old.asks ≡ Some event.Pass }
    requires allowed { (many : ℕ) → Suffices code.now layout.now runner.old.node.budget many
        → length (step_of (machine_of layout.now code.now runner.old.node.budget many) fabric.old.past number) ≡ 1 }
    ensures { OnOk result (IsStepped code.now layout.now runner.old.node.budget number fabric.old fabric.new runner.new) }
{
    if passes(fabric.book(), number) {
        pass(fabric, runner, number, code, layout)?;
    } else {
        give_up(fabric, runner, number, code, layout)?;
    }
    Ok(())
}

fn finish(
    fabric: &mut Fabric,
    runner: &mut Runner,
    number: u32,
    code: &Code,
    layout: &Layout,
    end: End,
) -> Result<(), OutOfMemory>
    requires sound { IsSound code.now layout.now }
    requires laid { IsLaid code.now layout.now fabric.old }
    requires within { number < layout.now.nodes }
    requires runner { IsRunner code.now layout.now runner.old.node.budget fabric.old.past number runner.old }
    requires asks { runner.old.asks ≡ Some (event.Finish end) }
    ensures { OnOk result (IsStepped code.now layout.now runner.old.node.budget number fabric.old fabric.new runner.new) }
{
    let _ = code;
    let _ = layout;
    let _entries = fabric.entries();
    fabric.reserve(1)?;
    fabric.finish(number, end);
    runner.finish();
    Ok(())
}

/// The node takes the step that it asks for, which is allowed.
pub fn step(
    alloc: Global,
    fabric: &mut Fabric,
    runner: &mut Runner,
    number: u32,
    code: &Code,
    layout: &Layout,
) -> Result<(), OutOfMemory>
    requires sound { IsSound code.now layout.now }
    requires laid { IsLaid code.now layout.now fabric.old }
    requires within { number < layout.now.nodes }
    requires runner { IsRunner code.now layout.now runner.old.node.budget fabric.old.past number runner.old }
    requires allowed { (many : ℕ) → Suffices code.now layout.now runner.old.node.budget many
        → length (step_of (machine_of layout.now code.now runner.old.node.budget many) fabric.old.past number) ≡ 1 }
    ensures { OnOk result (IsStepped code.now layout.now runner.old.node.budget number fabric.old fabric.new runner.new) }
{
    match runner.asks {
        Some(Asked::Issue(access)) => issue(fabric, runner, number, code, layout, access)?,
        Some(Asked::Wait { counter }) => {
            wait(alloc, fabric, runner, number, code, layout, counter)?
        }
        Some(Asked::Arrive { stores }) => arrive(fabric, runner, number, code, layout, stores)?,
        Some(Asked::Pass) => pass_or_give_up(fabric, runner, number, code, layout)?,
        Some(Asked::Finish(end)) => finish(fabric, runner, number, code, layout, end)?,
        None => unreachable!(),
    }
    Ok(())
}
