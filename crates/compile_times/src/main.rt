//! The way of a source from standard input to its code on 16 nodes, as far as the stage whose number is given as a
//! word. It prints a count of what the stage gives.
#![tactic(auto)]

ghost use Rattle.std.specs.Prelude.{◌≤◌, length};
ghost use Rattle.sc_base.specs.declared.limits.TheConstants.{LIMITS};

use core_lower::lower;
use flow_walk::source::flow;
use front_end::accept;
use node_emit::emit;
use sc_base::LIMITS;
use sc_core::CoreProgram;
use sc_io::{ReadSource, read_all};
use sc_isa::listing;
use sc_lexer::lex;
use sc_parser::parse;
use site_graph::Plan;
use splitc_compile::{Compiled, compile};
use sqlite_items::Items;
use std::alloc::Global;
use std::env;
use std::process::ExitCode;

const NODES: u32 = 16;

/// How far the source is brought. From `Core` on each stage has what the ones before it from there have; `Code` is
/// without an analysis and waits for nothing, and `Compiled` has both.
#[derive(Clone, Copy, Debug, PartialEq, Eq)]
enum Stage {
    Read,
    Tokens,
    Tree,
    Accepted,
    Core,
    Flow,
    Code,
    Compiled,
    Listing,
}

/// The stage that the word names, or else the last.
fn stage_of(rt: &HostRuntime) -> Stage {
    let Ok(words) = env::args(rt) else {
        return Stage::Listing;
    };
    let mut numbers = words.skip(1).map(|word| word.parse::<u32>().ok());
    match numbers.next().flatten() {
        Some(0) => Stage::Read,
        Some(1) => Stage::Tokens,
        Some(2) => Stage::Tree,
        Some(3) => Stage::Accepted,
        Some(4) => Stage::Core,
        Some(5) => Stage::Flow,
        Some(6) => Stage::Code,
        Some(7) => Stage::Compiled,
        _ => Stage::Listing,
    }
}

fn main(rt: HostRuntime) -> ExitCode {
    let mut source = ReadSource::new(rt.reader());
    let Ok(bytes) = read_all(rt.alloc(), &mut source, LIMITS.source as usize) else {
        return ExitCode::FAILURE;
    };
    match found(rt.alloc(), stage_of(&rt), bytes.as_slice()) {
        Some(count) => {
            let _ = println!(rt; "{count}");
            ExitCode::SUCCESS
        }
        None => ExitCode::FAILURE,
    }
}

/// How much the stage gives; None where the source is refused, or memory was wanting.
fn found(alloc: Global, stage: Stage, source: &[u8]) -> Option<usize>
    requires { length source.now ≤ LIMITS.source }
{
    match stage {
        Stage::Read => Some(source.len()),
        Stage::Tokens | Stage::Tree => read(alloc, stage, source),
        Stage::Accepted | Stage::Core | Stage::Flow | Stage::Code => drawn(alloc, stage, source),
        Stage::Compiled | Stage::Listing => compiled(alloc, stage, source),
    }
}

/// The tokens of the source, and for `Tree` its tree too.
fn read(alloc: Global, stage: Stage, source: &[u8]) -> Option<usize>
    requires { length source.now ≤ LIMITS.source }
{
    let Ok(lexed) = lex(alloc, source) else {
        return None;
    };
    let tokens = lexed.tokens.as_slice();
    if stage == Stage::Tree {
        let _tree = parse(alloc, tokens).ok()?;
    }
    Some(tokens.len())
}

/// The accepted source, its core tree, and what is made of that.
fn drawn(alloc: Global, stage: Stage, source: &[u8]) -> Option<usize>
    requires { length source.now ≤ LIMITS.source }
{
    let accepted = accept(alloc, source, NODES).ok()?;
    if stage == Stage::Accepted {
        return Some(accepted.layout.count() as usize);
    }
    let core = lower(alloc, &accepted.typed).ok()?;
    if stage == Stage::Core {
        return Some(core.functions.as_slice().len());
    }
    let flow = flow(alloc, &core, NODES).ok()?;
    if stage == Stage::Flow {
        return Some(flow.points.as_slice().len());
    }
    emitted(alloc, &core)
}

/// The code of the core tree under a plan without waits.
fn emitted(alloc: Global, core: &CoreProgram) -> Option<usize> {
    let plan = Plan {
        waits: Items::new(alloc),
        oneway: Items::new(alloc),
    };
    let code = emit(alloc, core, &plan).ok()?;
    Some(code.instrs.as_slice().len())
}

/// The compiled source, and for `Listing` its listing.
fn compiled(alloc: Global, stage: Stage, source: &[u8]) -> Option<usize>
    requires { length source.now ≤ LIMITS.source }
{
    let compiled = compile(alloc, source, NODES).ok()?;
    if stage == Stage::Compiled {
        return Some(compiled.code.instrs.as_slice().len());
    }
    listed(alloc, &compiled)
}

fn listed(alloc: Global, compiled: &Compiled) -> Option<usize> {
    let code = &compiled.code;
    if code.functions.as_slice().len() > code.texts.as_slice().len() {
        return None;
    }
    let text = listing(alloc, code).ok()?;
    Some(text.len())
}
