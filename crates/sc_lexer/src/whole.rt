//! The tokens of a source.

ghost use Rattle.std.specs.Prelude.{◌≡◌, ◌≢◌, ◌+◌, ◌<◌, ◌≤◌, length, OnOk, IfOk, IfErr};
ghost use Rattle.sc_base.specs.declared.limits.TheConstants.{LIMITS};
ghost use Rattle.sc_lexer.specs.Text.{Steps, IsLexed, IsRefused, element_of};

use crate::refusal::LexError;
use crate::scan::Scan;
use sc_tree::Lexed;
use std::alloc::Global;

/// The tokens of the source with their names and formats, or the first bad place.
pub fn lex(alloc: Global, source: &[u8]) -> Result<Lexed, LexError>
    requires { length source.now ≤ LIMITS.source }
    ensures lexed { IfOk result (λ lexed. IsLexed source.now lexed) }
    ensures tokens { IfOk result (λ lexed. length lexed.tokens ≤ LIMITS.tokens) }
    ensures refused { IfErr result (λ error. error ≢ LexError.OutOfMemory → IsRefused source.now error) }
{
    let mut scan = Scan::new(alloc);
    while scan.at() < source.len() {
        step(&mut scan, source)?;
    }
    let lexed = scan.finish()?;
    Ok(lexed)
}

/// Goes past one element.
fn step(scan: &mut Scan, source: &[u8]) -> Result<(), LexError>
    requires small { length source.now ≤ LIMITS.source }
    requires at { scan.old.at < length source.now }
    requires line { scan.old.line ≤ scan.old.at + 1 }
    ensures steps { OnOk result (Steps source.now scan.old scan.new) }
    ensures refused { IfErr result (λ error. error ≢ LexError.OutOfMemory → element_of source.now scan.old ≡ Err error) }
{
    let (_, rest) = source.split_at(scan.at());
    let element = scan.element(rest)?;
    let (piece, _) = rest.split_at(element.size);
    scan.take(piece, element.found)?;
    scan.pass(piece);
    Ok(())
}
