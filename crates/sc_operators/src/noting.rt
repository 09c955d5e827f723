//! Notes which rules are broken in what is made of judged expressions.

ghost use Rattle.std.specs.Prelude.{◌≡◌, IfOk};
ghost use Rattle.sc_typing.proofs.ExpressionNotes as notes_of;
ghost use Rattle.sc_typing.specs.ViewKnown.{seen_judged};

use sc_base::{Binary, Unary};
use sc_typing::known::{Judged, Spot};
use sc_typing::notes::Notes;
use sc_typing::{Rule, rules};
use std::alloc::AllocError;

/// The value is used.
#[tactic(auto, unfolding(sc_typing::proofs::ExpressionNotes::note_used))]
pub fn note_used(notes: &mut Notes, judged: &Judged) -> Result<(), AllocError>
    ensures { IfOk result (λ _. notes.new ≡ notes_of.note_used (seen_judged judged.now) notes.old) }
{
    notes.demand(rules::are_scalar(&judged.known), judged.start, Rule::Use)?;
    Ok(())
}

/// The value is used and tested.
#[tactic(auto, unfolding(sc_typing::proofs::ExpressionNotes::note_tested))]
pub fn note_tested(notes: &mut Notes, judged: &Judged) -> Result<(), AllocError>
    ensures { IfOk result (λ _. notes.new ≡ notes_of.note_tested (seen_judged judged.now) notes.old) }
{
    note_used(notes, judged)?;
    notes.demand(rules::are_scalar(&judged.known), judged.start, Rule::Test)?;
    Ok(())
}

/// The value is used, and a rule on it, kept or not, stands at the token.
#[tactic(auto, unfolding(sc_typing::proofs::ExpressionNotes::note_one))]
pub fn note_one(
    notes: &mut Notes,
    judged: &Judged,
    kept: bool,
    at: u32,
    rule: Rule,
) -> Result<(), AllocError>
    ensures { IfOk result (λ _. notes.new ≡ notes_of.note_one (seen_judged judged.now) kept at rule notes.old) }
{
    note_used(notes, judged)?;
    notes.demand(kept, at, rule)?;
    Ok(())
}

/// Two values are used, and a rule on both, kept or not, stands at the token.
#[tactic(auto, unfolding(sc_typing::proofs::ExpressionNotes::note_two))]
pub fn note_two(
    notes: &mut Notes,
    left: &Judged,
    right: &Judged,
    kept: bool,
    at: u32,
    rule: Rule,
) -> Result<(), AllocError>
    ensures { IfOk result (λ _. notes.new ≡ notes_of.note_two (seen_judged left.now) (seen_judged right.now) kept at rule notes.old) }
{
    note_used(notes, left)?;
    note_used(notes, right)?;
    notes.demand(kept, at, rule)?;
    Ok(())
}

/// An operand of `!`, `-` or `~`.
pub fn note_prefix(
    notes: &mut Notes,
    op: Unary,
    judged: &Judged,
    spot: Spot,
) -> Result<(), AllocError>
    ensures { IfOk result (λ _. notes.new ≡ notes_of.note_prefix op (seen_judged judged.now) spot notes.old) }
{
    match op {
        Unary::Not => note_tested(notes, judged)?,
        Unary::Minus | Unary::Invert => {
            note_one(
                notes,
                judged,
                rules::are_int(&judged.known),
                spot.at,
                Rule::Ints,
            )?;
        }
    }
    Ok(())
}

/// The sides of an assignment.
pub fn note_set(
    notes: &mut Notes,
    op: Option<Binary>,
    left: &Judged,
    right: &Judged,
    spot: Spot,
) -> Result<(), AllocError>
    ensures { IfOk result (λ _. notes.new ≡ notes_of.note_set op (seen_judged left.now) (seen_judged right.now) spot notes.old) }
{
    match op {
        None => note_two(
            notes,
            left,
            right,
            rules::assignment_kept(left, right),
            spot.at,
            Rule::Assignment,
        )?,
        Some(op) => note_two(
            notes,
            left,
            right,
            rules::update_kept(op, left, right),
            spot.at,
            Rule::Update,
        )?,
    }
    Ok(())
}

/// The parts of a `?:`.
#[tactic(auto, unfolding(sc_typing::proofs::ExpressionNotes::note_choice))]
pub fn note_choice(
    notes: &mut Notes,
    test: &Judged,
    on: &Judged,
    off: &Judged,
    spot: Spot,
) -> Result<(), AllocError>
    ensures { IfOk result (λ _. notes.new ≡ notes_of.note_choice (seen_judged test.now) (seen_judged on.now) (seen_judged off.now) spot notes.old) }
{
    note_tested(notes, test)?;
    let kept = rules::arms_kept(&on.known, &off.known);
    note_two(notes, on, off, kept, spot.at, Rule::Use)?;
    Ok(())
}
