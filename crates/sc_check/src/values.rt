//! Expressions that statements use, with types and notes of what is broken in them.

ghost use Rattle.std.specs.Prelude.{◌≡◌, IfOk};
ghost use Rattle.std.specs.Option.{option_map};
ghost use Rattle.sc_tree.specs.View.{plain};
ghost use Rattle.sc_tree.specs.ViewTyped.{plain_typed};
ghost use Rattle.sc_typing.proofs.ExpressionNotes as expression_notes;
ghost use Rattle.sc_typing.specs.Notes.{Noted};
ghost use Rattle.sc_typing.proofs.StatementNotes as notes_of;
ghost use Rattle.sc_typing.specs.Statements as typed;
ghost use Rattle.sc_typing.specs.Typing as typing;
ghost use Rattle.sc_typing.specs.ViewKnown.{seen, seen_judged};
ghost use Rattle.sc_typing.specs.ViewSource.{source_of};

use crate::statements::Body;
use sc_base::Ty;
use sc_judge::expressions::Sight;
use sc_operators::noting::{note_one, note_tested, note_used};
use sc_tree::{Expr, TypedExpr};
use sc_typing::Rule;
use sc_typing::known::{Judged, Known};
use sc_typing::notes::Notes;
use sc_typing::places::{PlaceKind, may_be_global};
use sc_typing::rules::are_int;
use sc_typing::scope::Scope;
use sqlite_items::Boxed;
use std::alloc::{AllocError, Global};

/// The right side of a split-phase assignment whose left side is this place.
pub fn sent(
    alloc: Global,
    place: PlaceKind,
    left: &Option<Known>,
    right: Judged,
) -> Result<Boxed<TypedExpr>, AllocError>
    ensures { IfOk result (λ e. plain_typed e ≡ typed.sent_as place (option_map seen left.now) (seen_judged right)) }
{
    let Some(known) = left else {
        let e = right.into_expr(alloc)?;
        return Ok(e);
    };
    if may_be_global(place) {
        let e = right.met(alloc, &known.ty)?;
        return Ok(e);
    }
    let e = right.into_expr(alloc)?;
    Ok(e)
}

/// The expression itself, where there is one.
pub fn unboxed(expression: Option<Boxed<TypedExpr>>) -> Option<TypedExpr>
    ensures { option_map plain_typed result ≡ option_map plain_typed expression }
{
    match expression {
        None => None,
        Some(expression) => Some(expression.into_inner()),
    }
}

impl Body<'_> {
    /// Judges the expression in the scope, and notes what is broken in it. The error is want of memory.
    pub fn judge(
        &self,
        scope: &Scope,
        notes: &mut Notes,
        expression: &Expr,
    ) -> Result<Judged, AllocError>
        ensures { Noted seen_judged result (typing.judge (source_of self.now.file) scope.now.locals 0 (plain expression.now))
            notes.new (expression_notes.note_value (source_of self.now.file) scope.now.locals 0
            (plain expression.now) notes.old) }
    {
        let sight = Sight {
            alloc: self.alloc,
            file: self.file,
            scope,
        };
        let judged = sight.value(notes, 0, expression)?;
        Ok(judged)
    }

    /// An expression whose value nothing uses.
    #[tactic(auto, unfolding(sc_typing::specs::Statements::typed_value))]
    pub fn dropped(
        &self,
        scope: &Scope,
        notes: &mut Notes,
        expression: &Expr,
    ) -> Result<Boxed<TypedExpr>, AllocError>
        ensures { Noted plain_typed result (typed.typed_value (source_of self.now.file) scope.now (plain expression.now))
            notes.new (expression_notes.note_value (source_of self.now.file) scope.now.locals 0
            (plain expression.now) notes.old) }
    {
        let judged = self.judge(scope, notes, expression)?;
        let made = judged.into_expr(self.alloc)?;
        Ok(made)
    }

    /// An expression of which the value is used.
    #[tactic(auto, unfolding(sc_typing::specs::Statements::typed_value, sc_typing::proofs::StatementNotes::note_used_value))]
    pub fn used(
        &self,
        scope: &Scope,
        notes: &mut Notes,
        expression: &Expr,
    ) -> Result<Boxed<TypedExpr>, AllocError>
        ensures { Noted plain_typed result (typed.typed_value (source_of self.now.file) scope.now (plain expression.now))
            notes.new (notes_of.note_used_value (source_of self.now.file) scope.now (plain expression.now) notes.old) }
    {
        let judged = self.judge(scope, notes, expression)?;
        note_used(notes, &judged)?;
        let made = judged.into_expr(self.alloc)?;
        Ok(made)
    }

    /// An expression that is tested.
    #[tactic(auto, unfolding(sc_typing::specs::Statements::typed_value, sc_typing::proofs::StatementNotes::note_test))]
    pub fn test(
        &self,
        scope: &Scope,
        notes: &mut Notes,
        expression: &Expr,
    ) -> Result<Boxed<TypedExpr>, AllocError>
        ensures { Noted plain_typed result (typed.typed_value (source_of self.now.file) scope.now (plain expression.now))
            notes.new (notes_of.note_test (source_of self.now.file) scope.now (plain expression.now) notes.old) }
    {
        let judged = self.judge(scope, notes, expression)?;
        note_tested(notes, &judged)?;
        let made = judged.into_expr(self.alloc)?;
        Ok(made)
    }

    /// The bound of a `for_my_1d`.
    #[tactic(auto, unfolding(sc_typing::specs::Statements::typed_value, sc_typing::proofs::StatementNotes::note_bound))]
    pub fn bound(
        &self,
        scope: &Scope,
        notes: &mut Notes,
        expression: &Expr,
    ) -> Result<Boxed<TypedExpr>, AllocError>
        ensures { Noted plain_typed result (typed.typed_value (source_of self.now.file) scope.now (plain expression.now))
            notes.new (notes_of.note_bound (source_of self.now.file) scope.now (plain expression.now) notes.old) }
    {
        let judged = self.judge(scope, notes, expression)?;
        note_one(
            notes,
            &judged,
            are_int(&judged.known),
            judged.start,
            Rule::Use,
        )?;
        let made = judged.into_expr(self.alloc)?;
        Ok(made)
    }

    /// An expression that may be left out, of which the value is used.
    pub fn used_if(
        &self,
        scope: &Scope,
        notes: &mut Notes,
        expression: &Option<Expr>,
    ) -> Result<Option<Boxed<TypedExpr>>, AllocError>
        ensures { Noted (option_map plain_typed) result
            (typed.typed_if (source_of self.now.file) scope.now (option_map plain expression.now)) notes.new
            (notes_of.note_used_if (source_of self.now.file) scope.now (option_map plain expression.now) notes.old) }
    {
        let Some(expression) = expression else {
            return Ok(None);
        };
        let made = self.used(scope, notes, expression)?;
        Ok(Some(made))
    }

    /// An expression that may be left out and is tested.
    pub fn test_if(
        &self,
        scope: &Scope,
        notes: &mut Notes,
        expression: &Option<Expr>,
    ) -> Result<Option<Boxed<TypedExpr>>, AllocError>
        ensures { Noted (option_map plain_typed) result
            (typed.typed_if (source_of self.now.file) scope.now (option_map plain expression.now)) notes.new
            (notes_of.note_test_if (source_of self.now.file) scope.now (option_map plain expression.now) notes.old) }
    {
        let Some(expression) = expression else {
            return Ok(None);
        };
        let made = self.test(scope, notes, expression)?;
        Ok(Some(made))
    }
}
