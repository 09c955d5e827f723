//! Locals that statements declare, with types and notes of what is broken in them.

ghost use Rattle.std.specs.Prelude.{◌≡◌, ◌+◌, ◌++◌, ◌∷◌, [], map, IfOk};
ghost use Rattle.std.specs.Option.{option_map};
ghost use Rattle.sc_tree.specs.View.{plain};
ghost use Rattle.sc_tree.specs.ViewStmt.{declared};
ghost use Rattle.sc_tree.specs.ViewTyped.{plain_typed};
ghost use Rattle.sc_tree.specs.ViewTypedStmt.{typed_declared};
ghost use Rattle.sc_typing.specs.Notes.{Noted};
ghost use Rattle.sc_typing.specs.NameRules as name_rules;
ghost use Rattle.sc_typing.proofs.StatementNotes as notes_of;
ghost use Rattle.sc_typing.specs.Statements as typed;
ghost use Rattle.sc_typing.specs.ViewSource.{source_of};

use crate::statements::Body;
use crate::values::unboxed;
use sc_base::{Ty, copy_of_type};
use sc_operators::noting::note_one;
use sc_tree::{Expr, Local, TypedExpr, TypedLocal};
use sc_typing::Rule;
use sc_typing::file::File;
use sc_typing::notes::Notes;
use sc_typing::rules::fit;
use sc_typing::scope::Scope;
use sqlite_items::Boxed;
use std::alloc::AllocError;

/// Whether the library leaves the name free.
pub fn is_free(file: &File<'_>, name: u32) -> bool
    ensures { result ≡ name_rules.not_of_library (source_of file.now) name }
{
    match file.library(name) {
        None => true,
        Some(_) => false,
    }
}

/// The rules on the name that is declared at the token, in a block that began where so many locals were in scope.
#[tactic(auto, unfolding(sc_typing::proofs::StatementNotes::note_declared))]
pub fn note_declared(
    file: &File<'_>,
    scope: &Scope,
    notes: &mut Notes,
    from: usize,
    name: u32,
    at: u32,
) -> Result<(), AllocError>
    ensures { IfOk result (λ _. notes.new
        ≡ notes_of.note_declared (source_of file.now) from name at scope.now notes.old) }
{
    notes.demand(!scope.declared_since(from, name), at, Rule::DeclaredOnce)?;
    notes.demand(is_free(file, name), at, Rule::LibraryName)?;
    Ok(())
}

/// The next token.
pub fn token_behind(at: u32) -> Result<u32, AllocError>
    ensures { IfOk result (λ next. next ≡ at + 1) }
{
    match at.checked_add(1) {
        Some(next) => Ok(next),
        None => Err(AllocError),
    }
}

impl Body<'_> {
    /// What a local of this type, whose name is the token, begins with.
    fn initial(
        &self,
        scope: &Scope,
        notes: &mut Notes,
        ty: &Ty,
        at: u32,
        expression: &Option<Expr>,
    ) -> Result<Option<Boxed<TypedExpr>>, AllocError>
        ensures { Noted (option_map plain_typed) result
            (typed.typed_initial (source_of self.now.file) scope.now ty.now (option_map plain expression.now)) notes.new
            (notes_of.note_initial (source_of self.now.file) scope.now ty.now at (option_map plain expression.now) notes.old) }
    {
        let Some(expression) = expression else {
            return Ok(None);
        };
        let judged = self.judge(scope, notes, expression)?;
        note_one(
            notes,
            &judged,
            fit(&judged.known, ty),
            token_behind(at)?,
            Rule::Assignment,
        )?;
        let made = judged.met(self.alloc, ty)?;
        Ok(Some(made))
    }

    /// The local, which its own initial value does not see.
    #[tactic(auto, unfolding(sc_typing::specs::Statements::typed_local, sc_typing::proofs::StatementNotes::note_local))]
    fn local(
        &self,
        scope: &Scope,
        notes: &mut Notes,
        from: usize,
        local: &Local,
    ) -> Result<TypedLocal, AllocError>
        ensures { Noted typed_declared result (typed.typed_local (source_of self.now.file) scope.now (declared local.now))
            notes.new (notes_of.note_local (source_of self.now.file) from scope.now (declared local.now) notes.old) }
    {
        let init = self.initial(scope, notes, &local.ty, local.at, &local.init)?;
        note_declared(&self.file, scope, notes, from, local.name, local.at)?;
        let ty = copy_of_type(self.alloc, &local.ty)?;
        Ok(TypedLocal {
            name: local.name,
            ty,
            init: unboxed(init),
            at: local.at,
            line: local.line,
        })
    }

    /// One more local, which is in scope behind it.
    fn push_local(
        &self,
        scope: &mut Scope,
        notes: &mut Notes,
        from: usize,
        it: &Local,
        all: &mut Vec<TypedLocal>,
    ) -> Result<(), AllocError>
        ensures typed { IfOk result (λ _. map typed_declared all.new.items
            ≡ map typed_declared all.old.items ++ typed.typed_local (source_of self.now.file) scope.old
            (declared it.now) ∷ []) }
        ensures scope { IfOk result (λ _. scope.new ≡ typed.after_declared scope.old (declared it.now)) }
        ensures notes { IfOk result (λ _. notes.new
            ≡ notes_of.note_local (source_of self.now.file) from scope.old (declared it.now) notes.old) }
    {
        let local = self.local(scope, notes, from, it)?;
        all.push(local)?;
        scope.declare(self.alloc, Some(it.name), &it.ty)?;
        Ok(())
    }

    /// The locals of a declaration, in a block that began where so many locals were in scope.
    pub fn locals(
        &self,
        scope: &mut Scope,
        notes: &mut Notes,
        from: usize,
        locals: &[Local],
    ) -> Result<Vec<TypedLocal>, AllocError>
        ensures typed { IfOk result (λ made. map typed_declared made.items
            ≡ typed.typed_locals (source_of self.now.file) scope.old (map declared locals.now)) }
        ensures scope { IfOk result (λ _. scope.new ≡ typed.after_locals scope.old (map declared locals.now)) }
        ensures notes { IfOk result (λ _. notes.new
            ≡ notes_of.note_locals (source_of self.now.file) from scope.old (map declared locals.now) notes.old) }
    {
        let mut all = Vec::new(self.alloc);
        for l in locals {
            self.push_local(scope, notes, from, l, &mut all)?;
        }
        Ok(all)
    }
}
