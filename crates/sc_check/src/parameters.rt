//! Parameters, with types and notes of what is broken in them.

ghost use Rattle.std.specs.Prelude.{◌≡◌, map, IfOk};
ghost use Rattle.sc_typing.specs.Program as program;
ghost use Rattle.sc_typing.proofs.ProgramNotes as notes_of;
ghost use Rattle.sc_typing.specs.Scope.{nothing_in_scope};
ghost use Rattle.sc_typing.specs.ViewSource.{source_of};

use crate::declarations::{note_declared, token_behind};
use sc_base::{Star, Ty, copy_of_type};
use sc_tree::{Param, TypedParam};
use sc_typing::Rule;
use sc_typing::file::File;
use sc_typing::notes::Notes;
use sc_typing::scope::Scope;
use std::alloc::{AllocError, Global};

/// How many tokens the stars are.
fn star_tokens(stars: &[Star]) -> Result<u32, AllocError>
    ensures { IfOk result (λ n. n ≡ program.star_tokens stars.now) }
{
    let mut count: u32 = 0;
    for star in stars {
        let more = match *star {
            Star::Local => 1,
            Star::Global | Star::Spread => 2,
        };
        let Some(sum) = count.checked_add(more) else {
            return Err(AllocError);
        };
        count = sum;
    }
    Ok(count)
}

/// The token of the parameter's name.
fn name_token(parameter: &Param) -> Result<u32, AllocError>
    ensures { IfOk result (λ at. at ≡ program.name_token parameter.now) }
{
    let stars = star_tokens(parameter.ty.stars.as_slice())?;
    let Some(last) = parameter.at.checked_add(stars) else {
        return Err(AllocError);
    };
    let token = token_behind(last)?;
    Ok(token)
}

fn note_name(
    file: &File<'_>,
    scope: &Scope,
    notes: &mut Notes,
    parameter: &Param,
) -> Result<(), AllocError>
    ensures { IfOk result (λ _. notes.new
        ≡ notes_of.note_parameter_name (source_of file.now) parameter.now scope.now parameter.now.name notes.old) }
{
    let Some(name) = parameter.name else {
        return Ok(());
    };
    let at = name_token(parameter)?;
    note_declared(file, scope, notes, 0, name, at)?;
    Ok(())
}

/// The rules on a parameter, of a definition or of a prototype.
#[tactic(auto, unfolding(sc_typing::proofs::ProgramNotes::note_parameter))]
fn note_parameter(
    file: &File<'_>,
    scope: &Scope,
    notes: &mut Notes,
    defined: bool,
    parameter: &Param,
) -> Result<(), AllocError>
    ensures { IfOk result (λ _. notes.new
        ≡ notes_of.note_parameter (source_of file.now) defined scope.now parameter.now notes.old) }
{
    notes.demand(
        !defined || parameter.name.is_some(),
        parameter.at,
        Rule::Prototype,
    )?;
    note_name(file, scope, notes, parameter)?;
    Ok(())
}

/// One more parameter, which is in scope behind it.
#[tactic(auto, unfolding(sc_typing::specs::Program::after_parameter))]
fn add_parameter(
    alloc: Global,
    file: &File<'_>,
    scope: &mut Scope,
    notes: &mut Notes,
    defined: bool,
    parameter: &Param,
) -> Result<(), AllocError>
    ensures scope { IfOk result (λ _. scope.new ≡ program.after_parameter scope.old parameter.now) }
    ensures notes { IfOk result (λ _. notes.new
        ≡ notes_of.note_parameter (source_of file.now) defined scope.old parameter.now notes.old) }
{
    note_parameter(file, scope, notes, defined, parameter)?;
    scope.declare(alloc, parameter.name, &parameter.ty)?;
    Ok(())
}

/// The scope behind the parameters of a definition or of a prototype.
pub fn scope_of(
    alloc: Global,
    file: &File<'_>,
    notes: &mut Notes,
    defined: bool,
    params: &[Param],
) -> Result<Scope, AllocError>
    ensures scope { IfOk result (λ scope. scope ≡ program.after_parameters nothing_in_scope params.now) }
    ensures notes { IfOk result (λ _. notes.new
        ≡ notes_of.note_parameters (source_of file.now) defined nothing_in_scope params.now notes.old) }
{
    let mut scope = Scope::new(alloc);
    for p in params {
        add_parameter(alloc, file, &mut scope, notes, defined, p)?;
    }
    Ok(scope)
}

fn typed_param(alloc: Global, parameter: &Param) -> Result<TypedParam, AllocError>
    ensures { IfOk result (λ made. made ≡ program.typed_param parameter.now) }
{
    let ty = copy_of_type(alloc, &parameter.ty)?;
    Ok(TypedParam {
        name: parameter.name,
        ty,
        at: parameter.at,
    })
}

/// The parameters as parts of the typed tree. The error is want of memory.
pub fn typed_params(alloc: Global, params: &[Param]) -> Result<Vec<TypedParam>, AllocError>
    ensures { IfOk result (λ made. made.items ≡ map program.typed_param params.now) }
{
    let mut made = Vec::new(alloc);
    for p in params {
        made.push(typed_param(alloc, p)?)?;
    }
    Ok(made)
}

/// The types of the parameters, in their order. The error is want of memory.
pub fn types_of(alloc: Global, params: &[Param]) -> Result<Vec<Ty>, AllocError>
    ensures { IfOk result (λ made. made.items ≡ program.types_of params.now) }
{
    let mut made = Vec::new(alloc);
    for p in params {
        made.push(copy_of_type(alloc, &p.ty)?)?;
    }
    Ok(made)
}
