//! Functions and objects of a file, with types and notes of what is broken in them.

ghost use Rattle.std.specs.Prelude.{◌≡◌, ◌++◌, ◌∷◌, [], map, IfOk};
ghost use Rattle.std.specs.Option.{option_map};
ghost use Rattle.sc_typing.specs.Program as program;
ghost use Rattle.sc_typing.proofs.ProgramNotes as notes_of;
ghost use Rattle.sc_typing.specs.ViewSource.{source_of};
ghost use Rattle.sc_tree.specs.ViewTree.{plain_block, plain_function, plain_tree};
ghost use Rattle.sc_tree.specs.ViewTypedTree.{plain_typed_block, plain_typed_function};

use crate::declarations::is_free;
use crate::file_scope::{is_defined, is_earlier, note_main, note_objects};
use crate::parameters::{scope_of, typed_params, types_of};
use crate::statements::Body;
use sc_base::copy_of_type;
use sc_tree::{Function, Stmt, Tree, TypedFunction, TypedStmt};
use sc_typing::Rule;
use sc_typing::file::{Definition, File, number_of};
use sc_typing::notes::Notes;
use sqlite_items::Items;
use std::alloc::{AllocError, Global};

/// The function as a definition, whether it has a body or not.
fn definition_of(alloc: Global, function: &Function) -> Result<Definition, AllocError>
    ensures { IfOk result (λ made. made ≡ program.definition_of (plain_function function.now)) }
{
    let result = copy_of_type(alloc, &function.result)?;
    let params = types_of(alloc, function.params.as_slice())?;
    Ok(Definition {
        name: function.name,
        at: function.at,
        result,
        params: Items::from_vec(params),
    })
}

/// Adds the function, where it has a body.
fn push_definition(
    alloc: Global,
    all: &mut Vec<Definition>,
    function: &Function,
) -> Result<(), AllocError>
    ensures { IfOk result (λ _. all.new.items
        ≡ all.old.items ++ program.definition_if (option_map plain_block function.now.body)
        (program.definition_of (plain_function function.now)) []) }
{
    if function.body.is_none() {
        return Ok(());
    }
    all.push(definition_of(alloc, function)?)?;
    Ok(())
}

/// The function definitions in text order.
#[tactic(auto, using(crate::proofs::Definitions::definition_added))]
pub fn definitions_of(alloc: Global, functions: &[Function]) -> Result<Vec<Definition>, AllocError>
    ensures { IfOk result (λ made. made.items ≡ program.definitions_of (map plain_function functions.now)) }
{
    let mut all = Vec::new(alloc);
    for f in functions {
        push_definition(alloc, &mut all, f)?;
    }
    Ok(all)
}

/// The rules on a prototype.
fn note_prototype(
    alloc: Global,
    file: &File<'_>,
    notes: &mut Notes,
    function: &Function,
) -> Result<(), AllocError>
    ensures { IfOk result (λ _. notes.new
        ≡ notes_of.note_body (source_of file.now) (plain_function function.now) None notes.old) }
{
    let prototype = definition_of(alloc, function)?;
    notes.demand(is_defined(file, &prototype), function.at, Rule::Prototype)?;
    let _scope = scope_of(alloc, file, notes, false, function.params.as_slice())?;
    Ok(())
}

/// The body of a definition.
fn defined_body(
    alloc: Global,
    file: &File<'_>,
    notes: &mut Notes,
    function: &Function,
    all: &[Stmt],
) -> Result<Vec<TypedStmt>, AllocError>
    ensures typed { IfOk result (λ made. Some (plain_typed_block made.items)
        ≡ program.typed_body (source_of file.now) (plain_function function.now) (Some (plain_block all.now))) }
    ensures notes { IfOk result (λ _. notes.new
        ≡ notes_of.note_body (source_of file.now) (plain_function function.now) (Some (plain_block all.now)) notes.old) }
{
    notes.demand(
        !is_earlier(file, function.name, function.at),
        function.at,
        Rule::DeclaredOnce,
    )?;
    let mut scope = scope_of(alloc, file, notes, true, function.params.as_slice())?;
    let body = Body {
        alloc,
        file: *file,
        result: &function.result,
    };
    let made = body.sequence(&mut scope, notes, false, 0, all)?;
    Ok(made)
}

/// The body, where there is one.
fn body_of(
    alloc: Global,
    file: &File<'_>,
    notes: &mut Notes,
    function: &Function,
) -> Result<Option<Items<TypedStmt>>, AllocError>
    ensures typed { IfOk result (λ made. option_map plain_typed_block made
        ≡ program.typed_body (source_of file.now) (plain_function function.now) (option_map plain_block function.now.body)) }
    ensures notes { IfOk result (λ _. notes.new
        ≡ notes_of.note_body (source_of file.now) (plain_function function.now)
        (option_map plain_block function.now.body) notes.old) }
{
    let Some(all) = &function.body else {
        note_prototype(alloc, file, notes, function)?;
        return Ok(None);
    };
    let made = defined_body(alloc, file, notes, function, all.as_slice())?;
    Ok(Some(Items::from_vec(made)))
}

/// The function or prototype.
#[tactic(auto, unfolding(sc_typing::specs::Program::typed_function, sc_typing::proofs::ProgramNotes::note_function))]
fn function_of(
    alloc: Global,
    file: &File<'_>,
    notes: &mut Notes,
    function: &Function,
) -> Result<TypedFunction, AllocError>
    ensures typed { IfOk result (λ made. plain_typed_function made
        ≡ program.typed_function (source_of file.now) (plain_function function.now)) }
    ensures notes { IfOk result (λ _. notes.new
        ≡ notes_of.note_function (source_of file.now) (plain_function function.now) notes.old) }
{
    let result = copy_of_type(alloc, &function.result)?;
    let params = typed_params(alloc, function.params.as_slice())?;
    notes.demand(is_free(file, function.name), function.at, Rule::LibraryName)?;
    let body = body_of(alloc, file, notes, function)?;
    Ok(TypedFunction {
        name: function.name,
        result,
        params: Items::from_vec(params),
        body,
        at: function.at,
        line: function.line,
    })
}

/// The functions with types.
pub fn functions_of(
    alloc: Global,
    file: &File<'_>,
    notes: &mut Notes,
    functions: &[Function],
) -> Result<Vec<TypedFunction>, AllocError>
    ensures typed { IfOk result (λ made. map plain_typed_function made.items
        ≡ map (program.typed_function (source_of file.now)) (map plain_function functions.now)) }
    ensures notes { IfOk result (λ _. notes.new
        ≡ notes_of.note_functions (source_of file.now) (map plain_function functions.now) notes.old) }
{
    let mut made = Vec::new(alloc);
    for f in functions {
        push_function(alloc, file, notes, f, &mut made)?;
    }
    Ok(made)
}

fn push_function(
    alloc: Global,
    file: &File<'_>,
    notes: &mut Notes,
    function: &Function,
    made: &mut Vec<TypedFunction>,
) -> Result<(), AllocError>
    ensures typed { IfOk result (λ _. map plain_typed_function made.new.items
        ≡ map plain_typed_function made.old.items ++ program.typed_function (source_of file.now)
        (plain_function function.now) ∷ []) }
    ensures notes { IfOk result (λ _. notes.new
        ≡ notes_of.note_function (source_of file.now) (plain_function function.now) notes.old) }
{
    made.push(function_of(alloc, file, notes, function)?)?;
    Ok(())
}

/// The whole file: its objects, its functions, and `splitc_main`.
#[tactic(auto, unfolding(sc_typing::proofs::ProgramNotes::note_file))]
pub fn file_of(
    alloc: Global,
    file: &File<'_>,
    notes: &mut Notes,
    tree: &Tree,
) -> Result<Vec<TypedFunction>, AllocError>
    ensures typed { IfOk result (λ made. map plain_typed_function made.items
        ≡ map (program.typed_function (source_of file.now)) (plain_tree tree.now).functions) }
    ensures notes { IfOk result (λ _. notes.new
        ≡ notes_of.note_file (source_of file.now) (plain_tree tree.now) notes.old) }
{
    let last = number_of(tree.lines.len())?;
    note_objects(file, notes, tree.objects.as_slice())?;
    let made = functions_of(alloc, file, notes, tree.functions.as_slice())?;
    note_main(file, notes, last)?;
    Ok(made)
}
