//! What names at file scope have to keep: that each is declared once, that prototypes agree with definitions, and
//! that there is a `splitc_main`.

ghost use Rattle.std.specs.Prelude.{◌≡◌, nat_eq, length, IfOk};
ghost use Rattle.std.specs.Cmp.Lexicographic.{pointwise};
ghost use Rattle.std.specs.List.{list_all, zip};
ghost use Rattle.std.specs.Option.{option_copied};
ghost use Rattle.sc_typing.proofs.ProgramNotes as notes_of;
ghost use Rattle.sc_typing.specs.NameRules as name_rules;
ghost use Rattle.sc_typing.specs.Types as types;
ghost use Rattle.sc_typing.specs.ViewSource.{source_of};

use crate::declarations::is_free;
use sc_base::{Shape, Ty};
use sc_tree::Names;
use sc_typing::Rule;
use sc_typing::file::{Definition, File};
use sc_typing::notes::Notes;
use sc_typing::types::{is_int, same_type};
use std::alloc::AllocError;

/// Whether an object or a function definition before the token has the name.
pub fn is_earlier(file: &File<'_>, name: u32, at: u32) -> bool
    ensures { result ≡ name_rules.is_earlier (source_of file.now) name at }
{
    is_earlier_object(file, name, at) || is_earlier_definition(file, name, at)
}

fn is_earlier_object(file: &File<'_>, name: u32, at: u32) -> bool
    ensures { result ≡ name_rules.has_earlier_object (source_of file.now) name at }
{
    file.objects.iter().any(|o| o.name == name && o.at < at)
}

fn is_earlier_definition(file: &File<'_>, name: u32, at: u32) -> bool
    ensures { result ≡ name_rules.has_earlier_definition (source_of file.now) name at }
{
    file.definitions.iter().any(|d| d.name == name && d.at < at)
}

#[tactic(auto, unfolding(sc_typing::proofs::ProgramNotes::note_object_name))]
fn note_object_name(file: &File<'_>, notes: &mut Notes, object: &Shape) -> Result<(), AllocError>
    ensures { IfOk result (λ _. notes.new ≡ notes_of.note_object_name (source_of file.now) object.now notes.old) }
{
    notes.demand(
        !is_earlier(file, object.name, object.at),
        object.at,
        Rule::DeclaredOnce,
    )?;
    notes.demand(is_free(file, object.name), object.at, Rule::LibraryName)?;
    Ok(())
}

/// The rules on the names of the objects.
pub fn note_objects(file: &File<'_>, notes: &mut Notes, objects: &[Shape]) -> Result<(), AllocError>
    ensures { IfOk result (λ _. notes.new ≡ notes_of.note_objects (source_of file.now) objects.now notes.old) }
{
    for o in objects {
        note_object_name(file, notes, o)?;
    }
    Ok(())
}

fn pairs_match(left: &[Ty], right: &[Ty]) -> bool
    ensures { result ≡ list_all (λ pair. types.same_type pair.0 pair.1) (zip left.now right.now) }
{
    left.iter().zip(right.iter()).all(|(a, b)| same_type(a, b))
}

#[tactic(auto, using(crate::proofs::Signatures::pointwise_is_zip))]
fn same_types(left: &[Ty], right: &[Ty]) -> bool
    ensures { result ≡ pointwise types.same_type left.now right.now }
{
    left.len() == right.len() && pairs_match(left, right)
}

fn same_signature(left: &Definition, right: &Definition) -> bool
    ensures { result ≡ name_rules.same_signature left.now right.now }
{
    same_type(&left.result, &right.result)
        && same_types(left.params.as_slice(), right.params.as_slice())
}

fn first_called<'a>(file: &File<'a>, name: u32) -> Option<&'a Definition>
    ensures { option_copied result ≡ name_rules.first_called (source_of file.now) name }
{
    file.definitions.iter().find(|d| d.name == name)
}

/// Whether the first definition of the prototype's name has its signature.
pub fn is_defined(file: &File<'_>, prototype: &Definition) -> bool
    ensures { result ≡ name_rules.prototype_kept (source_of file.now) prototype.now }
{
    match first_called(file, prototype.name) {
        None => false,
        Some(definition) => same_signature(definition, prototype),
    }
}

fn is_main(names: &Names, name: u32) -> bool
    ensures { result ≡ name_rules.is_main names.now name }
{
    match names.text(name) {
        None => false,
        Some(text) => text == b"splitc_main".as_slice(),
    }
}

fn main_definition<'a>(file: &File<'a>) -> Option<&'a Definition>
    ensures { option_copied result ≡ name_rules.main_definition (source_of file.now) }
{
    file.definitions
        .iter()
        .find(|d| is_main(file.names, d.name))
}

fn no_types(types: &[Ty]) -> bool
    ensures { result ≡ name_rules.no_types types.now }
{
    match types {
        [] => true,
        [_, ..] => false,
    }
}

fn begins_program(definition: &Definition) -> bool
    ensures { result ≡ name_rules.main_kept (Some definition.now) }
{
    no_types(definition.params.as_slice()) && (definition.result.void || is_int(&definition.result))
}

/// The rule on `splitc_main`, at its token or at the last one of the source.
#[tactic(auto, unfolding(sc_typing::proofs::ProgramNotes::note_main))]
pub fn note_main(file: &File<'_>, notes: &mut Notes, last: u32) -> Result<(), AllocError>
    ensures { IfOk result (λ _. notes.new ≡ notes_of.note_main (source_of file.now) last notes.old) }
{
    match main_definition(file) {
        None => notes.demand(false, last, Rule::Main)?,
        Some(d) => notes.demand(begins_program(d), d.at, Rule::Main)?,
    }
    Ok(())
}
