//! Calls, from judged arguments.

ghost use Rattle.std.specs.Prelude.{◌≡◌, ◌↔◌, ◌∷◌, ◌&&◌, [], Some, None, true, false, IsTrue, map, slice_get};
ghost use Rattle.std.specs.Prelude.{MatchOption, IfOk};
ghost use Rattle.std.specs.Option.{option_map};
ghost use Rattle.std.specs.Vec.Iter.{into_iter_items};
ghost use Rattle.sc_tree.specs.PlainTyped as typed;
ghost use Rattle.sc_tree.specs.PlainTyped.{TypedExpression, TypedForm};
ghost use Rattle.sc_tree.specs.ViewTyped.{plain_typed, plain_typed_kind};
ghost use Rattle.sc_typing.specs.Arguments as arguments;
ghost use Rattle.sc_typing.specs.Calls as calls;
ghost use Rattle.sc_typing.proofs.ExpressionNotes as notes_of;
ghost use Rattle.sc_typing.specs.Known as facts;
ghost use Rattle.sc_typing.specs.Notes.{Noted, unless};
ghost use Rattle.sc_typing.specs.ViewKnown.{seen, seen_judged};
ghost use Rattle.sc_typing.specs.ViewSource.{source_of};
ghost use Rattle.sc_typing.specs.declared.places.PlaceKind.TheVariants.{NoPlace};

use crate::arguments::{all_used, fit_all, met_all};
use crate::library::{library_asks, library_rule, library_token, library_type, library_wanted};
use sc_base::{Ty, copy_of_type};
use sc_tree::{Named, TypedExpr, TypedKind};
use sc_typing::Rule;
use sc_typing::calls::Given;
use sc_typing::file::{Definition, File, Meaning};
use sc_typing::known::{Judged, Known, Spot, judgement, valued};
use sc_typing::library::Library;
use sc_typing::notes::Notes;
use sc_typing::places::PlaceKind;
use sc_typing::types::int;
use sqlite_items::{Boxed, Items};
use std::alloc::{AllocError, Global};
use std::vec::IntoIter;

/// The call of what its name means, with the format that it prints and its other arguments.
#[tactic(auto, unfolding(sc_typing::specs::Calls::call_of, sc_typing::proofs::ExpressionNotes::note_call))]
pub fn call_of(
    alloc: Global,
    file: &File<'_>,
    notes: &mut Notes,
    meaning: Option<Meaning>,
    given: Option<Given>,
    arguments: Vec<Judged>,
    spot: Spot,
) -> Result<Judged, AllocError>
    ensures { Noted seen_judged result (calls.call_of (source_of file.now) meaning given (map seen_judged arguments.items) spot) notes.new (notes_of.note_call (source_of file.now) meaning given (map seen_judged arguments.items) spot notes.old) }
{
    let Some(meaning) = meaning else {
        return no_call(notes, spot, Rule::Called);
    };
    match meaning {
        Meaning::Library(library) => {
            library_call(alloc, file, notes, library, given, arguments, spot)
        }
        Meaning::Function(function) => {
            function_call(alloc, file, notes, function, arguments, spot)
        }
        Meaning::Object(_) => no_call(notes, spot, Rule::Called),
        Meaning::Nothing => no_call(notes, spot, Rule::Declared),
    }
}

/// A call of a name that means no function, by which the rule is broken.
fn no_call(notes: &mut Notes, spot: Spot, rule: Rule) -> Result<Judged, AllocError>
    ensures { Noted seen_judged result (facts.judged spot NoPlace None) notes.new (unless false spot.at rule notes.old) }
{
    notes.demand(false, spot.at, rule)?;
    Ok(judgement(spot, PlaceKind::NoPlace, None))
}

/// A call of the library.
#[tactic(auto, unfolding(sc_typing::specs::Calls::library_call))]
fn library_call(
    alloc: Global,
    file: &File<'_>,
    notes: &mut Notes,
    library: Library,
    given: Option<Given>,
    judged: Vec<Judged>,
    spot: Spot,
) -> Result<Judged, AllocError>
    ensures { Noted seen_judged result (calls.library_call (source_of file.now) library given (map seen_judged judged.items) spot) notes.new (unless (arguments.library_kept (source_of file.now) library given (map seen_judged judged.items)) (arguments.library_token library given spot.at) (arguments.library_rule library) notes.old) }
{
    let kept = library_kept(alloc, file, library, given, judged.as_slice())?;
    let at = library_token(library, given, spot.at);
    notes.demand(kept, at, library_rule(library))?;
    if !(kept && all_used(judged.as_slice())) {
        return Ok(judgement(spot, PlaceKind::NoPlace, None));
    }
    let known = library_value(alloc, file, library, given, judged, spot)?;
    Ok(judgement(spot, PlaceKind::NoPlace, known))
}

/// Whether the rule on the call's arguments is kept.
fn library_kept(
    alloc: Global,
    file: &File<'_>,
    library: Library,
    given: Option<Given>,
    judged: &[Judged],
) -> Result<bool, AllocError>
    ensures { IfOk result (λ kept. kept ≡ arguments.library_kept (source_of file.now) library given (map seen_judged judged.now)) }
{
    let wanted = library_wanted(alloc, file, given, judged, library)?;
    Ok(fit_all(wanted.as_slice(), judged) && library_asks(file, given, judged, library))
}

/// The value of the call, whose arguments fit and have a type.
fn library_value(
    alloc: Global,
    file: &File<'_>,
    library: Library,
    given: Option<Given>,
    judged: Vec<Judged>,
    spot: Spot,
) -> Result<Option<Known>, AllocError>
    ensures { IfOk result (λ made. option_map seen made ≡ option_map (calls.call_value spot (calls.library_type (map seen_judged judged.items) library)) (calls.library_form given library (calls.met_all (arguments.library_wanted (source_of file.now) given (map seen_judged judged.items) library) (map seen_judged judged.items)))) }
{
    let ty = library_type(alloc, judged.as_slice(), library)?;
    let wanted = library_wanted(alloc, file, given, judged.as_slice(), library)?;
    let met = met_all(alloc, wanted.as_slice(), judged)?;
    let Some(kind) = library_form(alloc, given, library, met)? else {
        return Ok(None);
    };
    let made = call_value(alloc, kind, ty, spot)?;
    Ok(Some(made))
}

fn call_value(alloc: Global, kind: TypedKind, ty: Ty, spot: Spot) -> Result<Known, AllocError>
    ensures { IfOk result (λ made. seen made ≡ calls.call_value spot ty (plain_typed_kind kind)) }
{
    let own = copy_of_type(alloc, &ty)?;
    let made = valued(alloc, kind, own, ty, false, spot)?;
    Ok(made)
}

/// The call of these arguments, where they are as many as it takes.
fn library_form(
    alloc: Global,
    given: Option<Given>,
    library: Library,
    all: Vec<TypedExpr>,
) -> Result<Option<TypedKind>, AllocError>
    ensures { IfOk result (λ made. option_map plain_typed_kind made ≡ calls.library_form given library (map plain_typed all.items)) }
{
    match library {
        Library::Printf => Ok(Some(TypedKind::Printf {
            format: given_format(given),
            args: Items::from_vec(all),
        })),
        Library::Sync => Ok(Some(TypedKind::Sync)),
        Library::Barrier => Ok(Some(TypedKind::Barrier)),
        Library::AllStoreSync => Ok(Some(TypedKind::AllStoreSync)),
        Library::ToGlobal => to_global(alloc, all),
        Library::ToProc => to_proc(alloc, all),
        Library::ToLocal => to_local(alloc, all),
        Library::BulkRead
        | Library::BulkWrite
        | Library::BulkGet
        | Library::BulkPut
        | Library::BulkStore => copy(alloc, library, all),
    }
}

fn given_format(given: Option<Given>) -> u32
    ensures { result ≡ calls.given_format given }
{
    match given {
        None => 0,
        Some(given) => given.format,
    }
}

fn to_global(alloc: Global, all: Vec<TypedExpr>) -> Result<Option<TypedKind>, AllocError>
    ensures { IfOk result (λ made. option_map plain_typed_kind made ≡ calls.of_two typed.to_global (map plain_typed all.items)) }
{
    let mut all = all.into_iter();
    let Some(node) = next_boxed(alloc, &mut all)? else {
        return Ok(None);
    };
    let Some(e) = next_boxed(alloc, &mut all)? else {
        return Ok(None);
    };
    if !at_end(&mut all) {
        return Ok(None);
    }
    Ok(Some(TypedKind::ToGlobal { node, e }))
}

fn to_proc(alloc: Global, all: Vec<TypedExpr>) -> Result<Option<TypedKind>, AllocError>
    ensures { IfOk result (λ made. option_map plain_typed_kind made ≡ calls.of_one typed.to_proc (map plain_typed all.items)) }
{
    let Some(e) = only_one(alloc, all)? else {
        return Ok(None);
    };
    Ok(Some(TypedKind::ToProc(e)))
}

fn to_local(alloc: Global, all: Vec<TypedExpr>) -> Result<Option<TypedKind>, AllocError>
    ensures { IfOk result (λ made. option_map plain_typed_kind made ≡ calls.of_one typed.to_local (map plain_typed all.items)) }
{
    let Some(e) = only_one(alloc, all)? else {
        return Ok(None);
    };
    Ok(Some(TypedKind::ToLocal(e)))
}

/// The argument, where there is exactly one.
fn only_one(alloc: Global, all: Vec<TypedExpr>) -> Result<Option<Boxed<TypedExpr>>, AllocError>
    ensures { IfOk result (λ e. (form : TypedExpression → TypedForm) → calls.of_one form (map plain_typed all.items) ≡ option_map form (option_map plain_typed e)) }
{
    let mut all = all.into_iter();
    let Some(e) = next_boxed(alloc, &mut all)? else {
        return Ok(None);
    };
    if !at_end(&mut all) {
        return Ok(None);
    }
    Ok(Some(e))
}

/// A call that copies bytes between nodes.
fn copy(
    alloc: Global,
    library: Library,
    all: Vec<TypedExpr>,
) -> Result<Option<TypedKind>, AllocError>
    ensures { IfOk result (λ made. option_map plain_typed_kind made ≡ calls.of_three (calls.copy_form library) (map plain_typed all.items)) }
{
    let mut all = all.into_iter();
    let Some(to) = next_boxed(alloc, &mut all)? else {
        return Ok(None);
    };
    let Some(from) = next_boxed(alloc, &mut all)? else {
        return Ok(None);
    };
    let Some(bytes) = next_boxed(alloc, &mut all)? else {
        return Ok(None);
    };
    if !at_end(&mut all) {
        return Ok(None);
    }
    Ok(Some(copy_form(library, to, from, bytes)))
}

fn copy_form(
    library: Library,
    to: Boxed<TypedExpr>,
    from: Boxed<TypedExpr>,
    bytes: Boxed<TypedExpr>,
) -> TypedKind
    ensures { plain_typed_kind result ≡ calls.copy_form library (plain_typed to) (plain_typed from) (plain_typed bytes) }
{
    match library {
        Library::BulkRead => TypedKind::BulkRead { to, from, bytes },
        Library::BulkWrite => TypedKind::BulkWrite { to, from, bytes },
        Library::BulkGet => TypedKind::BulkGet { to, from, bytes },
        Library::BulkPut => TypedKind::BulkPut { to, from, bytes },
        _ => TypedKind::BulkStore { to, from, bytes },
    }
}

fn next_boxed(
    alloc: Global,
    all: &mut IntoIter<TypedExpr>,
) -> Result<Option<Boxed<TypedExpr>>, AllocError>
    ensures { IfOk result (λ next. MatchOption next (into_iter_items all.old ≡ []) (λ e. into_iter_items all.old ≡ e ∷ into_iter_items all.new)) }
{
    let Some(e) = all.next() else {
        return Ok(None);
    };
    let e = Boxed::new(alloc, e)?;
    Ok(Some(e))
}

/// Whether no argument is left. One that is left is dropped.
fn at_end(all: &mut IntoIter<TypedExpr>) -> bool
    ensures { IsTrue result ↔ (into_iter_items all.old ≡ []) }
{
    all.next().is_none()
}

/// A call of a function of the source.
#[tactic(auto, unfolding(sc_typing::specs::Calls::function_call))]
fn function_call(
    alloc: Global,
    file: &File<'_>,
    notes: &mut Notes,
    function: u32,
    judged: Vec<Judged>,
    spot: Spot,
) -> Result<Judged, AllocError>
    ensures { Noted seen_judged result (calls.function_call (source_of file.now) function (map seen_judged judged.items) spot) notes.new (unless (arguments.arguments_kept (source_of file.now) function (map seen_judged judged.items)) spot.at Rule.Arguments notes.old) }
{
    let kept = fit_all(params_of(file.definitions, function), judged.as_slice());
    notes.demand(kept, spot.at, Rule::Arguments)?;
    if !(kept && all_used(judged.as_slice())) {
        return Ok(judgement(spot, PlaceKind::NoPlace, None));
    }
    let known = function_value(alloc, file.definitions, function, judged, spot)?;
    Ok(judgement(spot, PlaceKind::NoPlace, Some(known)))
}

/// The types of the function's parameters.
fn params_of(definitions: &[Definition], function: u32) -> &[Ty]
    ensures { result.now ≡ arguments.params_of (slice_get definitions.now function) }
{
    match definitions.get(function as usize) {
        None => &[],
        Some(definition) => definition.params.as_slice(),
    }
}

/// The type of the function's result.
fn result_of(alloc: Global, definitions: &[Definition], function: u32) -> Result<Ty, AllocError>
    ensures { IfOk result (λ ty. ty ≡ calls.result_of (slice_get definitions.now function)) }
{
    match definitions.get(function as usize) {
        None => Ok(int(alloc)),
        Some(definition) => copy_of_type(alloc, &definition.result),
    }
}

/// The value of the call, whose arguments fit and have a type.
fn function_value(
    alloc: Global,
    definitions: &[Definition],
    function: u32,
    judged: Vec<Judged>,
    spot: Spot,
) -> Result<Known, AllocError>
    ensures { IfOk result (λ made. seen made ≡ calls.call_value spot (calls.result_of (slice_get definitions.now function)) (calls.call_form function (calls.met_all (arguments.params_of (slice_get definitions.now function)) (map seen_judged judged.items)))) }
{
    let ty = result_of(alloc, definitions, function)?;
    let met = met_all(alloc, params_of(definitions, function), judged)?;
    let kind = TypedKind::Call {
        name: Named::Function(function),
        args: Items::from_vec(met),
    };
    let made = call_value(alloc, kind, ty, spot)?;
    Ok(made)
}
