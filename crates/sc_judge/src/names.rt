//! Names that stand as expressions.

ghost use Rattle.std.specs.Prelude.{◌≡◌, false, None, IfOk};
ghost use Rattle.std.specs.Option.{option_copied, option_map};
ghost use Rattle.sc_typing.proofs.ExpressionNotes as notes_of;
ghost use Rattle.sc_typing.specs.Naming as naming;
ghost use Rattle.sc_typing.specs.Known as facts;
ghost use Rattle.sc_typing.specs.Notes.{Noted, unless};
ghost use Rattle.sc_typing.specs.ViewKnown.{seen, seen_judged};
ghost use Rattle.sc_typing.specs.ViewSource.{source_of};
ghost use Rattle.sc_typing.specs.declared.places.PlaceKind.TheVariants.{Unknown};

use sc_base::{Shape, copy_of_type};
use sc_tree::{Named, TypedKind};
use sc_typing::Rule;
use sc_typing::file::{File, Meaning, dimensions, has_its_indices, object_type};
use sc_typing::known::{Judged, Known, Spot, judgement, valued};
use sc_typing::notes::Notes;
use sc_typing::places::{PlaceKind, object_place};
use sc_typing::scope::{InScope, Scope};
use std::alloc::{AllocError, Global};

fn local_value(alloc: Global, local: &InScope, spot: Spot) -> Result<Known, AllocError>
    ensures { IfOk result (λ made. seen made ≡ naming.local_value local.now spot) }
{
    let own = copy_of_type(alloc, &local.ty)?;
    let ty = copy_of_type(alloc, &local.ty)?;
    let kind = TypedKind::Name(Named::Local(local.number));
    let made = valued(alloc, kind, own, ty, false, spot)?;
    Ok(made)
}

/// The object with this number and so many of its indices.
fn object_value(
    alloc: Global,
    number: u32,
    taken: usize,
    object: &Shape,
    spot: Spot,
) -> Result<Known, AllocError>
    ensures { IfOk result (λ made. seen made ≡ naming.object_value number taken object.now spot) }
{
    let own = object_type(alloc, object, taken)?;
    let ty = object_type(alloc, object, taken)?;
    let kind = TypedKind::Name(Named::Object(number));
    let made = valued(alloc, kind, own, ty, false, spot)?;
    Ok(made)
}

/// It, where it may stand with so many.
fn object_if(
    alloc: Global,
    kept: bool,
    number: u32,
    taken: usize,
    object: &Shape,
    spot: Spot,
) -> Result<Option<Known>, AllocError>
    ensures { IfOk result (λ made. option_map seen made ≡ naming.object_if kept (naming.object_value number taken object.now spot)) }
{
    if !kept {
        return Ok(None);
    }
    let made = object_value(alloc, number, taken, object, spot)?;
    Ok(Some(made))
}

/// The object with as many of its indices as it may have.
fn object_named(
    alloc: Global,
    notes: &mut Notes,
    number: u32,
    indices: usize,
    object: Option<&Shape>,
    spot: Spot,
) -> Result<Judged, AllocError>
    ensures { Noted seen_judged result (naming.object_named number indices (option_copied object.entry) spot) notes.new (notes_of.note_object indices (option_copied object.entry) spot notes.old) }
{
    let Some(object) = object else {
        return Ok(judgement(spot, PlaceKind::Unknown, None));
    };
    let taken = indices.min(dimensions(object)?);
    let kept = has_its_indices(object, taken)?;
    notes.demand(kept, spot.at, Rule::Indices)?;
    let place = object_place(object, taken)?;
    let known = object_if(alloc, kept, number, taken, object, spot)?;
    Ok(Judged {
        start: spot.start,
        place,
        taken,
        known,
    })
}

/// What is no object breaks the rule.
fn no_object(notes: &mut Notes, rule: Rule, spot: Spot) -> Result<Judged, AllocError>
    ensures { Noted seen_judged result (facts.judged spot Unknown None) notes.new (unless false spot.at rule notes.old) }
{
    notes.demand(false, spot.at, rule)?;
    Ok(judgement(spot, PlaceKind::Unknown, None))
}

/// A name that no local has.
fn meaning_named(
    alloc: Global,
    file: &File<'_>,
    notes: &mut Notes,
    indices: usize,
    meaning: Meaning,
    spot: Spot,
) -> Result<Judged, AllocError>
    ensures { Noted seen_judged result (naming.meaning_named (source_of file.now) indices meaning spot) notes.new (notes_of.note_meaning (source_of file.now) indices meaning spot notes.old) }
{
    if let Meaning::Object(o) = meaning {
        let object = file.objects.get(o as usize);
        let made = object_named(alloc, notes, o, indices, object, spot)?;
        return Ok(made);
    }
    let rule = match meaning {
        Meaning::Function(_) | Meaning::Library(_) => Rule::Called,
        Meaning::Object(_) | Meaning::Nothing => Rule::Declared,
    };
    let made = no_object(notes, rule, spot)?;
    Ok(made)
}

/// The name with so many indices directly behind it.
#[tactic(auto, unfolding(sc_typing::specs::Naming::named, sc_typing::proofs::ExpressionNotes::note_name))]
pub fn named(
    alloc: Global,
    file: &File<'_>,
    scope: &Scope,
    notes: &mut Notes,
    indices: usize,
    name: u32,
    spot: Spot,
) -> Result<Judged, AllocError>
    ensures { Noted seen_judged result (naming.named (source_of file.now) scope.now.locals indices name spot) notes.new (notes_of.note_name (source_of file.now) scope.now.locals indices name spot notes.old) }
{
    if let Some(l) = scope.local(name) {
        let made = local_value(alloc, l, spot)?;
        return Ok(judgement(spot, PlaceKind::Local, Some(made)));
    }
    let meaning = file.meaning(name)?;
    let made = meaning_named(alloc, file, notes, indices, meaning, spot)?;
    Ok(made)
}

/// What a called name means, where no local has it.
#[tactic(auto, unfolding(sc_typing::specs::Naming::called_meaning))]
pub fn called_meaning(
    file: &File<'_>,
    scope: &Scope,
    name: u32,
) -> Result<Option<Meaning>, AllocError>
    ensures { IfOk result (λ meaning. meaning ≡ naming.called_meaning (source_of file.now) scope.now.locals name) }
{
    if scope.local(name).is_some() {
        return Ok(None);
    }
    let meaning = file.meaning(name)?;
    Ok(Some(meaning))
}
