//! What has occurred so far.

ghost use Rattle.std.specs.Prelude.{◌≡◌, true, [], ◌∷◌, List, IfOk, OnOk};
ghost use Rattle.effect_order.specs.Effect.{Effect, held};
ghost use Rattle.effect_order.specs.Transfer.{part_value};
ghost use Rattle.sc_layout.specs.Start.{zero_of, start};
ghost use Rattle.journal_effects.specs.Occurred.{effect_of, newest_first, ArePartsOf, IsWrittenBy};

use crate::effect::CellEffect;
use sc_base::{OutOfMemory, Place, Ty, Value};
use sc_layout::Layout;
use std::alloc::Global;
use std::collections::HashMap;
use std::marker::Model;

/// The values of parts, by node, number, cell and whether they write.
type Parts = HashMap<(u32, u64, u32, bool), Value>;

/// The values of cells, by object, node and offset.
type Cells = HashMap<(u32, u32, u32), Value>;

/// The effects so far, with the value of each part and what was last written to each cell. Seen as the effects, the newest
/// first.
#[derive(Drop)]
pub struct Occurred {
    effects: Vec<CellEffect>,
    parts: Parts,
    written: Cells,
}

impl Model for Occurred {
    ghost use Rattle.std.specs.Prelude.{List};
    ghost use Rattle.effect_order.specs.Effect.{Effect};
    ghost use Rattle.journal_effects.specs.Occurred as seen;

    ghost Value = { List Effect };

    ghost view = { λ o. seen.newest_first o.effects.items };

    ghost invariant = { λ o. seen.ArePartsOf o.parts (seen.newest_first o.effects.items) × seen.IsWrittenBy o.written (seen.newest_first o.effects.items) };
}

impl Occurred {
    /// Nothing has occurred yet.
    pub fn new(alloc: Global) -> Occurred
        ensures { result ≡ [] }
    {
        Occurred {
            effects: Vec::new(alloc),
            parts: HashMap::new(alloc),
            written: HashMap::new(alloc),
        }
    }

    /// The value of the part, if it has occurred.
    pub fn part_value(&self, node: u32, number: u64, cell: u32, wrote: bool) -> Option<Value>
        ensures { result ≡ part_value node number cell wrote self.now }
    {
        self.parts.get(&(node, number, cell, wrote)).copied()
    }

    /// What the cell holds.
    pub fn held(&self, layout: &Layout, place: Place) -> Value
        ensures { result ≡ held (start layout.now) place self.now }
    {
        match self
            .written
            .get(&(place.object, place.node, place.offset))
            .copied()
        {
            Some(value) => value,
            None => value_at_start(layout, place),
        }
    }

    /// With this effect after the others.
    pub fn with(self, effect: CellEffect) -> Result<Occurred, OutOfMemory>
        ensures { IfOk result (λ after. after ≡ effect_of effect ∷ self) }
    {
        let Occurred {
            mut effects,
            mut parts,
            mut written,
        } = self;
        let Ok(()) = effects.push(effect) else {
            return Err(OutOfMemory);
        };
        note_part(&mut parts, effect)?;
        note_written(&mut written, effect)?;
        Ok(Occurred {
            effects,
            parts,
            written,
        })
    }

    /// The effects, in their order.
    pub fn as_slice(&self) -> &[CellEffect]
        ensures { self.now ≡ newest_first result.now }
    {
        self.effects.as_slice()
    }
}

/// Notes the value of the effect's part.
fn note_part(parts: &mut Parts, effect: CellEffect) -> Result<(), OutOfMemory>
    ensures { OnOk result ((earlier : List Effect) → ArePartsOf parts.old earlier → ArePartsOf parts.new (effect_of effect ∷ earlier)) }
{
    let part = (effect.node, effect.number, effect.cell, effect.wrote);
    match parts.insert(part, effect.value) {
        Ok(_) => Ok(()),
        Err(_) => Err(OutOfMemory),
    }
}

/// Notes what the effect has written, if it writes.
fn note_written(written: &mut Cells, effect: CellEffect) -> Result<(), OutOfMemory>
    ensures { OnOk result ((earlier : List Effect) → IsWrittenBy written.old earlier → IsWrittenBy written.new (effect_of effect ∷ earlier)) }
{
    if effect.wrote {
        note_write(written, effect)?;
        Ok(())
    } else {
        Ok(())
    }
}

fn note_write(written: &mut Cells, effect: CellEffect) -> Result<(), OutOfMemory>
    requires { effect.wrote ≡ true }
    ensures { OnOk result ((earlier : List Effect) → IsWrittenBy written.old earlier → IsWrittenBy written.new (effect_of effect ∷ earlier)) }
{
    let place = effect.place;
    match written.insert((place.object, place.node, place.offset), effect.value) {
        Ok(_) => Ok(()),
        Err(_) => Err(OutOfMemory),
    }
}

/// What the cell holds before any write; 0 where there is no such object.
fn value_at_start(layout: &Layout, place: Place) -> Value
    ensures { result ≡ start layout.now place }
{
    if place.object < layout.count() {
        zero_of(&layout.shape(place.object).ty)
    } else {
        Value::Int(0)
    }
}

/// What a cell of the type begins with.
fn zero_of(ty: &Ty) -> Value
    ensures { result ≡ zero_of ty.now.stars }
{
    if ty.stars.as_slice().is_empty() {
        Value::Int(0)
    } else {
        Value::Null
    }
}
