//! What is done to lists of operands and locals.

ghost use Rattle.std.specs.Prelude.{◌≡◌, ◌+◌, ◌≤◌, ◌++◌, length, map, replicate, vec_len, vec_capacity};
ghost use Rattle.sc_isa.specs.declared.operand.Slot.TheVariants.{Holds};
ghost use Rattle.sc_isa.specs.State.{blank, value_at, land, land_slot};

use sc_base::Value;
use sc_isa::{Operand, Slot};

fn value_at(values: &[Value], number: u64) -> Value
    ensures { result ≡ value_at values.now number }
{
    values
        .get(number as usize)
        .copied()
        .unwrap_or(Value::Int(0))
}

fn landed(operand: Operand, counter: u32, values: &[Value]) -> Operand
    ensures { result ≡ land counter values.now operand }
{
    match operand {
        Operand::Here(_) => operand,
        Operand::Landing {
            counter: other,
            number,
        } => {
            if other == counter {
                Operand::Here(value_at(values, number))
            } else {
                operand
            }
        }
    }
}

fn landed_slot(slot: Slot, counter: u32, values: &[Value]) -> Slot
    ensures { result ≡ land_slot counter values.now slot }
{
    match slot {
        Slot::Holds(operand) => Slot::Holds(landed(operand, counter, values)),
        Slot::Pending { number } => {
            if counter == 0 {
                Slot::Holds(Operand::Here(value_at(values, number)))
            } else {
                slot
            }
        }
    }
}

/// Each operand that is landing on the counter becomes its value.
pub fn land_operands(operands: &mut [Operand], counter: u32, values: &[Value])
    ensures { operands.new ≡ map (land counter values.now) operands.old }
{
    for operand in operands.iter_mut() {
        *operand = landed(*operand, counter, values);
    }
}

/// Each local that holds such an operand, or awaits such a get, holds the value.
pub fn land_slots(slots: &mut [Slot], counter: u32, values: &[Value])
    ensures { slots.new ≡ map (land_slot counter values.now) slots.old }
{
    for slot in slots.iter_mut() {
        *slot = landed_slot(*slot, counter, values);
    }
}

/// Adds a local for each operand, which it holds.
pub fn add_arguments(slots: &mut Vec<Slot>, operands: &[Operand])
    requires { vec_len slots.old + length operands.now ≤ vec_capacity slots.old }
    ensures items { slots.new.items ≡ slots.old.items ++ map Holds operands.now }
    ensures capacity { vec_capacity slots.new ≡ vec_capacity slots.old }
{
    for operand in operands {
        slots.push_reserved(Slot::Holds(*operand));
    }
}

/// Adds so many blank locals.
pub fn add_blanks(slots: &mut Vec<Slot>, count: u32)
    requires { vec_len slots.old + count ≤ vec_capacity slots.old }
    ensures items { slots.new.items ≡ slots.old.items ++ replicate count blank }
    ensures capacity { vec_capacity slots.new ≡ vec_capacity slots.old }
{
    for _ in 0..count {
        slots.push_reserved(Slot::Holds(Operand::Here(Value::Int(0))));
    }
}
