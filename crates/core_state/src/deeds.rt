//! What the steps of a core tree do with the values of their arguments.

ghost use Rattle.std.specs.Prelude.{◌≡◌, ◌+◌, ◌<◌, ◌^◌, false, true, [], ◌∷◌, List, length, map};
ghost use Rattle.std.specs.List.{list_all};
ghost use Rattle.sc_layout.specs.Layout.{Arrangement};
ghost use Rattle.sc_base.specs.declared.operator.Unary.TheVariants.{Not};
ghost use Rattle.sc_isa.specs.Deeds.{made_by};
ghost use Rattle.sc_isa.specs.Pure.{on_one, un};
ghost use Rattle.sc_core.specs.Table.{made_of, done_of};
ghost use Rattle.sc_tree.specs.Names.{Text};
ghost use Rattle.sc_meaning.specs.Meaning.{Setting, constant_of};
ghost use Rattle.sc_meaning.specs.Steps.{mode_of};
ghost use Rattle.node_values.specs.Operands.{is_here, value_in};
ghost use Rattle.node_values.specs.Plain.{plain};
ghost use Rattle.core_machine.specs.Moves.{truth_of};
ghost use Rattle.core_state.specs.PlainDeeds.{plain_made, plain_done, takes_any, is_call, is_print};

use node_values::computing::{
    Outcome, apply_binary, apply_unary, glob, same, step, to_global, to_local, to_proc, truth,
};
use node_values::copying::{Copying, bulk};
use node_values::element::element;
use node_values::places::{Spotted, spot};
use sc_base::{CopyMode, FaultKind, Place, Star, Unary, Value};
use sc_core::{Action, Constant, Operation};
use sc_isa::Operand;
use sc_layout::Layout;

/// What a step that has a value does with the values of its arguments.
#[derive(Clone, Copy, Debug)]
pub enum Made {
    Makes(Value),
    Faults(FaultKind),
    Stuck,
    Uses(u32),
    Sets(u32, Value),
    Reads(Place),
    Writes(Place, Value),
}

/// What one that has none does.
#[derive(Clone, Copy, Debug)]
pub enum Done {
    LetsGo,
    Faults(FaultKind),
    Stuck,
    Clears(u32, Value),
    Fills(u32, Place),
    Gets(u32, Place),
    Misses(u32, FaultKind),
    Puts(Place, Value),
    Sends(Place, Value),
    Copies { from: Place, to: Place, cells: u32 },
    Waits,
    Meets { stores: bool },
}

fn made_by(outcome: Outcome) -> Made
    ensures { plain_made result ≡ made_by (plain outcome) }
{
    match outcome {
        Outcome::Gives(value) => Made::Makes(value),
        Outcome::Fails(kind) => Made::Faults(kind),
        Outcome::Wrong => Made::Stuck,
    }
}

/// The value of a constant.
pub fn constant(layout: &Layout, node: u32, constant: Constant) -> Value
    ensures { (here : Setting) → here.layout ≡ layout.now → here.node ≡ node → result ≡ constant_of here constant }
{
    match constant {
        Constant::Number(number) => Value::Int(number),
        Constant::Null => Value::Null,
        Constant::Mine => Value::Int(i64::from(node)),
        Constant::Procs => Value::Int(i64::from(layout.nodes())),
    }
}

/// Whether the test is true; None where it is none.
pub fn decide(of_pointer: bool, value: Value) -> Option<bool>
    ensures { (here : Setting) → result ≡ truth_of here of_pointer value }
{
    let tested = if of_pointer { truth(value) } else { value };
    match tested {
        Value::Int(0) => Some(false),
        Value::Int(_) => Some(true),
        _ => None,
    }
}

fn negated(layout: &Layout, node: u32, value: Value) -> Made
    ensures { plain_made result ≡ made_by (on_one layout.now node (un Not) value) }
{
    made_by(apply_unary(layout, node, Unary::Not, value))
}

/// A pointer step by the number negated.
fn back(layout: &Layout, node: u32, star: Star, pointer: Value, by: Value) -> Made
    ensures { plain_made result ≡ made_of layout.now node (Operation.Back star) (pointer ∷ by ∷ []) }
{
    match apply_unary(layout, node, Unary::Minus, by) {
        Outcome::Gives(number) => made_by(step(layout, star, pointer, number)),
        other => made_by(other),
    }
}

/// A step by one value.
fn made_of_one(layout: &Layout, node: u32, operation: Operation, a: Value) -> Made
    ensures { takes_any operation ≡ false → plain_made result ≡ made_of layout.now node operation (a ∷ []) }
{
    match operation {
        Operation::Own | Operation::Convert => made_by(glob(layout, node, a)),
        Operation::ToProc => made_by(to_proc(layout, node, a)),
        Operation::ToLocal => made_by(to_local(layout, node, a)),
        Operation::Unary(operator) => made_by(apply_unary(layout, node, operator, a)),
        Operation::IsNull => negated(layout, node, truth(a)),
        Operation::Set(local) => Made::Sets(local, a),
        Operation::Read => match spot(layout, a) {
            Spotted::Found(place) => Made::Reads(place),
            Spotted::Missing(kind) => Made::Faults(kind),
            Spotted::Nowhere => Made::Stuck,
        },
        _ => Made::Stuck,
    }
}

/// A step by two values.
fn made_of_two(layout: &Layout, node: u32, operation: Operation, a: Value, b: Value) -> Made
    ensures { takes_any operation ≡ false → plain_made result ≡ made_of layout.now node operation (a ∷ b ∷ []) }
{
    match operation {
        Operation::Forward(star) => made_by(step(layout, star, a, b)),
        Operation::Back(star) => back(layout, node, star, a, b),
        Operation::Binary(operator) => made_by(apply_binary(layout, operator, a, b)),
        Operation::Same => Made::Makes(same(a, b)),
        Operation::Differ => negated(layout, node, same(a, b)),
        Operation::ToGlobal => made_by(to_global(layout, a, b)),
        Operation::Write => match spot(layout, a) {
            Spotted::Found(place) => Made::Writes(place, b),
            Spotted::Missing(kind) => Made::Faults(kind),
            Spotted::Nowhere => Made::Stuck,
        },
        _ => Made::Stuck,
    }
}

/// What the step does with the values of its arguments.
#[tactic(auto, using(crate::proofs::Operands::element_is))]
pub fn step_deed(layout: &Layout, node: u32, operation: Operation, operands: &[Operand]) -> Made
    requires { length operands.now + 1 < 2 ^ 32 }
    ensures { is_call operation ≡ false → list_all is_here operands.now ≡ true
        → plain_made result ≡ made_of layout.now node operation (map value_in operands.now) }
{
    match operation {
        Operation::Element { object, .. } | Operation::Address { object, .. } => {
            made_by(element(layout, object, operands))
        }
        Operation::Call { .. } => Made::Stuck,
        _ => deed_by_values(layout, node, operation, operands),
    }
}

/// What a step does that takes no, one or two values.
fn deed_by_values(layout: &Layout, node: u32, operation: Operation, operands: &[Operand]) -> Made
    ensures { takes_any operation ≡ false → list_all is_here operands.now ≡ true
        → plain_made result ≡ made_of layout.now node operation (map value_in operands.now) }
{
    match operands {
        [] => match operation {
            Operation::Use(local) => Made::Uses(local),
            _ => Made::Stuck,
        },
        [Operand::Here(a)] => made_of_one(layout, node, operation, *a),
        [Operand::Here(a), Operand::Here(b)] => made_of_two(layout, node, operation, *a, *b),
        _ => Made::Stuck,
    }
}

fn done_of_none(action: Action) -> Done
    ensures { (layout : Arrangement) (texts : List Text) → is_print action ≡ false → plain_done result ≡ done_of layout texts action [] }
{
    match action {
        Action::Clear { local, pointer } => Done::Clears(
            local,
            if pointer { Value::Null } else { Value::Int(0) },
        ),
        Action::Sync => Done::Waits,
        Action::Barrier => Done::Meets { stores: false },
        Action::AllStoreSync => Done::Meets { stores: true },
        _ => Done::Stuck,
    }
}

fn done_of_one(layout: &Layout, action: Action, a: Value) -> Done
    ensures { (texts : List Text) → is_print action ≡ false → plain_done result ≡ done_of layout.now texts action (a ∷ []) }
{
    match action {
        Action::Drop => Done::LetsGo,
        Action::Begin(local) => Done::Clears(local, a),
        Action::Fill(local) => match spot(layout, a) {
            Spotted::Found(place) => Done::Fills(local, place),
            Spotted::Missing(kind) => Done::Faults(kind),
            Spotted::Nowhere => Done::Stuck,
        },
        Action::Get(local) => match spot(layout, a) {
            Spotted::Found(place) => Done::Gets(local, place),
            Spotted::Missing(kind) => Done::Misses(local, kind),
            Spotted::Nowhere => Done::Stuck,
        },
        _ => Done::Stuck,
    }
}

fn done_of_two(layout: &Layout, action: Action, a: Value, b: Value) -> Done
    ensures { (texts : List Text) → is_print action ≡ false → plain_done result ≡ done_of layout.now texts action (a ∷ b ∷ []) }
{
    match action {
        Action::Put => match spot(layout, a) {
            Spotted::Found(place) => Done::Puts(place, b),
            Spotted::Missing(kind) => Done::Faults(kind),
            Spotted::Nowhere => Done::Stuck,
        },
        Action::Send => match spot(layout, a) {
            Spotted::Found(place) => Done::Sends(place, b),
            Spotted::Missing(kind) => Done::Faults(kind),
            Spotted::Nowhere => Done::Stuck,
        },
        _ => Done::Stuck,
    }
}

fn done_of_three(layout: &Layout, action: Action, a: Value, b: Value, c: Value) -> Done
    ensures { (texts : List Text) → is_print action ≡ false → plain_done result ≡ done_of layout.now texts action (a ∷ b ∷ c ∷ []) }
{
    let Action::Copy(_) = action else {
        return Done::Stuck;
    };
    match bulk(layout, a, b, c) {
        Copying::Nothing => Done::LetsGo,
        Copying::Copies { from, to, cells } => Done::Copies { from, to, cells },
        Copying::Fails(kind) => Done::Faults(kind),
        Copying::Wrong => Done::Stuck,
    }
}

/// What the action does with the values of its arguments.
pub fn action_deed(layout: &Layout, action: Action, operands: &[Operand]) -> Done
    ensures { (texts : List Text) → is_print action ≡ false → list_all is_here operands.now ≡ true
        → plain_done result ≡ done_of layout.now texts action (map value_in operands.now) }
{
    match action {
        Action::Print { .. } => Done::Stuck,
        _ => match operands {
            [] => done_of_none(action),
            [Operand::Here(a)] => done_of_one(layout, action, *a),
            [Operand::Here(a), Operand::Here(b)] => done_of_two(layout, action, *a, *b),
            [Operand::Here(a), Operand::Here(b), Operand::Here(c)] => {
                done_of_three(layout, action, *a, *b, *c)
            }
            _ => Done::Stuck,
        },
    }
}

/// How what the action copies is waited for.
pub fn mode_of(action: Action) -> CopyMode
    ensures { result ≡ mode_of action }
{
    match action {
        Action::Copy(mode) => mode,
        _ => CopyMode::Blocking,
    }
}
