//! What is computed from values alone.

ghost use Rattle.std.specs.Prelude.{◌≡◌};
ghost use Rattle.sc_isa.specs.Pure.{step, glob, to_local, to_proc, to_global, bin, un, same, truth, on_one, on_two, value_or_fault, int_or_fault, is_pointer, bit, is_true, same_value};
ghost use Rattle.node_values.specs.Plain.{plain, pushed_of, constant_of, one_of, two_of};

use sc_base::{Binary, FaultKind, Star, Unary, Value, binary, unary};
use sc_isa::Op;
use sc_layout::Layout;

/// A value, a fault, or that the operands are of a wrong kind.
#[derive(Clone, Copy, Debug, PartialEq, Eq)]
pub enum Outcome {
    Gives(Value),
    Fails(FaultKind),
    Wrong,
}

fn of_value(answer: Result<Value, FaultKind>) -> Outcome
    ensures { plain result ≡ value_or_fault answer }
{
    match answer {
        Ok(value) => Outcome::Gives(value),
        Err(kind) => Outcome::Fails(kind),
    }
}

fn of_int(answer: Result<i64, FaultKind>) -> Outcome
    ensures { plain result ≡ int_or_fault answer }
{
    match answer {
        Ok(number) => Outcome::Gives(Value::Int(number)),
        Err(kind) => Outcome::Fails(kind),
    }
}

/// Whether it is null, or a pointer that names an object and a node of the layout.
pub fn is_pointer(layout: &Layout, value: Value) -> bool
    ensures { result ≡ is_pointer layout.now value }
{
    match value {
        Value::Int(_) => false,
        Value::Null => true,
        Value::Ptr { object, node, .. } => object < layout.count() && node < layout.nodes(),
    }
}

pub fn glob(layout: &Layout, own: u32, pointer: Value) -> Outcome
    ensures { plain result ≡ on_one layout.now own glob pointer }
{
    if !is_pointer(layout, pointer) {
        return Outcome::Wrong;
    }
    match pointer {
        Value::Ptr { object, offset, .. } => Outcome::Gives(Value::Ptr {
            object,
            node: own,
            offset,
        }),
        other => Outcome::Gives(other),
    }
}

pub fn to_local(layout: &Layout, own: u32, pointer: Value) -> Outcome
    ensures { plain result ≡ on_one layout.now own to_local pointer }
{
    if !is_pointer(layout, pointer) {
        return Outcome::Wrong;
    }
    Outcome::Gives(layout.tolocal(pointer))
}

pub fn to_proc(layout: &Layout, own: u32, pointer: Value) -> Outcome
    ensures { plain result ≡ on_one layout.now own to_proc pointer }
{
    if !is_pointer(layout, pointer) {
        return Outcome::Wrong;
    }
    of_int(layout.toproc(pointer))
}

pub fn apply_unary(layout: &Layout, own: u32, operator: Unary, value: Value) -> Outcome
    ensures { plain result ≡ on_one layout.now own (un operator) value }
{
    match value {
        Value::Int(number) => of_int(unary(operator, number)),
        _ => Outcome::Wrong,
    }
}

/// 1 for a number other than 0 and for a pointer to a cell, 0 for 0 and null.
pub fn truth(value: Value) -> Value
    ensures { result ≡ bit (is_true value) }
{
    bit(!matches!(value, Value::Int(0) | Value::Null))
}

fn bit(holds: bool) -> Value
    ensures { result ≡ bit holds }
{
    Value::Int(i64::from(holds))
}

pub fn step(layout: &Layout, star: Star, pointer: Value, by: Value) -> Outcome
    ensures { plain result ≡ on_two layout.now (step star) pointer by }
{
    let Value::Int(by) = by else {
        return Outcome::Wrong;
    };
    if !is_pointer(layout, pointer) {
        return Outcome::Wrong;
    }
    match star {
        Star::Local | Star::Global => of_value(layout.step_global(pointer, by)),
        Star::Spread => of_value(layout.step_spread(pointer, by)),
    }
}

pub fn to_global(layout: &Layout, node: Value, pointer: Value) -> Outcome
    ensures { plain result ≡ on_two layout.now to_global node pointer }
{
    let Value::Int(node) = node else {
        return Outcome::Wrong;
    };
    if !is_pointer(layout, pointer) {
        return Outcome::Wrong;
    }
    of_value(layout.toglobal(node, pointer))
}

pub fn apply_binary(layout: &Layout, operator: Binary, a: Value, b: Value) -> Outcome
    ensures { plain result ≡ on_two layout.now (bin operator) a b }
{
    match (a, b) {
        (Value::Int(a), Value::Int(b)) => of_int(binary(operator, a, b)),
        _ => Outcome::Wrong,
    }
}

/// 1 where the values are equal in all their parts, and else 0.
pub fn same(a: Value, b: Value) -> Value
    ensures { result ≡ bit (same_value a b) }
{
    bit(a == b)
}

/// What the operation gives of one value.
pub fn of_one(layout: &Layout, own: u32, op: Op, value: Value) -> Outcome
    ensures { plain result ≡ on_one layout.now own (one_of op) value }
{
    match op {
        Op::Glob => glob(layout, own, value),
        Op::ToLocal => to_local(layout, own, value),
        Op::ToProc => to_proc(layout, own, value),
        Op::Un(operator) => apply_unary(layout, own, operator, value),
        Op::Truth => Outcome::Gives(truth(value)),
        _ => Outcome::Wrong,
    }
}

/// What the operation gives of two values.
pub fn of_two(layout: &Layout, op: Op, a: Value, b: Value) -> Outcome
    ensures { plain result ≡ on_two layout.now (two_of op) a b }
{
    match op {
        Op::Step(star) => step(layout, star, a, b),
        Op::ToGlobal => to_global(layout, a, b),
        Op::Same => Outcome::Gives(same(a, b)),
        _ => Outcome::Wrong,
    }
}

/// The value that the operation gives of none.
pub fn constant(layout: &Layout, own: u32, op: Op) -> Value
    ensures { result ≡ constant_of layout.now own op }
{
    match op {
        Op::Push(number) => Value::Int(number),
        Op::Mine => Value::Int(i64::from(own)),
        Op::Procs => Value::Int(i64::from(layout.nodes())),
        _ => Value::Null,
    }
}

/// The number that `push` pushes.
pub fn pushed(op: Op) -> Value
    ensures { result ≡ pushed_of op }
{
    match op {
        Op::Push(number) => Value::Int(number),
        _ => Value::Null,
    }
}
