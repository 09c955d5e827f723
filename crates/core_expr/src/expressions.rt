//! The core of typed expressions.

ghost use Rattle.std.specs.Prelude.{◌≡◌, ◌++◌, ◌∷◌, [], IfOk, OnOk, true, map, drop, length, ◌+◌, ◌&&◌};
ghost use Rattle.sc_tree.specs.PlainTyped as tree;
ghost use Rattle.sc_tree.specs.ViewTyped.{plain_typed, plain_typed_kind, plain_typed_link, plain_typed_tail, typed_expressions_of, typed_links_of, typed_tails_of};
ghost use Rattle.sc_core.specs.Core as core_tree;
ghost use Rattle.sc_core.specs.declared.operation.Operation.TheVariants as does;
ghost use Rattle.sc_core.specs.Expressions as expressions;
ghost use Rattle.sc_core.specs.Expressions.{value_of};
ghost use Rattle.core_expr.specs.Listed.{values_in, tests_in};
ghost use Rattle.sc_core.specs.Places as places;
ghost use Rattle.sc_core.specs.View.{plain_core, arguments_of};
ghost use Rattle.core_expr.specs.ViewFound.{seen_found};
ghost use Rattle.sc_core.specs.ViewParts.{plain_core_test};

use crate::places::{
    Found, address_of, assigned, behind, changed, changed_after, converted, dimensions_of, fetched,
    is_pointer, last_of, narrowed, object_with, operation_on, star_after, step_operator,
    taken_back,
};
use crate::reading::{is_plain, line_of, object_named, star_of, stars_behind, stars_of};
use crate::steps::{any, choice, constant, every, step, with_one, with_two};
use sc_base::{Binary, Shape, Star, Unary};
use sc_core::{Constant, CoreExpr, CoreTest, Operation};
use sc_tree::{Named, TypedExpr, TypedKind, TypedLink, TypedTail};
use std::alloc::{AllocError, Global};

/// What the lowering of an expression sees: the allocator, and the declared objects.
#[derive(Clone, Copy)]
pub struct Sight<'a> {
    pub alloc: Global,
    pub objects: &'a [Shape],
}

/// The operation of `-`, `!` or `~` of a value whose type has this last star.
fn prefixed(
    alloc: Global,
    op: Unary,
    star: Option<Star>,
    e: CoreExpr,
    line: u32,
) -> Result<CoreExpr, AllocError>
    ensures { IfOk result (λ made. plain_core made ≡ expressions.prefixed op star (plain_core e) line) }
{
    match op {
        Unary::Not => match star {
            Some(_) => with_one(alloc, Operation::IsNull, e, line),
            None => with_one(alloc, Operation::Unary(op), e, line),
        },
        Unary::Minus => with_one(alloc, Operation::Unary(op), e, line),
        Unary::Invert => with_one(alloc, Operation::Unary(op), e, line),
    }
}

/// An assignment, plain or by an operator.
fn set_to(
    alloc: Global,
    op: Option<Binary>,
    place: Found,
    star: Option<Star>,
    right: CoreExpr,
    line: u32,
) -> Result<CoreExpr, AllocError>
    ensures { IfOk result (λ made. plain_core made
        ≡ expressions.set_to op (seen_found place) star (plain_core right) line) }
{
    match op {
        None => assigned(alloc, place, right, line),
        Some(op) => changed(alloc, place, operation_on(star, op), right, line),
    }
}

/// `++` or `--` behind a place of a type with this last star.
fn stepped_after(
    alloc: Global,
    what: Found,
    star: Option<Star>,
    up: bool,
    line: u32,
) -> Result<Found, AllocError>
    ensures { IfOk result (λ made. seen_found made
        ≡ places.value (expressions.stepped_after (seen_found what) star up line)) }
{
    let operation = operation_on(star, step_operator(up));
    let back = operation_on(star, taken_back(up));
    let made = changed_after(alloc, what, operation, back, line)?;
    Ok(Found::Value(made))
}

fn both(a: bool, b: bool) -> bool
    ensures { result ≡ a && b }
{
    a && b
}

fn push_value(all: &mut Vec<CoreExpr>, e: CoreExpr) -> Result<(), AllocError>
    ensures values { OnOk result (map plain_core all.new.items ≡ map plain_core all.old.items ++ plain_core e ∷ []) }
    ensures count { OnOk result (length all.new.items ≡ length all.old.items + 1) }
{
    all.push(e)?;
    Ok(())
}

#[tactic(auto, using(sc_core::proofs::ViewCoreLaws::core_views))]
fn push_test(all: &mut Vec<CoreTest>, of_pointer: bool, e: CoreExpr) -> Result<(), AllocError>
    ensures { OnOk result (map plain_core_test all.new.items
        ≡ map plain_core_test all.old.items ++ record { of_pointer = of_pointer; e = plain_core e } ∷ []) }
{
    all.push(CoreTest { of_pointer, e })?;
    Ok(())
}

impl Sight<'_> {
    /// A constant.
    fn constant(&self, value: Constant) -> Found
        ensures { seen_found result ≡ places.value (core_tree.constant value) }
    {
        Found::Value(constant(self.alloc, value))
    }

    /// What stands for an expression that has no value.
    fn nothing(&self) -> Found
        ensures { seen_found result ≡ places.value places.number_zero }
    {
        self.constant(Constant::Number(0))
    }

    /// What a name stands for.
    #[tactic(auto, unfolding(sc_core::specs::Expressions::found_form))]
    fn name(&self, name: Named, line: u32) -> Result<Found, AllocError>
        ensures { IfOk result (λ made. seen_found made
            ≡ expressions.found_form self.now.objects.now (tree.name name) line) }
    {
        match name {
            Named::Local(number) => Ok(Found::Local { number, line }),
            Named::Object(object) => {
                let indices = Vec::new(self.alloc);
                let made = object_with(self.alloc, self.objects, object, true, indices, line)?;
                Ok(made)
            }
            Named::Function(_) => Ok(self.nothing()),
        }
    }

    /// The value of the expression.
    #[cycle(value)]
    #[tactic(auto, using(crate::proofs::Equations::equations))]
    pub fn value(&self, e: &TypedExpr) -> Result<CoreExpr, AllocError>
        ensures { IfOk result (λ made. plain_core made ≡ value_of self.now.objects.now (plain_typed e.now)) }
    {
        let what = self.found(e)?;
        let made = fetched(self.alloc, what)?;
        Ok(made)
    }

    /// What the expression comes to.
    #[cycle(value)]
    #[tactic(auto, using(crate::proofs::Equations::equations))]
    pub fn found(&self, e: &TypedExpr) -> Result<Found, AllocError>
        ensures { IfOk result (λ made. seen_found made ≡ expressions.found self.now.objects.now (plain_typed e.now)) }
    {
        let made = self.form(&e.kind, e.line)?;
        Ok(made)
    }

    #[cycle(value)]
    #[tactic(auto, using(sc_tree::proofs::ViewTypedLaws::typed_expression_views), unfolding(sc_core::specs::Expressions::found_form))]
    fn form(&self, kind: &TypedKind, line: u32) -> Result<Found, AllocError>
        ensures { IfOk result (λ made. seen_found made
            ≡ expressions.found_form self.now.objects.now (plain_typed_kind kind.now) line) }
    {
        match kind {
            TypedKind::Number(n) => Ok(self.constant(Constant::Number(*n))),
            TypedKind::Null => Ok(self.constant(Constant::Null)),
            TypedKind::MyProc => Ok(self.constant(Constant::Mine)),
            TypedKind::Procs => Ok(self.constant(Constant::Procs)),
            TypedKind::SizeInt => Ok(self.constant(Constant::Number(8))),
            TypedKind::Name(name) => self.name(*name, line),
            TypedKind::Chain { first, rest } => {
                let left = self.value(first.get())?;
                self.links(rest.as_slice(), star_of(first.get()), left)
            }
            TypedKind::And(all) => self.every(all.as_slice()),
            TypedKind::Or(all) => self.any(all.as_slice()),
            TypedKind::Cond { test, yes, no } => {
                let tested = self.value(test.get())?;
                let on = self.value(yes.get())?;
                self.choice(no.get(), is_pointer(star_of(test.get())), tested, on)
            }
            TypedKind::Assign { op, left, right } => {
                let place = self.found(left.get())?;
                self.assign(right.get(), *op, place, star_of(left.get()), line)
            }
            TypedKind::Step { up, place } => self.step(*up, place.get(), line),
            TypedKind::Plus(e) => self.plus(e.get()),
            TypedKind::Prefix { op, e } => self.prefix(*op, e.get(), line),
            TypedKind::Deref(e) => self.deref(e.get(), line),
            TypedKind::Address(e) => self.address(e.get()),
            TypedKind::Cast { stars, e } => self.conversion(stars.as_slice(), e.get(), line),
            TypedKind::Convert { ty, e } => self.conversion(ty.stars.as_slice(), e.get(), line),
            TypedKind::Postfix { first, tails } => match object_named(first.get()) {
                Some(object) => {
                    let stars = stars_of(first.get());
                    self.indexed(tails.as_slice(), object, line_of(first.get()), stars)
                }
                None => {
                    let what = self.found(first.get())?;
                    self.tails(tails.as_slice(), what, stars_of(first.get()), 0)
                }
            },
            TypedKind::Call { name, args } => self.call(*name, args.as_slice(), line),
            TypedKind::ToGlobal { node, e } => {
                let node = self.value(node.get())?;
                self.to_global(e.get(), node, line)
            }
            TypedKind::ToProc(e) => self.one(Operation::ToProc, e.get(), line),
            TypedKind::ToLocal(e) => self.one(Operation::ToLocal, e.get(), line),
            TypedKind::Format(_)
            | TypedKind::Printf { .. }
            | TypedKind::Sync
            | TypedKind::Barrier
            | TypedKind::AllStoreSync
            | TypedKind::BulkRead { .. }
            | TypedKind::BulkWrite { .. }
            | TypedKind::BulkGet { .. }
            | TypedKind::BulkPut { .. }
            | TypedKind::BulkStore { .. } => Ok(self.nothing()),
        }
    }

    /// The operands behind the first, whose type has this last star, joined to it from the left.
    #[cycle(value)]
    #[tactic(auto, using(std::proofs::lemmas::Grind::common_steps, sc_tree::proofs::ViewTypedLaws::typed_expression_views), unfolding(sc_core::specs::Expressions::joined))]
    fn links(
        &self,
        rest: &[TypedLink],
        first_star: Option<Star>,
        first: CoreExpr,
    ) -> Result<Found, AllocError>
        ensures { IfOk result (λ made. seen_found made ≡ places.value (expressions.joined self.now.objects.now first_star
            (plain_core first) (typed_links_of (map plain_typed_link rest.now)))) }
    {
        let mut star = first_star;
        let mut left = first;
        for link in rest {
            left = self.link(link, star, left)?;
            star = star_after(link.op, star);
        }
        Ok(Found::Value(left))
    }

    #[cycle(value)]
    #[tactic(auto, using(sc_tree::proofs::ViewTypedLaws::typed_expression_views))]
    fn link(
        &self,
        link: &TypedLink,
        star: Option<Star>,
        left: CoreExpr,
    ) -> Result<CoreExpr, AllocError>
        ensures { IfOk result (λ made. plain_core made ≡ places.with_two (places.operation_on star link.now.op)
            (plain_core left) (value_of self.now.objects.now (plain_typed link.now.e)) link.now.line) }
    {
        let right = self.value(&link.e)?;
        let operation = operation_on(star, link.op);
        let made = with_two(self.alloc, operation, left, right, link.line)?;
        Ok(made)
    }

    #[cycle(value)]
    #[tactic(auto, using(crate::proofs::Equations::operands))]
    fn every(&self, all: &[TypedExpr]) -> Result<Found, AllocError>
        ensures { IfOk result (λ made. seen_found made ≡ places.value
            (expressions.every self.now.objects.now (typed_expressions_of (map plain_typed all.now)))) }
    {
        let tests = self.operands(all)?;
        Ok(Found::Value(every(self.alloc, tests)))
    }

    #[cycle(value)]
    #[tactic(auto, using(crate::proofs::Equations::operands))]
    fn any(&self, all: &[TypedExpr]) -> Result<Found, AllocError>
        ensures { IfOk result (λ made. seen_found made ≡ places.value
            (expressions.any self.now.objects.now (typed_expressions_of (map plain_typed all.now)))) }
    {
        let tests = self.operands(all)?;
        Ok(Found::Value(any(self.alloc, tests)))
    }

    /// The operands of `&&` or `||`.
    #[cycle(value)]
    #[tactic(auto, using(std::proofs::lemmas::Grind::common_steps), unfolding(crate::specs::Listed::tests_in))]
    fn operands(&self, all: &[TypedExpr]) -> Result<Vec<CoreTest>, AllocError>
        ensures { IfOk result (λ made. map plain_core_test made.items
            ≡ tests_in self.now.objects.now (typed_expressions_of (map plain_typed all.now))) }
    {
        let mut tests = Vec::new(self.alloc);
        for e in all {
            let value = self.value(e)?;
            push_test(&mut tests, is_pointer(star_of(e)), value)?;
        }
        Ok(tests)
    }

    /// Arguments from left to right.
    #[cycle(value)]
    #[tactic(auto, using(std::proofs::lemmas::Grind::common_steps), unfolding(crate::specs::Listed::values_in))]
    pub fn values(&self, all: &[TypedExpr]) -> Result<Vec<CoreExpr>, AllocError>
        ensures { IfOk result (λ made. map plain_core made.items
            ≡ values_in self.now.objects.now (typed_expressions_of (map plain_typed all.now))) }
    {
        let mut values = Vec::new(self.alloc);
        for e in all {
            let value = self.value(e)?;
            push_value(&mut values, value)?;
        }
        Ok(values)
    }

    /// The rest of `test ? yes : no`, once the test and the first arm are lowered.
    #[cycle(value)]
    fn choice(
        &self,
        no: &TypedExpr,
        of_pointer: bool,
        test: CoreExpr,
        yes: CoreExpr,
    ) -> Result<Found, AllocError>
        ensures { IfOk result (λ made. seen_found made ≡ places.value (core_tree.choice of_pointer
            (plain_core test) (plain_core yes) (value_of self.now.objects.now (plain_typed no.now)))) }
    {
        let off = self.value(no)?;
        let made = choice(self.alloc, of_pointer, test, yes, off)?;
        Ok(Found::Value(made))
    }

    /// The rest of an assignment to a place whose type has this last star, once the place is found.
    #[cycle(value)]
    fn assign(
        &self,
        right: &TypedExpr,
        op: Option<Binary>,
        place: Found,
        star: Option<Star>,
        line: u32,
    ) -> Result<Found, AllocError>
        ensures { IfOk result (λ made. seen_found made ≡ places.value (expressions.set_to op (seen_found place) star
            (value_of self.now.objects.now (plain_typed right.now)) line)) }
    {
        let value = self.value(right)?;
        let made = set_to(self.alloc, op, place, star, value, line)?;
        Ok(Found::Value(made))
    }

    /// `++` or `--` in front of a place.
    #[cycle(value)]
    fn step(&self, up: bool, place: &TypedExpr, line: u32) -> Result<Found, AllocError>
        ensures { IfOk result (λ made. seen_found made ≡ places.value (places.changed
            (expressions.found self.now.objects.now (plain_typed place.now))
            (places.operation_on (expressions.star_of (plain_typed place.now)) (places.step_operator up))
            places.number_one line)) }
    {
        let what = self.found(place)?;
        let operation = operation_on(star_of(place), step_operator(up));
        let one = constant(self.alloc, Constant::Number(1));
        let made = changed(self.alloc, what, operation, one, line)?;
        Ok(Found::Value(made))
    }

    #[cycle(value)]
    fn plus(&self, e: &TypedExpr) -> Result<Found, AllocError>
        ensures { IfOk result (λ made. seen_found made
            ≡ places.value (value_of self.now.objects.now (plain_typed e.now))) }
    {
        let made = self.value(e)?;
        Ok(Found::Value(made))
    }

    #[cycle(value)]
    fn prefix(&self, op: Unary, e: &TypedExpr, line: u32) -> Result<Found, AllocError>
        ensures { IfOk result (λ made. seen_found made ≡ places.value (expressions.prefixed op
            (expressions.star_of (plain_typed e.now)) (value_of self.now.objects.now (plain_typed e.now)) line)) }
    {
        let value = self.value(e)?;
        let made = prefixed(self.alloc, op, star_of(e), value, line)?;
        Ok(Found::Value(made))
    }

    #[cycle(value)]
    fn deref(&self, e: &TypedExpr, line: u32) -> Result<Found, AllocError>
        ensures { IfOk result (λ made. seen_found made ≡ places.behind (expressions.star_of (plain_typed e.now))
            (value_of self.now.objects.now (plain_typed e.now)) line) }
    {
        let pointer = self.value(e)?;
        Ok(behind(star_of(e), pointer, line))
    }

    #[cycle(value)]
    fn address(&self, e: &TypedExpr) -> Result<Found, AllocError>
        ensures { IfOk result (λ made. seen_found made
            ≡ places.value (places.address_of (expressions.found self.now.objects.now (plain_typed e.now)))) }
    {
        let what = self.found(e)?;
        let made = address_of(self.alloc, what)?;
        Ok(Found::Value(made))
    }

    /// A cast, or a conversion where the value is used, to a type with these stars.
    #[cycle(value)]
    fn conversion(&self, stars: &[Star], e: &TypedExpr, line: u32) -> Result<Found, AllocError>
        ensures { IfOk result (λ made. seen_found made ≡ places.value (places.converted
            (expressions.star_of (plain_typed e.now)) (places.last_of stars.now)
            (value_of self.now.objects.now (plain_typed e.now)) line)) }
    {
        let value = self.value(e)?;
        let made = converted(self.alloc, star_of(e), last_of(stars), value, line)?;
        Ok(Found::Value(made))
    }

    /// A call of a function.
    #[cycle(value)]
    #[tactic(auto, using(crate::proofs::Equations::arguments), unfolding(sc_core::specs::Expressions::found_form))]
    fn call(&self, name: Named, args: &[TypedExpr], line: u32) -> Result<Found, AllocError>
        ensures { IfOk result (λ made. seen_found made ≡ expressions.found_form self.now.objects.now
            (tree.call name (typed_expressions_of (map plain_typed args.now))) line) }
    {
        match name {
            Named::Function(function) => {
                let count = narrowed(args.len())?;
                let values = self.values(args)?;
                let operation = Operation::Call { function, count };
                Ok(Found::Value(step(self.alloc, operation, values, line)))
            }
            Named::Local(_) => Ok(self.nothing()),
            Named::Object(_) => Ok(self.nothing()),
        }
    }

    /// The rest of `toglobal`, once its node is lowered.
    #[cycle(value)]
    fn to_global(&self, e: &TypedExpr, node: CoreExpr, line: u32) -> Result<Found, AllocError>
        ensures { IfOk result (λ made. seen_found made ≡ places.value (places.with_two does.ToGlobal
            (plain_core node) (value_of self.now.objects.now (plain_typed e.now)) line)) }
    {
        let pointer = self.value(e)?;
        let made = with_two(self.alloc, Operation::ToGlobal, node, pointer, line)?;
        Ok(Found::Value(made))
    }

    /// A step of one value.
    #[cycle(value)]
    fn one(&self, operation: Operation, e: &TypedExpr, line: u32) -> Result<Found, AllocError>
        ensures { IfOk result (λ made. seen_found made ≡ places.value
            (places.with_one operation (value_of self.now.objects.now (plain_typed e.now)) line)) }
    {
        let value = self.value(e)?;
        let made = with_one(self.alloc, operation, value, line)?;
        Ok(Found::Value(made))
    }

    /// An object with what stands behind its name: first its own indices.
    #[cycle(value)]
    #[tactic(auto, using(std::proofs::lemmas::Grind::common_steps, crate::proofs::Indices::indices, sc_tree::proofs::ViewTypedLaws::typed_expression_views))]
    fn indexed(
        &self,
        all: &[TypedTail],
        object: u32,
        name_line: u32,
        stars: &[Star],
    ) -> Result<Found, AllocError>
        ensures { IfOk result (λ made. seen_found made ≡ expressions.indices_found self.now.objects.now object
            (places.dimensions_of self.now.objects.now object) 0 true core_tree.none name_line stars.now
            (typed_tails_of (map plain_typed_tail all.now))) }
    {
        let mut indices = Vec::new(self.alloc);
        let mut plain = true;
        let mut line = name_line;
        let mut left = dimensions_of(self.objects, object);
        for i in 0..all.len() {
            if left == 0 {
                return self.object_then(all, object, plain, indices, line, stars, i);
            }
            match &all[i] {
                TypedTail::Index {
                    index,
                    line: at,
                    ..
                } => {
                    let value = self.value(index)?;
                    push_value(&mut indices, value)?;
                    plain = both(plain, is_plain(index));
                    line = *at;
                    left -= 1;
                }
                TypedTail::Up { .. } => {
                    return self.object_then(all, object, plain, indices, line, stars, i);
                }
                TypedTail::Down { .. } => {
                    return self.object_then(all, object, plain, indices, line, stars, i);
                }
            }
        }
        let made = object_with(self.alloc, self.objects, object, plain, indices, line)?;
        Ok(made)
    }

    /// The object with these indices and what stands behind them, from the tail with this number on.
    #[cycle(value)]
    fn object_then(
        &self,
        all: &[TypedTail],
        object: u32,
        plain: bool,
        indices: Vec<CoreExpr>,
        line: u32,
        stars: &[Star],
        from: usize,
    ) -> Result<Found, AllocError>
        ensures { IfOk result (λ made. seen_found made ≡ expressions.tails_found self.now.objects.now
            (places.object_with self.now.objects.now object (length indices.items) plain
            (arguments_of (map plain_core indices.items)) line) stars.now
            (typed_tails_of (map plain_typed_tail (drop from all.now)))) }
    {
        let what = object_with(self.alloc, self.objects, object, plain, indices, line)?;
        let made = self.tails(all, what, stars, from)?;
        Ok(made)
    }

    /// What stands behind a part whose type has these stars, from the tail with this number on.
    #[cycle(value)]
    #[tactic(auto, using(std::proofs::lemmas::Grind::common_steps), unfolding(sc_core::specs::Expressions::tails_found))]
    fn tails(
        &self,
        all: &[TypedTail],
        first: Found,
        first_stars: &[Star],
        from: usize,
    ) -> Result<Found, AllocError>
        ensures { IfOk result (λ made. seen_found made ≡ expressions.tails_found self.now.objects.now (seen_found first)
            first_stars.now (typed_tails_of (map plain_typed_tail (drop from all.now)))) }
    {
        let mut stars = first_stars;
        let mut what = first;
        for i in from..all.len() {
            what = self.tail(&all[i], what, stars)?;
            stars = stars_behind(stars, &all[i]);
        }
        Ok(what)
    }

    #[cycle(value)]
    #[tactic(auto, using(sc_tree::proofs::ViewTypedLaws::typed_expression_views), unfolding(sc_core::specs::Expressions::tail_found))]
    fn tail(&self, tail: &TypedTail, before: Found, stars: &[Star]) -> Result<Found, AllocError>
        ensures { IfOk result (λ made. seen_found made ≡ expressions.tail_found self.now.objects.now
            (seen_found before) stars.now (plain_typed_tail tail.now)) }
    {
        let star = last_of(stars);
        match tail {
            TypedTail::Index { index, line, .. } => self.index(index, before, star, *line),
            TypedTail::Up { line, .. } => stepped_after(self.alloc, before, star, true, *line),
            TypedTail::Down { line, .. } => stepped_after(self.alloc, before, star, false, *line),
        }
    }

    /// An index behind a pointer with this last star.
    #[cycle(value)]
    fn index(
        &self,
        index: &TypedExpr,
        what: Found,
        star: Option<Star>,
        line: u32,
    ) -> Result<Found, AllocError>
        ensures { IfOk result (λ made. seen_found made ≡ expressions.indexed (seen_found what) star
            (value_of self.now.objects.now (plain_typed index.now)) line) }
    {
        let Some(forward) = star else {
            return Ok(what);
        };
        let by = self.value(index)?;
        let pointer = fetched(self.alloc, what)?;
        let moved = with_two(self.alloc, Operation::Forward(forward), pointer, by, line)?;
        Ok(behind(star, moved, line))
    }
}
