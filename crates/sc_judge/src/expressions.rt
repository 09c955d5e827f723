//! Judges expressions: the expression with types, where no rule is broken in it, and notes of what is broken.

ghost use Rattle.std.specs.Prelude.{◌≡◌, None, false, map, IfOk};
ghost use Rattle.sc_typing.proofs.ExpressionNotes as notes_of;
ghost use Rattle.sc_typing.specs.Known as facts;
ghost use Rattle.sc_typing.specs.Notes.{Noted, unless};
ghost use Rattle.sc_typing.specs.Operators as operators;
ghost use Rattle.sc_typing.specs.Chains as chains;
ghost use Rattle.sc_typing.specs.Tails as tails;
ghost use Rattle.sc_typing.specs.Rules as rules;
ghost use Rattle.sc_typing.specs.Typing as typing;
ghost use Rattle.sc_typing.specs.Naming as naming;
ghost use Rattle.sc_typing.specs.ViewKnown.{seen_judged};
ghost use Rattle.sc_typing.specs.ViewSource.{source_of};
ghost use Rattle.sc_typing.specs.declared.places.PlaceKind.TheVariants.{NoPlace};
ghost use Rattle.sc_tree.specs.Plain as tree;
ghost use Rattle.sc_tree.specs.View.{plain, plain_kind, plain_link, plain_tail, expressions_of, links_of, tails_of};
ghost use Rattle.sc_operators.specs.ViewChains.{seen_gathered};
ghost use Rattle.sc_judge.specs.ViewSight.{judged_in, noted_in, linked_in, links_noted_in, tailed_in, tails_noted_in};
ghost use Rattle.sc_judge.specs.ViewSight.{JudgesKind, JudgesLinks, JudgesOperands, JudgesTail, JudgesTails};
ghost use Rattle.sc_judge.specs.ViewSight.{JudgesBehind, JudgesArguments};
ghost use Rattle.sc_operators.specs.ViewTails.{seen_tailing};

use crate::calls::call_of;
use crate::names::{called_meaning, named};
use sc_base::{Binary, Stars, Ty, Unary};
use sc_operators::chains::{
    Gathered, Linked, begin_chain, both_of, chained, either_of, gather, join, note_join,
    nothing_gathered,
};
use sc_operators::noting::{note_choice, note_one, note_prefix, note_set, note_tested, note_used};
use sc_operators::operators::{
    address_of, cast_of, choice_of, constant, deref_of, null_constant, number_of, plus_of,
    prefix_of, set_of, step_of,
};
use sc_operators::tails::{
    Tailing, begin_tails, finish, index_tail, note_index, note_step, step_tail,
};
use sc_tree::{Expr, ExprKind, Link, Tail, TypedKind};
use sc_typing::Rule;
use sc_typing::calls::Given;
use sc_typing::file::{File, Meaning};
use sc_typing::known::{Judged, Spot, judgement};
use sc_typing::library::Library;
use sc_typing::notes::Notes;
use sc_typing::places::PlaceKind;
use sc_typing::rules::{address_kept, are_int, are_pointers, cast_kept, place_kept};
use sc_typing::scope::Scope;
use std::alloc::{AllocError, Global};

/// What an expression sees: the file, and the locals in scope.
#[derive(Clone, Copy)]
pub struct Sight<'a> {
    pub alloc: Global,
    pub file: File<'a>,
    pub scope: &'a Scope,
}

impl Sight<'_> {
    /// The expression with so many indices directly behind it.
    #[cycle(value)]
    pub fn value(
        &self,
        notes: &mut Notes,
        indices: usize,
        expression: &Expr,
    ) -> Result<Judged, AllocError>
        ensures { Noted seen_judged result
            (typing.judge (source_of self.now.file) self.now.scope.now.locals indices (plain expression.now))
            notes.new
            (notes_of.note_value (source_of self.now.file) self.now.scope.now.locals indices (plain expression.now) notes.old) }
    {
        let spot = Spot {
            start: expression.start,
            at: expression.at,
            line: expression.line,
        };
        let made = self.kind(notes, indices, &expression.kind, spot)?;
        Ok(made)
    }

    #[cycle(value)]
    fn kind(
        &self,
        notes: &mut Notes,
        indices: usize,
        kind: &ExprKind,
        spot: Spot,
    ) -> Result<Judged, AllocError>
        ensures { JudgesKind self.now indices (plain_kind kind.now) spot result notes.old notes.new }
    {
        match kind {
            ExprKind::Number(n) => Ok(number_of(self.alloc, *n, spot)?),
            ExprKind::Null => Ok(null_constant(self.alloc, spot)?),
            ExprKind::MyProc => Ok(constant(self.alloc, TypedKind::MyProc, spot)?),
            ExprKind::Procs => Ok(constant(self.alloc, TypedKind::Procs, spot)?),
            ExprKind::SizeInt => Ok(constant(self.alloc, TypedKind::SizeInt, spot)?),
            ExprKind::Name(name) => self.name(notes, indices, *name, spot),
            ExprKind::Format(_) => misplaced_format(notes, spot),
            ExprKind::Chain { first, rest } => {
                let first = self.value(notes, 0, first.get())?;
                self.chain(notes, first, rest.as_slice(), spot)
            }
            ExprKind::And(all) => self.both(notes, all.as_slice(), spot),
            ExprKind::Or(all) => self.either(notes, all.as_slice(), spot),
            ExprKind::Cond { test, yes, no } => {
                let test = self.value(notes, 0, test.get())?;
                let on = self.value(notes, 0, yes.get())?;
                let off = self.value(notes, 0, no.get())?;
                chosen(self.alloc, notes, test, on, off, spot)
            }
            ExprKind::Assign { op, left, right } => {
                let left = self.value(notes, 0, left.get())?;
                let right = self.value(notes, 0, right.get())?;
                assigned(self.alloc, notes, *op, left, right, spot)
            }
            ExprKind::Step { up, place } => self.step(notes, *up, place.get(), spot),
            ExprKind::Plus(e) => self.plus(notes, e.get(), spot),
            ExprKind::Prefix { op, e } => self.prefix(notes, *op, e.get(), spot),
            ExprKind::Deref(e) => self.deref(notes, e.get(), spot),
            ExprKind::Address(e) => self.address(notes, e.get(), spot),
            ExprKind::Cast { stars, e } => self.cast(notes, stars, e.get(), spot),
            ExprKind::Postfix { first, tails } => {
                let first = self.value(notes, leading(tails.as_slice()), first.get())?;
                self.postfix(notes, first, tails.as_slice(), spot)
            }
            ExprKind::Call { name, args } => self.call(notes, *name, args.as_slice(), spot),
        }
    }

    fn name(
        &self,
        notes: &mut Notes,
        indices: usize,
        name: u32,
        spot: Spot,
    ) -> Result<Judged, AllocError>
        ensures { JudgesKind self.now indices (tree.name name) spot result notes.old notes.new }
    {
        let made = named(
            self.alloc, &self.file, self.scope, notes, indices, name, spot,
        )?;
        Ok(made)
    }

    /// The chain of the first operand and the links that follow.
    #[cycle(value)]
    fn chain(
        &self,
        notes: &mut Notes,
        first: Judged,
        rest: &[Link],
        spot: Spot,
    ) -> Result<Judged, AllocError>
        ensures { Noted seen_judged result
            (typing.chained spot
            (linked_in self.now (chains.begin_chain (seen_judged first)) (links_of (map plain_link rest.now))))
            notes.new
            (links_noted_in self.now (chains.begin_chain (seen_judged first)) (links_of (map plain_link rest.now))
            (notes_of.note_used (seen_judged first) notes.old)) }
    {
        note_used(notes, &first)?;
        let begun = begin_chain(self.alloc, first)?;
        let all = self.links(notes, begun, rest)?;
        let made = chained(self.alloc, spot, all)?;
        Ok(made)
    }

    /// The chain so far with the links that follow.
    #[cycle(value)]
    fn links(
        &self,
        notes: &mut Notes,
        begun: Option<Linked>,
        rest: &[Link],
    ) -> Result<Option<Linked>, AllocError>
        ensures { JudgesLinks self.now begun (links_of (map plain_link rest.now)) result notes.old notes.new }
    {
        let mut all = begun;
        for link in rest {
            all = self.link(notes, all, link)?;
        }
        Ok(all)
    }

    #[cycle(value)]
    fn link(
        &self,
        notes: &mut Notes,
        left: Option<Linked>,
        link: &Link,
    ) -> Result<Option<Linked>, AllocError>
        ensures { JudgesLinks self.now left (tree.links (plain_link link.now) tree.no_links)
            result notes.old notes.new }
    {
        let right = self.value(notes, 0, &link.e)?;
        note_join(notes, &left, link.op, &right, link.at)?;
        let made = join(self.alloc, left, link.op, right, link.at, link.line)?;
        Ok(made)
    }

    #[cycle(value)]
    fn both(&self, notes: &mut Notes, all: &[Expr], spot: Spot) -> Result<Judged, AllocError>
        ensures { JudgesKind self.now 0 (tree.both (expressions_of (map plain all.now))) spot
            result notes.old notes.new }
    {
        let gathered = self.operands(notes, all)?;
        let made = both_of(self.alloc, spot, gathered)?;
        Ok(made)
    }

    #[cycle(value)]
    fn either(&self, notes: &mut Notes, all: &[Expr], spot: Spot) -> Result<Judged, AllocError>
        ensures { JudgesKind self.now 0 (tree.either (expressions_of (map plain all.now))) spot
            result notes.old notes.new }
    {
        let gathered = self.operands(notes, all)?;
        let made = either_of(self.alloc, spot, gathered)?;
        Ok(made)
    }

    /// The operands of `&&` or `||`.
    #[cycle(value)]
    fn operands(&self, notes: &mut Notes, all: &[Expr]) -> Result<Gathered, AllocError>
        ensures { JudgesOperands self.now (expressions_of (map plain all.now)) result notes.old notes.new }
    {
        let mut gathered = nothing_gathered(self.alloc);
        for e in all {
            gathered = self.operand(notes, gathered, e)?;
        }
        Ok(gathered)
    }

    #[cycle(value)]
    fn operand(
        &self,
        notes: &mut Notes,
        gathered: Gathered,
        expression: &Expr,
    ) -> Result<Gathered, AllocError>
        ensures { Noted seen_gathered result
            (operators.gather (seen_gathered gathered) (judged_in self.now (plain expression.now)))
            notes.new
            (notes_of.note_tested (judged_in self.now (plain expression.now)) (noted_in self.now (plain expression.now) notes.old)) }
    {
        let operand = self.value(notes, 0, expression)?;
        note_tested(notes, &operand)?;
        let made = gather(gathered, operand)?;
        Ok(made)
    }

    #[cycle(value)]
    fn step(
        &self,
        notes: &mut Notes,
        up: bool,
        place: &Expr,
        spot: Spot,
    ) -> Result<Judged, AllocError>
        ensures { JudgesKind self.now 0 (tree.step up (plain place.now)) spot result notes.old notes.new }
    {
        let place = self.value(notes, 0, place)?;
        let kept = place_kept(true, place.place, &place.known);
        note_one(notes, &place, kept, spot.at, Rule::Update)?;
        let made = step_of(self.alloc, up, place, spot)?;
        Ok(made)
    }

    #[cycle(value)]
    fn plus(&self, notes: &mut Notes, expression: &Expr, spot: Spot) -> Result<Judged, AllocError>
        ensures { JudgesKind self.now 0 (tree.plus (plain expression.now)) spot result notes.old notes.new }
    {
        let operand = self.value(notes, 0, expression)?;
        let kept = are_int(&operand.known);
        note_one(notes, &operand, kept, spot.at, Rule::Ints)?;
        let made = plus_of(self.alloc, operand, spot)?;
        Ok(made)
    }

    #[cycle(value)]
    fn prefix(
        &self,
        notes: &mut Notes,
        op: Unary,
        expression: &Expr,
        spot: Spot,
    ) -> Result<Judged, AllocError>
        ensures { JudgesKind self.now 0 (tree.prefix op (plain expression.now)) spot result notes.old notes.new }
    {
        let operand = self.value(notes, 0, expression)?;
        note_prefix(notes, op, &operand, spot)?;
        let made = prefix_of(self.alloc, op, operand, spot)?;
        Ok(made)
    }

    #[cycle(value)]
    fn deref(&self, notes: &mut Notes, expression: &Expr, spot: Spot) -> Result<Judged, AllocError>
        ensures { JudgesKind self.now 0 (tree.deref (plain expression.now)) spot result notes.old notes.new }
    {
        let operand = self.value(notes, 0, expression)?;
        let kept = are_pointers(&operand.known);
        note_one(notes, &operand, kept, spot.at, Rule::Pointer)?;
        let made = deref_of(self.alloc, operand, spot)?;
        Ok(made)
    }

    #[cycle(value)]
    fn address(
        &self,
        notes: &mut Notes,
        expression: &Expr,
        spot: Spot,
    ) -> Result<Judged, AllocError>
        ensures { JudgesKind self.now 0 (tree.address (plain expression.now)) spot result notes.old notes.new }
    {
        let operand = self.value(notes, 0, expression)?;
        let kept = address_kept(&operand);
        note_one(notes, &operand, kept, spot.at, Rule::Address)?;
        let made = address_of(self.alloc, operand, spot)?;
        Ok(made)
    }

    #[cycle(value)]
    fn cast(
        &self,
        notes: &mut Notes,
        stars: &Stars,
        expression: &Expr,
        spot: Spot,
    ) -> Result<Judged, AllocError>
        ensures { JudgesKind self.now 0 (tree.cast stars.now (plain expression.now)) spot result notes.old notes.new }
    {
        let operand = self.value(notes, 0, expression)?;
        let kept = cast_is_kept(self.alloc, stars, &operand)?;
        note_one(notes, &operand, kept, spot.at, Rule::Use)?;
        let made = cast_of(self.alloc, stars, operand, spot)?;
        Ok(made)
    }

    /// The postfix expression of the first part and what follows behind it.
    #[cycle(value)]
    fn postfix(
        &self,
        notes: &mut Notes,
        first: Judged,
        rest: &[Tail],
        spot: Spot,
    ) -> Result<Judged, AllocError>
        ensures { Noted seen_judged result
            (typing.tailed spot
            (tailed_in self.now (tails.begin_tails (seen_judged first)) (tails_of (map plain_tail rest.now))))
            notes.new
            (tails_noted_in self.now (tails.begin_tails (seen_judged first)) (tails_of (map plain_tail rest.now))
            (notes_of.note_used (seen_judged first) notes.old)) }
    {
        note_used(notes, &first)?;
        let begun = begin_tails(self.alloc, first)?;
        let all = self.tails(notes, begun, rest)?;
        let made = finish(self.alloc, spot, all)?;
        Ok(made)
    }

    /// The postfix expression so far with what follows behind it.
    #[cycle(value)]
    fn tails(&self, notes: &mut Notes, begun: Tailing, rest: &[Tail]) -> Result<Tailing, AllocError>
        ensures { JudgesTails self.now begun (tails_of (map plain_tail rest.now)) result notes.old notes.new }
    {
        let mut all = begun;
        for tail in rest {
            all = self.tail(notes, all, tail)?;
        }
        Ok(all)
    }

    #[cycle(value)]
    fn tail(&self, notes: &mut Notes, tailing: Tailing, tail: &Tail) -> Result<Tailing, AllocError>
        ensures { JudgesTail self.now tailing (plain_tail tail.now) result notes.old notes.new }
    {
        match tail {
            Tail::Index { index, at, line } => self.index(notes, tailing, index, *at, *line),
            Tail::Up { at, line } => stepped(notes, tailing, true, *at, *line),
            Tail::Down { at, line } => stepped(notes, tailing, false, *at, *line),
        }
    }

    #[cycle(value)]
    fn index(
        &self,
        notes: &mut Notes,
        tailing: Tailing,
        index: &Expr,
        at: u32,
        line: u32,
    ) -> Result<Tailing, AllocError>
        ensures { JudgesTail self.now tailing (tree.index (plain index.now) at line) result notes.old notes.new }
    {
        let index = self.value(notes, 0, index)?;
        note_index(notes, &tailing, &index, at)?;
        let made = index_tail(self.alloc, tailing, index, at, line)?;
        Ok(made)
    }

    #[cycle(value)]
    fn call(
        &self,
        notes: &mut Notes,
        name: u32,
        args: &[Expr],
        spot: Spot,
    ) -> Result<Judged, AllocError>
        ensures { JudgesKind self.now 0 (tree.call name (expressions_of (map plain args.now))) spot
            result notes.old notes.new }
    {
        let meaning = called_meaning(&self.file, self.scope, name)?;
        let given = format_given(meaning, args);
        let judged = self.behind(notes, given, args)?;
        let made = call_of(self.alloc, &self.file, notes, meaning, given, judged, spot)?;
        Ok(made)
    }

    /// The arguments that are judged: a format that is printed is none of them.
    #[cycle(value)]
    fn behind(
        &self,
        notes: &mut Notes,
        given: Option<Given>,
        args: &[Expr],
    ) -> Result<Vec<Judged>, AllocError>
        ensures { JudgesBehind self.now given (expressions_of (map plain args.now)) result notes.old notes.new }
    {
        match args {
            [] => Ok(Vec::new(self.alloc)),
            [_, more @ ..] => match given {
                None => self.arguments(notes, args),
                Some(_) => self.arguments(notes, more),
            },
        }
    }

    #[cycle(value)]
    fn arguments(&self, notes: &mut Notes, all: &[Expr]) -> Result<Vec<Judged>, AllocError>
        ensures { JudgesArguments self.now (expressions_of (map plain all.now)) result notes.old notes.new }
    {
        let mut made = Vec::new(self.alloc);
        for e in all {
            let argument = self.argument(notes, e)?;
            made.push(argument)?;
        }
        Ok(made)
    }

    #[cycle(value)]
    fn argument(&self, notes: &mut Notes, expression: &Expr) -> Result<Judged, AllocError>
        ensures { Noted seen_judged result
            (judged_in self.now (plain expression.now))
            notes.new
            (notes_of.note_used (judged_in self.now (plain expression.now)) (noted_in self.now (plain expression.now) notes.old)) }
    {
        let made = self.value(notes, 0, expression)?;
        note_used(notes, &made)?;
        Ok(made)
    }
}

/// A format that is no argument of `printf`.
fn misplaced_format(notes: &mut Notes, spot: Spot) -> Result<Judged, AllocError>
    ensures { Noted seen_judged result (facts.judged spot NoPlace None) notes.new (unless false spot.at Rule.Format notes.old) }
{
    notes.demand(false, spot.at, Rule::Format)?;
    Ok(judgement(spot, PlaceKind::NoPlace, None))
}

/// `test ? on : off`
fn chosen(
    alloc: Global,
    notes: &mut Notes,
    test: Judged,
    on: Judged,
    off: Judged,
    spot: Spot,
) -> Result<Judged, AllocError>
    ensures { Noted seen_judged result
        (operators.choice_of (seen_judged test) (seen_judged on) (seen_judged off) spot)
        notes.new
        (notes_of.note_choice (seen_judged test) (seen_judged on) (seen_judged off) spot notes.old) }
{
    note_choice(notes, &test, &on, &off, spot)?;
    let made = choice_of(alloc, test, on, off, spot)?;
    Ok(made)
}

/// `=`, or a compound assignment where there is an operator.
fn assigned(
    alloc: Global,
    notes: &mut Notes,
    op: Option<Binary>,
    left: Judged,
    right: Judged,
    spot: Spot,
) -> Result<Judged, AllocError>
    ensures { Noted seen_judged result
        (operators.set_of op (seen_judged left) (seen_judged right) spot)
        notes.new
        (notes_of.note_set op (seen_judged left) (seen_judged right) spot notes.old) }
{
    note_set(notes, op, &left, &right, spot)?;
    let made = set_of(alloc, op, left, right, spot)?;
    Ok(made)
}

/// Whether the rule on a cast to int with these stars is kept.
fn cast_is_kept(alloc: Global, stars: &Stars, operand: &Judged) -> Result<bool, AllocError>
    ensures { IfOk result (λ kept.
        kept ≡ rules.cast_kept (operators.cast_type stars.now) (seen_judged operand.now).known) }
{
    let stars = Vec::from_slice(alloc, stars.as_slice())?;
    let to = Ty {
        void: false,
        stars: Stars::from_vec(stars),
    };
    Ok(cast_kept(&to, &operand.known))
}

/// How many indices stand directly behind the first part.
fn leading(rest: &[Tail]) -> usize
    ensures { result ≡ naming.leading (tails_of (map plain_tail rest.now)) }
{
    let mut count = 0;
    for tail in rest {
        match tail {
            Tail::Index { .. } => count += 1,
            Tail::Up { .. } | Tail::Down { .. } => return count,
        }
    }
    count
}

/// The postfix expression with `++` or `--` behind it.
fn stepped(
    notes: &mut Notes,
    tailing: Tailing,
    up: bool,
    at: u32,
    line: u32,
) -> Result<Tailing, AllocError>
    ensures { Noted seen_tailing result
        (tails.step_tail (seen_tailing tailing) up at line)
        notes.new
        (notes_of.note_step (seen_tailing tailing) at notes.old) }
{
    note_step(notes, &tailing, at)?;
    let made = step_tail(tailing, up, at, line)?;
    Ok(made)
}

/// The format that the call prints, if it is one of `printf` whose first argument is a format.
fn format_given(meaning: Option<Meaning>, args: &[Expr]) -> Option<Given>
    ensures { result ≡ naming.format_given meaning (expressions_of (map plain args.now)) }
{
    if !prints(meaning) {
        return None;
    }
    match args {
        [] => None,
        [first, ..] => given_in(first),
    }
}

fn prints(meaning: Option<Meaning>) -> bool
    ensures { result ≡ naming.printing meaning }
{
    matches!(meaning, Some(Meaning::Library(Library::Printf)))
}

fn given_in(expression: &Expr) -> Option<Given>
    ensures { result ≡ naming.given_in (plain expression.now) }
{
    match &expression.kind {
        ExprKind::Format(format) => Some(Given {
            format: *format,
            at: expression.at,
        }),
        _ => None,
    }
}
