//! The types of values and the shapes of objects that a source declares.

ghost use Rattle.std.specs.Prelude.{◌≡◌};

use crate::operator::Binary;
use std::marker::Model;

/// What a pointer reaches: the executing node's own copy, one node's memory, or all nodes' in cyclic order.
#[derive(Clone, Copy, Debug, PartialEq, Eq)]
pub enum Star {
    Local,
    Global,
    Spread,
}

/// The stars of a type from left to right, seen as a list.
#[derive(Debug, Drop)]
pub struct Stars {
    stars: Vec<Star>,
}

impl Model for Stars {
    ghost use Rattle.std.specs.Prelude.{List};
    ghost use Rattle.sc_base.specs.declared.shape.Star.{Star};

    ghost Value = { List Star };

    ghost view = { λ s. s.stars.items };
}

impl Stars {
    /// The stars of the vector, in its order.
    pub fn from_vec(stars: Vec<Star>) -> Stars
        ensures { result ≡ stars.items }
    {
        Stars { stars }
    }

    /// All the stars, in their order.
    pub fn as_slice(&self) -> &[Star]
        ensures { result.now ≡ self.now }
    {
        self.stars.as_slice()
    }
}

/// A type: void or int, and a pointer for each star.
#[derive(Debug, Drop)]
pub struct Ty {
    pub void: bool,
    pub stars: Stars,
}

/// A step of a bound in postfix order: it pushes a number or the number of nodes, or takes two operands and
/// pushes their result.
#[derive(Clone, Copy, Debug, PartialEq, Eq)]
pub enum BoundStep {
    Number(i64),
    Procs,
    Op(Binary),
}

/// The steps of one bound, seen as a list.
#[derive(Debug, Drop)]
pub struct BoundSteps {
    steps: Vec<BoundStep>,
}

impl Model for BoundSteps {
    ghost use Rattle.std.specs.Prelude.{List};
    ghost use Rattle.sc_base.specs.declared.shape.BoundStep.{BoundStep};

    ghost Value = { List BoundStep };

    ghost view = { λ s. s.steps.items };
}

impl BoundSteps {
    /// The steps of the vector, in its order.
    pub fn from_vec(steps: Vec<BoundStep>) -> BoundSteps
        ensures { result ≡ steps.items }
    {
        BoundSteps { steps }
    }

    /// All the steps, in their order.
    pub fn as_slice(&self) -> &[BoundStep]
        ensures { result.now ≡ self.now }
    {
        self.steps.as_slice()
    }
}

/// The bound of one dimension, as a postfix expression, with the line of its first token.
#[derive(Debug, Drop)]
pub struct Bound {
    pub steps: BoundSteps,
    pub line: u32,
}

/// The bounds on one side of a declarator, seen as a list.
#[derive(Debug, Drop)]
pub struct Bounds {
    bounds: Vec<Bound>,
}

impl Model for Bounds {
    ghost use Rattle.std.specs.Prelude.{List};
    ghost use Rattle.sc_base.specs.declared.shape.Bound.{Bound};

    ghost Value = { List Bound };

    ghost view = { λ b. b.bounds.items };
}

impl Bounds {
    /// The bounds of the vector, in its order.
    pub fn from_vec(bounds: Vec<Bound>) -> Bounds
        ensures { result ≡ bounds.items }
    {
        Bounds { bounds }
    }

    /// All the bounds, in their order.
    pub fn as_slice(&self) -> &[Bound]
        ensures { result.now ≡ self.now }
    {
        self.bounds.as_slice()
    }
}

/// An object declared at file scope. `name` is the number of its name, `ty` the type of its cells. A spread
/// object has its dimensions before `::` in `left` and the others in `right`; an ordinary one has all in
/// `left`. `at` is the token of its name, counted from 1, and `line` that token's line.
#[derive(Debug, Drop)]
pub struct Shape {
    pub name: u32,
    pub ty: Ty,
    pub spread: bool,
    pub left: Bounds,
    pub right: Bounds,
    pub at: u32,
    pub line: u32,
}
