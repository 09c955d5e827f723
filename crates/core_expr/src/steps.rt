//! How core expressions are made.

ghost use Rattle.std.specs.Prelude.{◌≡◌, IfOk, OnOk, map, [], ◌∷◌};
ghost use Rattle.sc_core.specs.Core as core_tree;
ghost use Rattle.sc_core.specs.Places as places;
ghost use Rattle.sc_core.specs.View.{plain_core, arguments_of, linked, every_of, any_of};
ghost use Rattle.sc_core.specs.ViewParts.{plain_core_link, plain_core_test};

use sc_core::{Constant, CoreExpr, CoreFirst, CoreLink, CoreTest, Operation};
use sqlite_items::{Boxed, Items};
use std::alloc::{AllocError, Global};

#[tactic(auto, using(sc_core::proofs::ViewCoreLaws::core_views))]
pub fn constant(alloc: Global, value: Constant) -> CoreExpr
    ensures { plain_core result ≡ core_tree.constant value }
{
    CoreExpr {
        first: CoreFirst::Constant(value),
        links: Items::new(alloc),
    }
}

/// The step with these arguments.
#[tactic(auto, using(sc_core::proofs::ViewCoreLaws::core_views))]
pub fn step(alloc: Global, operation: Operation, arguments: Vec<CoreExpr>, line: u32) -> CoreExpr
    ensures { plain_core result ≡ core_tree.step operation (arguments_of (map plain_core arguments.items)) line }
{
    CoreExpr {
        first: CoreFirst::Step {
            operation,
            arguments: Items::from_vec(arguments),
            line,
        },
        links: Items::new(alloc),
    }
}

/// The value of the local.
pub fn used(alloc: Global, local: u32, line: u32) -> CoreExpr
    ensures { plain_core result ≡ places.fetched (places.local local line) }
{
    step(alloc, Operation::Use(local), Vec::new(alloc), line)
}

/// The step that takes the value so far and the arguments of the link behind it.
#[tactic(auto, using(sc_core::proofs::ViewCoreLaws::core_views))]
fn push_link(e: &mut CoreExpr, link: CoreLink) -> Result<(), AllocError>
    ensures { OnOk result (plain_core e.new ≡ linked (plain_core e.old) (plain_core_link link ∷ [])) }
{
    e.links.push(link)?;
    Ok(())
}

/// The step that takes this value alone.
#[tactic(auto, using(sc_core::proofs::ViewCoreLaws::core_views))]
pub fn with_one(
    alloc: Global,
    operation: Operation,
    e: CoreExpr,
    line: u32,
) -> Result<CoreExpr, AllocError>
    ensures { IfOk result (λ made. plain_core made ≡ places.with_one operation (plain_core e) line) }
{
    let mut made = e;
    let link = CoreLink {
        operation,
        more: Items::new(alloc),
        line,
    };
    push_link(&mut made, link)?;
    Ok(made)
}

/// The step that takes these two values.
#[tactic(auto, using(sc_core::proofs::ViewCoreLaws::core_views))]
pub fn with_two(
    alloc: Global,
    operation: Operation,
    a: CoreExpr,
    b: CoreExpr,
    line: u32,
) -> Result<CoreExpr, AllocError>
    ensures { IfOk result (λ made. plain_core made ≡ places.with_two operation (plain_core a) (plain_core b) line) }
{
    let mut more = Vec::new(alloc);
    more.push(b)?;
    let mut made = a;
    let link = CoreLink {
        operation,
        more: Items::from_vec(more),
        line,
    };
    push_link(&mut made, link)?;
    Ok(made)
}

/// The operands joined by `&&`.
#[tactic(auto, using(sc_core::proofs::ViewCoreLaws::core_views))]
pub fn every(alloc: Global, tests: Vec<CoreTest>) -> CoreExpr
    ensures { plain_core result ≡ every_of (map plain_core_test tests.items) }
{
    CoreExpr {
        first: CoreFirst::Every(Items::from_vec(tests)),
        links: Items::new(alloc),
    }
}

/// The operands joined by `||`.
#[tactic(auto, using(sc_core::proofs::ViewCoreLaws::core_views))]
pub fn any(alloc: Global, tests: Vec<CoreTest>) -> CoreExpr
    ensures { plain_core result ≡ any_of (map plain_core_test tests.items) }
{
    CoreExpr {
        first: CoreFirst::Any(Items::from_vec(tests)),
        links: Items::new(alloc),
    }
}

#[tactic(auto, using(sc_core::proofs::ViewCoreLaws::core_views))]
pub fn choice(
    alloc: Global,
    of_pointer: bool,
    test: CoreExpr,
    yes: CoreExpr,
    no: CoreExpr,
) -> Result<CoreExpr, AllocError>
    ensures { IfOk result (λ made. plain_core made
        ≡ core_tree.choice of_pointer (plain_core test) (plain_core yes) (plain_core no)) }
{
    let test = Boxed::new(alloc, test)?;
    let yes = Boxed::new(alloc, yes)?;
    let no = Boxed::new(alloc, no)?;
    Ok(CoreExpr {
        first: CoreFirst::Choice {
            of_pointer,
            test,
            yes,
            no,
        },
        links: Items::new(alloc),
    })
}

/// The compound assignment to the cell behind the pointer.
#[tactic(auto, using(sc_core::proofs::ViewCoreLaws::core_views))]
pub fn update(
    alloc: Global,
    pointer: CoreExpr,
    operation: Operation,
    right: CoreExpr,
    taken_back: Option<Operation>,
    line: u32,
) -> Result<CoreExpr, AllocError>
    ensures { IfOk result (λ made. plain_core made
        ≡ core_tree.update (plain_core pointer) operation (plain_core right) taken_back line) }
{
    let pointer = Boxed::new(alloc, pointer)?;
    let right = Boxed::new(alloc, right)?;
    Ok(CoreExpr {
        first: CoreFirst::Update {
            pointer,
            operation,
            right,
            taken_back,
            line,
        },
        links: Items::new(alloc),
    })
}
