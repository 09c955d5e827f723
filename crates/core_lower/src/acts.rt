//! How core statements are made.

ghost use Rattle.std.specs.Prelude.{◌≡◌, ◌∷◌, IfOk, OnOk, map, [], ◌++◌};
ghost use Rattle.sc_core.specs.Core as core_tree;
ghost use Rattle.sc_core.specs.Statements as statements;
ghost use Rattle.sc_core.specs.View.{plain_core, arguments_of};
ghost use Rattle.sc_core.specs.ViewParts.{plain_core_arm};
ghost use Rattle.sc_core.specs.ViewStatements.{plain_does, block_of, chosen};

use sc_core::{Action, CoreArm, CoreExpr, CoreStmt};
use sqlite_items::{Boxed, Items};
use std::alloc::{AllocError, Global};

/// Nothing to do.
#[tactic(auto, using(sc_core::proofs::ViewCoreStmtLaws::core_statement_views))]
pub fn nothing(alloc: Global) -> Result<Boxed<CoreStmt>, AllocError>
    ensures { IfOk result (λ made. plain_does made ≡ core_tree.nothing) }
{
    let made = Boxed::new(alloc, CoreStmt::Nothing)?;
    Ok(made)
}

/// The step without a value.
#[tactic(auto, using(sc_core::proofs::ViewCoreStmtLaws::core_statement_views))]
pub fn act(
    alloc: Global,
    action: Action,
    arguments: Vec<CoreExpr>,
    line: u32,
) -> Result<Boxed<CoreStmt>, AllocError>
    ensures { IfOk result (λ made. plain_does made
        ≡ core_tree.act action (arguments_of (map plain_core arguments.items)) line) }
{
    let made = CoreStmt::Act {
        action,
        arguments: Items::from_vec(arguments),
        line,
    };
    let made = Boxed::new(alloc, made)?;
    Ok(made)
}

/// The step without a value that takes nothing.
pub fn act_alone(alloc: Global, action: Action, line: u32) -> Result<Boxed<CoreStmt>, AllocError>
    ensures { IfOk result (λ made. plain_does made ≡ core_tree.act action core_tree.none line) }
{
    let made = act(alloc, action, Vec::new(alloc), line)?;
    Ok(made)
}

/// The step without a value that takes this one.
pub fn act_on(
    alloc: Global,
    action: Action,
    e: CoreExpr,
    line: u32,
) -> Result<Boxed<CoreStmt>, AllocError>
    ensures { IfOk result (λ made. plain_does made ≡ statements.act_on action (plain_core e) line) }
{
    let mut arguments = Vec::new(alloc);
    arguments.push(e)?;
    let made = act(alloc, action, arguments, line)?;
    Ok(made)
}

/// The step without a value that takes these two.
pub fn act_on_two(
    alloc: Global,
    action: Action,
    a: CoreExpr,
    b: CoreExpr,
    line: u32,
) -> Result<Boxed<CoreStmt>, AllocError>
    ensures { IfOk result (λ made. plain_does made ≡ core_tree.act action
        (core_tree.argument (plain_core a) (core_tree.argument (plain_core b) core_tree.none)) line) }
{
    let mut arguments = Vec::new(alloc);
    arguments.push(a)?;
    arguments.push(b)?;
    let made = act(alloc, action, arguments, line)?;
    Ok(made)
}

/// The step without a value that takes these three.
pub fn act_on_three(
    alloc: Global,
    action: Action,
    a: CoreExpr,
    b: CoreExpr,
    c: CoreExpr,
    line: u32,
) -> Result<Boxed<CoreStmt>, AllocError>
    ensures { IfOk result (λ made. plain_does made ≡ core_tree.act action
        (core_tree.argument (plain_core a) (core_tree.argument (plain_core b)
        (core_tree.argument (plain_core c) core_tree.none))) line) }
{
    let mut arguments = Vec::new(alloc);
    arguments.push(a)?;
    arguments.push(b)?;
    arguments.push(c)?;
    let made = act(alloc, action, arguments, line)?;
    Ok(made)
}

pub fn push_statement(all: &mut Vec<CoreStmt>, s: Boxed<CoreStmt>) -> Result<(), AllocError>
    ensures { OnOk result (map plain_does all.new.items ≡ map plain_does all.old.items ++ plain_does s ∷ []) }
{
    all.push(s.into_inner())?;
    Ok(())
}

#[tactic(auto, using(sc_core::proofs::ViewCoreStmtLaws::core_statement_views))]
pub fn push_arm(
    all: &mut Vec<CoreArm>,
    of_pointer: bool,
    test: CoreExpr,
    body: Boxed<CoreStmt>,
) -> Result<(), AllocError>
    ensures { OnOk result (map plain_core_arm all.new.items ≡ map plain_core_arm all.old.items
        ++ record { of_pointer = of_pointer; test = plain_core test; body = plain_does body } ∷ []) }
{
    all.push(CoreArm {
        of_pointer,
        test,
        body: body.into_inner(),
    })?;
    Ok(())
}

/// Statements one after another.
#[tactic(auto, using(sc_core::proofs::ViewCoreStmtLaws::core_statement_views))]
pub fn block(alloc: Global, all: Vec<CoreStmt>) -> Result<Boxed<CoreStmt>, AllocError>
    ensures { IfOk result (λ made. plain_does made ≡ block_of (map plain_does all.items)) }
{
    let made = Boxed::new(alloc, CoreStmt::Block(Items::from_vec(all)))?;
    Ok(made)
}

/// The one and then the other.
pub fn in_turn(
    alloc: Global,
    first: Boxed<CoreStmt>,
    second: Boxed<CoreStmt>,
) -> Result<Boxed<CoreStmt>, AllocError>
    ensures { IfOk result (λ made. plain_does made ≡ statements.in_turn (plain_does first) (plain_does second)) }
{
    let mut all = Vec::new(alloc);
    push_statement(&mut all, first)?;
    push_statement(&mut all, second)?;
    let made = block(alloc, all)?;
    Ok(made)
}

/// The first arm whose test is true, or else the rest.
#[tactic(auto, using(sc_core::proofs::ViewCoreStmtLaws::core_statement_views))]
pub fn choose(
    alloc: Global,
    arms: Vec<CoreArm>,
    rest: Boxed<CoreStmt>,
) -> Result<Boxed<CoreStmt>, AllocError>
    ensures { IfOk result (λ made. plain_does made ≡ chosen (map plain_core_arm arms.items) (plain_does rest)) }
{
    let made = CoreStmt::Choose {
        arms: Items::from_vec(arms),
        rest,
    };
    let made = Boxed::new(alloc, made)?;
    Ok(made)
}

#[tactic(auto, using(sc_core::proofs::ViewCoreStmtLaws::core_statement_views))]
pub fn loop_of(
    alloc: Global,
    mine: Option<u32>,
    before: Boxed<CoreStmt>,
    body: Boxed<CoreStmt>,
    after: Boxed<CoreStmt>,
) -> Result<Boxed<CoreStmt>, AllocError>
    ensures { IfOk result (λ made. plain_does made
        ≡ core_tree.loop mine (plain_does before) (plain_does body) (plain_does after)) }
{
    let made = CoreStmt::Loop {
        mine,
        before,
        body,
        after,
    };
    let made = Boxed::new(alloc, made)?;
    Ok(made)
}

#[tactic(auto, using(sc_core::proofs::ViewCoreStmtLaws::core_statement_views))]
pub fn return_of(alloc: Global, value: CoreExpr, line: u32) -> Result<Boxed<CoreStmt>, AllocError>
    ensures { IfOk result (λ made. plain_does made ≡ core_tree.return (plain_core value) line) }
{
    let made = Boxed::new(alloc, CoreStmt::Return { value, line })?;
    Ok(made)
}

/// Leaves the loop where the test is false.
#[tactic(auto, using(sc_core::proofs::ViewCoreStmtLaws::core_statement_views))]
pub fn leave_unless(
    alloc: Global,
    of_pointer: bool,
    test: CoreExpr,
) -> Result<Boxed<CoreStmt>, AllocError>
    ensures { IfOk result (λ made. plain_does made
        ≡ core_tree.choose of_pointer (plain_core test) core_tree.nothing core_tree.break) }
{
    let stays = nothing(alloc)?;
    let mut arms = Vec::new(alloc);
    push_arm(&mut arms, of_pointer, test, stays)?;
    let leaves = Boxed::new(alloc, CoreStmt::Break)?;
    let made = choose(alloc, arms, leaves)?;
    Ok(made)
}
