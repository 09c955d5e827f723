//! The core of a typed source.

ghost use Rattle.std.specs.Prelude.{◌≡◌, ◌++◌, IfOk, map, codes};
ghost use Rattle.std.specs.Option.{option_map};
ghost use Rattle.std.specs.Str.{bytes_eq};
ghost use Rattle.sc_tree.specs.ViewTypedTree.{plain_typed_block, plain_typed_function, plain_typed_tree};
ghost use Rattle.core_lower.specs.ListedFunctions.{function_in, listed};
ghost use Rattle.sc_core.specs.Lowering as lowering;
ghost use Rattle.sc_core.specs.ViewStatements.{plain_function, plain_program};

use crate::statements::Body;
use core_expr::Sight;
use core_expr::places::narrowed;
use sc_base::{Bytes, OutOfMemory, Ty, copy_of_type};
use sc_core::{CoreFunction, CoreProgram};
use sc_tree::{Texts, Typed, TypedFunction, TypedParam, TypedStmt};
use sqlite_items::Items;
use std::alloc::{AllocError, Global};

/// The types of the parameters.
fn types_of(alloc: Global, params: &[TypedParam]) -> Result<Vec<Ty>, AllocError>
    ensures { IfOk result (λ types. types.items ≡ map (λ p. p.ty) params.now) }
{
    let mut types = Vec::new(alloc);
    for param in params {
        let ty = copy_of_type(alloc, &param.ty)?;
        types.push(ty)?;
    }
    Ok(types)
}

/// The texts, in memory of their own.
fn copies_of(alloc: Global, texts: &[Bytes]) -> Result<Vec<Bytes>, AllocError>
    ensures { IfOk result (λ copies. copies.items ≡ texts.now) }
{
    let mut copies = Vec::new(alloc);
    for text in texts {
        let copy = Vec::from_slice(alloc, text.as_slice())?;
        copies.push(Bytes::from_vec(copy))?;
    }
    Ok(copies)
}

/// The function with this body.
#[tactic(auto, using(std::proofs::lemmas::Grind::common_steps, crate::proofs::Numbered::bodies))]
fn function_with(
    sight: &Sight<'_>,
    f: &TypedFunction,
    body: &[TypedStmt],
) -> Result<CoreFunction, AllocError>
    ensures { IfOk result (λ made. plain_function made ≡ lowering.function_with sight.now.objects.now
        (plain_typed_function f.now) (plain_typed_block body.now)) }
{
    let params = types_of(sight.alloc, f.params.as_slice())?;
    let result = copy_of_type(sight.alloc, &f.result)?;
    let mut others = Vec::new(sight.alloc);
    let within = Body {
        sight: *sight,
        params: params.len(),
        result: &f.result,
    };
    let all = within.block(&mut others, body)?;
    Ok(CoreFunction {
        params: Items::from_vec(params),
        others: Items::from_vec(others),
        result,
        body: all.into_inner(),
        line: f.line,
    })
}

/// The function, if it has a body.
fn function_of(sight: &Sight<'_>, f: &TypedFunction) -> Result<Option<CoreFunction>, AllocError>
    ensures { IfOk result (λ made. option_map plain_function made ≡ function_in sight.now.objects.now
        (plain_typed_function f.now) (plain_typed_function f.now).body) }
{
    match &f.body {
        None => Ok(None),
        Some(body) => {
            let made = function_with(sight, f, body.as_slice())?;
            Ok(Some(made))
        }
    }
}

/// The definitions; prototypes are left out.
#[tactic(auto, using(std::proofs::lemmas::Grind::common_steps, crate::proofs::Defined::definitions))]
fn functions_of(sight: &Sight<'_>, all: &[TypedFunction]) -> Result<Vec<CoreFunction>, AllocError>
    ensures { IfOk result (λ made. map plain_function made.items
        ≡ lowering.functions_of sight.now.objects.now (map plain_typed_function all.now)) }
{
    let mut made = Vec::new(sight.alloc);
    for f in all {
        let function = function_of(sight, f)?;
        push_function(&mut made, function)?;
    }
    Ok(made)
}

fn push_function(all: &mut Vec<CoreFunction>, f: Option<CoreFunction>) -> Result<(), AllocError>
    ensures { IfOk result (λ _. map plain_function all.new.items
        ≡ map plain_function all.old.items ++ listed (option_map plain_function f)) }
{
    match f {
        None => Ok(()),
        Some(f) => {
            all.push(f)?;
            Ok(())
        }
    }
}

fn is_main(name: &Bytes) -> bool
    ensures { result ≡ bytes_eq name.now (codes "splitc_main") }
{
    name.as_slice() == b"splitc_main".as_slice()
}

/// The first of the names that is `splitc_main`, or how many they are.
#[tactic(auto, using(crate::proofs::Mains::mains, std::proofs::lemmas::Grind::common_steps))]
fn main_in(names: &[Bytes]) -> Result<u32, AllocError>
    ensures { IfOk result (λ main. main ≡ lowering.main_in names.now) }
{
    let mut number = 0usize;
    for name in names {
        if is_main(name) {
            let main = narrowed(number)?;
            return Ok(main);
        }
        number += 1;
    }
    let main = narrowed(number)?;
    Ok(main)
}

/// The core of the source.
#[tactic(auto, using(std::proofs::lemmas::Grind::common_steps, crate::proofs::Mains::names))]
fn lowered(alloc: Global, typed: &Typed) -> Result<CoreProgram, AllocError>
    ensures { IfOk result (λ program. plain_program program ≡ lowering.core_of (plain_typed_tree typed.now)) }
{
    let sight = Sight {
        alloc,
        objects: typed.objects.as_slice(),
    };
    let functions = functions_of(&sight, typed.functions.as_slice())?;
    let names = typed.texts.as_slice();
    let first = names.len().saturating_sub(functions.len());
    let main = main_in(&names[first..])?;
    let texts = copies_of(alloc, names)?;
    Ok(CoreProgram {
        functions: Items::from_vec(functions),
        main,
        texts: Texts::from_vec(texts),
    })
}

/// The core tree of a typed source. It is total: the one error is want of memory, as which a number counts that does
/// not fit 32 bits, such as that of a local, of a function or of arguments.
pub fn lower(alloc: Global, typed: &Typed) -> Result<CoreProgram, OutOfMemory>
    ensures { IfOk result (λ program. plain_program program ≡ lowering.core_of (plain_typed_tree typed.now)) }
{
    lowered(alloc, typed).map_err(|_| OutOfMemory)
}
