//! The functions of the library: which arguments they want, and of which type a call is.

ghost use Rattle.std.specs.Prelude.{◌≡◌, ◌∷◌, [], map, take, drop, replicate, true, false, if◌then◌else◌, IfOk};
ghost use Rattle.std.specs.Option.{option_map};
ghost use Rattle.sc_typing.specs.Arguments as arguments;
ghost use Rattle.sc_typing.specs.Calls as calls;
ghost use Rattle.sc_typing.specs.Types as types;
ghost use Rattle.sc_typing.specs.ViewKnown.{seen, seen_judged};
ghost use Rattle.sc_typing.specs.ViewSource.{source_of};

use sc_base::{Star, Ty, copy_of_type};
use sc_typing::Rule;
use sc_typing::calls::Given;
use sc_typing::file::File;
use sc_typing::known::{Judged, Known};
use sc_typing::library::Library;
use sc_typing::types::{element, int, is_pointer, is_wide, last_star, nothing, pointer};
use std::alloc::{AllocError, Global};

/// The types of the arguments that the function wants.
pub fn library_wanted(
    alloc: Global,
    file: &File<'_>,
    given: Option<Given>,
    judged: &[Judged],
    library: Library,
) -> Result<Vec<Ty>, AllocError>
    ensures { IfOk result (λ wanted. wanted.items ≡ arguments.library_wanted (source_of file.now) given (map seen_judged judged.now) library) }
{
    match library {
        Library::Printf => ints_wanted(alloc, format_directives(file, given)),
        Library::Sync | Library::Barrier | Library::AllStoreSync => Ok(Vec::new(alloc)),
        Library::ToGlobal => to_global_wanted(alloc, judged),
        Library::ToProc | Library::ToLocal => first_wanted(alloc, judged),
        Library::BulkRead | Library::BulkGet => {
            pointers_wanted(alloc, judged, Star::Local, Star::Global)
        }
        Library::BulkWrite | Library::BulkPut | Library::BulkStore => {
            pointers_wanted(alloc, judged, Star::Global, Star::Local)
        }
    }
}

/// How many `%d` the given format has.
fn format_directives(file: &File<'_>, given: Option<Given>) -> Option<usize>
    ensures { result ≡ arguments.format_directives (source_of file.now) given }
{
    match given {
        None => None,
        Some(given) => file.directives(given.format),
    }
}

fn ints_wanted(alloc: Global, count: Option<usize>) -> Result<Vec<Ty>, AllocError>
    ensures { IfOk result (λ wanted. wanted.items ≡ arguments.ints_wanted count) }
{
    match count {
        None => Ok(Vec::new(alloc)),
        Some(count) => ints(alloc, count),
    }
}

fn ints(alloc: Global, count: usize) -> Result<Vec<Ty>, AllocError>
    ensures { IfOk result (λ wanted. wanted.items ≡ replicate count types.int) }
{
    let mut wanted = Vec::new(alloc);
    for _i in 0..count {
        wanted.push(int(alloc))?;
    }
    Ok(wanted)
}

fn to_global_wanted(alloc: Global, judged: &[Judged]) -> Result<Vec<Ty>, AllocError>
    ensures { IfOk result (λ wanted. wanted.items ≡ arguments.to_global_wanted (map seen_judged judged.now)) }
{
    let ty = second_element(alloc, judged)?;
    let reached = pointer(alloc, &ty, Star::Local)?;
    let mut wanted = Vec::new(alloc);
    wanted.push(int(alloc))?;
    wanted.push(reached)?;
    Ok(wanted)
}

fn first_wanted(alloc: Global, judged: &[Judged]) -> Result<Vec<Ty>, AllocError>
    ensures { IfOk result (λ wanted. wanted.items ≡ arguments.type_or_int (arguments.first_known (map seen_judged judged.now)) ∷ []) }
{
    let ty = first_type(alloc, judged)?;
    let mut wanted = Vec::new(alloc);
    wanted.push(ty)?;
    Ok(wanted)
}

/// Two pointers to what the arguments reach, with these last stars, and an int.
fn pointers_wanted(
    alloc: Global,
    judged: &[Judged],
    to: Star,
    from: Star,
) -> Result<Vec<Ty>, AllocError>
    ensures { IfOk result (λ wanted. wanted.items ≡ arguments.pointers_wanted (arguments.element_among (take 2 (map seen_judged judged.now))) to from) }
{
    let ty = first_element(alloc, judged)?;
    let to = pointer(alloc, &ty, to)?;
    let from = pointer(alloc, &ty, from)?;
    let mut wanted = Vec::new(alloc);
    wanted.push(to)?;
    wanted.push(from)?;
    wanted.push(int(alloc))?;
    Ok(wanted)
}

/// The type that the first of the first two arguments reaches that is a pointer and not `NULL`, or int.
fn first_element(alloc: Global, judged: &[Judged]) -> Result<Ty, AllocError>
    ensures { IfOk result (λ ty. ty ≡ arguments.element_among (take 2 (map seen_judged judged.now))) }
{
    match judged {
        [] => Ok(int(alloc)),
        [a] => element_or_int(alloc, &a.known),
        [a, b, ..] => first_of_two(alloc, &a.known, &b.known),
    }
}

fn first_of_two(
    alloc: Global,
    first: &Option<Known>,
    second: &Option<Known>,
) -> Result<Ty, AllocError>
    ensures { IfOk result (λ ty. ty ≡ arguments.element_or (option_map seen first.now) (arguments.element_or (option_map seen second.now) types.int)) }
{
    match first {
        None => element_or_int(alloc, second),
        Some(v) if reaches(v) => element(alloc, &v.ty),
        Some(_) => element_or_int(alloc, second),
    }
}

/// The type that the second argument reaches, if it is a pointer and not `NULL`, or int.
fn second_element(alloc: Global, judged: &[Judged]) -> Result<Ty, AllocError>
    ensures { IfOk result (λ ty. ty ≡ arguments.element_among (take 1 (drop 1 (map seen_judged judged.now)))) }
{
    match judged {
        [] | [_] => Ok(int(alloc)),
        [_, j, ..] => element_or_int(alloc, &j.known),
    }
}

fn element_or_int(alloc: Global, known: &Option<Known>) -> Result<Ty, AllocError>
    ensures { IfOk result (λ ty. ty ≡ arguments.element_or (option_map seen known.now) types.int) }
{
    match known {
        None => Ok(int(alloc)),
        Some(v) if reaches(v) => element(alloc, &v.ty),
        Some(_) => Ok(int(alloc)),
    }
}

/// Whether it is a pointer and not `NULL`.
fn reaches(known: &Known) -> bool
    ensures { result ≡ (if types.is_pointer known.now.ty then (if known.now.is_null then false else true) else false) }
{
    is_pointer(&known.ty) && !known.is_null
}

/// The type of the first argument, or int.
fn first_type(alloc: Global, judged: &[Judged]) -> Result<Ty, AllocError>
    ensures { IfOk result (λ ty. ty ≡ arguments.type_or_int (arguments.first_known (map seen_judged judged.now))) }
{
    match judged {
        [] => Ok(int(alloc)),
        [j, ..] => type_or_int(alloc, &j.known),
    }
}

fn type_or_int(alloc: Global, known: &Option<Known>) -> Result<Ty, AllocError>
    ensures { IfOk result (λ ty. ty ≡ arguments.type_or_int (option_map seen known.now)) }
{
    match known {
        None => Ok(int(alloc)),
        Some(v) => copy_of_type(alloc, &v.ty),
    }
}

/// What the rule on the call asks besides.
pub fn library_asks(
    file: &File<'_>,
    given: Option<Given>,
    judged: &[Judged],
    library: Library,
) -> bool
    ensures { result ≡ arguments.library_asks (source_of file.now) given (map seen_judged judged.now) library }
{
    match library {
        Library::Printf => format_directives(file, given).is_some(),
        Library::ToProc | Library::ToLocal => is_first_wide(judged),
        _ => true,
    }
}

fn is_first_wide(judged: &[Judged]) -> bool
    ensures { result ≡ arguments.are_wide (arguments.first_known (map seen_judged judged.now)) }
{
    match judged {
        [] => true,
        [j, ..] => are_wide(&j.known),
    }
}

fn are_wide(known: &Option<Known>) -> bool
    ensures { result ≡ arguments.are_wide (option_map seen known.now) }
{
    match known {
        None => true,
        Some(v) => is_wide(last_star(&v.ty)),
    }
}

/// The rule on its calls.
pub fn library_rule(library: Library) -> Rule
    ensures { result ≡ arguments.library_rule library }
{
    match library {
        Library::Printf => Rule::Format,
        _ => Rule::LibraryArguments,
    }
}

/// The token at which the rule is broken: the format, or the name, which is at this one.
pub fn library_token(library: Library, given: Option<Given>, at: u32) -> u32
    ensures { result ≡ arguments.library_token library given at }
{
    match library {
        Library::Printf => format_token(given, at),
        _ => at,
    }
}

fn format_token(given: Option<Given>, at: u32) -> u32
    ensures { result ≡ arguments.library_token Library.Printf given at }
{
    match given {
        None => at,
        Some(given) => given.at,
    }
}

/// The type of the call.
pub fn library_type(alloc: Global, judged: &[Judged], library: Library) -> Result<Ty, AllocError>
    ensures { IfOk result (λ ty. ty ≡ calls.library_type (map seen_judged judged.now) library) }
{
    match library {
        Library::ToGlobal => global_type(alloc, judged),
        Library::ToLocal => local_type(alloc, judged),
        Library::ToProc => Ok(int(alloc)),
        _ => Ok(nothing(alloc)),
    }
}

fn global_type(alloc: Global, judged: &[Judged]) -> Result<Ty, AllocError>
    ensures { IfOk result (λ ty. ty ≡ types.pointer (arguments.element_among (take 1 (drop 1 (map seen_judged judged.now)))) Star.Global) }
{
    let ty = second_element(alloc, judged)?;
    let made = pointer(alloc, &ty, Star::Global)?;
    Ok(made)
}

fn local_type(alloc: Global, judged: &[Judged]) -> Result<Ty, AllocError>
    ensures { IfOk result (λ ty. ty ≡ types.pointer (types.element (arguments.type_or_int (arguments.first_known (map seen_judged judged.now)))) Star.Local) }
{
    let ty = first_type(alloc, judged)?;
    let ty = element(alloc, &ty)?;
    let made = pointer(alloc, &ty, Star::Local)?;
    Ok(made)
}
