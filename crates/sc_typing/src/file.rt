//! What the names at file scope mean.

ghost use Rattle.std.specs.Prelude.{◌≡◌, IfOk};
ghost use Rattle.sc_typing.specs.Source as source;
ghost use Rattle.sc_typing.specs.ViewSource.{source_of};

use crate::library::{Library, library_of};
use crate::types::pointer;
use sc_base::{Bound, Shape, Star, Ty, copy_of_type};
use sc_tree::{Names, Texts};
use sqlite_items::Items;
use std::alloc::{AllocError, Global};

/// A function definition: its name and token, its result, and the types of its parameters.
#[derive(Drop)]
pub struct Definition {
    pub name: u32,
    pub at: u32,
    pub result: Ty,
    pub params: Items<Ty>,
}

/// What a name that no local has means: a function of the library, an object or a function definition by its
/// number, or nothing.
#[derive(Clone, Copy, Debug, PartialEq, Eq)]
pub enum Meaning {
    Library(Library),
    Object(u32),
    Function(u32),
    Nothing,
}

/// The objects and function definitions in text order, and the names and formats of the source.
#[derive(Clone, Copy)]
pub struct File<'a> {
    pub objects: &'a [Shape],
    pub definitions: &'a [Definition],
    pub names: &'a Names,
    pub texts: &'a Texts,
}

impl File<'_> {
    /// The function of the library with this name.
    #[tactic(auto, unfolding(crate::specs::Source::library_named))]
    pub fn library(&self, name: u32) -> Option<Library>
        ensures { result ≡ source.library_named (source_of self.now) name }
    {
        let text = self.names.text(name)?;
        library_of(text)
    }

    /// What the name means where no local has it.
    #[tactic(auto, unfolding(crate::specs::Source::meaning_of))]
    pub fn meaning(&self, name: u32) -> Result<Meaning, AllocError>
        ensures { IfOk result (λ meaning. meaning ≡ source.meaning_of (source_of self.now) name) }
    {
        if let Some(library) = self.library(name) {
            return Ok(Meaning::Library(library));
        }
        let meaning = self.declared_first(self.object_called(name), self.definition_called(name))?;
        Ok(meaning)
    }

    /// The first object with this name.
    fn object_called(&self, name: u32) -> Option<usize>
        ensures { result ≡ source.object_called (source_of self.now) name }
    {
        self.objects.iter().position(|o| o.name == name)
    }

    /// The first function definition with this name.
    pub fn definition_called(&self, name: u32) -> Option<usize>
        ensures { result ≡ source.definition_called (source_of self.now) name }
    {
        self.definitions.iter().position(|d| d.name == name)
    }

    /// Of an object and a function with one name the one that is declared first.
    fn declared_first(
        &self,
        object: Option<usize>,
        function: Option<usize>,
    ) -> Result<Meaning, AllocError>
        ensures { IfOk result (λ meaning. meaning ≡ source.declared_first (source_of self.now) object function) }
    {
        let Some(function) = function else {
            let Some(object) = object else {
                return Ok(Meaning::Nothing);
            };
            let number = number_of(object)?;
            return Ok(Meaning::Object(number));
        };
        let Some(object) = object else {
            let number = number_of(function)?;
            return Ok(Meaning::Function(number));
        };
        if self.object_token(object) < self.definition_token(function) {
            let number = number_of(object)?;
            return Ok(Meaning::Object(number));
        }
        let number = number_of(function)?;
        Ok(Meaning::Function(number))
    }

    fn object_token(&self, object: usize) -> u32
        ensures { result ≡ source.object_token (source_of self.now) object }
    {
        match self.objects.get(object) {
            Some(shape) => shape.at,
            None => 0,
        }
    }

    fn definition_token(&self, function: usize) -> u32
        ensures { result ≡ source.definition_token (source_of self.now) function }
    {
        match self.definitions.get(function) {
            Some(definition) => definition.at,
            None => 0,
        }
    }

    /// How many `%d` the format has, if each `%` of it is followed by `d` or `%`.
    #[tactic(auto, unfolding(crate::specs::Source::directives_of))]
    pub fn directives(&self, format: u32) -> Option<usize>
        ensures { result ≡ source.directives_of (source_of self.now) format }
    {
        let text = self.texts.as_slice().get(format as usize)?;
        directives(text.as_slice())
    }
}

#[tactic(auto, using(crate::proofs::Directives::counted_whole))]
fn directives(text: &[u8]) -> Option<usize>
    ensures { result ≡ source.directives text.now }
{
    let mut after = false;
    let mut count = 0;
    for byte in text {
        if after {
            match *byte {
                b'd' => count += 1,
                b'%' => {}
                _ => return None,
            }
            after = false;
        } else {
            after = *byte == b'%';
        }
    }
    if after { None } else { Some(count) }
}

/// The number in 32 bits, if it has as few.
pub fn number_of(number: usize) -> Result<u32, AllocError>
    ensures { IfOk result (λ n. n ≡ number) }
{
    match u32::try_from(number) {
        Ok(n) => Ok(n),
        Err(_) => Err(AllocError),
    }
}

fn has_bounds(bounds: &[Bound]) -> bool
    ensures { result ≡ source.has_bounds bounds.now }
{
    match bounds {
        [] => false,
        [_, ..] => true,
    }
}

/// The last star of a pointer to one of the object's cells.
pub fn object_star(object: &Shape) -> Star
    ensures { result ≡ source.object_star object.now }
{
    if !object.spread {
        return Star::Local;
    }
    if has_bounds(object.right.as_slice()) {
        Star::Global
    } else {
        Star::Spread
    }
}

/// How many dimensions the object has.
pub fn dimensions(object: &Shape) -> Result<usize, AllocError>
    ensures { IfOk result (λ n. n ≡ source.dimensions object.now) }
{
    match object
        .left
        .as_slice()
        .len()
        .checked_add(object.right.as_slice().len())
    {
        Some(n) => Ok(n),
        None => Err(AllocError),
    }
}

/// Whether the object may stand with so many indices.
#[tactic(auto, unfolding(crate::specs::Source::has_its_indices))]
pub fn has_its_indices(object: &Shape, taken: usize) -> Result<bool, AllocError>
    ensures { IfOk result (λ is. is ≡ source.has_its_indices object.now taken) }
{
    let all = dimensions(object)?;
    if taken == all {
        return Ok(true);
    }
    if all == 0 || taken != all - 1 {
        return Ok(false);
    }
    Ok(!object.spread || has_bounds(object.right.as_slice()) || all == 1)
}

/// The object's type with so many indices.
#[tactic(auto, unfolding(crate::specs::Source::object_type))]
pub fn object_type(alloc: Global, object: &Shape, taken: usize) -> Result<Ty, AllocError>
    ensures { IfOk result (λ ty. ty ≡ source.object_type object.now taken) }
{
    if taken == dimensions(object)? {
        return copy_of_type(alloc, &object.ty);
    }
    pointer(alloc, &object.ty, object_star(object))
}
