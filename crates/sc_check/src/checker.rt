//! The check of a whole source.

ghost use Rattle.std.specs.Prelude.{◌≡◌, ◌++◌, map, IfOk};
ghost use Rattle.sc_tree.specs.ViewTree.{plain_tree};
ghost use Rattle.sc_tree.specs.ViewTypedTree.{plain_typed_function, plain_typed_tree};
ghost use Rattle.sc_typing.specs.Answer.{IsAnswer};
ghost use Rattle.sc_typing.specs.Program as program;

use crate::functions::{definitions_of, file_of};
use sc_base::copy_of_shapes;
use sc_layout::Layout;
use sc_tree::{Lexed, Tree, Typed, TypedFunction};
use sc_typing::answer::{first_noted, line_of, texts_of};
use sc_typing::file::{Definition, File};
use sc_typing::notes::Notes;
use sc_typing::{CheckError, Rule};
use sqlite_items::Items;
use std::alloc::{AllocError, Global};

/// The typed tree with these functions, whose other parts stand as they are.
fn typed_tree(
    alloc: Global,
    tree: &Tree,
    lexed: &Lexed,
    definitions: &[Definition],
    functions: Vec<TypedFunction>,
) -> Result<Typed, AllocError>
    ensures { IfOk result (λ made. plain_typed_tree made ≡ record {
      objects = tree.now.objects;
      functions = map plain_typed_function functions.items;
      lines = tree.now.lines;
      last = tree.now.last;
      texts = lexed.now.texts ++ map (λ d. program.name_text lexed.now.names d.name) definitions.now;
    }) }
{
    let objects = copy_of_shapes(alloc, tree.objects.as_slice())?;
    let lines = Items::from_slice(alloc, tree.lines.as_slice())?;
    let texts = texts_of(alloc, lexed, definitions)?;
    Ok(Typed {
        objects: Items::from_vec(objects),
        functions: Items::from_vec(functions),
        lines,
        last: tree.last,
        texts,
    })
}

/// The tree with types, or the broken rule of the least token, and there of the least number. No rule asks for the
/// layout, which shows that the tree's objects have one.
pub fn check(
    alloc: Global,
    tree: &Tree,
    lexed: &Lexed,
    _layout: &Layout,
) -> Result<Typed, CheckError>
    ensures { IsAnswer plain_typed_tree (plain_tree tree.now) lexed.now.names lexed.now.texts result }
{
    let definitions = definitions_of(alloc, tree.functions.as_slice())?;
    let file = File {
        objects: tree.objects.as_slice(),
        definitions: definitions.as_slice(),
        names: &lexed.names,
        texts: &lexed.texts,
    };
    let mut notes = Notes::new(alloc);
    let functions = file_of(alloc, &file, &mut notes, tree)?;
    if let Some(first) = first_noted(notes.as_slice()) {
        return Err(CheckError::Rule {
            number: first.rule.number(),
            line: line_of(tree, first.at),
        });
    }
    let typed = typed_tree(alloc, tree, lexed, definitions.as_slice(), functions)?;
    Ok(typed)
}
