//! The tree of tokens.

ghost use Rattle.std.specs.Prelude.{◌≡◌, ◌≤◌, ◌+◌, List, length, map, IfOk, IfErr, OnOk, MatchResult};
ghost use Rattle.sc_tree.specs.PlainTree.{PlainTree};
ghost use Rattle.sc_grammar.specs.Rest.{Spelt, tokens_of};
ghost use Rattle.sc_grammar.specs.Sentence.{Sentence, Spells, AllShallow, Shallow, Says, Accepts};
ghost use Rattle.std.specs.Option.{option_map};
ghost use Rattle.sc_tree.specs.ViewTree.{plain_tree};
ghost use Rattle.sc_grammar.proofs.Reading.{Fails};
ghost use Rattle.sc_parser.specs.Returned.{Gives};
ghost use Rattle.sc_grammar.proofs.ReadingItems as items;
ghost use Rattle.sc_grammar.specs.Sentence as sentence;
ghost use Rattle.sc_parser.specs.ViewFound.{plain_found};
ghost use Rattle.sc_parser.specs.ViewItem.{plain_item};
ghost use Rattle.sc_grammar.proofs.ReadingWhole as whole;
ghost use Rattle.sc_grammar.proofs.ReadingWhole.{ReadSorted, ReadTree};

use crate::items::Item;
use crate::reader::Reader;
use sc_base::LIMITS;
use sc_grammar::{ParseError, Refused};
use sc_tree::{Function, Functions, Lines, Shapes, Token, Tree};
use sqlite_items::Items;
use std::alloc::{AllocError, Global};

/// The deepest that a token may be.
const DEPTH: usize = LIMITS.depth as usize;

/// The one tree of the tokens, of which there are at most 65,536.
///
/// Where the tokens are a sentence and none is deeper than 64, the answer is its tree, or memory was wanting; every
/// other answer but want of memory is the refusal at the token that `ParseError` says.
pub fn parse(alloc: Global, tokens: &[Token]) -> Result<Tree, ParseError>
    requires { length tokens.now ≤ LIMITS.tokens }
    ensures tree { IfOk result (λ t. Sentence tokens.now (plain_tree t)) }
    ensures shallow { IfOk result (λ t. Shallow DEPTH tokens.now (length tokens.now + 1)) }
    ensures accepted { (us : List Spelt) (t : PlainTree) → tokens_of us ≡ tokens.now → Spells us t → AllShallow DEPTH (length us) us → Accepts t result }
    ensures refused { IfErr result (Says DEPTH tokens.now) }
{
    match tree(alloc, tokens) {
        Ok(tree) => Ok(tree),
        Err(Refused::Memory) => Err(ParseError::OutOfMemory),
        Err(Refused::Syntax(at)) => Err(ParseError::Syntax { seen: counted(at) }),
        Err(Refused::Deep(at)) => Err(ParseError::TooDeep { seen: counted(at) }),
    }
}

/// The number of a token, from 1, or one more than there are.
fn counted(at: usize) -> u32
    requires { at ≤ LIMITS.tokens }
    ensures { result ≡ at + 1 }
{
    at as u32 + 1
}

/// The tree of the items, with the lines of the tokens.
fn tree(alloc: Global, tokens: &[Token]) -> Result<Tree, Refused>
    requires { length tokens.now ≤ LIMITS.tokens }
    ensures { MatchResult result (λ t. ReadTree DEPTH tokens.now (plain_tree t)) (λ e. Fails e (items.items DEPTH tokens.now 0)) }
{
    let found = read_items(alloc, tokens)?;
    let lines = lines_of(alloc, tokens)?;
    Ok(Tree {
        objects: found.objects,
        functions: found.functions,
        lines,
        last: last_line(tokens),
    })
}

/// The objects and functions of the items so far.
#[derive(Drop)]
struct Found {
    objects: Shapes,
    functions: Functions,
}

impl Found {
    fn add(&mut self, item: Item) -> Result<(), AllocError>
        ensures { OnOk result (plain_found self.new ≡ whole.with_item (plain_found self.old) (plain_item item)) }
    {
        match item {
            Item::Objects(more) => self.objects.append(more),
            Item::Function(function) => self.functions.push(function),
        }
    }
}

/// What is read of a whole source.
impl Reader<'_> {
    /// An item, where a token is left.
    #[tactic(auto, unfolding(sc_grammar::proofs::Reading::bind, sc_grammar::proofs::Reading::pure, sc_grammar::proofs::Reading::maybe, sc_grammar::proofs::Reading::takes_if, sc_grammar::proofs::Reading::next_is, sc_grammar::proofs::ReadingItems::one_more_item))]
    fn one_more_item(&mut self) -> Result<Option<Item>, Refused>
        ensures moves { Gives (option_map plain_item) result self.old self.new (items.one_more_item DEPTH) }
    {
        if self.kind().is_none() {
            return Ok(None);
        }
        let item = self.item(DEPTH)?;
        Ok(Some(item))
    }

    /// What all the tokens declare.
    #[tactic(auto, using(sc_grammar::proofs::WholeLaws::item_turns), unfolding(sc_grammar::proofs::Reading::bind, sc_grammar::proofs::Reading::pure, sc_grammar::proofs::Reading::maybe, sc_grammar::proofs::Reading::takes_if, sc_grammar::proofs::Reading::many, sc_grammar::proofs::ReadingItems::items, sc_grammar::proofs::ReadingWhole::sorted_items))]
    fn all_items(&mut self) -> Result<Found, Refused>
        ensures moves { Gives plain_found result self.old self.new (whole.sorted_items DEPTH) }
    {
        let mut found = Found {
            objects: Items::new(self.alloc),
            functions: Items::new(self.alloc),
        };
        let first = self.item(DEPTH)?;
        found.add(first)?;
        for _turn in self.next..self.tokens.len() {
            let Some(more) = self.one_more_item()? else {
                break;
            };
            found.add(more)?;
        }
        Ok(found)
    }
}

/// What all the tokens declare.
#[tactic(auto, using(sc_grammar::proofs::WholeLaws::all_items))]
fn read_items(alloc: Global, tokens: &[Token]) -> Result<Found, Refused>
    requires { length tokens.now ≤ LIMITS.tokens }
    ensures { MatchResult result (λ f. ReadSorted DEPTH tokens.now (plain_found f)) (λ e. Fails e (items.items DEPTH tokens.now 0)) }
{
    let mut reader = Reader {
        alloc,
        tokens,
        next: 0,
    };
    let found = reader.all_items()?;
    Ok(found)
}

fn lines_of(alloc: Global, tokens: &[Token]) -> Result<Lines, AllocError>
    ensures { IfOk result (λ lines. lines ≡ map sentence.line_at tokens.now) }
{
    let lines = tokens.iter().map(|token| token.line).collect(alloc)?;
    Ok(Items::from_vec(lines))
}

#[tactic(auto, using(sc_grammar::proofs::WholeLaws::last_lines))]
fn last_line(tokens: &[Token]) -> u32
    ensures { result ≡ sentence.last_line tokens.now }
{
    match tokens.last() {
        Some(token) => token.line,
        None => 0,
    }
}
