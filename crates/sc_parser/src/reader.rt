//! Reading tokens one after the other.

ghost use Rattle.std.specs.Prelude.{◌≤◌, length};
ghost use Rattle.sc_base.specs.declared.limits.TheConstants.{LIMITS};

use crate::marks::{arithmetic_at, assigning_of, is_logical_at, prefix_of};
use sc_base::Binary;
use sc_grammar::{Assigning, Position, Prefix, Refused};
use sc_tree::{Mark, Token, TokenKind, Word};
use std::alloc::Global;

/// The tokens, and how many of them were read.
#[derive(Drop)]
pub struct Reader<'a> {
    pub alloc: Global,
    pub tokens: &'a [Token],
    pub next: usize,
    ghost within: { next ≤ length tokens.now },
    ghost few: { length tokens.now ≤ LIMITS.tokens },
}

impl Reader<'_> {
    ghost use Rattle.std.specs.Prelude.{◌≡◌, ◌<◌, ◌≤◌, length, slice_get, Some, IfSome, if◌then◌else◌};
    ghost use Rattle.std.specs.Option.{option_map};
    ghost use Rattle.sc_grammar.specs.Marks.{assigning_of, prefix_of};
    ghost use Rattle.sc_parser.specs.Returned.{Gives, Moves};
    ghost use Rattle.sc_grammar.proofs.Reading.{sees, of_token, mark_by, is_mark, is_word, other_than, name_in};
    ghost use Rattle.sc_grammar.proofs.Reading as reading;
    ghost use Rattle.sc_grammar.proofs.ReadingExpressions.{number_in, format_in, arithmetic_in, is_logical, assigning_in, prefix_in, is_prefix};
    ghost use Rattle.sc_grammar.specs.declared.error.Refused.TheVariants.{Syntax, Deep};

    /// What the next token is.
    pub fn kind(&self) -> Option<TokenKind>
        ensures { result ≡ option_map (λ t. t.kind) (slice_get self.now.tokens.now self.now.next) }
    {
        match self.tokens.get(self.next) {
            Some(token) => Some(token.kind),
            None => None,
        }
    }

    /// Where the next token stands.
    pub fn here(&self) -> Position
        ensures { result ≡ reading.position (slice_get self.now.tokens.now self.now.next) self.now.next }
    {
        let line = match self.tokens.get(self.next) {
            Some(token) => token.line,
            None => 0,
        };
        Position {
            at: self.next as u32 + 1,
            line,
        }
    }

    /// Whether the next token is this mark.
    pub fn next_is_mark(&self, mark: Mark) -> bool
        ensures { result ≡ sees (is_mark mark) (slice_get self.now.tokens.now self.now.next) }
    {
        match self.kind() {
            Some(TokenKind::Mark(found)) => found == mark,
            _ => false,
        }
    }

    /// Whether the next token is this word.
    pub fn next_is_word(&self, word: Word) -> bool
        ensures { result ≡ sees (is_word word) (slice_get self.now.tokens.now self.now.next) }
    {
        match self.kind() {
            Some(TokenKind::Word(found)) => found == word,
            _ => false,
        }
    }

    /// Whether a token is left that is not this mark.
    pub fn next_is_other(&self, mark: Mark) -> bool
        ensures { result ≡ sees (other_than mark) (slice_get self.now.tokens.now self.now.next) }
    {
        self.kind().is_some() && !self.next_is_mark(mark)
    }

    /// Whether the next token is a prefix operator.
    pub fn next_is_prefix(&self) -> bool
        ensures { result ≡ sees is_prefix (slice_get self.now.tokens.now self.now.next) }
    {
        match self.next_mark() {
            Some(mark) => prefix_of(mark).is_some(),
            None => false,
        }
    }

    /// The next token if it is a mark.
    fn next_mark(&self) -> Option<Mark>
        ensures { result ≡ of_token (mark_by Some) (slice_get self.now.tokens.now self.now.next) }
    {
        match self.kind()? {
            TokenKind::Mark(mark) => Some(mark),
            _ => None,
        }
    }

    /// Goes past the next token if it is this mark.
    #[tactic(auto, unfolding(sc_grammar::proofs::Reading::bind, sc_grammar::proofs::Reading::pure, sc_grammar::proofs::Reading::maybe, sc_grammar::proofs::Reading::takes_if))]
    pub fn takes_mark(&mut self, mark: Mark) -> bool
        ensures { Moves result self.old self.new (reading.takes_mark mark) }
    {
        let is = self.next_is_mark(mark);
        if is {
            self.next += 1;
        }
        is
    }

    /// Goes past the next token if it is this word.
    #[tactic(auto, unfolding(sc_grammar::proofs::Reading::bind, sc_grammar::proofs::Reading::pure, sc_grammar::proofs::Reading::maybe, sc_grammar::proofs::Reading::takes_if))]
    pub fn takes_word(&mut self, word: Word) -> bool
        ensures { Moves result self.old self.new (reading.takes_word word) }
    {
        let is = self.next_is_word(word);
        if is {
            self.next += 1;
        }
        is
    }

    /// Goes past the next token, which must be this mark.
    #[tactic(auto, unfolding(sc_grammar::proofs::Reading::bind, sc_grammar::proofs::Reading::pure, sc_grammar::proofs::Reading::fail, sc_grammar::proofs::Reading::maybe, sc_grammar::proofs::Reading::must))]
    pub fn mark(&mut self, mark: Mark) -> Result<(), Refused>
        ensures { Gives (λ x. x) result self.old self.new (reading.mark mark) }
    {
        if self.next_is_mark(mark) {
            self.next += 1;
            Ok(())
        } else {
            Err(self.unexpected())
        }
    }

    /// Goes past the next token, which must be this word.
    #[tactic(auto, unfolding(sc_grammar::proofs::Reading::bind, sc_grammar::proofs::Reading::pure, sc_grammar::proofs::Reading::fail, sc_grammar::proofs::Reading::maybe, sc_grammar::proofs::Reading::must))]
    pub fn word(&mut self, word: Word) -> Result<(), Refused>
        ensures { Gives (λ x. x) result self.old self.new (reading.word word) }
    {
        if self.next_is_word(word) {
            self.next += 1;
            Ok(())
        } else {
            Err(self.unexpected())
        }
    }

    /// Goes past the next token, which must be a name.
    #[tactic(auto, unfolding(sc_grammar::proofs::Reading::bind, sc_grammar::proofs::Reading::pure, sc_grammar::proofs::Reading::fail, sc_grammar::proofs::Reading::must))]
    pub fn name(&mut self) -> Result<u32, Refused>
        ensures { Gives (λ x. x) result self.old self.new reading.a_name }
    {
        match self.take_name() {
            Some(name) => Ok(name),
            None => Err(self.unexpected()),
        }
    }

    /// Goes past the next token if it is a name.
    #[tactic(auto, unfolding(sc_grammar::proofs::Reading::maybe))]
    pub fn take_name(&mut self) -> Option<u32>
        ensures { Moves result self.old self.new (reading.maybe name_in) }
    {
        match self.kind()? {
            TokenKind::Name(name) => {
                self.next += 1;
                Some(name)
            }
            _ => None,
        }
    }

    /// Goes past the next token if it is a number.
    #[tactic(auto, unfolding(sc_grammar::proofs::Reading::maybe))]
    pub fn take_number(&mut self) -> Option<i64>
        ensures { Moves result self.old self.new (reading.maybe number_in) }
    {
        match self.kind()? {
            TokenKind::Number(number) => {
                self.next += 1;
                Some(number)
            }
            _ => None,
        }
    }

    /// Goes past the next token if it is a format.
    #[tactic(auto, unfolding(sc_grammar::proofs::Reading::maybe))]
    pub fn take_format(&mut self) -> Option<u32>
        ensures { Moves result self.old self.new (reading.maybe format_in) }
    {
        match self.kind()? {
            TokenKind::Format(format) => {
                self.next += 1;
                Some(format)
            }
            _ => None,
        }
    }

    /// Goes past the next token if it is an operator of this level whose operands are all evaluated.
    #[tactic(auto, unfolding(sc_grammar::proofs::Reading::maybe))]
    pub fn take_operator(&mut self, level: u32) -> Option<Binary>
        ensures { Moves result self.old self.new (reading.maybe (arithmetic_in level)) }
    {
        let op = arithmetic_at(level, self.next_mark()?)?;
        self.next += 1;
        Some(op)
    }

    /// Goes past the next token if it is `&&` and the level is 8, or `||` and the level is 9.
    #[tactic(auto, unfolding(sc_grammar::proofs::Reading::bind, sc_grammar::proofs::Reading::pure, sc_grammar::proofs::Reading::maybe, sc_grammar::proofs::Reading::takes_if))]
    pub fn takes_logical(&mut self, level: u32) -> bool
        ensures { Moves result self.old self.new (reading.takes_if (is_logical level)) }
    {
        let is = match self.next_mark() {
            Some(mark) => is_logical_at(level, mark),
            None => false,
        };
        if is {
            self.next += 1;
        }
        is
    }

    /// Goes past the next token if it assigns.
    #[tactic(auto, unfolding(sc_grammar::proofs::Reading::maybe))]
    pub fn take_assigning(&mut self) -> Option<Assigning>
        ensures { Moves result self.old self.new (reading.maybe assigning_in) }
    {
        let assigning = assigning_of(self.next_mark()?)?;
        self.next += 1;
        Some(assigning)
    }

    /// Goes past the next token if it is an operator before an operand.
    #[tactic(auto, unfolding(sc_grammar::proofs::Reading::maybe))]
    pub fn take_prefix(&mut self) -> Option<Prefix>
        ensures { Moves result self.old self.new (reading.maybe prefix_in) }
    {
        let prefix = prefix_of(self.next_mark()?)?;
        self.next += 1;
        Some(prefix)
    }

    /// The refusal of the next token.
    pub fn unexpected(&self) -> Refused
        ensures { result ≡ Syntax self.now.next }
    {
        Refused::Syntax(self.next)
    }

    /// The refusal of the next token as too deep.
    pub fn too_deep(&self) -> Refused
        ensures { result ≡ Deep self.now.next }
    {
        Refused::Deep(self.next)
    }

    /// The refusal of the next token where nothing deeper may stand: `begins` tells whether it would begin that.
    pub fn no_deeper(&self, begins: bool) -> Refused
        ensures { result ≡ (if begins then Deep self.now.next else Syntax self.now.next) }
    {
        if begins {
            Refused::Deep(self.next)
        } else {
            Refused::Syntax(self.next)
        }
    }
}
