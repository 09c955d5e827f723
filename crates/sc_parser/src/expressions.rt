//! Reading expressions, with so many levels of depth left.

ghost use Rattle.std.specs.Prelude.{◌≡◌};
ghost use Rattle.sc_grammar.proofs.ReadingExpressions as reading;

use crate::marks::prefix_of;
use crate::reader::Reader;
use crate::trees::{around, assignment, between, cast, chained, listed, placed, prefixed, tailed};
use sc_grammar::{Position, Prefix, Refused};
use sc_tree::{Expr, ExprKind, Exprs, Link, Mark, Tail, TokenKind, Word};
use sqlite_items::{Boxed, Items};

/// Whether some expression begins with such a token.
pub fn begins_expression(kind: TokenKind) -> bool
    ensures { result ≡ reading.begins_expression kind }
{
    match kind {
        TokenKind::Number(_) | TokenKind::Name(_) => true,
        TokenKind::Format(_) => false,
        TokenKind::Word(word) => begins_word(word),
        TokenKind::Mark(mark) => begins_mark(mark),
    }
}

/// Whether an expression may begin with this word.
pub fn begins_word(word: Word) -> bool
    ensures { result ≡ reading.begins_word word }
{
    matches!(word, Word::Null | Word::MyProc | Word::Procs | Word::Sizeof)
}

/// Whether an expression may begin with this mark: it opens a parenthesis or is a prefix operator.
pub fn begins_mark(mark: Mark) -> bool
    ensures { result ≡ reading.begins_mark mark }
{
    mark == Mark::OpenRound || prefix_of(mark).is_some()
}

impl Reader<'_> {
    ghost use Rattle.std.specs.Prelude.{map};
    ghost use Rattle.std.specs.Option.{option_map};
    ghost use Rattle.sc_tree.specs.Plain.{Expression};
    ghost use Rattle.sc_tree.specs.View.{plain, plain_link, plain_tail};
    ghost use Rattle.sc_grammar.proofs.Reading.{Fails, no_deeper};
    ghost use Rattle.sc_parser.specs.Returned.{Gives};
    ghost use Rattle.sc_grammar.proofs.ReadingExpressions.{unary, assigned, branched, level_by, operand_at, begins_expression};

    /// The refusal of an expression that is too deep.
    #[tactic(auto, unfolding(sc_grammar::proofs::Reading::bind, sc_grammar::proofs::Reading::next_is, sc_grammar::proofs::Reading::too_deep, sc_grammar::proofs::Reading::fail))]
    fn no_deeper_expression(&self) -> Refused
        ensures { Fails result (no_deeper {A = Expression} begins_expression self.now.tokens.now self.now.next) }
    {
        let begins = match self.kind() {
            Some(kind) => begins_expression(kind),
            None => false,
        };
        self.no_deeper(begins)
    }

    /// An assignment, or a condition.
    #[cycle(expression)]
    #[tactic(auto, unfolding(sc_grammar::proofs::Reading::bind, sc_grammar::proofs::Reading::pure, sc_grammar::proofs::Reading::here, sc_grammar::proofs::Reading::next_is, sc_grammar::proofs::Reading::too_deep, sc_grammar::proofs::Reading::fail, sc_grammar::proofs::ReadingExpressions::assigned, sc_grammar::proofs::ReadingExpressions::assign_by, sc_grammar::proofs::ReadingExpressions::cond))]
    pub fn assigned(&mut self, levels: usize) -> Result<Expr, Refused>
        ensures { Gives plain result self.old self.new (assigned levels) }
    {
        if levels == 0 {
            return Err(self.no_deeper_expression());
        }
        let levels = levels - 1;
        let start = self.here();
        let left = self.cond(levels)?;
        let own = self.here();
        let Some(assigning) = self.take_assigning() else {
            return Ok(left);
        };
        let right = self.assigned(levels)?;
        let kind = assignment(self.alloc, assigning.op, left, right)?;
        Ok(between(start, own, kind))
    }

    /// What stands behind the `:` of a condition.
    #[cycle(expression)]
    #[tactic(auto, unfolding(sc_grammar::proofs::Reading::bind, sc_grammar::proofs::Reading::next_is, sc_grammar::proofs::Reading::too_deep, sc_grammar::proofs::Reading::fail, sc_grammar::proofs::ReadingExpressions::branched, sc_grammar::proofs::ReadingExpressions::cond))]
    fn branched(&mut self, levels: usize) -> Result<Expr, Refused>
        ensures { Gives plain result self.old self.new (branched levels) }
    {
        if levels == 0 {
            return Err(self.no_deeper_expression());
        }
        self.cond(levels - 1)
    }

    /// A choice between two expressions, or operands of the loosest level.
    #[cycle(expression)]
    #[tactic(auto, unfolding(sc_grammar::proofs::Reading::bind, sc_grammar::proofs::Reading::pure, sc_grammar::proofs::Reading::here, sc_grammar::proofs::Reading::takes_if, sc_grammar::proofs::Reading::maybe, sc_grammar::proofs::ReadingExpressions::cond, sc_grammar::proofs::ReadingExpressions::cond_by))]
    fn cond(&mut self, levels: usize) -> Result<Expr, Refused>
        ensures { Gives plain result self.old self.new (reading.cond levels) }
    {
        let start = self.here();
        let test = self.level(10, levels)?;
        let own = self.here();
        if self.takes_mark(Mark::Question) {
            let test = Boxed::new(self.alloc, test)?;
            self.choice_after(start, own, test, levels)
        } else {
            Ok(test)
        }
    }

    /// What stands behind the `?`.
    #[cycle(expression)]
    #[tactic(auto, using(sc_tree::proofs::ViewLaws::expression_views), unfolding(sc_grammar::proofs::Reading::bind, sc_grammar::proofs::Reading::pure, sc_grammar::proofs::ReadingExpressions::choice_after))]
    fn choice_after(
        &mut self,
        start: Position,
        own: Position,
        test: Boxed<Expr>,
        levels: usize,
    ) -> Result<Expr, Refused>
        ensures { Gives plain result self.old self.new (reading.choice_after (level_by (unary levels) 10) (assigned levels) (branched levels) start own (plain test)) }
    {
        let yes = self.assigned(levels)?;
        let yes = Boxed::new(self.alloc, yes)?;
        self.mark(Mark::Colon)?;
        let no = self.branched(levels)?;
        let no = Boxed::new(self.alloc, no)?;
        Ok(between(start, own, ExprKind::Cond { test, yes, no }))
    }

    /// Operands that are joined by operators below this level, or one alone.
    #[cycle(expression)]
    #[tactic(auto, unfolding(sc_grammar::proofs::Reading::bind, sc_grammar::proofs::Reading::pure, sc_grammar::proofs::Reading::here, sc_grammar::proofs::ReadingExpressions::level_by))]
    fn level(&mut self, level: u32, levels: usize) -> Result<Expr, Refused>
        ensures { Gives plain result self.old self.new (level_by (unary levels) level) }
    {
        if level == 0 {
            return self.unary(levels);
        }
        let start = self.here();
        let first = self.level(level - 1, levels)?;
        if level - 1 < 8 {
            self.with_links(level - 1, start, first, levels)
        } else {
            self.with_operands(level - 1, start, first, levels)
        }
    }

    /// The operators of this level behind the first operand, with theirs.
    #[cycle(expression)]
    #[tactic(auto, using(sc_grammar::proofs::ManyLaws::turns), unfolding(sc_grammar::proofs::Reading::bind, sc_grammar::proofs::Reading::pure, sc_grammar::proofs::ReadingExpressions::with_links))]
    fn with_links(
        &mut self,
        level: u32,
        start: Position,
        first: Expr,
        levels: usize,
    ) -> Result<Expr, Refused>
        ensures { Gives plain result self.old self.new (reading.with_links (level_by (unary levels) level) level start (plain first)) }
    {
        let mut links = Items::new(self.alloc);
        for _turn in self.next..self.tokens.len() {
            let Some(link) = self.one_link(level, levels)? else {
                break;
            };
            links.push(link)?;
        }
        Ok(chained(self.alloc, start, first, links)?)
    }

    #[cycle(expression)]
    #[tactic(auto, using(sc_tree::proofs::ViewLaws::expression_views), unfolding(sc_grammar::proofs::Reading::bind, sc_grammar::proofs::Reading::pure, sc_grammar::proofs::Reading::here, sc_grammar::proofs::ReadingExpressions::one_link))]
    fn one_link(&mut self, level: u32, levels: usize) -> Result<Option<Link>, Refused>
        ensures { Gives (option_map plain_link) result self.old self.new (reading.one_link (level_by (unary levels) level) level) }
    {
        let own = self.here();
        let Some(op) = self.take_operator(level) else {
            return Ok(None);
        };
        let e = self.level(level, levels)?;
        Ok(Some(Link {
            op,
            e,
            at: own.at,
            line: own.line,
        }))
    }

    /// The `&&` or `||` of this level behind the first operand, with their operands.
    #[cycle(expression)]
    #[tactic(auto, using(sc_grammar::proofs::ManyLaws::turns), unfolding(sc_grammar::proofs::Reading::bind, sc_grammar::proofs::Reading::pure, sc_grammar::proofs::ReadingExpressions::with_operands))]
    fn with_operands(
        &mut self,
        level: u32,
        start: Position,
        first: Expr,
        levels: usize,
    ) -> Result<Expr, Refused>
        ensures { Gives plain result self.old self.new (reading.with_operands (level_by (unary levels) level) level start (plain first)) }
    {
        let mut operands = Items::new(self.alloc);
        for _turn in self.next..self.tokens.len() {
            let Some(operand) = self.one_operand(level, levels)? else {
                break;
            };
            operands.push(operand)?;
        }
        Ok(listed(self.alloc, level, start, first, operands)?)
    }

    #[cycle(expression)]
    #[tactic(auto, unfolding(sc_grammar::proofs::Reading::bind, sc_grammar::proofs::Reading::pure, sc_grammar::proofs::Reading::takes_if, sc_grammar::proofs::Reading::maybe, sc_grammar::proofs::ReadingExpressions::one_operand))]
    fn one_operand(&mut self, level: u32, levels: usize) -> Result<Option<Expr>, Refused>
        ensures { Gives (option_map plain) result self.old self.new (reading.one_operand (level_by (unary levels) level) level) }
    {
        if !self.takes_logical(level) {
            return Ok(None);
        }
        let operand = self.level(level, levels)?;
        Ok(Some(operand))
    }

    /// An operand, with what stands before and behind it.
    #[cycle(expression)]
    #[tactic(auto, unfolding(sc_grammar::proofs::Reading::bind, sc_grammar::proofs::Reading::pure, sc_grammar::proofs::Reading::here, sc_grammar::proofs::Reading::next_is, sc_grammar::proofs::Reading::too_deep, sc_grammar::proofs::Reading::takes_if, sc_grammar::proofs::Reading::maybe, sc_grammar::proofs::ReadingExpressions::unary, sc_grammar::proofs::ReadingExpressions::unary_by, sc_grammar::proofs::ReadingExpressions::prefix_after, sc_grammar::proofs::ReadingExpressions::no_prefix))]
    fn unary(&mut self, levels: usize) -> Result<Expr, Refused>
        ensures { Gives plain result self.old self.new (unary levels) }
    {
        let start = self.here();
        if levels == 0 {
            if self.next_is_prefix() {
                return Err(self.too_deep());
            }
        } else if let Some(prefix) = self.take_prefix() {
            return self.prefix_after(start, prefix, levels - 1);
        }
        if self.takes_mark(Mark::OpenRound) {
            return self.parenthesis_after(start, levels);
        }
        let first = self.plain_primary(start, levels)?;
        self.with_tails(start, first, levels)
    }

    /// The operand of an operator that stands before it.
    #[cycle(expression)]
    #[tactic(auto, unfolding(sc_grammar::proofs::Reading::bind, sc_grammar::proofs::Reading::pure, sc_grammar::proofs::ReadingExpressions::prefix_after))]
    fn prefix_after(
        &mut self,
        start: Position,
        prefix: Prefix,
        levels: usize,
    ) -> Result<Expr, Refused>
        ensures { Gives plain result self.old self.new (reading.prefix_after (assigned levels) start (unary levels) prefix) }
    {
        let operand = self.unary(levels)?;
        let kind = prefixed(self.alloc, prefix, operand)?;
        Ok(placed(start, kind))
    }

    /// A cast or an expression, behind the parenthesis that starts it.
    #[cycle(expression)]
    #[tactic(auto, unfolding(sc_grammar::proofs::Reading::bind, sc_grammar::proofs::Reading::pure, sc_grammar::proofs::Reading::next_is, sc_grammar::proofs::Reading::too_deep, sc_grammar::proofs::Reading::takes_if, sc_grammar::proofs::Reading::maybe, sc_grammar::proofs::ReadingExpressions::parenthesis_after, sc_grammar::proofs::ReadingExpressions::cast_after))]
    fn parenthesis_after(&mut self, start: Position, levels: usize) -> Result<Expr, Refused>
        ensures { Gives plain result self.old self.new (reading.if_cast (assigned levels) start (operand_at levels) (reading.parenthesis_after (assigned levels) start)) }
    {
        if levels == 0 {
            if self.next_is_word(Word::Int) {
                return Err(self.too_deep());
            }
        } else if self.takes_word(Word::Int) {
            return self.cast_after(start, levels - 1);
        }
        let inner = self.assigned(levels)?;
        self.mark(Mark::CloseRound)?;
        self.with_tails(start, around(start, inner), levels)
    }

    /// The stars and the operand of a cast.
    #[cycle(expression)]
    #[tactic(auto, unfolding(sc_grammar::proofs::Reading::bind, sc_grammar::proofs::Reading::pure, sc_grammar::proofs::ReadingExpressions::cast_after))]
    fn cast_after(&mut self, start: Position, levels: usize) -> Result<Expr, Refused>
        ensures { Gives plain result self.old self.new (reading.cast_after (assigned levels) start (unary levels)) }
    {
        let stars = self.stars()?;
        self.mark(Mark::CloseRound)?;
        let operand = self.unary(levels)?;
        let kind = cast(self.alloc, stars, operand)?;
        Ok(placed(start, kind))
    }

    /// The indices, `++` and `--` behind the expression that starts there.
    #[cycle(expression)]
    #[tactic(auto, using(sc_grammar::proofs::ManyLaws::turns), unfolding(sc_grammar::proofs::Reading::bind, sc_grammar::proofs::Reading::pure, sc_grammar::proofs::ReadingExpressions::with_tails))]
    fn with_tails(&mut self, start: Position, first: Expr, levels: usize) -> Result<Expr, Refused>
        ensures { Gives plain result self.old self.new (reading.with_tails (assigned levels) start (plain first)) }
    {
        let mut tails = Items::new(self.alloc);
        for _turn in self.next..self.tokens.len() {
            let Some(tail) = self.one_tail(levels)? else {
                break;
            };
            tails.push(tail)?;
        }
        Ok(tailed(self.alloc, start, first, tails)?)
    }

    #[cycle(expression)]
    #[tactic(auto, using(sc_tree::proofs::ViewLaws::expression_views), unfolding(sc_grammar::proofs::Reading::bind, sc_grammar::proofs::Reading::pure, sc_grammar::proofs::Reading::here, sc_grammar::proofs::Reading::takes_if, sc_grammar::proofs::Reading::maybe, sc_grammar::proofs::ReadingExpressions::one_tail, sc_grammar::proofs::ReadingExpressions::index_after))]
    fn one_tail(&mut self, levels: usize) -> Result<Option<Tail>, Refused>
        ensures { Gives (option_map plain_tail) result self.old self.new (reading.one_tail (assigned levels)) }
    {
        let Position { at, line } = self.here();
        if self.takes_mark(Mark::OpenSquare) {
            let index = self.assigned(levels)?;
            self.mark(Mark::CloseSquare)?;
            return Ok(Some(Tail::Index { index, at, line }));
        }
        if self.takes_mark(Mark::PlusPlus) {
            return Ok(Some(Tail::Up { at, line }));
        }
        if self.takes_mark(Mark::MinusMinus) {
            return Ok(Some(Tail::Down { at, line }));
        }
        Ok(None)
    }

    /// A primary expression that is in no parentheses.
    #[cycle(expression)]
    #[tactic(auto, using(sc_tree::proofs::ViewLaws::expression_views), unfolding(sc_grammar::proofs::Reading::bind, sc_grammar::proofs::Reading::pure, sc_grammar::proofs::Reading::maybe, sc_grammar::proofs::ReadingExpressions::plain_primary))]
    fn plain_primary(&mut self, start: Position, levels: usize) -> Result<Expr, Refused>
        ensures { Gives plain result self.old self.new (reading.plain_primary (assigned levels) start) }
    {
        if let Some(number) = self.take_number() {
            return Ok(placed(start, ExprKind::Number(number)));
        }
        if let Some(name) = self.take_name() {
            return self.after_name(start, name, levels);
        }
        self.by_word(start)
    }

    #[tactic(auto, using(sc_tree::proofs::ViewLaws::expression_views), unfolding(sc_grammar::proofs::Reading::bind, sc_grammar::proofs::Reading::pure, sc_grammar::proofs::Reading::fail, sc_grammar::proofs::Reading::takes_if, sc_grammar::proofs::Reading::maybe, sc_grammar::proofs::ReadingExpressions::by_word))]
    fn by_word(&mut self, start: Position) -> Result<Expr, Refused>
        ensures { Gives plain result self.old self.new (reading.by_word start) }
    {
        if self.takes_word(Word::Null) {
            return Ok(placed(start, ExprKind::Null));
        }
        if self.takes_word(Word::MyProc) {
            return Ok(placed(start, ExprKind::MyProc));
        }
        if self.takes_word(Word::Procs) {
            return Ok(placed(start, ExprKind::Procs));
        }
        if self.takes_word(Word::Sizeof) {
            return self.size_of(start);
        }
        Err(self.unexpected())
    }

    #[tactic(auto, using(sc_tree::proofs::ViewLaws::expression_views), unfolding(sc_grammar::proofs::Reading::bind, sc_grammar::proofs::Reading::pure, sc_grammar::proofs::ReadingExpressions::size_of))]
    fn size_of(&mut self, start: Position) -> Result<Expr, Refused>
        ensures { Gives plain result self.old self.new (reading.size_of start) }
    {
        self.mark(Mark::OpenRound)?;
        self.word(Word::Int)?;
        self.mark(Mark::CloseRound)?;
        Ok(placed(start, ExprKind::SizeInt))
    }

    /// A call, or the name alone.
    #[cycle(expression)]
    #[tactic(auto, using(sc_tree::proofs::ViewLaws::expression_views), unfolding(sc_grammar::proofs::Reading::bind, sc_grammar::proofs::Reading::pure, sc_grammar::proofs::Reading::takes_if, sc_grammar::proofs::Reading::maybe, sc_grammar::proofs::ReadingExpressions::after_name))]
    fn after_name(&mut self, start: Position, name: u32, levels: usize) -> Result<Expr, Refused>
        ensures { Gives plain result self.old self.new (reading.after_name (assigned levels) start name) }
    {
        if !self.takes_mark(Mark::OpenRound) {
            return Ok(placed(start, ExprKind::Name(name)));
        }
        let args = self.arguments(levels)?;
        self.mark(Mark::CloseRound)?;
        Ok(placed(start, ExprKind::Call { name, args }))
    }

    #[cycle(expression)]
    #[tactic(auto, using(sc_grammar::proofs::ManyLaws::turns), unfolding(sc_grammar::proofs::Reading::bind, sc_grammar::proofs::Reading::pure, sc_grammar::proofs::Reading::next_is, sc_grammar::proofs::ReadingExpressions::arguments))]
    fn arguments(&mut self, levels: usize) -> Result<Exprs, Refused>
        ensures { Gives (map plain) result self.old self.new (reading.arguments (assigned levels)) }
    {
        let mut all = Items::new(self.alloc);
        if self.next_is_mark(Mark::CloseRound) {
            return Ok(all);
        }
        let first = self.argument(levels)?;
        all.push(first)?;
        for _turn in self.next..self.tokens.len() {
            let Some(more) = self.one_more_argument(levels)? else {
                break;
            };
            all.push(more)?;
        }
        Ok(all)
    }

    #[cycle(expression)]
    #[tactic(auto, unfolding(sc_grammar::proofs::Reading::bind, sc_grammar::proofs::Reading::pure, sc_grammar::proofs::Reading::takes_if, sc_grammar::proofs::Reading::maybe, sc_grammar::proofs::ReadingExpressions::one_more_argument))]
    fn one_more_argument(&mut self, levels: usize) -> Result<Option<Expr>, Refused>
        ensures { Gives (option_map plain) result self.old self.new (reading.one_more_argument (assigned levels)) }
    {
        if !self.takes_mark(Mark::Comma) {
            return Ok(None);
        }
        let argument = self.argument(levels)?;
        Ok(Some(argument))
    }

    #[cycle(expression)]
    #[tactic(auto, using(sc_tree::proofs::ViewLaws::expression_views), unfolding(sc_grammar::proofs::Reading::bind, sc_grammar::proofs::Reading::pure, sc_grammar::proofs::Reading::here, sc_grammar::proofs::Reading::maybe, sc_grammar::proofs::ReadingExpressions::argument))]
    fn argument(&mut self, levels: usize) -> Result<Expr, Refused>
        ensures { Gives plain result self.old self.new (reading.argument (assigned levels)) }
    {
        let start = self.here();
        if let Some(format) = self.take_format() {
            return Ok(placed(start, ExprKind::Format(format)));
        }
        self.assigned(levels)
    }
}
