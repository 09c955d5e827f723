//! Reading statements, with so many levels of depth left.

ghost use Rattle.std.specs.Prelude.{◌≡◌, map, slice_get};
ghost use Rattle.std.specs.Option.{option_map};
ghost use Rattle.sc_tree.specs.PlainStmt.{Statement};
ghost use Rattle.sc_tree.specs.View.{plain};
ghost use Rattle.sc_tree.specs.ViewStmt.{plain_stmt, plain_arm, declared};
ghost use Rattle.sc_grammar.proofs.Reading as reading;
ghost use Rattle.sc_grammar.proofs.Reading.{Fails};
ghost use Rattle.sc_grammar.proofs.ReadingExpressions as expressions;
ghost use Rattle.sc_grammar.proofs.ReadingStatements as statements;
ghost use Rattle.sc_parser.specs.Returned.{Gives};
ghost use Rattle.sc_parser.specs.ViewParts.{plain_parts};

use crate::expressions::{begins_expression, begins_mark, begins_word};
use crate::reader::Reader;
use crate::trees::int_with;
use sc_grammar::{Position, Refused};
use sc_tree::{Arm, Block, Expr, Local, Mark, Stmt, TokenKind, Word};
use sqlite_items::{Boxed, Items};

/// Whether some statement begins with such a token.
fn begins_statement(kind: TokenKind) -> bool
    ensures { result ≡ statements.begins_statement kind }
{
    match kind {
        TokenKind::Word(word) => begins_statement_word(word),
        TokenKind::Mark(mark) => begins_statement_mark(mark),
        kind => begins_expression(kind),
    }
}

fn begins_statement_word(word: Word) -> bool
    ensures { result ≡ statements.begins_statement_word word }
{
    match word {
        Word::If
        | Word::While
        | Word::Do
        | Word::For
        | Word::ForMine
        | Word::Return
        | Word::Break
        | Word::Continue => true,
        word => begins_word(word),
    }
}

fn begins_statement_mark(mark: Mark) -> bool
    ensures { result ≡ statements.begins_statement_mark mark }
{
    match mark {
        Mark::OpenCurly | Mark::Semicolon => true,
        mark => begins_mark(mark),
    }
}

/// What is read of expressions and locals in statements.
impl Reader<'_> {
    /// What a local begins with.
    #[tactic(auto, unfolding(sc_grammar::proofs::Reading::bind, sc_grammar::proofs::Reading::pure, sc_grammar::proofs::Reading::maybe, sc_grammar::proofs::Reading::takes_if, sc_grammar::proofs::ReadingStatements::initial))]
    fn initial(&mut self, levels: usize) -> Result<Option<Expr>, Refused>
        ensures moves { Gives (option_map plain) result self.old self.new (statements.initial (expressions.assigned levels)) }
    {
        if !self.takes_mark(Mark::Equal) {
            return Ok(None);
        }
        let e = self.assigned(levels)?;
        Ok(Some(e))
    }

    #[tactic(auto, unfolding(sc_grammar::proofs::Reading::bind, sc_grammar::proofs::Reading::pure, sc_grammar::proofs::Reading::maybe, sc_grammar::proofs::Reading::takes_if, sc_grammar::proofs::ReadingStatements::local, sc_grammar::proofs::Reading::here))]
    fn local(&mut self, levels: usize) -> Result<Local, Refused>
        ensures moves { Gives declared result self.old self.new (statements.local (expressions.assigned levels)) }
    {
        let stars = self.stars()?;
        let Position { at, line } = self.here();
        let name = self.name()?;
        let init = self.initial(levels)?;
        Ok(Local {
            name,
            ty: int_with(stars),
            init,
            at,
            line,
        })
    }

    #[tactic(auto, unfolding(sc_grammar::proofs::Reading::bind, sc_grammar::proofs::Reading::pure, sc_grammar::proofs::Reading::maybe, sc_grammar::proofs::Reading::takes_if, sc_grammar::proofs::ReadingStatements::one_more_local))]
    fn one_more_local(&mut self, levels: usize) -> Result<Option<Local>, Refused>
        ensures moves { Gives (option_map declared) result self.old self.new (statements.one_more_local (expressions.assigned levels)) }
    {
        if !self.takes_mark(Mark::Comma) {
            return Ok(None);
        }
        let more = self.local(levels)?;
        Ok(Some(more))
    }

    /// The locals behind an `int`.
    #[tactic(auto, using(sc_tree::proofs::ViewStmtLaws::statement_views, sc_grammar::proofs::ManyLaws::turns), unfolding(sc_grammar::proofs::Reading::bind, sc_grammar::proofs::Reading::pure, sc_grammar::proofs::Reading::maybe, sc_grammar::proofs::Reading::takes_if, sc_grammar::proofs::ReadingStatements::locals, sc_grammar::proofs::Reading::many))]
    fn locals(&mut self, levels: usize) -> Result<Stmt, Refused>
        ensures moves { Gives plain_stmt result self.old self.new (statements.locals (expressions.assigned levels)) }
    {
        let mut locals = Items::new(self.alloc);
        let first = self.local(levels)?;
        locals.push(first)?;
        for _turn in self.next..self.tokens.len() {
            let Some(more) = self.one_more_local(levels)? else {
                break;
            };
            locals.push(more)?;
        }
        self.mark(Mark::Semicolon)?;
        Ok(Stmt::Declare { locals })
    }

    /// An expression that may be left out before this mark.
    #[tactic(auto, unfolding(sc_grammar::proofs::Reading::bind, sc_grammar::proofs::Reading::pure, sc_grammar::proofs::Reading::maybe, sc_grammar::proofs::Reading::takes_if, sc_grammar::proofs::ReadingStatements::optional_before, sc_grammar::proofs::Reading::next_is))]
    fn optional_before(&mut self, mark: Mark, levels: usize) -> Result<Option<Expr>, Refused>
        ensures moves { Gives (option_map plain) result self.old self.new (statements.optional_before (expressions.assigned levels) mark) }
    {
        if self.next_is_mark(mark) {
            return Ok(None);
        }
        let e = self.assigned(levels)?;
        Ok(Some(e))
    }

    /// The expression in parentheses that an `if` or a loop tests.
    #[tactic(auto, unfolding(sc_grammar::proofs::Reading::bind, sc_grammar::proofs::Reading::pure, sc_grammar::proofs::Reading::maybe, sc_grammar::proofs::Reading::takes_if, sc_grammar::proofs::ReadingStatements::condition))]
    fn test(&mut self, levels: usize) -> Result<Expr, Refused>
        ensures moves { Gives plain result self.old self.new (statements.condition (expressions.assigned levels)) }
    {
        self.mark(Mark::OpenRound)?;
        let e = self.assigned(levels)?;
        self.mark(Mark::CloseRound)?;
        Ok(e)
    }

    /// The right side of a `:=` or `:-`.
    #[tactic(auto, using(sc_tree::proofs::ViewStmtLaws::statement_views), unfolding(sc_grammar::proofs::Reading::bind, sc_grammar::proofs::Reading::pure, sc_grammar::proofs::Reading::maybe, sc_grammar::proofs::Reading::takes_if, sc_grammar::proofs::ReadingStatements::split_after))]
    fn split_after(
        &mut self,
        oneway: bool,
        own: Position,
        left: Expr,
        levels: usize,
    ) -> Result<Stmt, Refused>
        ensures moves { Gives plain_stmt result self.old self.new (statements.split_after (expressions.assigned levels) oneway own (plain left)) }
    {
        let right = self.assigned(levels)?;
        self.mark(Mark::Semicolon)?;
        Ok(Stmt::Split {
            left,
            right,
            oneway,
            at: own.at,
            line: own.line,
        })
    }

    #[tactic(auto, using(sc_tree::proofs::ViewStmtLaws::statement_views), unfolding(sc_grammar::proofs::Reading::bind, sc_grammar::proofs::Reading::pure, sc_grammar::proofs::Reading::maybe, sc_grammar::proofs::Reading::takes_if, sc_grammar::proofs::ReadingStatements::by_expression, sc_grammar::proofs::Reading::here, sc_grammar::proofs::Reading::fail))]
    fn by_expression(&mut self, levels: usize) -> Result<Stmt, Refused>
        ensures moves { Gives plain_stmt result self.old self.new (statements.by_expression (expressions.assigned levels)) }
    {
        let e = self.assigned(levels)?;
        let own = self.here();
        if self.takes_mark(Mark::Semicolon) {
            return Ok(Stmt::Simple(e));
        }
        if self.takes_mark(Mark::ColonEqual) {
            return self.split_after(false, own, e, levels);
        }
        if self.takes_mark(Mark::ColonMinus) {
            return self.split_after(true, own, e, levels);
        }
        Err(self.unexpected())
    }

    #[tactic(auto, using(sc_tree::proofs::ViewStmtLaws::statement_views), unfolding(sc_grammar::proofs::Reading::bind, sc_grammar::proofs::Reading::pure, sc_grammar::proofs::Reading::maybe, sc_grammar::proofs::Reading::takes_if, sc_grammar::proofs::ReadingStatements::return_after))]
    fn return_after(&mut self, own: Position, levels: usize) -> Result<Stmt, Refused>
        ensures moves { Gives plain_stmt result self.old self.new (statements.return_after (expressions.assigned levels) own) }
    {
        let value = self.optional_before(Mark::Semicolon, levels)?;
        self.mark(Mark::Semicolon)?;
        Ok(Stmt::Return {
            value,
            at: own.at,
            line: own.line,
        })
    }

    /// A statement that has no statement inside.
    #[tactic(auto, using(sc_tree::proofs::ViewStmtLaws::statement_views), unfolding(sc_grammar::proofs::Reading::bind, sc_grammar::proofs::Reading::pure, sc_grammar::proofs::Reading::maybe, sc_grammar::proofs::Reading::takes_if, sc_grammar::proofs::ReadingStatements::by_other_word))]
    fn by_other_word(&mut self, own: Position, levels: usize) -> Result<Stmt, Refused>
        ensures moves { Gives plain_stmt result self.old self.new (statements.by_other_word (expressions.assigned levels) (statements.statement levels) own) }
    {
        if self.takes_word(Word::Return) {
            return self.return_after(own, levels);
        }
        if self.takes_word(Word::Break) {
            self.mark(Mark::Semicolon)?;
            return Ok(Stmt::Break { at: own.at });
        }
        if self.takes_word(Word::Continue) {
            self.mark(Mark::Semicolon)?;
            return Ok(Stmt::Continue { at: own.at });
        }
        self.by_expression(levels)
    }
}

/// The expressions in the parentheses of a `for`.
#[derive(Drop)]
struct Parts {
    first: Option<Expr>,
    test: Option<Expr>,
    next: Option<Expr>,
}

/// What is read in the parentheses of a `for`.
impl Reader<'_> {
    /// An expression that may be left out, and this mark behind it.
    #[tactic(auto, unfolding(sc_grammar::proofs::Reading::bind, sc_grammar::proofs::Reading::pure, sc_grammar::proofs::Reading::maybe, sc_grammar::proofs::Reading::takes_if, sc_grammar::proofs::ReadingStatements::optional_until))]
    fn optional_until(&mut self, mark: Mark, levels: usize) -> Result<Option<Expr>, Refused>
        ensures moves { Gives (option_map plain) result self.old self.new (statements.optional_until (expressions.assigned levels) mark) }
    {
        let e = self.optional_before(mark, levels)?;
        self.mark(mark)?;
        Ok(e)
    }

    #[tactic(auto, unfolding(sc_grammar::proofs::Reading::bind, sc_grammar::proofs::Reading::pure, sc_grammar::proofs::Reading::maybe, sc_grammar::proofs::Reading::takes_if, sc_grammar::proofs::ReadingStatements::for_parts))]
    fn for_parts(&mut self, levels: usize) -> Result<Parts, Refused>
        ensures moves { Gives plain_parts result self.old self.new (statements.for_parts (expressions.assigned levels)) }
    {
        let first = self.optional_until(Mark::Semicolon, levels)?;
        let test = self.optional_until(Mark::Semicolon, levels)?;
        let next = self.optional_until(Mark::CloseRound, levels)?;
        Ok(Parts { first, test, next })
    }
}

/// What is read behind the first word of a statement or behind the brace of a block.
impl Reader<'_> {
    /// Whether a token is left, other than the last brace of a block.
    fn goes_on(&self) -> bool
        ensures { result ≡ reading.sees (reading.other_than Mark.CloseCurly) (slice_get self.now.tokens.now self.now.next) }
    {
        self.kind().is_some() && !self.next_is_mark(Mark::CloseCurly)
    }

    /// The refusal of a statement that is too deep.
    #[tactic(auto, unfolding(sc_grammar::proofs::Reading::bind, sc_grammar::proofs::Reading::pure, sc_grammar::proofs::Reading::maybe, sc_grammar::proofs::Reading::takes_if, sc_grammar::proofs::Reading::next_is, sc_grammar::proofs::Reading::too_deep, sc_grammar::proofs::Reading::fail))]
    fn no_deeper_statement(&self) -> Refused
        ensures { Fails {A = Statement} result (reading.no_deeper statements.begins_statement self.now.tokens.now self.now.next) }
    {
        let begins = match self.kind() {
            Some(kind) => begins_statement(kind),
            None => false,
        };
        self.no_deeper(begins)
    }

    #[cycle(statement)]
    #[tactic(auto, using(sc_tree::proofs::ViewStmtLaws::statement_views), unfolding(sc_grammar::proofs::Reading::bind, sc_grammar::proofs::Reading::pure, sc_grammar::proofs::Reading::maybe, sc_grammar::proofs::Reading::takes_if, sc_grammar::proofs::ReadingStatements::statement, sc_grammar::proofs::ReadingStatements::statement_by, sc_grammar::proofs::Reading::here))]
    fn statement(&mut self, levels: usize) -> Result<Stmt, Refused>
        ensures moves { Gives plain_stmt result self.old self.new (statements.statement levels) }
    {
        if levels == 0 {
            return Err(self.no_deeper_statement());
        }
        let levels = levels - 1;
        let start = self.here();
        if self.takes_mark(Mark::OpenCurly) {
            let all = self.block_after(levels)?;
            return Ok(Stmt::Block(all));
        }
        if self.takes_mark(Mark::Semicolon) {
            return Ok(Stmt::Empty);
        }
        if self.takes_word(Word::If) {
            return self.if_after(levels);
        }
        self.by_loop_word(start, levels)
    }

    /// The locals and statements of a block, and its last brace.
    #[cycle(statement)]
    #[tactic(auto, using(sc_grammar::proofs::ManyLaws::turns), unfolding(sc_grammar::proofs::Reading::bind, sc_grammar::proofs::Reading::pure, sc_grammar::proofs::Reading::maybe, sc_grammar::proofs::Reading::takes_if, sc_grammar::proofs::ReadingStatements::block_after, sc_grammar::proofs::Reading::many))]
    pub fn block_after(&mut self, levels: usize) -> Result<Block, Refused>
        ensures moves { Gives (map plain_stmt) result self.old self.new (statements.block_after (expressions.assigned levels) (statements.statement levels)) }
    {
        let mut all = Items::new(self.alloc);
        for _turn in self.next..self.tokens.len() {
            let Some(part) = self.one_part(levels)? else {
                break;
            };
            all.push(part)?;
        }
        self.mark(Mark::CloseCurly)?;
        Ok(all)
    }

    #[cycle(statement)]
    #[tactic(auto, unfolding(sc_grammar::proofs::Reading::bind, sc_grammar::proofs::Reading::pure, sc_grammar::proofs::Reading::maybe, sc_grammar::proofs::Reading::takes_if, sc_grammar::proofs::ReadingStatements::one_part, sc_grammar::proofs::Reading::next_is))]
    fn one_part(&mut self, levels: usize) -> Result<Option<Stmt>, Refused>
        ensures moves { Gives (option_map plain_stmt) result self.old self.new (statements.one_part (expressions.assigned levels) (statements.statement levels)) }
    {
        if !self.goes_on() {
            return Ok(None);
        }
        let part = if self.takes_word(Word::Int) {
            self.locals(levels)?
        } else {
            self.statement(levels)?
        };
        Ok(Some(part))
    }

    /// A statement that stands inside another.
    #[cycle(statement)]
    fn inner(&mut self, levels: usize) -> Result<Boxed<Stmt>, Refused>
        ensures moves { Gives plain_stmt result self.old self.new (statements.statement levels) }
    {
        let body = self.statement(levels)?;
        Ok(Boxed::new(self.alloc, body)?)
    }

    /// The test behind an `if`, and the statement that it guards.
    #[cycle(statement)]
    #[tactic(auto, using(sc_tree::proofs::ViewStmtLaws::statement_views), unfolding(sc_grammar::proofs::Reading::bind, sc_grammar::proofs::Reading::pure, sc_grammar::proofs::Reading::maybe, sc_grammar::proofs::Reading::takes_if, sc_grammar::proofs::ReadingStatements::arm_after))]
    fn arm_after(&mut self, levels: usize) -> Result<Arm, Refused>
        ensures moves { Gives plain_arm result self.old self.new (statements.arm_after (expressions.assigned levels) (statements.statement levels)) }
    {
        let test = self.test(levels)?;
        let body = self.statement(levels)?;
        Ok(Arm { test, body })
    }

    #[cycle(statement)]
    #[tactic(auto, using(sc_tree::proofs::ViewStmtLaws::statement_views, sc_grammar::proofs::ElsesLaws::elses_turns), unfolding(sc_grammar::proofs::Reading::bind, sc_grammar::proofs::Reading::pure, sc_grammar::proofs::Reading::maybe, sc_grammar::proofs::Reading::takes_if, sc_grammar::proofs::ReadingStatements::if_after, sc_grammar::proofs::ReadingStatements::elses))]
    fn if_after(&mut self, levels: usize) -> Result<Stmt, Refused>
        ensures moves { Gives plain_stmt result self.old self.new (statements.if_after (expressions.assigned levels) (statements.statement levels)) }
    {
        let mut arms = Items::new(self.alloc);
        let first = self.arm_after(levels)?;
        arms.push(first)?;
        for _turn in self.next..self.tokens.len() {
            if !self.takes_word(Word::Else) {
                break;
            }
            if !self.takes_word(Word::If) {
                let last = self.inner(levels)?;
                return Ok(Stmt::If {
                    arms,
                    rest: Some(last),
                });
            }
            let more = self.arm_after(levels)?;
            arms.push(more)?;
        }
        Ok(Stmt::If { arms, rest: None })
    }

    #[cycle(statement)]
    #[tactic(auto, using(sc_tree::proofs::ViewStmtLaws::statement_views), unfolding(sc_grammar::proofs::Reading::bind, sc_grammar::proofs::Reading::pure, sc_grammar::proofs::Reading::maybe, sc_grammar::proofs::Reading::takes_if, sc_grammar::proofs::ReadingStatements::by_loop_word))]
    fn by_loop_word(&mut self, own: Position, levels: usize) -> Result<Stmt, Refused>
        ensures moves { Gives plain_stmt result self.old self.new (statements.by_loop_word (expressions.assigned levels) (statements.statement levels) own) }
    {
        if self.takes_word(Word::While) {
            return self.while_after(levels);
        }
        if self.takes_word(Word::Do) {
            return self.do_after(levels);
        }
        if self.takes_word(Word::For) {
            return self.for_after(levels);
        }
        if self.takes_word(Word::ForMine) {
            return self.for_mine_after(levels);
        }
        self.by_other_word(own, levels)
    }

    #[cycle(statement)]
    #[tactic(auto, using(sc_tree::proofs::ViewStmtLaws::statement_views), unfolding(sc_grammar::proofs::Reading::bind, sc_grammar::proofs::Reading::pure, sc_grammar::proofs::Reading::maybe, sc_grammar::proofs::Reading::takes_if, sc_grammar::proofs::ReadingStatements::while_after))]
    fn while_after(&mut self, levels: usize) -> Result<Stmt, Refused>
        ensures moves { Gives plain_stmt result self.old self.new (statements.while_after (expressions.assigned levels) (statements.statement levels)) }
    {
        let test = self.test(levels)?;
        let body = self.inner(levels)?;
        Ok(Stmt::While { test, body })
    }

    #[cycle(statement)]
    #[tactic(auto, using(sc_tree::proofs::ViewStmtLaws::statement_views), unfolding(sc_grammar::proofs::Reading::bind, sc_grammar::proofs::Reading::pure, sc_grammar::proofs::Reading::maybe, sc_grammar::proofs::Reading::takes_if, sc_grammar::proofs::ReadingStatements::do_after))]
    fn do_after(&mut self, levels: usize) -> Result<Stmt, Refused>
        ensures moves { Gives plain_stmt result self.old self.new (statements.do_after (expressions.assigned levels) (statements.statement levels)) }
    {
        let body = self.inner(levels)?;
        self.word(Word::While)?;
        let test = self.test(levels)?;
        self.mark(Mark::Semicolon)?;
        Ok(Stmt::DoWhile { body, test })
    }

    #[cycle(statement)]
    #[tactic(auto, using(sc_tree::proofs::ViewStmtLaws::statement_views, sc_grammar::proofs::ForLaws::for_is), unfolding(sc_grammar::proofs::Reading::bind, sc_grammar::proofs::Reading::pure, sc_grammar::proofs::Reading::maybe, sc_grammar::proofs::Reading::takes_if))]
    fn for_after(&mut self, levels: usize) -> Result<Stmt, Refused>
        ensures moves { Gives plain_stmt result self.old self.new (statements.for_after (expressions.assigned levels) (statements.statement levels)) }
    {
        self.mark(Mark::OpenRound)?;
        let parts = self.for_parts(levels)?;
        let body = self.inner(levels)?;
        Ok(Stmt::For {
            first: parts.first,
            test: parts.test,
            next: parts.next,
            body,
        })
    }

    #[cycle(statement)]
    #[tactic(auto, using(sc_tree::proofs::ViewStmtLaws::statement_views), unfolding(sc_grammar::proofs::Reading::bind, sc_grammar::proofs::Reading::pure, sc_grammar::proofs::Reading::maybe, sc_grammar::proofs::Reading::takes_if, sc_grammar::proofs::ReadingStatements::for_mine_after, sc_grammar::proofs::Reading::here))]
    fn for_mine_after(&mut self, levels: usize) -> Result<Stmt, Refused>
        ensures moves { Gives plain_stmt result self.old self.new (statements.for_mine_after (expressions.assigned levels) (statements.statement levels)) }
    {
        self.mark(Mark::OpenRound)?;
        let Position { at, line } = self.here();
        let name = self.name()?;
        self.mark(Mark::Comma)?;
        let bound = self.assigned(levels)?;
        self.mark(Mark::CloseRound)?;
        let body = self.inner(levels)?;
        Ok(Stmt::ForMine {
            name,
            bound,
            body,
            at,
            line,
        })
    }
}
