//! Reading what stands at file scope, with so many levels of depth left.

ghost use Rattle.std.specs.Prelude.{◌≡◌, ◌∷◌, [], List, map, MatchResult};
ghost use Rattle.std.specs.Option.{option_map};
ghost use Rattle.sc_base.specs.declared.shape.BoundStep.{BoundStep};
ghost use Rattle.sc_tree.specs.ViewTree.{plain_block};
ghost use Rattle.sc_grammar.proofs.Reading as reading;
ghost use Rattle.sc_grammar.proofs.Reading.{Fails};
ghost use Rattle.sc_grammar.proofs.ReadingItems as items;
ghost use Rattle.sc_parser.specs.Returned.{Gives};
ghost use Rattle.sc_parser.specs.ViewItem.{plain_item};

use crate::reader::Reader;
use crate::trees::int_with;
use sc_base::{Bound, BoundStep, BoundSteps, Bounds, Shape, Stars, Ty};
use sc_grammar::{Position, Refused};
use sc_tree::{Block, Function, Mark, Param, Params, Shapes, TokenKind, Word};
use sqlite_items::Items;

/// What stands at file scope.
#[derive(Drop)]
pub enum Item {
    Objects(Shapes),
    Function(Function),
}

/// Whether some bound begins with such a token.
fn begins_bound(kind: TokenKind) -> bool
    ensures { result ≡ items.begins_bound kind }
{
    matches!(
        kind,
        TokenKind::Number(_) | TokenKind::Word(Word::Procs) | TokenKind::Mark(Mark::OpenRound)
    )
}

/// What is read of bounds, as steps in postfix order.
impl Reader<'_> {
    /// The refusal of a bound that is too deep.
    #[tactic(auto, unfolding(sc_grammar::proofs::Reading::bind, sc_grammar::proofs::Reading::pure, sc_grammar::proofs::Reading::maybe, sc_grammar::proofs::Reading::takes_if, sc_grammar::proofs::Reading::next_is, sc_grammar::proofs::Reading::too_deep, sc_grammar::proofs::Reading::fail))]
    fn no_deeper_bound(&self) -> Refused
        ensures { Fails {A = List BoundStep} result (reading.no_deeper items.begins_bound self.now.tokens.now self.now.next) }
    {
        let begins = match self.kind() {
            Some(kind) => begins_bound(kind),
            None => false,
        };
        self.no_deeper(begins)
    }

    #[cycle(bound)]
    #[tactic(auto, unfolding(sc_grammar::proofs::Reading::bind, sc_grammar::proofs::Reading::pure, sc_grammar::proofs::Reading::maybe, sc_grammar::proofs::Reading::takes_if, sc_grammar::proofs::ReadingItems::bound))]
    fn bound(&mut self, levels: usize) -> Result<Vec<BoundStep>, Refused>
        ensures moves { Gives (λ v. v.items) result self.old self.new (items.bound levels) }
    {
        if levels == 0 {
            return Err(self.no_deeper_bound());
        }
        self.sum(levels - 1)
    }

    #[cycle(bound)]
    #[tactic(auto, using(sc_grammar::proofs::StepsLaws::step_turns), unfolding(sc_grammar::proofs::Reading::bind, sc_grammar::proofs::Reading::pure, sc_grammar::proofs::Reading::maybe, sc_grammar::proofs::Reading::takes_if, sc_grammar::proofs::ReadingItems::sum, sc_grammar::proofs::Reading::many))]
    fn sum(&mut self, levels: usize) -> Result<Vec<BoundStep>, Refused>
        ensures moves { Gives (λ v. v.items) result self.old self.new (items.sum (items.bound levels)) }
    {
        let mut steps = self.product(levels)?;
        for _turn in self.next..self.tokens.len() {
            let Some(mut more) = self.one_summand(levels)? else {
                break;
            };
            steps.append(&mut more)?;
        }
        Ok(steps)
    }

    #[cycle(bound)]
    #[tactic(auto, unfolding(sc_grammar::proofs::Reading::bind, sc_grammar::proofs::Reading::pure, sc_grammar::proofs::Reading::maybe, sc_grammar::proofs::Reading::takes_if, sc_grammar::proofs::ReadingItems::one_summand))]
    fn one_summand(&mut self, levels: usize) -> Result<Option<Vec<BoundStep>>, Refused>
        ensures moves { Gives (option_map (λ v. v.items)) result self.old self.new (items.one_summand (items.bound levels)) }
    {
        let Some(op) = self.take_operator(1) else {
            return Ok(None);
        };
        let mut steps = self.product(levels)?;
        steps.push(BoundStep::Op(op))?;
        Ok(Some(steps))
    }

    #[cycle(bound)]
    #[tactic(auto, using(sc_grammar::proofs::StepsLaws::step_turns), unfolding(sc_grammar::proofs::Reading::bind, sc_grammar::proofs::Reading::pure, sc_grammar::proofs::Reading::maybe, sc_grammar::proofs::Reading::takes_if, sc_grammar::proofs::ReadingItems::product, sc_grammar::proofs::Reading::many))]
    fn product(&mut self, levels: usize) -> Result<Vec<BoundStep>, Refused>
        ensures moves { Gives (λ v. v.items) result self.old self.new (items.product (items.bound levels)) }
    {
        let mut steps = self.unit(levels)?;
        for _turn in self.next..self.tokens.len() {
            let Some(mut more) = self.one_factor(levels)? else {
                break;
            };
            steps.append(&mut more)?;
        }
        Ok(steps)
    }

    #[cycle(bound)]
    #[tactic(auto, unfolding(sc_grammar::proofs::Reading::bind, sc_grammar::proofs::Reading::pure, sc_grammar::proofs::Reading::maybe, sc_grammar::proofs::Reading::takes_if, sc_grammar::proofs::ReadingItems::one_factor))]
    fn one_factor(&mut self, levels: usize) -> Result<Option<Vec<BoundStep>>, Refused>
        ensures moves { Gives (option_map (λ v. v.items)) result self.old self.new (items.one_factor (items.bound levels)) }
    {
        let Some(op) = self.take_operator(0) else {
            return Ok(None);
        };
        let mut steps = self.unit(levels)?;
        steps.push(BoundStep::Op(op))?;
        Ok(Some(steps))
    }

    #[cycle(bound)]
    #[tactic(auto, unfolding(sc_grammar::proofs::Reading::bind, sc_grammar::proofs::Reading::pure, sc_grammar::proofs::Reading::maybe, sc_grammar::proofs::Reading::takes_if, sc_grammar::proofs::ReadingItems::unit, sc_grammar::proofs::Reading::fail))]
    fn unit(&mut self, levels: usize) -> Result<Vec<BoundStep>, Refused>
        ensures moves { Gives (λ v. v.items) result self.old self.new (items.unit (items.bound levels)) }
    {
        if let Some(number) = self.take_number() {
            return self.step(BoundStep::Number(number));
        }
        if self.takes_word(Word::Procs) {
            return self.step(BoundStep::Procs);
        }
        if !self.takes_mark(Mark::OpenRound) {
            return Err(self.unexpected());
        }
        let all = self.bound(levels)?;
        self.mark(Mark::CloseRound)?;
        Ok(all)
    }

    fn step(&self, step: BoundStep) -> Result<Vec<BoundStep>, Refused>
        ensures { MatchResult result (λ v. v.items ≡ step ∷ []) (λ e. e ≡ Refused.Memory) }
    {
        let mut steps = Vec::new(self.alloc);
        steps.push(step)?;
        Ok(steps)
    }
}

/// What is read of objects.
impl Reader<'_> {
    #[tactic(auto, unfolding(sc_grammar::proofs::Reading::bind, sc_grammar::proofs::Reading::pure, sc_grammar::proofs::Reading::maybe, sc_grammar::proofs::Reading::takes_if, sc_grammar::proofs::ReadingItems::one_bound, sc_grammar::proofs::Reading::here))]
    fn one_bound(&mut self, levels: usize) -> Result<Option<Bound>, Refused>
        ensures moves { Gives (λ x. x) result self.old self.new (items.one_bound levels) }
    {
        if !self.takes_mark(Mark::OpenSquare) {
            return Ok(None);
        }
        let Position { line, .. } = self.here();
        let steps = self.bound(levels)?;
        self.mark(Mark::CloseSquare)?;
        Ok(Some(Bound {
            steps: BoundSteps::from_vec(steps),
            line,
        }))
    }

    /// As many bounds as there are.
    #[tactic(auto, using(sc_grammar::proofs::ManyLaws::turns), unfolding(sc_grammar::proofs::Reading::bind, sc_grammar::proofs::Reading::pure, sc_grammar::proofs::Reading::maybe, sc_grammar::proofs::Reading::takes_if, sc_grammar::proofs::Reading::many))]
    fn bounds(&mut self, levels: usize) -> Result<Bounds, Refused>
        ensures moves { Gives (λ x. x) result self.old self.new (reading.many (items.one_bound levels)) }
    {
        let mut bounds = Vec::new(self.alloc);
        for _turn in self.next..self.tokens.len() {
            let Some(bound) = self.one_bound(levels)? else {
                return Ok(Bounds::from_vec(bounds));
            };
            bounds.push(bound)?;
        }
        Ok(Bounds::from_vec(bounds))
    }

    /// The object, behind its first bounds.
    #[tactic(auto, unfolding(sc_grammar::proofs::Reading::bind, sc_grammar::proofs::Reading::pure, sc_grammar::proofs::Reading::maybe, sc_grammar::proofs::Reading::takes_if, sc_grammar::proofs::ReadingItems::after_left))]
    fn after_left(
        &mut self,
        stars: Stars,
        own: Position,
        name: u32,
        left: Bounds,
        levels: usize,
    ) -> Result<Shape, Refused>
        ensures moves { Gives (λ x. x) result self.old self.new (items.after_left levels stars own name left) }
    {
        let spread = !left.as_slice().is_empty() && self.takes_mark(Mark::ColonColon);
        let right = if spread {
            self.bounds(levels)?
        } else {
            Bounds::from_vec(Vec::new(self.alloc))
        };
        Ok(Shape {
            name,
            ty: int_with(stars),
            spread,
            left,
            right,
            at: own.at,
            line: own.line,
        })
    }

    /// The object, behind its name.
    #[tactic(auto, unfolding(sc_grammar::proofs::Reading::bind, sc_grammar::proofs::Reading::pure, sc_grammar::proofs::Reading::maybe, sc_grammar::proofs::Reading::takes_if, sc_grammar::proofs::ReadingItems::declarator_after))]
    fn declarator_after(
        &mut self,
        stars: Stars,
        own: Position,
        name: u32,
        levels: usize,
    ) -> Result<Shape, Refused>
        ensures moves { Gives (λ x. x) result self.old self.new (items.declarator_after levels stars own name) }
    {
        let left = self.bounds(levels)?;
        self.after_left(stars, own, name, left, levels)
    }

    #[tactic(auto, unfolding(sc_grammar::proofs::Reading::bind, sc_grammar::proofs::Reading::pure, sc_grammar::proofs::Reading::maybe, sc_grammar::proofs::Reading::takes_if, sc_grammar::proofs::ReadingItems::declarator, sc_grammar::proofs::Reading::here))]
    fn declarator(&mut self, levels: usize) -> Result<Shape, Refused>
        ensures moves { Gives (λ x. x) result self.old self.new (items.declarator levels) }
    {
        let stars = self.stars()?;
        let own = self.here();
        let name = self.name()?;
        self.declarator_after(stars, own, name, levels)
    }

    #[tactic(auto, unfolding(sc_grammar::proofs::Reading::bind, sc_grammar::proofs::Reading::pure, sc_grammar::proofs::Reading::maybe, sc_grammar::proofs::Reading::takes_if, sc_grammar::proofs::ReadingItems::one_more_declarator))]
    fn one_more_declarator(&mut self, levels: usize) -> Result<Option<Shape>, Refused>
        ensures moves { Gives (λ x. x) result self.old self.new (items.one_more_declarator levels) }
    {
        if !self.takes_mark(Mark::Comma) {
            return Ok(None);
        }
        let more = self.declarator(levels)?;
        Ok(Some(more))
    }
}

/// What is read of functions.
impl Reader<'_> {
    #[tactic(auto, unfolding(sc_grammar::proofs::Reading::bind, sc_grammar::proofs::Reading::pure, sc_grammar::proofs::Reading::maybe, sc_grammar::proofs::Reading::takes_if, sc_grammar::proofs::ReadingItems::param, sc_grammar::proofs::Reading::here))]
    fn param(&mut self) -> Result<Param, Refused>
        ensures moves { Gives (λ x. x) result self.old self.new (items.param 0) }
    {
        let Position { at, .. } = self.here();
        self.word(Word::Int)?;
        let stars = self.stars()?;
        let name = self.take_name();
        Ok(Param {
            name,
            ty: int_with(stars),
            at,
        })
    }

    #[tactic(auto, unfolding(sc_grammar::proofs::Reading::bind, sc_grammar::proofs::Reading::pure, sc_grammar::proofs::Reading::maybe, sc_grammar::proofs::Reading::takes_if, sc_grammar::proofs::ReadingItems::one_more_param))]
    fn one_more_param(&mut self) -> Result<Option<Param>, Refused>
        ensures moves { Gives (λ x. x) result self.old self.new (items.one_more_param 0) }
    {
        if !self.takes_mark(Mark::Comma) {
            return Ok(None);
        }
        let more = self.param()?;
        Ok(Some(more))
    }

    #[tactic(auto, using(sc_grammar::proofs::ManyLaws::turns), unfolding(sc_grammar::proofs::Reading::bind, sc_grammar::proofs::Reading::pure, sc_grammar::proofs::Reading::maybe, sc_grammar::proofs::Reading::takes_if, sc_grammar::proofs::ReadingItems::params, sc_grammar::proofs::Reading::next_is, sc_grammar::proofs::Reading::many))]
    fn params(&mut self) -> Result<Params, Refused>
        ensures moves { Gives (λ x. x) result self.old self.new (items.params 0) }
    {
        let mut params = Items::new(self.alloc);
        if self.next_is_mark(Mark::CloseRound) || self.takes_word(Word::Void) {
            return Ok(params);
        }
        let first = self.param()?;
        params.push(first)?;
        for _turn in self.next..self.tokens.len() {
            let Some(more) = self.one_more_param()? else {
                break;
            };
            params.push(more)?;
        }
        Ok(params)
    }

    /// The body of a function, or None for a prototype.
    #[tactic(auto, unfolding(sc_grammar::proofs::Reading::bind, sc_grammar::proofs::Reading::pure, sc_grammar::proofs::Reading::maybe, sc_grammar::proofs::Reading::takes_if, sc_grammar::proofs::ReadingItems::body))]
    fn body(&mut self, levels: usize) -> Result<Option<Block>, Refused>
        ensures moves { Gives (option_map plain_block) result self.old self.new (items.body levels) }
    {
        if self.takes_mark(Mark::Semicolon) {
            return Ok(None);
        }
        self.mark(Mark::OpenCurly)?;
        let body = self.block_after(levels)?;
        Ok(Some(body))
    }

    /// The function, behind the parenthesis that follows its name.
    #[tactic(auto, using(sc_grammar::proofs::ParamsSame::params_same), unfolding(sc_grammar::proofs::Reading::bind, sc_grammar::proofs::Reading::pure, sc_grammar::proofs::Reading::maybe, sc_grammar::proofs::Reading::takes_if, sc_grammar::proofs::ReadingItems::function_after))]
    fn function_after(
        &mut self,
        ty: Ty,
        own: Position,
        name: u32,
        levels: usize,
    ) -> Result<Item, Refused>
        ensures moves { Gives plain_item result self.old self.new (items.function_after levels ty own name) }
    {
        let params = self.params()?;
        self.mark(Mark::CloseRound)?;
        let body = self.body(levels)?;
        Ok(Item::Function(Function {
            name,
            result: ty,
            params,
            body,
            at: own.at,
            line: own.line,
        }))
    }

    #[tactic(auto, unfolding(sc_grammar::proofs::Reading::bind, sc_grammar::proofs::Reading::pure, sc_grammar::proofs::Reading::maybe, sc_grammar::proofs::Reading::takes_if, sc_grammar::proofs::ReadingItems::function_named, sc_grammar::proofs::Reading::here))]
    fn function_named(&mut self, ty: Ty, levels: usize) -> Result<Item, Refused>
        ensures moves { Gives plain_item result self.old self.new (items.function_named levels ty) }
    {
        let own = self.here();
        let name = self.name()?;
        self.mark(Mark::OpenRound)?;
        self.function_after(ty, own, name, levels)
    }
}

/// What is read of items.
impl Reader<'_> {
    /// The objects, behind the name of the first.
    #[tactic(auto, using(sc_grammar::proofs::ManyLaws::turns), unfolding(sc_grammar::proofs::Reading::bind, sc_grammar::proofs::Reading::pure, sc_grammar::proofs::Reading::maybe, sc_grammar::proofs::Reading::takes_if, sc_grammar::proofs::ReadingItems::objects_after, sc_grammar::proofs::Reading::many))]
    fn objects_after(
        &mut self,
        stars: Stars,
        own: Position,
        name: u32,
        levels: usize,
    ) -> Result<Item, Refused>
        ensures moves { Gives plain_item result self.old self.new (items.objects_after levels stars own name) }
    {
        let mut objects = Items::new(self.alloc);
        let first = self.declarator_after(stars, own, name, levels)?;
        objects.push(first)?;
        for _turn in self.next..self.tokens.len() {
            let Some(more) = self.one_more_declarator(levels)? else {
                break;
            };
            objects.push(more)?;
        }
        self.mark(Mark::Semicolon)?;
        Ok(Item::Objects(objects))
    }

    /// What an `int` begins.
    #[tactic(auto, unfolding(sc_grammar::proofs::Reading::bind, sc_grammar::proofs::Reading::pure, sc_grammar::proofs::Reading::maybe, sc_grammar::proofs::Reading::takes_if, sc_grammar::proofs::ReadingItems::after_int, sc_grammar::proofs::Reading::here))]
    fn after_int(&mut self, levels: usize) -> Result<Item, Refused>
        ensures moves { Gives plain_item result self.old self.new (items.after_int levels) }
    {
        let stars = self.stars()?;
        let own = self.here();
        let name = self.name()?;
        if self.takes_mark(Mark::OpenRound) {
            self.function_after(int_with(stars), own, name, levels)
        } else {
            self.objects_after(stars, own, name, levels)
        }
    }

    /// Objects or a function.
    #[tactic(auto, unfolding(sc_grammar::proofs::Reading::bind, sc_grammar::proofs::Reading::pure, sc_grammar::proofs::Reading::maybe, sc_grammar::proofs::Reading::takes_if, sc_grammar::proofs::ReadingItems::item))]
    pub fn item(&mut self, levels: usize) -> Result<Item, Refused>
        ensures moves { Gives plain_item result self.old self.new (items.item levels) }
    {
        if self.takes_word(Word::Int) {
            return self.after_int(levels);
        }
        let void = self.takes_word(Word::Void);
        let stars = Stars::from_vec(Vec::new(self.alloc));
        self.function_named(Ty { void, stars }, levels)
    }
}
