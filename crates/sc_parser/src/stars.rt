//! Stars, as of a pointer's type.

use crate::reader::Reader;
use sc_base::{Star, Stars};
use sc_grammar::Refused;
use sc_tree::{Mark, Word};

impl Reader<'_> {
    ghost use Rattle.sc_parser.specs.Returned.{Gives, Moves};
    ghost use Rattle.sc_grammar.proofs.ReadingExpressions as reading;

    /// As many stars as there are.
    #[tactic(auto, using(sc_grammar::proofs::ManyLaws::turns), unfolding(sc_grammar::proofs::ReadingExpressions::stars))]
    pub fn stars(&mut self) -> Result<Stars, Refused>
        ensures { Gives (λ s. s) result self.old self.new reading.stars }
    {
        let mut stars = Vec::new(self.alloc);
        for _turn in self.next..self.tokens.len() {
            let Some(star) = self.one_star() else {
                return Ok(Stars::from_vec(stars));
            };
            stars.push(star)?;
        }
        Ok(Stars::from_vec(stars))
    }

    #[tactic(auto, unfolding(sc_grammar::proofs::Reading::bind, sc_grammar::proofs::Reading::pure, sc_grammar::proofs::Reading::takes_if, sc_grammar::proofs::Reading::maybe, sc_grammar::proofs::ReadingExpressions::one_star))]
    fn one_star(&mut self) -> Option<Star>
        ensures { Moves result self.old self.new reading.one_star }
    {
        if !self.takes_mark(Mark::Star) {
            return None;
        }
        if self.takes_word(Word::Global) {
            return Some(Star::Global);
        }
        if self.takes_word(Word::Spread) {
            return Some(Star::Spread);
        }
        Some(Star::Local)
    }
}
