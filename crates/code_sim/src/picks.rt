//! How a run chooses among the moves that it has.

ghost use Rattle.std.specs.Prelude.{◌≡◌, ℕ, ◌+◌, ◌%◌, ◌<◌, slice_index};
ghost use Rattle.std.specs.Vec.Iter.{into_iter_items};
ghost use Rattle.code_sim.specs.Picks.{seed_word, word_of};

use rand_core::utils::NextWord;
use rand_pcg::Pcg32;
use std::vec::IntoIter;

/// A source of choices, each of which takes one word.
pub trait Picks {
    // the k-th of the words still to come
    ghost words: { Self → ℕ → ℕ };

    /// Which of so many moves comes next: the next word modulo their number.
    fn pick(&mut self, moves: u64) -> u64
        requires { 0 < moves }
        ensures value { result ≡ words self.old 0 % moves }
        ensures rest { (k : ℕ) → words self.new k ≡ words self.old (k + 1) };
}

/// The choices of a seed: the words of the generator PCG XSH RR 64/32 that begins with it on stream 0.
#[derive(Drop)]
pub struct SeedPicks {
    generator: Pcg32,
}

impl SeedPicks {
    /// The choices of the seed, from their beginning.
    pub fn new(seed: u64) -> SeedPicks
        ensures { (k : ℕ) → ⟦<SeedPicks as Picks>⟧.words result k ≡ seed_word seed k }
    {
        SeedPicks {
            generator: Pcg32::new(seed, 0),
        }
    }
}

impl Picks for SeedPicks {
    ghost words = { λ p. word_of p.generator };

    fn pick(&mut self, moves: u64) -> u64 {
        u64::from(self.generator.next_word()) % moves
    }
}

/// The choices of a list, and 0 past its end.
#[derive(Drop)]
pub struct ListPicks {
    rest: IntoIter<u32>,
}

impl ListPicks {
    /// The choices that the list has, from its beginning.
    pub fn new(list: Vec<u32>) -> ListPicks
        ensures { (k : ℕ) → ⟦<ListPicks as Picks>⟧.words result k ≡ slice_index list.items k }
    {
        ListPicks {
            rest: list.into_iter(),
        }
    }
}

impl Picks for ListPicks {
    ghost words = { λ p. slice_index (into_iter_items p.rest) };

    fn pick(&mut self, moves: u64) -> u64 {
        u64::from(self.rest.next().unwrap_or(0)) % moves
    }
}
