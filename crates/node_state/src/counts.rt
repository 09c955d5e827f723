//! For each counter of a node the number of its reads since the last wait on it.

ghost use Rattle.std.specs.Prelude.{◌≡◌, ◌+◌, ◌<◌, ◌≤◌, ◌^◌, length, replicate, slice_index, slice_set, IfOk};

use std::alloc::{AllocError, Global};
use std::marker::Model;

/// A number for each counter from 0 on, seen as the list of them.
#[derive(Debug, Drop)]
pub struct Counts {
    numbers: Vec<u64>,
}

impl Model for Counts {
    ghost use Rattle.std.specs.Prelude.{List, ℕ};

    ghost Value = { List ℕ };

    ghost view = { λ c. c.numbers.items };
}

impl Counts {
    /// 0 for each counter up to `last`.
    pub fn new(alloc: Global, last: u32) -> Result<Counts, AllocError>
        ensures { IfOk result (λ counts. counts ≡ replicate (last + 1) 0) }
    {
        let mut numbers = Vec::new(alloc);
        for _ in 0..=last {
            numbers.push(0)?;
        }
        Ok(Counts { numbers })
    }

    /// The counter's number; 0 where there is no such counter.
    pub fn get(&self, counter: u32) -> u64
        ensures { result ≡ slice_index self.now counter }
    {
        self.numbers
            .as_slice()
            .get(counter as usize)
            .copied()
            .unwrap_or(0)
    }

    /// Sets the counter's number, if there is such a counter.
    pub fn set(&mut self, counter: u32, number: u64)
        ensures { self.new ≡ slice_set self.old counter number }
    {
        if (counter as usize) < self.numbers.len() {
            self.numbers[counter as usize] = number;
        }
    }
}
