//! Numbers that a fixed generator draws.

use rand_core::SeedableRng;
use rand_core::utils::NextWord;
use rand_pcg::Pcg32;

/// A generator of numbers.
#[derive(Drop)]
pub struct Chance {
    generator: Pcg32,
}

impl Chance {
    /// The generator of a seed: the same numbers each time.
    pub fn of_seed(seed: u64) -> Chance {
        Chance {
            generator: Pcg32::seed_from_u64(seed),
        }
    }

    /// A number below the bound; 0 if the bound is 0.
    pub fn below(&mut self, bound: u32) -> u32 {
        self.generator.next_word().checked_rem(bound).unwrap_or(0)
    }

    /// A place in a list of this length, or none if it is empty.
    pub fn place(&mut self, length: usize) -> Option<usize> {
        let word = self.generator.next_word() as usize;
        word.checked_rem(length)
    }

    /// True once in so many times.
    pub fn is_once_in(&mut self, times: u32) -> bool {
        self.below(times) == 0
    }
}
