//! The first places of numbers in a list, found in constant time.

ghost use Rattle.std.specs.Prelude.{◌≡◌, ◌<◌, ℕ, All, IfOk, length, get_or};
ghost use Rattle.formula_tables.specs.Places.{first_place};

use std::alloc::{AllocError, Global};
use std::marker::Model;

/// A list of numbers, with the first place of each.
#[derive(Drop)]
pub struct FirstPlaces {
    numbers: Vec<usize>,
    firsts: Vec<usize>,
}

impl Model for FirstPlaces {
    ghost use Rattle.std.specs.Prelude.{ℕ, List};
    ghost use Rattle.formula_tables.specs.Places.{AreFirstPlaces};

    ghost Value = { List ℕ };

    ghost view = { λ p. p.numbers.items };

    ghost invariant = { λ p. AreFirstPlaces p.numbers.items p.firsts.items };
}

/// Writes the first place of each number. For a number that isn't in the list nothing is written.
fn fill(firsts: &mut [usize], numbers: &[usize])
    requires below { All (λ n. n < length firsts.old) numbers.now }
    requires none { (k : ℕ) → k < length firsts.old → get_or firsts.old k 0 ≡ length numbers.now }
    ensures { (k : ℕ) → k < length firsts.new → get_or firsts.new k 0 ≡ first_place k numbers.now }
{
    let mut place = numbers.len();
    while place > 0 {
        place -= 1;
        firsts[numbers[place]] = place;
    }
}

impl FirstPlaces {
    /// The places of these numbers, each below a bound. The only error is want of memory.
    pub fn make(alloc: Global, bound: usize, numbers: Vec<usize>) -> Result<FirstPlaces, AllocError>
        requires { All (λ n. n < bound) numbers.items }
        ensures { IfOk result (λ places. places ≡ numbers.items) }
    {
        let mut firsts = vec![in alloc; numbers.len(); bound]?;
        fill(firsts.as_mut_slice(), numbers.as_slice());
        Ok(FirstPlaces { numbers, firsts })
    }

    /// How many numbers there are.
    pub fn len(&self) -> usize
        ensures { result ≡ length self.now }
    {
        self.numbers.len()
    }

    /// The first place of the number, from 0, or the number of all places where it doesn't stand in
    /// the list.
    pub fn first(&self, number: usize) -> usize
        ensures { result ≡ first_place number self.now }
    {
        if number < self.firsts.len() {
            return self.firsts[number];
        }
        self.numbers.len()
    }

    /// The numbers, in order.
    pub fn numbers(&self) -> &[usize]
        ensures { result.now ≡ self.now }
    {
        self.numbers.as_slice()
    }
}
