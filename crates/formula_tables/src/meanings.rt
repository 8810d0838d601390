//! What the variables of a formula stand for.

ghost use Rattle.std.specs.Prelude.{◌≡◌, ◌<◌, ◌++◌, ℕ, length, slice_get};
ghost use Rattle.std.specs.List.{flat_map};
ghost use Rattle.formula.specs.Orders.{clock_meanings, pair_meanings};
ghost use Rattle.formula_tables.specs.Meanings.{meanings_in, of_pair};

use formula::{Fact, Meaning};
use std::marker::Model;

/// What the variables stand for, in the order of their numbers: the facts, the bits of the clocks
/// of so many events, and what is said of the used pairs of events.
#[derive(Drop)]
pub struct Meanings {
    facts: Vec<Fact>,
    events: usize,
    size: usize,
    used: Vec<(usize, usize)>,
}

impl Model for Meanings {
    ghost use Rattle.std.specs.Prelude.{◌<◌, length};
    ghost use Rattle.formula_tables.specs.Meanings.{MeaningParts};

    ghost Value = { MeaningParts };

    ghost view = { λ m. record { facts = m.facts.items; events = m.events; size = m.size; used = m.used.items } };

    ghost invariant = { λ m. 0 < length m.used.items → 0 < m.size };
}

/// The meaning of a pair of events at a place among those of the pair.
fn of_pair(pair: (usize, usize), bits: usize) -> Meaning
    ensures { result ≡ of_pair pair bits }
{
    if bits == 0 {
        return Meaning::Before(pair.0, pair.1);
    }
    Meaning::SameBits(pair.0, pair.1, bits)
}

/// The meaning at a place among those on the order of so many events.
fn of_order(events: usize, size: usize, used: &[(usize, usize)], place: usize) -> Option<Meaning>
    requires { 0 < size }
    ensures { result ≡ slice_get (clock_meanings size events ++ flat_map (pair_meanings size) used.now) place }
{
    let block = place / size;
    let bits = place % size;
    if block < events {
        return Some(Meaning::ClockBit(block, bits));
    }
    match used.get(block - events) {
        None => None,
        Some(pair) => Some(of_pair(*pair, bits)),
    }
}

impl Meanings {
    /// The meanings of these facts, of the clocks of so many events with so many bits, and of these
    /// pairs of events.
    pub fn make(facts: Vec<Fact>, events: usize, size: usize, used: Vec<(usize, usize)>) -> Meanings
        requires { 0 < length used.items → 0 < size }
        ensures { result ≡ record { facts = facts.items; events = events; size = size; used = used.items } }
    {
        Meanings {
            facts,
            events,
            size,
            used,
        }
    }

    /// The facts, in the order of their variables.
    pub fn facts(&self) -> &[Fact]
        ensures { result.now ≡ self.now.facts }
    {
        self.facts.as_slice()
    }

    /// How many bits the clock of an event has.
    pub fn clock_size(&self) -> usize
        ensures { result ≡ self.now.size }
    {
        self.size
    }

    /// The pairs of events that are compared, by their places, in the order of their variables.
    pub fn used_pairs(&self) -> &[(usize, usize)]
        ensures { result.now ≡ self.now.used }
    {
        self.used.as_slice()
    }

    /// The meaning at a place, from 0, in constant time. There is none past the last one.
    pub fn at(&self, place: usize) -> Option<Meaning>
        ensures { result ≡ slice_get (meanings_in self.now) place }
    {
        match self.facts.get(place) {
            Some(fact) => return Some(Meaning::OfFact(*fact)),
            None => {}
        }
        if self.size == 0 {
            return None;
        }
        of_order(
            self.events,
            self.size,
            self.used.as_slice(),
            place - self.facts.len(),
        )
    }
}
