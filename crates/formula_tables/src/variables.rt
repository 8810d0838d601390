//! The numbers of variables, found in constant time.

ghost use Rattle.std.specs.Prelude.{◌≡◌, ◌+◌, ◌*◌, ◌^◌, ◌<◌, ◌≤◌, length, map, IfOk};
ghost use Rattle.std.specs.List.{position_or_len};
ghost use Rattle.formula.specs.declared.facts.Meaning.TheVariants.{OfFact as fact_is, ClockBit as clock_bit, Before as before, SameBits as same_bits};
ghost use Rattle.formula.specs.Families.{events as events_of, place_of_event};
ghost use Rattle.formula.specs.Orders.{clock_size, used_pairs, place_of_pair};
ghost use Rattle.formula.specs.Numbering.{facts as facts_of, meanings, is_same_fact, is_same_meaning, variable_of, literal, literal_of, earlier_literal};
ghost use Rattle.formula_tables.specs.Numbers.{IsSmall, pair_slot, fact_slot};

use crate::events::Events;
use crate::places::FirstPlaces;
use callorder::Program;
use clauses::Lit;
use formula::{Fact, Meaning, RunEvent, Statement};
use std::alloc::{AllocError, Global};
use std::marker::Model;

/// The variables of a program's formula.
#[derive(Drop)]
pub struct Variables<'a> {
    program: &'a Program,
    events: Events<'a>,
    facts: FirstPlaces,
    used: FirstPlaces,
    size: usize,
}

impl<'a> Model for Variables<'a> {
    ghost use Rattle.callorder.specs.Programs.{MpiProgram};
    ghost use Rattle.formula_tables.specs.Numbers.{AreVariableTables};

    ghost Value = { MpiProgram };

    ghost view = { λ v. v.program.now };

    ghost invariant = { λ v. AreVariableTables v.program.now v.events v.facts v.used v.size };
}

/// The number of a pair of two of so many places.
fn pair_slot(most: usize, first: usize, second: usize) -> usize
    requires { most ≤ 1024 }
    ensures { result ≡ pair_slot most first second }
{
    if first < most && second < most {
        return first * most + second;
    }
    most * most
}

/// The number of a fact of a program with so many calls.
fn fact_slot(calls: usize, fact: &Fact) -> usize
    requires { calls ≤ 1024 }
    ensures { result ≡ fact_slot calls fact.now }
{
    match *fact {
        Fact::Issued(call) if call < calls => call,
        Fact::Buffered(call) if call < calls => calls + call,
        Fact::Unfinished(rank) if rank < 64 => calls + calls + rank,
        Fact::Matched(send, taker) => calls + calls + 64 + pair_slot(calls, send, taker),
        _ => calls + calls + 64 + calls * calls,
    }
}

fn fact_slots(alloc: Global, calls: usize, facts: &[Fact]) -> Result<Vec<usize>, AllocError>
    requires { calls ≤ 1024 }
    ensures { IfOk result (λ slots. slots.items ≡ map (fact_slot calls) facts.now) }
{
    let mut slots = Vec::new(alloc);
    for fact in facts {
        slots.push(fact_slot(calls, fact))?;
    }
    Ok(slots)
}

fn pair_slots(
    alloc: Global,
    most: usize,
    pairs: &[(usize, usize)],
) -> Result<Vec<usize>, AllocError>
    requires { most ≤ 1024 }
    ensures { IfOk result (λ slots. slots.items ≡ map (λ pair. pair_slot most pair.0 pair.1) pairs.now) }
{
    let mut slots = Vec::new(alloc);
    for pair in pairs {
        slots.push(pair_slot(most, pair.0, pair.1))?;
    }
    Ok(slots)
}

impl<'a> Variables<'a> {
    /// The variables of the program with these events, facts, used pairs and sizes of clocks. The
    /// only error is want of memory.
    pub fn make(
        alloc: Global,
        events: Events<'a>,
        facts: &[Fact],
        used: &[(usize, usize)],
        size: usize,
    ) -> Result<Variables<'a>, AllocError>
        requires small { IsSmall events }
        requires facts { facts.now ≡ facts_of events }
        requires used { used.now ≡ used_pairs events }
        requires size { size ≡ clock_size events }
        ensures { IfOk result (λ variables. variables ≡ events.entry) }
    {
        let program = events.program();
        let calls = program.calls().len();
        let most = events.len();
        let facts = fact_slots(alloc, calls, facts)?;
        let used = pair_slots(alloc, most, used)?;
        let facts = FirstPlaces::make(alloc, calls + calls + 64 + calls * calls, facts)?;
        let used = FirstPlaces::make(alloc, most * most, used)?;
        Ok(Variables {
            program,
            events,
            facts,
            used,
            size,
        })
    }

    fn fact_count(&self) -> usize
        ensures same { result ≡ length (facts_of self.now) }
        ensures few { result ≤ 1051712 }
    {
        self.facts.len()
    }

    /// How many events there are.
    pub fn event_count(&self) -> usize
        ensures same { result ≡ length (events_of self.now) }
        ensures few { result ≤ 1024 }
    {
        self.events.len()
    }

    /// The place of the event among those of the program, from 0, or the number of all events where
    /// it is none.
    pub fn event_place(&self, event: &RunEvent) -> usize
        ensures { result ≡ place_of_event self.now event.now }
    {
        self.events.place_of(event)
    }

    fn used_count(&self) -> usize
        ensures same { result ≡ length (used_pairs self.now) }
        ensures few { result ≤ 1048576 }
    {
        self.used.len()
    }

    /// How many bits the clock of an event has.
    pub fn clock_size(&self) -> usize
        ensures same { result ≡ clock_size self.now }
        ensures few { result ≤ 10 }
    {
        self.size
    }

    /// The place of a fact among those of the program, or the number of all facts where it is none.
    fn fact_place(&self, fact: &Fact) -> usize
        ensures { result ≡ position_or_len (is_same_fact fact.now) (facts_of self.now) }
    {
        self.facts
            .first(fact_slot(self.program.calls().len(), fact))
    }

    /// The place of a pair of events among the used ones, or the number of all used pairs where it
    /// is none.
    fn pair_place(&self, first: usize, second: usize) -> usize
        ensures { result ≡ place_of_pair self.now first second }
    {
        self.used.first(pair_slot(self.events.len(), first, second))
    }

    /// How many variables there are.
    pub fn count(&self) -> usize
        ensures same { result ≡ length (meanings self.now) }
        ensures few { result < 2147483647 }
    {
        let size = self.clock_size();
        self.fact_count() + self.event_count() * size + self.used_count() * size
    }

    fn place_of_fact(&self, fact: &Fact) -> usize
        ensures { result ≡ position_or_len (is_same_meaning (fact_is fact.now)) (meanings self.now) }
    {
        let place = self.fact_place(fact);
        let facts = self.fact_count();
        if place < facts {
            return place;
        }
        self.count()
    }

    fn place_of_bit(&self, event: usize, bit: usize) -> usize
        ensures { result ≡ position_or_len (is_same_meaning (clock_bit event bit)) (meanings self.now) }
    {
        let events = self.event_count();
        let size = self.clock_size();
        if event >= events {
            return self.count();
        }
        if bit >= size {
            return self.count();
        }
        self.fact_count() + event * size + bit
    }

    fn place_of_order(&self, first: usize, second: usize) -> usize
        ensures { result ≡ position_or_len (is_same_meaning (before first second)) (meanings self.now) }
    {
        let place = self.pair_place(first, second);
        let pairs = self.used_count();
        if place >= pairs {
            return self.count();
        }
        let size = self.clock_size();
        self.fact_count() + self.event_count() * size + place * size
    }

    fn place_of_same(&self, first: usize, second: usize, bits: usize) -> usize
        ensures { result ≡ position_or_len (is_same_meaning (same_bits first second bits)) (meanings self.now) }
    {
        let size = self.clock_size();
        if bits == 0 {
            return self.count();
        }
        if bits >= size {
            return self.count();
        }
        let place = self.pair_place(first, second);
        let pairs = self.used_count();
        if place >= pairs {
            return self.count();
        }
        self.fact_count() + self.event_count() * size + place * size + bits
    }

    fn place_in_all(&self, meaning: &Meaning) -> usize
        ensures { result ≡ position_or_len (is_same_meaning meaning.now) (meanings self.now) }
    {
        match *meaning {
            Meaning::OfFact(fact) => self.place_of_fact(&fact),
            Meaning::ClockBit(event, bit) => self.place_of_bit(event, bit),
            Meaning::Before(first, second) => self.place_of_order(first, second),
            Meaning::SameBits(first, second, bits) => self.place_of_same(first, second, bits),
        }
    }

    /// The place of a meaning, or the number of all meanings where it is none of the program's.
    fn place_of(&self, meaning: &Meaning) -> usize
        ensures same { result ≡ position_or_len (is_same_meaning meaning.now) (meanings self.now) }
        ensures few { result < 2147483647 }
    {
        let _count = self.count();
        self.place_in_all(meaning)
    }

    /// The literal of a meaning with a sign.
    pub fn literal(&self, meaning: &Meaning, positive: bool) -> Lit
        ensures { result ≡ literal (variable_of self.now meaning.now) positive }
    {
        let place = self.place_of(meaning);
        match Lit::make(place as u32 + 1, positive) {
            Some(literal) => literal,
            None => unreachable!(),
        }
    }

    fn earlier(&self, first: usize, second: usize) -> Option<Lit>
        ensures { result ≡ earlier_literal self.now first second }
    {
        if first < second {
            return Some(self.literal(&Meaning::Before(first, second), true));
        }
        if second < first {
            return Some(self.literal(&Meaning::Before(second, first), false));
        }
        None
    }

    /// The literal of a statement; there is none where the statement is false by definition.
    pub fn literal_of(&self, statement: &Statement) -> Option<Lit>
        ensures { result ≡ literal_of self.now statement.now }
    {
        match *statement {
            Statement::Holds(fact) => Some(self.literal(&Meaning::OfFact(fact), true)),
            Statement::Fails(fact) => Some(self.literal(&Meaning::OfFact(fact), false)),
            Statement::Earlier(first, second) => {
                self.earlier(self.events.place_of(&first), self.events.place_of(&second))
            }
        }
    }
}
