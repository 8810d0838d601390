//! Programs with their formulas: the cubes that branch on them, and schedules from assignments.
use crate::given::{Given, Show, add, put_all, tell};
use crate::programs::program_of;
use crate::reading::{Part, all, cut, cut_number, number, place};
use crate::report::Report;
use crate::scripts::{Section, Subject, judge_calls};
use callorder::Program;
use candidates::pairs;
use clauses::Assignment;
use cubes::{branching_variables, split};
use encode::{Encoded, encode};
use extract::schedule_of;
use formula::{Fact, Meaning, RunEvent};
use formula_tables::Variables;
use nonovertake::earlier;
use std::alloc::Global;
use std::mem;
use std::thread::Threads;

pub fn judge<R: Threads + Sync>(
    rt: &R,
    section: Section<'_>,
    given: &mut Given,
    report: &mut Report,
) {
    if let Some(mut encoded) = encoded(rt, section.heading, given) {
        judge_calls(&mut encoded, section.calls, given, report);
        mem::drop(encoded);
    }
}

/// The formula of a text's program.
pub fn encoded<R: Threads + Sync>(rt: &R, text: &str, given: &mut Given) -> Option<Encoded> {
    let encoded = match program_of(text, given) {
        Some(program) => encoded_in(rt, given.alloc, program),
        None => None,
    };
    given.known(encoded, "no formula")
}

fn encoded_in<R: Threads + Sync>(rt: &R, alloc: Global, program: Program) -> Option<Encoded> {
    match pairs(alloc, &program) {
        Ok(pairs) => match earlier(rt, alloc, &program, &pairs) {
            Ok(earlier) => encode(alloc, program, pairs, &earlier).ok(),
            Err(_error) => None,
        },
        Err(_fault) => None,
    }
}

impl Subject for Encoded {
    fn answer(&mut self, name: &str, words: &str, given: &mut Given) {
        match name {
            "variables" => given.number(self.formula().variables() as usize),
            "meaning" => put_meaning(self.meaning(number(words, given)), given),
            "branching" => put_branching(self, given),
            "cubes" => tell(&split(given.alloc, self, number(words, given)), given),
            "cube_count" => put_count(self, words, given),
            "cube" => put_cube(self, words, given),
            _ => with_assignment(self, name, words, given),
        }
    }
}

fn put_fact(fact: Fact, given: &mut Given) {
    match fact {
        Fact::Issued(call) => put_of("issued ", call.saturating_add(1), given),
        Fact::Buffered(call) => put_of("buffered ", call.saturating_add(1), given),
        Fact::Unfinished(rank) => put_of("unfinished ", rank, given),
        Fact::Matched(send, taker) => {
            put_of("matched ", send.saturating_add(1), given);
            given.number(taker.saturating_add(1));
        }
    }
}

fn put_of(word: &str, number: usize, given: &mut Given) {
    given.put(word);
    given.show(number);
}

fn put_meaning(meaning: Option<Meaning>, given: &mut Given) {
    match meaning {
        None => given.put("none"),
        Some(Meaning::OfFact(fact)) => put_fact(fact, given),
        Some(_) => given.put("an order of events"),
    }
}

fn put_branching(encoded: &Encoded, given: &mut Given) {
    match branching_variables(given.alloc, encoded) {
        Ok(variables) => put_all(variables.as_slice(), given),
        Err(_error) => given.refuse("memory"),
    }
}

/// How many nodes the tree of this depth has.
fn put_count(encoded: &Encoded, depth: &str, given: &mut Given) {
    match split(given.alloc, encoded, number(depth, given)) {
        Ok(tree) => given.number(tree.len()),
        Err(fault) => given.show(fault),
    }
}

/// What a node of a tree is, such as `2 5`: of depth 2, node 5.
fn put_cube(encoded: &Encoded, words: &str, given: &mut Given) {
    let (depth, node) = cut_number(words, given);
    let node = number(node, given);
    match split(given.alloc, encoded, depth) {
        Ok(tree) => tree.kind(node).put(given),
        Err(fault) => given.show(fault),
    }
}

/// The fact that a line tells.
impl Part for Fact {
    fn read(text: &str, given: &mut Given) -> Option<Fact> {
        let (word, rest) = cut(text);
        let (first, second) = cut(rest);
        match word {
            "issued" => Some(Fact::Issued(place(first, given))),
            "buffered" => Some(Fact::Buffered(place(first, given))),
            "unfinished" => Some(Fact::Unfinished(number(first, given) as usize)),
            "matched" => Some(Fact::Matched(place(first, given), place(second, given))),
            _ => given.known(None, "not made: no fact"),
        }
    }
}

/// The event that a line tells.
fn event(line: &str, given: &mut Given) -> RunEvent {
    let (word, call) = cut(line);
    let call = place(call, given);
    match word {
        "issue" => RunEvent::Issue(call),
        "match" => RunEvent::Match(call),
        _ => {
            given.refuse("not made: no event");
            RunEvent::Issue(call)
        }
    }
}

/// The places of the events that the lines tell. The line `others` tells all events that no line
/// before it tells.
fn order(variables: &Variables<'_>, lines: &str, given: &mut Given) -> Vec<usize> {
    let mut places = Vec::new(given.alloc);
    for line in lines.split_terminator('/') {
        push_event(&mut places, variables, line, given);
    }
    places
}

fn push_event(places: &mut Vec<usize>, variables: &Variables<'_>, line: &str, given: &mut Given) {
    if line == "others" {
        push_others(places, variables.event_count(), given);
    } else {
        let event = event(line, given);
        add(places, variables.event_place(&event), given);
    }
}

/// Adds the places below this one that aren't there.
fn push_others(places: &mut Vec<usize>, count: usize, given: &mut Given) {
    for place in 0..count {
        if !places.contains(&place) {
            add(places, place, given);
        }
    }
}

/// A number without its last so many bits.
fn without_last(number: usize, bits: usize) -> usize {
    let mut rest = number;
    for _ in 0..bits {
        rest /= 2;
    }
    rest
}

/// The place of an event in the order. One that isn't in it has clock 0.
fn clock(order: &[usize], event: usize) -> usize {
    order.iter().position(|other| *other == event).unwrap_or(0)
}

/// Whether it is so where clocks have so many bits.
fn is_so(facts: &[Fact], order: &[usize], size: usize, meaning: &Meaning) -> bool {
    match *meaning {
        Meaning::OfFact(fact) => facts.contains(&fact),
        Meaning::ClockBit(event, bit) => {
            let behind = size.saturating_sub(bit).saturating_sub(1);
            without_last(clock(order, event), behind) % 2 == 1
        }
        Meaning::Before(first, second) => clock(order, first) < clock(order, second),
        Meaning::SameBits(first, second, bits) => {
            let behind = size.saturating_sub(bits);
            let first = without_last(clock(order, first), behind);
            first == without_last(clock(order, second), behind)
        }
    }
}

/// The assignment that makes true what is so.
fn assignment(
    encoded: &Encoded,
    facts: &[Fact],
    order: &[usize],
    size: usize,
    given: &mut Given,
) -> Assignment {
    let mut values = Vec::new(given.alloc);
    for variable in 1..=encoded.formula().variables() {
        let is_true = match encoded.meaning(variable) {
            None => false,
            Some(meaning) => is_so(facts, order, size, &meaning),
        };
        add(&mut values, is_true, given);
    }
    Assignment::make(values)
}

/// The assignment under which these facts are so and these events come in this order, such as
/// `issued 1/unfinished 0 | issue 1/issue 2/match 2`; and `none` is the one under which all is
/// false.
fn told(encoded: &Encoded, words: &str, given: &mut Given) -> Assignment {
    match words.split_once("|") {
        Some((lines, events)) => told_by(encoded, lines, events.trim(), given),
        None => Assignment::make(Vec::new(given.alloc)),
    }
}

fn told_by(encoded: &Encoded, lines: &str, events: &str, given: &mut Given) -> Assignment {
    let facts = all::<Fact>(lines, '/', given);
    let values = told_with(encoded, facts.as_slice(), events, given);
    mem::drop(facts);
    values
}

fn told_with(encoded: &Encoded, facts: &[Fact], events: &str, given: &mut Given) -> Assignment {
    match encoded.variables(given.alloc) {
        Ok(variables) => {
            let values = told_over(encoded, &variables, facts, events, given);
            mem::drop(variables);
            values
        }
        Err(_error) => {
            given.refuse("memory");
            Assignment::make(Vec::new(given.alloc))
        }
    }
}

fn told_over(
    encoded: &Encoded,
    variables: &Variables<'_>,
    facts: &[Fact],
    events: &str,
    given: &mut Given,
) -> Assignment {
    let order = order(variables, events, given);
    let size = variables.clock_size();
    let values = assignment(encoded, facts, order.as_slice(), size, given);
    mem::drop(order);
    values
}

/// Answers a call about an assignment: whether the formula is satisfied, or the schedule.
fn with_assignment(encoded: &Encoded, name: &str, words: &str, given: &mut Given) {
    let values = told(encoded, words, given);
    match name {
        "satisfied" => given.yes(values.satisfies(encoded.formula())),
        "schedule" => tell(&schedule_of(given.alloc, encoded, &values), given),
        _ => given.refuse("not made: no such call"),
    }
}
