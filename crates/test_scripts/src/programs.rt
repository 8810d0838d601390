//! Fitting pairs of programs, and the earlier calls that each pair waits for.
ghost use Rattle.std.specs.Prelude.{◌≡◌};
ghost use Rattle.candidates.specs.Pairs.{pairs_of};

use crate::given::{Given, MEMORY, put_all};
use crate::reading::place;
use crate::report::Report;
use crate::scripts::{Section, Subject, judge_calls};
use callorder::Program;
use calltext::{Source, read};
use candidates::{PairFault, Pairs, pairs};
use nonovertake::{Earlier, earlier};
use std::alloc::Global;
use std::mem;
use std::thread::Threads;

/// A program's pairs, and the calls that each waits for.
#[derive(Drop)]
struct Fitting {
    pairs: Pairs,
    earlier: Earlier,
}

pub fn judge<R: Threads + Sync>(
    rt: &R,
    section: Section<'_>,
    given: &mut Given,
    report: &mut Report,
) {
    if let Some(program) = program_of(section.heading, given) {
        match pairs(given.alloc, &program) {
            Ok(pairs) => judge_pairs(rt, &program, pairs, section, given, report),
            Err(PairFault::Memory) => given.refuse(MEMORY),
            Err(mut fault) => judge_calls(&mut fault, section.calls, given, report),
        }
    }
}

fn judge_pairs<R: Threads + Sync>(
    rt: &R,
    program: &Program,
    pairs: Pairs,
    section: Section<'_>,
    given: &mut Given,
    report: &mut Report,
)
    requires { pairs ≡ pairs_of program.now }
{
    match earlier(rt, given.alloc, program, &pairs) {
        Ok(earlier) => {
            let mut fitting = Fitting { pairs, earlier };
            judge_calls(&mut fitting, section.calls, given, report);
            mem::drop(fitting);
        }
        Err(_error) => {
            mem::drop(pairs);
            given.refuse("memory");
        }
    }
}

/// The program of a text whose lines end where a `/` stands.
pub fn program_of(text: &str, given: &mut Given) -> Option<Program> {
    let program = match text.replace(given.alloc, '/', "\n") {
        Ok(text) => program_in(given.alloc, &text),
        Err(_error) => None,
    };
    given.known(program, "no program")
}

fn program_in(alloc: Global, text: &str) -> Option<Program> {
    match read(alloc, text.as_bytes()) {
        Ok(source) => resolved(alloc, &source),
        Err(_fault) => None,
    }
}

fn resolved(alloc: Global, source: &Source) -> Option<Program> {
    Program::resolve(alloc, source).ok()
}

/// A program has no pairs where there are too many of them.
impl Subject for PairFault {
    fn answer(&mut self, _name: &str, _words: &str, given: &mut Given) {
        given.show(&*self);
    }
}

impl Subject for Fitting {
    fn answer(&mut self, name: &str, words: &str, given: &mut Given) {
        let Fitting { pairs, earlier } = self;
        match name {
            "pairs" => put_pairs(pairs, given),
            "pair_count" => given.number(pairs.len()),
            "earlier" => put_all_earlier(earlier, pairs.len(), given),
            "earlier_counts" => put_counts(earlier, pairs.len(), given),
            "earlier_behind" => put_behind(earlier, pairs.len(), given),
            _ => put_with(pairs, name, words, given),
        }
    }
}

/// The places of the pairs with a call, or how many there are.
fn put_with(pairs: &Pairs, name: &str, word: &str, given: &mut Given) {
    let call = place(word, given);
    match name {
        "with_send" => put_all(pairs.with_send(call), given),
        "with_send_count" => given.number(pairs.with_send(call).len()),
        "with_taker" => put_all(pairs.with_taker(call), given),
        "with_taker_count" => given.number(pairs.with_taker(call).len()),
        _ => given.refuse("not made: no such call"),
    }
}

/// The pairs, their calls counted from 1, such as `1-2 1-3`.
fn put_pairs(pairs: &Pairs, given: &mut Given) {
    for (send, taker) in pairs.as_slice() {
        given.number(send.saturating_add(1));
        given.put("-");
        given.show(taker.saturating_add(1));
    }
}

/// The lists that aren't empty, each behind its pair's place, such as `1: sends 1 2 takers 4;`.
fn put_all_earlier(earlier: &Earlier, pairs: usize, given: &mut Given) {
    for pair in 0..pairs {
        if !earlier.sends(pair).is_empty() || !earlier.takers(pair).is_empty() {
            given.number(pair);
            given.put(": sends");
            put_calls(earlier.sends(pair), given);
            given.put(" takers");
            put_calls(earlier.takers(pair), given);
            given.put(";");
        }
    }
}

/// Calls, counted from 1.
fn put_calls(places: &[usize], given: &mut Given) {
    for place in places {
        given.number(place.saturating_add(1));
    }
}

/// How many earlier calls there are behind the last pair.
fn put_behind(earlier: &Earlier, pairs: usize, given: &mut Given) {
    given.number(earlier.sends(pairs).len());
    given.number(earlier.takers(pairs).len());
}

/// How many earlier sends and how many earlier takers all pairs wait for, each pair by itself.
fn put_counts(earlier: &Earlier, pairs: usize, given: &mut Given) {
    let mut sends: usize = 0;
    let mut takers: usize = 0;
    for pair in 0..pairs {
        sends = sends.saturating_add(earlier.sends(pair).len());
        takers = takers.saturating_add(earlier.takers(pair).len());
    }
    given.number(sends);
    given.number(takers);
}
