//! Comment lines, which tell what the variables stand for.

ghost use Rattle.std.specs.Prelude.{◌≡◌, ◌+◌, ◌++◌, ◌∷◌, [], codes, get_or, OnOk};
ghost use Rattle.callorder.specs.Programs.{is_probe};
ghost use Rattle.plaintext.specs.Plain.{numeral, spaced};
ghost use Rattle.formula.specs.declared.facts.RunEvent.TheVariants.{Issue as issue_of};
ghost use Rattle.formula.specs.Families.{events as events_of};
ghost use Rattle.formula.specs.Numbering.{meanings};
ghost use Rattle.exports.specs.Dimacs.{event_words, found_word, fact_words, meaning_words, comment_line, comment_lines};

use crate::events::event_at;
use crate::words::{put_number, put_word};
use callorder::Program;
use encode::Encoded;
use formula::{Fact, Meaning, RunEvent};
use prooflog::find_word;
use std::alloc::AllocError;

/// Writes the number of the call at a place, which is 1 more.
fn put_call(out: &mut Vec<u8>, call: usize) -> Result<(), AllocError>
    ensures { OnOk result (out.new.items ≡ out.old.items ++ spaced (numeral (call + 1) ∷ [])) }
{
    put_number(out, call as u128 + 1)
}

/// Writes the words of the event.
fn put_event(out: &mut Vec<u8>, program: &Program, event: &RunEvent) -> Result<(), AllocError>
    ensures { OnOk result (out.new.items ≡ out.old.items ++ spaced (event_words program.now event.now)) }
{
    match *event {
        RunEvent::Issue(call) => {
            put_word(out, "issue")?;
            put_call(out, call)
        }
        RunEvent::Match(finder) => {
            put_word(out, find_word(program.is_probe(finder)))?;
            put_call(out, finder)
        }
    }
}

/// The word of a pair whose finder has found the send: a probe has seen it, a taker is matched with
/// it.
fn found_word(sees: bool) -> &'static str
    ensures { result.now ≡ found_word sees }
{
    if sees {
        return "seen";
    }
    "matched"
}

fn put_found(
    out: &mut Vec<u8>,
    program: &Program,
    send: usize,
    finder: usize,
) -> Result<(), AllocError>
    ensures { OnOk result (out.new.items ≡
        out.old.items ++ spaced (found_word (is_probe program.now finder) ∷ numeral (send + 1) ∷ numeral
        (finder + 1) ∷ [])) }
{
    put_word(out, found_word(program.is_probe(finder)))?;
    put_call(out, send)?;
    put_call(out, finder)
}

/// Writes the words of the fact.
fn put_fact(out: &mut Vec<u8>, program: &Program, fact: &Fact) -> Result<(), AllocError>
    ensures { OnOk result (out.new.items ≡ out.old.items ++ spaced (fact_words program.now fact.now)) }
{
    match *fact {
        Fact::Issued(call) => {
            put_word(out, "issued")?;
            put_call(out, call)
        }
        Fact::Buffered(send) => {
            put_word(out, "buffered")?;
            put_call(out, send)
        }
        Fact::Matched(send, finder) => put_found(out, program, send, finder),
        Fact::Unfinished(rank) => {
            put_word(out, "unfinished")?;
            put_number(out, rank as u128)
        }
    }
}

/// Writes what the bit at a place of an event's clock is called.
fn put_bit(
    out: &mut Vec<u8>,
    program: &Program,
    event: &RunEvent,
    place: usize,
) -> Result<(), AllocError>
    ensures { OnOk result (out.new.items ≡ out.old.items ++ spaced (codes "bit" ∷ numeral (place + 1) ∷ codes
        "of" ∷ event_words program.now event.now)) }
{
    put_word(out, "bit")?;
    put_number(out, place as u128 + 1)?;
    put_word(out, "of")?;
    put_event(out, program, event)
}

/// Writes two events with a word between them.
fn put_events(
    out: &mut Vec<u8>,
    program: &Program,
    first: &RunEvent,
    word: &str,
    second: &RunEvent,
) -> Result<(), AllocError>
    ensures { OnOk result (out.new.items ≡
        out.old.items ++ spaced (event_words program.now first.now ++ word.now ∷ event_words program.now
        second.now)) }
{
    put_event(out, program, first)?;
    put_word(out, word)?;
    put_event(out, program, second)
}

/// Writes that the clocks of two events begin with so many equal bits.
fn put_equal_bits(
    out: &mut Vec<u8>,
    program: &Program,
    first: &RunEvent,
    second: &RunEvent,
    bits: usize,
) -> Result<(), AllocError>
    ensures { OnOk result (out.new.items ≡ out.old.items ++ spaced (numeral bits ∷ codes "equal" ∷ codes
        "bits" ∷ codes "of" ∷ (event_words program.now first.now ++ codes "and" ∷ event_words program.now
        second.now))) }
{
    put_number(out, bits as u128)?;
    put_word(out, "equal")?;
    put_word(out, "bits")?;
    put_word(out, "of")?;
    put_events(out, program, first, "and", second)?;
    Ok(())
}

/// Writes what a variable of a program with these events stands for.
fn put_meaning(
    out: &mut Vec<u8>,
    program: &Program,
    events: &[RunEvent],
    meaning: &Meaning,
) -> Result<(), AllocError>
    requires { events.now ≡ events_of program.now }
    ensures { OnOk result (out.new.items ≡ out.old.items ++ spaced (meaning_words program.now meaning.now)) }
{
    match *meaning {
        Meaning::OfFact(fact) => put_fact(out, program, &fact),
        Meaning::ClockBit(event, place) => put_bit(out, program, &event_at(events, event), place),
        Meaning::Before(first, second) => {
            let first = event_at(events, first);
            let second = event_at(events, second);
            put_events(out, program, &first, "before", &second)
        }
        Meaning::SameBits(first, second, bits) => {
            let first = event_at(events, first);
            let second = event_at(events, second);
            put_equal_bits(out, program, &first, &second, bits)
        }
    }
}

/// Writes the comment line of a variable.
fn put_comment(
    out: &mut Vec<u8>,
    program: &Program,
    events: &[RunEvent],
    variable: u32,
    meaning: &Meaning,
) -> Result<(), AllocError>
    requires { events.now ≡ events_of program.now }
    ensures { OnOk result (out.new.items ≡ out.old.items ++ comment_line program.now variable meaning.now) }
{
    out.push(b'c')?;
    put_number(out, variable as u128)?;
    put_meaning(out, program, events, meaning)?;
    out.push(b'\n')?;
    Ok(())
}

/// Writes the comment lines of all variables, where these are the program's events.
pub fn put_comments(
    out: &mut Vec<u8>,
    encoded: &Encoded,
    events: &[RunEvent],
) -> Result<(), AllocError>
    requires { events.now ≡ events_of encoded.now.program }
    ensures { OnOk result (out.new.items ≡ out.old.items ++ comment_lines encoded.now.program 1 (meanings encoded.now.program)) }
{
    for place in 0..encoded.formula().variables() {
        let Some(meaning) = encoded.meaning(place + 1) else {
            unreachable!();
        };
        put_comment(out, encoded.program(), events, place + 1, &meaning)?;
    }
    Ok(())
}
