//! A step's line.

ghost use Rattle.std.specs.Prelude.{◌≡◌, ◌≢◌, ◌↔◌, ◌+◌, ◌++◌, Bool, IsTrue, IfNone, IfSome, OnOk};
ghost use Rattle.std.specs.Option.{option_copied};
ghost use Rattle.prooflog.specs.declared.step.WrittenStep.{WrittenStep};
ghost use Rattle.prooflog.specs.Steps.{step_words, step_line, buffered_words, IsStepInRange, AreCallsInRange, written};
ghost use Rattle.prooflog.specs.parts.Reading.{words_of, words_after, capped_step};
ghost use Rattle.prooflog.specs.Reading.{find_word, written_find_step};

use crate::words::cut_word;
use plaintext::{is_word, number_of, put_number};
use refutations::LARGEST_NUMBER;
use semantics::Step;
use std::alloc::AllocError;

/// A step as its line has it: ranks from 0, and numbers of calls from 1.
#[derive(Clone, Copy)]
pub enum WrittenStep {
    Issue { rank: u32, buffered: bool },
    Match { send: u32, taker: u32 },
    See { send: u32, probe: u32 },
}

/// The word of the step by which a finder finds a send: a probe sees it, a taker is matched with
/// it.
pub fn find_word(sees: bool) -> &'static str
    ensures { result.now ≡ find_word sees }
{
    if sees {
        return "see";
    }
    "match"
}

fn find_step(sees: bool, send: u32, finder: u32) -> WrittenStep
    ensures { result ≡ written_find_step sees send finder }
{
    if sees {
        return WrittenStep::See {
            send,
            probe: finder,
        };
    }
    WrittenStep::Match {
        send,
        taker: finder,
    }
}

/// Whether `buffered` follows, where that or nothing does.
fn buffered_of(others: Option<&[u8]>) -> Option<bool>
    ensures none { IfNone result ((b : Bool) → buffered_words b ≢ words_after (option_copied others.entry)) }
    ensures some { IfSome result (λ b. buffered_words b ≡ words_after (option_copied others.entry)) }
{
    let Some(word) = others else {
        return Some(false);
    };
    if is_word(word, "buffered") {
        return Some(true);
    }
    None
}

/// Whether the word is that of a probe's step, where it is a finder's.
fn sees_of(word: &[u8]) -> Option<bool>
    ensures none { IfNone result ((sees : Bool) → find_word sees ≢ word.now) }
    ensures some { IfSome result (λ sees. find_word sees ≡ word.now) }
{
    if is_word(word, find_word(true)) {
        return Some(true);
    }
    if is_word(word, find_word(false)) {
        return Some(false);
    }
    None
}

/// The step of a line; a number above the largest is told as `plaintext::MOST`.
pub fn step_of(line: &[u8]) -> Option<WrittenStep>
    ensures none { IfNone result ((s : WrittenStep) → step_words s ≢ words_of line.now) }
    ensures some { IfSome result (λ found. (s : WrittenStep) × (step_words s ≡ words_of line.now) × (found ≡ capped_step s)) }
{
    let (kind, others) = cut_word(line);
    let (first, others) = cut_word(others?);
    if is_word(kind, "issue") {
        let rank = number_of(first)?;
        let buffered = buffered_of(others)?;
        return Some(WrittenStep::Issue { rank, buffered });
    }
    let sees = sees_of(kind)?;
    let send = number_of(first)?;
    let finder = number_of(others?)?;
    Some(find_step(sees, send, finder))
}

/// The places of two calls, where their numbers are in range.
fn places_of(send: u32, finder: u32) -> Option<(usize, usize)>
    ensures none { IfNone result (¬ AreCallsInRange send finder) }
    ensures some { IfSome result (λ places. AreCallsInRange send finder × (places.0 + 1 ≡ send) × (places.1 + 1 ≡ finder)) }
{
    if send < 1 || send > LARGEST_NUMBER || finder < 1 || finder > LARGEST_NUMBER {
        return None;
    }
    Some((send as usize - 1, finder as usize - 1))
}

/// The machine's step, where the numbers are in range.
pub fn step_in_range(step: WrittenStep) -> Option<Step>
    ensures none { IfNone result (¬ IsStepInRange step) }
    ensures some { IfSome result (λ found. IsStepInRange step × (written found ≡ step)) }
{
    match step {
        WrittenStep::Issue { rank, buffered } => {
            if rank > LARGEST_NUMBER {
                return None;
            }
            Some(Step::Issue { rank, buffered })
        }
        WrittenStep::Match { send, taker } => {
            let (send, taker) = places_of(send, taker)?;
            Some(Step::Match { send, taker })
        }
        WrittenStep::See { send, probe } => {
            let (send, probe) = places_of(send, probe)?;
            Some(Step::See { send, probe })
        }
    }
}

/// Whether the step's rank and its calls' numbers are in range.
pub fn is_in_range(step: Step) -> bool
    ensures { IsTrue result ↔ IsStepInRange (written step) }
{
    match step {
        Step::Issue { rank, .. } => rank <= LARGEST_NUMBER,
        Step::Match { send, taker } => {
            send < LARGEST_NUMBER as usize && taker < LARGEST_NUMBER as usize
        }
        Step::See { send, probe } => {
            send < LARGEST_NUMBER as usize && probe < LARGEST_NUMBER as usize
        }
    }
}

/// The step as its line has it.
pub fn written(step: Step) -> WrittenStep
    requires { IsStepInRange (written step) }
    ensures { result ≡ written step }
{
    match step {
        Step::Issue { rank, buffered } => WrittenStep::Issue { rank, buffered },
        Step::Match { send, taker } => WrittenStep::Match {
            send: send as u32 + 1,
            taker: taker as u32 + 1,
        },
        Step::See { send, probe } => WrittenStep::See {
            send: send as u32 + 1,
            probe: probe as u32 + 1,
        },
    }
}

fn put_issue(out: &mut Vec<u8>, rank: u32, buffered: bool) -> Result<(), AllocError>
    ensures { OnOk result (out.new.items ≡ out.old.items ++ step_line (WrittenStep.Issue rank buffered)) }
{
    out.extend_from_slice(b"issue ")?;
    put_number(out, rank)?;
    if buffered {
        out.extend_from_slice(b" buffered")?;
    }
    out.push(b'\n')?;
    Ok(())
}

/// Writes the line of the step by which a finder finds a send at the end, by the numbers of the
/// calls, from 1: a probe sees the send, a taker is matched with it. The only error is want of
/// memory; a beginning of the line may stand there then.
pub fn put_find(out: &mut Vec<u8>, sees: bool, send: u32, finder: u32) -> Result<(), AllocError>
    ensures { OnOk result (out.new.items ≡ out.old.items ++ step_line (written_find_step sees send finder)) }
{
    out.extend_from_slice(find_word(sees).as_bytes())?;
    out.push(b' ')?;
    put_number(out, send)?;
    out.push(b' ')?;
    put_number(out, finder)?;
    out.push(b'\n')?;
    Ok(())
}

/// Writes the step's line at the end.
pub fn put_step(out: &mut Vec<u8>, step: WrittenStep) -> Result<(), AllocError>
    ensures { OnOk result (out.new.items ≡ out.old.items ++ step_line step) }
{
    match step {
        WrittenStep::Issue { rank, buffered } => put_issue(out, rank, buffered),
        WrittenStep::Match { send, taker } => put_find(out, false, send, taker),
        WrittenStep::See { send, probe } => put_find(out, true, send, probe),
    }
}
