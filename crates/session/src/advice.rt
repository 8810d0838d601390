//! What is said beside the answer of a search.

ghost use Rattle.std.specs.Prelude.{◌≡◌, ◌⊎◌, List, ℕ};
ghost use Rattle.progress.specs.Telling.{AppendsAtMost};
ghost use Rattle.session.specs.Lines.{IsAdvisedOn, advice_line, next_line};

use calltext::Limits;
use files::store;
use prover::{Answer, Reason, Why};
use refusal_help::help;
use std::alloc::{AllocError, Global};
use std::io::Write;

/// The line that says where to go on from a deadlock.
fn next_line() -> &'static str
    ensures { result.now ≡ next_line }
{
    "progress: mpiprove explain PROGRAM tells where it gets stuck, and why\n"
}

/// The line that says what is used up, and what may help.
fn advice_line(why: Why) -> &'static str
    ensures { result.now ≡ advice_line why }
{
    match why {
        Why::Budget => {
            "progress: a budget is used up: more --budget, more --workers or a smaller program may help\n"
        }
        Why::Full => "progress: the log is full: only a smaller program helps\n",
        Why::Left => "progress: a part of the search was left open: try again\n",
        Why::Memory => "progress: memory ran out: fewer --workers or a smaller program may help\n",
    }
}

/// Tells a text. Where the output fails, no more is told: the answer doesn't depend on it.
fn tell<E: Write>(text: &[u8], err: &mut E)
    ensures { AppendsAtMost (E.contents err.old) (E.contents err.new) text.now }
{
    match store(err, text) {
        Ok(()) => {}
        Err(_fault) => {}
    }
}

/// Tells what helps where a program is refused, as `explain` does. Where memory runs out, nothing
/// is told: the answer doesn't depend on it.
fn tell_help<E: Write>(alloc: Global, program: &[u8], reason: Reason, err: &mut E)
    ensures { (E.contents err.new ≡ E.contents err.old) ⊎ ((help : List ℕ) × AppendsAtMost (E.contents err.old) (E.contents err.new) help) }
{
    match help(alloc, Limits::short(), program, None, reason) {
        Ok(text) => tell(&text, err),
        Err(AllocError) => {}
    }
}

/// Says what is used up, and what may help, where there is no answer; where to go on from a
/// deadlock; and what helps where the program is refused.
pub fn advise<E: Write>(alloc: Global, program: &[u8], answer: &Answer, err: &mut E)
    ensures { IsAdvisedOn answer.now (E.contents err.old) (E.contents err.new) }
{
    match answer {
        Answer::Unknown(why) => tell(advice_line(*why).as_bytes(), err),
        Answer::NoDeadlock(_evidence) => {}
        Answer::Deadlock(_evidence) => tell(next_line().as_bytes(), err),
        Answer::Refused(reason) => tell_help(alloc, program, *reason, err),
    }
}
