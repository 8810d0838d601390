//! How large a program is that passes a limit.

use callorder::{Call, LongProgram, is_fit};
use calltext::read_long;
use std::alloc::{AllocError, Global};

/// What is counted of a program.
#[derive(Clone, Copy, PartialEq, Eq)]
pub enum Size {
    /// Its calls.
    Calls,
    /// Its events: a receive or probe is two, any other call one.
    Events,
    /// Its pairs of a send and a receive or probe that match.
    Pairs,
}

/// The most of it that is taken, and its words.
fn limit_of(size: Size) -> (usize, &'static str) {
    match size {
        Size::Calls => (1_024, "calls of all ranks"),
        Size::Events => (
            1_024,
            "events, where a receive or probe is two and any other call one",
        ),
        Size::Pairs => (8_192, "pairs of a send and a receive or probe that match"),
    }
}

/// How many events a call is.
fn events_of(call: &Call) -> usize {
    match call.kind.pattern() {
        None => 1,
        Some(_pattern) => 2,
    }
}

fn count_events(calls: &[Call]) -> usize {
    let mut count: usize = 0;
    for call in calls {
        count = count.saturating_add(events_of(call));
    }
    count
}

/// How many receives and probes fit a send.
fn fitting(calls: &[Call], send: &Call) -> usize {
    calls.iter().filter(|call| is_fit(send, call)).count()
}

fn count_pairs(calls: &[Call]) -> usize {
    let mut count: usize = 0;
    for call in calls {
        count = count.saturating_add(fitting(calls, call));
    }
    count
}

fn count(calls: &[Call], size: Size) -> usize {
    match size {
        Size::Calls => calls.len(),
        Size::Events => count_events(calls),
        Size::Pairs => count_pairs(calls),
    }
}

/// How large a program is, in words, where its text can be read without the limits on its size.
pub fn size_words(alloc: Global, program: &[u8], size: Size) -> Result<Option<String>, AllocError> {
    let Ok(source) = read_long(alloc, program) else {
        return Ok(None);
    };
    let Ok(whole) = LongProgram::resolve(alloc, source) else {
        return Ok(None);
    };
    let number = count(whole.calls(), size);
    let (most, words) = limit_of(size);
    let mut told = String::new(alloc);
    write!(told, "{number} {words}; at most {most}")?;
    Ok(Some(told))
}
