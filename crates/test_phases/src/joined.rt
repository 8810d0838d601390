//! Programs of several phases, and what is told where phases don't make one up.

use phase_checker::{NotAPhase, NotJoined, Phase, join};
use std::alloc::Global;
use std::test::Fail;

/// A message and its answer.
const ROUND: &str = "ranks 2/policy any/rank 0/send 1 1/recv 1 2/rank 1/recv 0 1/send 0 2/";

/// Two of these.
const ROUNDS: &str =
    "ranks 2/policy any/rank 0/send 1 1/recv 1 2/send 1 1/recv 1 2/rank 1/recv 0 1/send 0 2/recv 0 1/send 0 2/";

/// A message and its answer, where the receive takes any source.
const ANY: &str = "ranks 2/policy any/rank 0/send 1 1/recv 1 2/rank 1/recv * 1/send 0 2/";

/// That, and then another round.
const ANY_FIRST: &str =
    "ranks 2/policy any/rank 0/send 1 1/recv 1 2/send 1 1/recv 1 2/rank 1/recv * 1/send 0 2/recv 0 1/send 0 2/";

/// A round, and then that.
const ANY_LAST: &str =
    "ranks 2/policy any/rank 0/send 1 1/recv 1 2/send 1 1/recv 1 2/rank 1/recv 0 1/send 0 2/recv * 1/send 0 2/";

/// A message that nobody takes.
const LEFT: &str = "ranks 2/policy any/rank 0/bsend 1 3/rank 1/";

/// That, and then a round.
const LEFT_FIRST: &str =
    "ranks 2/policy any/rank 0/bsend 1 3/send 1 1/recv 1 2/rank 1/recv 0 1/send 0 2/";

/// A message to a receive of any source. Its sender waits for nothing.
const EAGER: &str = "ranks 2/policy any/rank 0/send 1 1/rank 1/recv * 1/";

/// A message to a receive of any source and tag.
const EAGER_TAG: &str = "ranks 2/policy any/rank 0/send 1 1/rank 1/recv * */";

/// A message that a probe of any source sees.
const SEEN: &str = "ranks 2/policy any/rank 0/send 1 1/rank 1/probe * 1/recv 0 1/";

/// A message.
const ONE: &str = "ranks 2/policy any/rank 0/send 1 1/rank 1/recv 0 1/";

/// A message of another tag.
const TWO: &str = "ranks 2/policy any/rank 0/send 1 2/rank 1/recv 0 2/";

/// A round between two of three ranks, where the receive takes any source.
const ANY_OF_THREE: &str =
    "ranks 3/policy any/rank 0/send 1 1/recv 1 2/rank 1/recv * 1/send 0 2/rank 2/";

/// A message of the first of three ranks.
const FIRST_OF_THREE: &str = "ranks 3/policy any/rank 0/send 1 1/rank 1/recv 0 1/rank 2/";

/// A message of the last of three ranks.
const LAST_OF_THREE: &str = "ranks 3/policy any/rank 0/rank 1/recv 2 1/rank 2/send 1 1/";

/// Two ranks that each send first.
const STUCK: &str = "ranks 2/policy any/rank 0/send 1 1/recv 1 1/rank 1/send 0 1/recv 0 1/";

fn lines(alloc: Global, text: &str) -> Result<String, Fail> {
    Ok(text.replace(alloc, '/', "\n")?)
}

fn phase_of(alloc: Global, text: &str) -> Result<Phase, Fail> {
    let text = lines(alloc, text)?;
    match Phase::decided(alloc, text.as_bytes()) {
        Ok(phase) => Ok(phase),
        Err(_why) => Err(Fail::from("no phase")),
    }
}

fn two(alloc: Global, one: &str, other: &str) -> Result<Vec<Phase>, Fail> {
    let mut phases = Vec::new(alloc);
    phases.push(phase_of(alloc, one)?)?;
    phases.push(phase_of(alloc, other)?)?;
    Ok(phases)
}

/// What is wrong, in a word, and at which place of the order.
fn word_of(why: NotJoined) -> (&'static str, usize) {
    match why {
        NotJoined::NoPhase { place } => ("none", place),
        NotJoined::Other { place } => ("other", place),
        NotJoined::Source { place } => ("source", place),
        NotJoined::Uneven { place } => ("uneven", place),
        NotJoined::Left => ("left", 0),
        _ => ("text", 0),
    }
}

/// What is told of the two phases in this order, for this program.
fn told(
    alloc: Global,
    whole: &str,
    one: &str,
    other: &str,
    order: &[usize],
) -> Result<(&'static str, usize), Fail> {
    let phases = two(alloc, one, other)?;
    let whole = lines(alloc, whole)?;
    match join(alloc, whole.as_bytes(), &phases, order) {
        Ok(()) => Ok(("joined", 0)),
        Err(why) => Ok(word_of(why)),
    }
}

#[test]
fn rounds_make_up_a_program(rt: HostRuntime) -> Result<(), Fail> {
    let alloc = rt.alloc();
    assert_eq!(rt; told(alloc, ROUNDS, ROUND, ANY, &[0, 0])?, ("joined", 0));
    assert_eq!(rt; told(alloc, ANY_LAST, ROUND, ANY, &[0, 1])?, ("joined", 0));
    Ok(())
}

#[test]
fn calls_that_do_not_fit(rt: HostRuntime) -> Result<(), Fail> {
    let alloc = rt.alloc();
    assert_eq!(rt; told(alloc, ROUNDS, ROUND, ANY, &[0])?, ("left", 0));
    assert_eq!(rt; told(alloc, ROUNDS, ROUND, ANY, &[0, 0, 0])?, ("other", 2));
    assert_eq!(rt; told(alloc, ROUNDS, ROUND, ANY, &[0, 1])?, ("other", 1));
    assert_eq!(rt; told(alloc, ROUNDS, ROUND, ANY, &[0, 2])?, ("none", 1));
    Ok(())
}

#[test]
fn phases_that_leave_messages(rt: HostRuntime) -> Result<(), Fail> {
    let alloc = rt.alloc();
    assert_eq!(rt;
        told(alloc, LEFT_FIRST, ROUND, LEFT, &[1, 0])?,
        ("uneven", 0)
    );
    Ok(())
}

/// The sender is done only after its message was found.
#[test]
fn answered_messages_are_not_too_early(rt: HostRuntime) -> Result<(), Fail> {
    let alloc = rt.alloc();
    assert_eq!(rt; told(alloc, ANY_FIRST, ROUND, ANY, &[1, 0])?, ("joined", 0));
    let own =
        "ranks 3/policy any/rank 0/send 1 1/recv 1 2/send 1 1/rank 1/recv * 1/send 0 2/recv 0 1/rank 2/";
    assert_eq!(rt;
        told(alloc, own, ANY_OF_THREE, FIRST_OF_THREE, &[0, 1])?,
        ("joined", 0)
    );
    Ok(())
}

/// Rank 2 may send before rank 1 has found what rank 0 sends. Then rank 1 waits in vain.
#[test]
fn another_sender_is_too_early(rt: HostRuntime) -> Result<(), Fail> {
    let alloc = rt.alloc();
    let whole =
        "ranks 3/policy any/rank 0/send 1 1/recv 1 2/rank 1/recv * 1/send 0 2/recv 2 1/rank 2/send 1 1/";
    assert_eq!(rt;
        told(alloc, whole, ANY_OF_THREE, LAST_OF_THREE, &[0, 1])?,
        ("source", 0)
    );
    Ok(())
}

/// Nothing tells that the first message was found when its sender is done.
#[test]
fn eager_messages_are_too_early(rt: HostRuntime) -> Result<(), Fail> {
    let alloc = rt.alloc();
    let whole = "ranks 2/policy any/rank 0/send 1 1/send 1 1/rank 1/recv * 1/recv 0 1/";
    assert_eq!(rt; told(alloc, whole, EAGER, ONE, &[0, 1])?, ("source", 0));
    let again = "ranks 2/policy any/rank 0/send 1 1/send 1 1/rank 1/recv * 1/recv * 1/";
    assert_eq!(rt; told(alloc, again, EAGER, ONE, &[0, 0])?, ("source", 0));
    let between =
        "ranks 2/policy any/rank 0/send 1 1/send 1 1/send 1 1/rank 1/recv 0 1/recv * 1/recv 0 1/";
    assert_eq!(rt;
        told(alloc, between, EAGER, ONE, &[1, 0, 1])?,
        ("source", 1)
    );
    let last = "ranks 2/policy any/rank 0/send 1 1/send 1 1/rank 1/recv 0 1/recv * 1/";
    assert_eq!(rt; told(alloc, last, EAGER, ONE, &[1, 0])?, ("joined", 0));
    Ok(())
}

/// Only a message that fits can be found too early.
#[test]
fn other_tags_are_not_too_early(rt: HostRuntime) -> Result<(), Fail> {
    let alloc = rt.alloc();
    let tagged = "ranks 2/policy any/rank 0/send 1 1/send 1 2/rank 1/recv * 1/recv 0 2/";
    assert_eq!(rt; told(alloc, tagged, EAGER, TWO, &[0, 1])?, ("joined", 0));
    let untagged = "ranks 2/policy any/rank 0/send 1 1/send 1 2/rank 1/recv * */recv 0 2/";
    assert_eq!(rt;
        told(alloc, untagged, EAGER_TAG, TWO, &[0, 1])?,
        ("source", 0)
    );
    Ok(())
}

/// A probe of any source, too.
#[test]
fn messages_are_too_early_for_probes(rt: HostRuntime) -> Result<(), Fail> {
    let alloc = rt.alloc();
    let whole = "ranks 2/policy any/rank 0/send 1 1/send 1 1/rank 1/probe * 1/recv 0 1/recv 0 1/";
    assert_eq!(rt; told(alloc, whole, SEEN, ONE, &[0, 1])?, ("source", 0));
    let tagged = "ranks 2/policy any/rank 0/send 1 1/send 1 2/rank 1/probe * 1/recv 0 1/recv 0 2/";
    assert_eq!(rt; told(alloc, tagged, SEEN, TWO, &[0, 1])?, ("joined", 0));
    Ok(())
}

#[test]
fn words_count_places_from_1(rt: HostRuntime) -> Result<(), Fail> {
    let alloc = rt.alloc();
    let source = NotJoined::Source { place: 0 };
    assert_eq!(rt;
        format!(in alloc; "{source}")?.as_str(),
        "any source at place 1"
    );
    Ok(())
}

/// Whether a run of the text's program is told to get stuck.
fn hangs(alloc: Global, text: &str) -> Result<bool, Fail> {
    let text = lines(alloc, text)?;
    match Phase::decided(alloc, text.as_bytes()) {
        Err(NotAPhase::Deadlock) => Ok(true),
        _ => Ok(false),
    }
}

#[test]
fn what_gets_stuck_is_no_phase(rt: HostRuntime) -> Result<(), Fail> {
    assert!(rt; hangs(rt.alloc(), STUCK)? && !hangs(rt.alloc(), ROUND)?);
    Ok(())
}
