//! Where one run parts from another.

ghost use Rattle.semantics.specs.Machine.{IsRun, opening};

use crate::acts::{Act, Played, play};
use crate::ending::Scene;
use callorder::LongProgram;
use semantics::Step;
use std::alloc::{AllocError, Global};

/// What a run does and another one doesn't. Calls are named by their places, from 0.
#[derive(Clone, Copy)]
pub enum Parting {
    /// The send is buffered in one of the runs alone: in the first one, or in the other.
    Buffered {
        send: usize,
        first: bool,
    },
    /// The call finds the message of the send; in the other run that of another one.
    Found {
        finder: usize,
        send: usize,
        other: usize,
    },
}

/// Of each call whether it is a send that was issued as buffered.
fn buffered_of(
    alloc: Global,
    program: &LongProgram,
    played: &Played,
) -> Result<Vec<bool>, AllocError> {
    let mut buffered = vec![in alloc; false; program.calls().len()]?;
    for act in &played.acts {
        if let Act::Issue {
            call,
            buffered: true,
        } = act
        {
            if let Some(is) = buffered.get_mut(*call) {
                *is = true;
            }
        }
    }
    Ok(buffered)
}

/// What a call finds that finds another message in the other run.
fn found_otherwise(other: &Played, finder: usize, send: usize) -> Option<Parting> {
    let found = other.end.partner(finder)?;
    if found == send {
        return None;
    }
    Some(Parting::Found {
        finder,
        send,
        other: found,
    })
}

/// What the act finds that the other run finds otherwise.
fn found_at(other: &Played, act: Act) -> Option<Parting> {
    match act {
        Act::Issue { .. } => None,
        Act::Match { send, taker } => found_otherwise(other, taker, send),
        Act::See { send, probe } => found_otherwise(other, probe, send),
    }
}

/// The first call that finds another message in the other run.
fn first_found(played: &Played, other: &Played) -> Option<Parting> {
    for act in &played.acts {
        let parting = found_at(other, *act);
        if parting.is_some() {
            return parting;
        }
    }
    None
}

/// Which sends are looked for.
#[derive(Clone, Copy)]
enum Wanted {
    OnCycle,
    Awaited,
    Any,
}

/// Whether this send is looked for: one for which a rank of the cycle waits, one for which some
/// rank waits, or any.
fn is_wanted(scene: &Scene<'_>, wanted: Wanted, send: usize) -> bool {
    match wanted {
        Wanted::OnCycle => scene.is_waited_for(send) && scene.is_on_cycle(send),
        Wanted::Awaited => scene.is_waited_for(send),
        Wanted::Any => true,
    }
}

/// The send that the act issues otherwise than the other run, in which these calls are buffered.
fn buffered_at(buffered: &[bool], act: Act) -> Option<Parting> {
    let Act::Issue {
        call,
        buffered: first,
    } = act
    else {
        return None;
    };
    if buffered.get(call).copied().unwrap_or(first) == first {
        return None;
    }
    Some(Parting::Buffered { send: call, first })
}

/// The first send that is buffered in one of the runs alone, of those that are looked for.
fn first_buffered(
    played: &Played,
    buffered: &[bool],
    scene: &Scene<'_>,
    wanted: Wanted,
) -> Option<Parting> {
    for act in &played.acts {
        let parting = buffered_at(buffered, *act);
        if let Some(Parting::Buffered { send, .. }) = parting {
            if is_wanted(scene, wanted, send) {
                return parting;
            }
        }
    }
    None
}

/// The first such send for which a rank of the cycle waits at the end; else one for which any rank
/// waits; else any.
fn telling_buffered(scene: &Scene<'_>, played: &Played, buffered: &[bool]) -> Option<Parting> {
    for wanted in [Wanted::OnCycle, Wanted::Awaited, Wanted::Any] {
        let parting = first_buffered(played, buffered, scene, wanted);
        if parting.is_some() {
            return parting;
        }
    }
    None
}

/// The first thing that a run, whose end is this scene, does and another one doesn't, if there is
/// one: the call that finds another message, and where each that finds one in both finds the same,
/// a send that is buffered in one of them alone. The only error is want of memory.
pub fn parting_of(
    alloc: Global,
    scene: &Scene<'_>,
    program: &LongProgram,
    steps: &[Step],
    others: &[Step],
) -> Result<Option<Parting>, AllocError>
    requires steps { IsRun program.now (opening program.now) steps.now }
    requires others { IsRun program.now (opening program.now) others.now }
{
    let played = play(alloc, program, steps)?;
    let other = play(alloc, program, others)?;
    let found = first_found(&played, &other);
    if found.is_some() {
        return Ok(found);
    }
    let buffered = buffered_of(alloc, program, &other)?;
    Ok(telling_buffered(scene, &played, &buffered))
}
