//! The ways in which a choice can be made.

ghost use Rattle.std.specs.Prelude.{◌≡◌, ◌↔◌, ◌+◌, ◌∷◌, [], IfOk, OnOk, IsTrue};
ghost use Rattle.narrowing.specs.Laws.{IsOpenSend};
ghost use Rattle.narrowing.specs.Ways.{way_to, AreOtherMessages, AreOthersBelow, AreOtherWays};

use crate::taken::ChoiceTaken;
use callorder::{Call, Kind, LongProgram};
use calltext::{Mode, Policy};
use std::alloc::{AllocError, Global};

/// Whether the call is a standard send, and the policy leaves it open whether it is buffered.
pub fn is_open_send(program: &LongProgram, call: usize) -> bool
    ensures { IsTrue result ↔ IsOpenSend program.now call }
{
    match program.call(call) {
        Some(
            Call {
                rank: _,
                kind: Kind::Send {
                    mode: Mode::Standard,
                    ..
                },
            },
        ) => program.policy() == Policy::Any,
        _ => false,
    }
}

/// That a call finds the message of this send; none where there is no such send.
pub fn way_to(program: &LongProgram, send: usize) -> Option<ChoiceTaken>
    ensures { result ≡ way_to program.now send }
{
    let call = program.call(send)?;
    let message = call.kind.message()?;
    Some(ChoiceTaken::Message {
        source: call.rank,
        tag: message.tag,
    })
}

/// Whether two ways are one.
fn is_same(way: ChoiceTaken, other: ChoiceTaken) -> bool
    ensures { IsTrue result ↔ (way ≡ other) }
{
    way == other
}

/// Adds the rank and the tag of a send that fits the call, unless they are those that it found, or
/// are there.
fn put_other(
    others: &mut Vec<ChoiceTaken>,
    program: &LongProgram,
    call: usize,
    taken: ChoiceTaken,
    send: usize,
) -> Result<(), AllocError>
    ensures { OnOk result (AreOthersBelow program.now call taken send others.old.items →
        AreOthersBelow program.now call taken (send + 1) others.new.items) }
{
    if !program.are_fit(send, call) {
        return Ok(());
    }
    let Some(way) = way_to(program, send) else {
        return Ok(());
    };
    if is_same(way, taken) || others.contains(&way) {
        return Ok(());
    }
    others.push(way)?;
    Ok(())
}

/// The rank and the tag of each send of the program that fits the call, each once, but for those
/// that it found.
fn other_messages(
    alloc: Global,
    program: &LongProgram,
    call: usize,
    taken: ChoiceTaken,
) -> Result<Vec<ChoiceTaken>, AllocError>
    ensures { IfOk result (λ others. AreOtherMessages program.now call taken others.items) }
{
    let mut others = Vec::new(alloc);
    for send in 0..program.calls().len() {
        put_other(&mut others, program, call, taken, send)?;
    }
    Ok(others)
}

/// A list of this way.
fn one_way(alloc: Global, way: ChoiceTaken) -> Result<Vec<ChoiceTaken>, AllocError>
    ensures { IfOk result (λ ways. ways.items ≡ way ∷ []) }
{
    let mut ways = Vec::new(alloc);
    ways.push(way)?;
    Ok(ways)
}

/// All other ways of a choice that was made so: for a send the other one of the two, for a call
/// that found a message the rank and the tag of each send of the program that fits it, each once,
/// but for those that it found. The only error is want of memory.
pub fn other_ways(
    alloc: Global,
    program: &LongProgram,
    call: usize,
    taken: ChoiceTaken,
) -> Result<Vec<ChoiceTaken>, AllocError>
    ensures { IfOk result (λ others. AreOtherWays program.now call taken others.items) }
{
    match taken {
        ChoiceTaken::Buffered => one_way(alloc, ChoiceTaken::NotBuffered),
        ChoiceTaken::NotBuffered => one_way(alloc, ChoiceTaken::Buffered),
        ChoiceTaken::Message { source: _, tag: _ } => other_messages(alloc, program, call, taken),
    }
}
