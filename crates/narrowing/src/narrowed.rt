//! Whether a program is another one in which a call leaves less open.

ghost use Rattle.std.specs.Prelude.{◌≡◌, ◌↔◌, IsTrue};
ghost use Rattle.narrowing.specs.Narrowed.{without_star, named_pattern, narrowed_kind, narrowed_call, IsNarrowedAt, IsNarrowed};

use crate::taken::ChoiceTaken;
use callorder::{Call, Kind, LongProgram, Pattern};
use calltext::Mode;

/// A number in the place of a star.
fn named(wanted: Option<u32>, number: u32) -> Option<u32>
    ensures { result ≡ without_star wanted number }
{
    match wanted {
        None => Some(number),
        Some(wanted) => Some(wanted),
    }
}

/// The pattern with this source and this tag in the place of stars.
fn named_pattern(source: u32, tag: u32, pattern: Pattern) -> Pattern
    ensures { result ≡ named_pattern source tag pattern }
{
    Pattern {
        source: named(pattern.source, source),
        tag: named(pattern.tag, tag),
        communicator: pattern.communicator,
    }
}

/// What a call of this kind does with no more left open.
fn narrowed_kind(way: ChoiceTaken, kind: Kind) -> Kind
    ensures { result ≡ narrowed_kind way kind }
{
    match (way, kind) {
        (
            ChoiceTaken::Buffered,
            Kind::Send {
                mode: Mode::Standard,
                blocking,
                message,
            },
        ) => Kind::Send {
            mode: Mode::Buffered,
            blocking,
            message,
        },
        (
            ChoiceTaken::NotBuffered,
            Kind::Send {
                mode: Mode::Standard,
                blocking,
                message,
            },
        ) => Kind::Send {
            mode: Mode::Synchronous,
            blocking,
            message,
        },
        (ChoiceTaken::Message { source, tag }, Kind::Receive { blocking, pattern }) =>
            Kind::Receive {
                blocking,
                pattern: named_pattern(source, tag, pattern),
            },
        (ChoiceTaken::Message { source, tag }, Kind::MatchedProbe { pattern, receive }) => {
            Kind::MatchedProbe {
                pattern: named_pattern(source, tag, pattern),
                receive,
            }
        }
        (ChoiceTaken::Message { source, tag }, Kind::Probe { pattern }) => Kind::Probe {
            pattern: named_pattern(source, tag, pattern),
        },
        (_, kind) => kind,
    }
}

/// The call with no more left open.
fn narrowed_call(way: ChoiceTaken, call: Call) -> Call
    ensures { result ≡ narrowed_call way call }
{
    Call {
        rank: call.rank,
        kind: narrowed_kind(way, call.kind),
    }
}

/// Whether both are no call or the same one.
fn is_same(call: Option<Call>, other: Option<Call>) -> bool
    ensures { IsTrue result ↔ (call ≡ other) }
{
    call == other
}

/// Whether the second program has at this place the first one's call, with no more left open where
/// it is the one that is meant.
fn is_narrowed_at(
    program: &LongProgram,
    call: usize,
    way: ChoiceTaken,
    other: &LongProgram,
    place: usize,
) -> bool
    ensures { IsTrue result ↔ IsNarrowedAt program.now call way other.now place }
{
    let old = program.call(place);
    let wanted = if place == call {
        old.map(|old| narrowed_call(way, old))
    } else {
        old
    };
    is_same(other.call(place), wanted)
}

/// Whether the second program is the first one, but that this call of it leaves open no more than
/// this way. Takes no memory.
pub fn is_narrowed(
    program: &LongProgram,
    call: usize,
    way: ChoiceTaken,
    other: &LongProgram,
) -> bool
    ensures { IsTrue result ↔ IsNarrowed program.now call way other.now }
{
    let count = program.calls().len();
    if other.policy() != program.policy()
        || other.ranks() != program.ranks()
        || other.calls().len() != count
    {
        return false;
    }
    for place in 0..count {
        if !is_narrowed_at(program, call, way, other, place) {
            return false;
        }
    }
    true
}
