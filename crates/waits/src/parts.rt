//! The parts of the matching rule.

ghost use Rattle.std.specs.Prelude.{◌≡◌};
ghost use Rattle.callorder.specs.Calls.{covers};
ghost use Rattle.waits.specs.Misses.{missed_by, only_false};

use callorder::Call;

/// A part of the rule by which a send fits a receive, a matched probe or a probe (MPI 4.1, section
/// 3.2.4).
#[derive(Clone, Copy, PartialEq, Eq)]
pub enum Mismatch {
    /// The send's destination is the rank of the other call.
    Destination,
    /// The communicators are equal.
    Communicator,
    /// The other call's source is the send's rank, or any.
    Source,
    /// The other call's tag is the send's tag, or any.
    Tag,
}

/// The one of four tests that fails, if exactly one does.
fn only_false(destination: bool, communicator: bool, source: bool, tag: bool) -> Option<Mismatch>
    ensures { result ≡ only_false destination communicator source tag }
{
    match (destination, communicator, source, tag) {
        (false, true, true, true) => Some(Mismatch::Destination),
        (true, false, true, true) => Some(Mismatch::Communicator),
        (true, true, false, true) => Some(Mismatch::Source),
        (true, true, true, false) => Some(Mismatch::Tag),
        _ => None,
    }
}

/// Whether a wildcard or a number covers this number.
fn is_covered(wanted: Option<u32>, number: u32) -> bool
    ensures { result ≡ covers wanted number }
{
    match wanted {
        None => true,
        Some(wanted) => wanted == number,
    }
}

/// The one part in which a send misses a receive, a matched probe or a probe, if all others hold.
/// None where all parts hold, where several fail, and where the calls are none of these.
pub fn missed_by(send: &Call, finder: &Call) -> Option<Mismatch>
    ensures { result ≡ missed_by send.now finder.now }
{
    let Some(message) = send.kind.message() else {
        return None;
    };
    let Some(pattern) = finder.kind.pattern() else {
        return None;
    };
    only_false(
        message.destination == finder.rank,
        message.communicator == pattern.communicator,
        is_covered(pattern.source, send.rank),
        is_covered(pattern.tag, message.tag),
    )
}
