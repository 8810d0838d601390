//! Who sends messages with an envelope, and who takes them.

ghost use Rattle.std.specs.Prelude.{◌≡◌, Some};
ghost use Rattle.sealing.specs.parts.Sides.{wanted_of, side_of, side_taken};

use callorder::Call;

/// The calls that send messages with an envelope (MPI 4.1, section 3.2.3), or those that take them
/// and name all of it.
#[derive(Clone, Copy, PartialEq, Eq, Hash)]
pub struct Side {
    pub source: u32,
    pub destination: u32,
    pub tag: u32,
    pub communicator: u32,
    /// Whether it is those that send.
    pub is_send: bool,
}

/// What a taker, which is a receive or a matched probe, asks for: its pattern, and its rank as the
/// destination.
#[derive(Clone, Copy, PartialEq, Eq, Hash)]
pub struct Wanted {
    pub source: Option<u32>,
    pub destination: u32,
    pub tag: Option<u32>,
    pub communicator: u32,
}

/// What the call asks for, if it is a taker.
pub fn wanted_of(call: &Call) -> Option<Wanted>
    ensures { result ≡ wanted_of call.now }
{
    if call.kind.is_probe() {
        return None;
    }
    match call.kind.pattern() {
        None => None,
        Some(pattern) => Some(Wanted {
            source: pattern.source,
            destination: call.rank,
            tag: pattern.tag,
            communicator: pattern.communicator,
        }),
    }
}

/// The side of a taker that asks for this, where it names an envelope.
fn side_taken(wanted: Wanted) -> Option<Side>
    ensures { result ≡ side_taken (Some wanted) }
{
    let Some(source) = wanted.source else {
        return None;
    };
    let Some(tag) = wanted.tag else {
        return None;
    };
    Some(Side {
        source,
        destination: wanted.destination,
        tag,
        communicator: wanted.communicator,
        is_send: false,
    })
}

/// The side of a send, or of a taker that names an envelope.
pub fn side_of(call: &Call) -> Option<Side>
    ensures { result ≡ side_of call.now }
{
    match call.kind.message() {
        Some(message) => Some(Side {
            source: call.rank,
            destination: message.destination,
            tag: message.tag,
            communicator: message.communicator,
            is_send: true,
        }),
        None => match wanted_of(call) {
            None => None,
            Some(wanted) => side_taken(wanted),
        },
    }
}
