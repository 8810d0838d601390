//! The first words of call lines.

ghost use Rattle.std.specs.Prelude.{◌≡◌, ◌≢◌, IfNone, IfSome};
ghost use Rattle.calltext.specs.Grammar.{send_word};
ghost use Rattle.calltext.specs.Slots.{slots_of};
ghost use Rattle.calltext.specs.parts.Verbs.{verbs};
ghost use Rattle.calltext.specs.Verbs.{started_word, verb_of, verb_word};

use crate::call::{CallLine, Mode};
use plaintext::is_word;

/// What a call line's first word says. A call that is started is nonblocking; its word begins with
/// an `i`, and its request's name follows.
#[derive(Clone, Copy)]
pub enum Verb {
    /// `send`, `ssend`, `bsend`, `isend`, `issend`, `ibsend`.
    Send { mode: Mode, started: bool },
    /// `recv`, `irecv`.
    Receive { started: bool },
    /// `mprobe`.
    MatchedProbe,
    /// `probe`.
    Probe,
    /// `mrecv`, `imrecv`.
    MatchedReceive { started: bool },
    /// `wait`.
    Wait,
    /// `waitall`.
    WaitAll,
    /// `sendrecv`.
    SendReceive,
}

/// What a word behind a call line's first stands for.
#[derive(Clone, Copy, PartialEq, Eq)]
pub enum Slot {
    /// The name of a request.
    Request,
    /// Names of requests, one or more: all words that follow.
    Requests,
    /// The name of a handle.
    Handle,
    /// A rank, from 0.
    Rank,
    /// A rank, from 0, or a star for any.
    RankOrStar,
    /// A tag, from 0.
    Tag,
    /// A tag, from 0, or a star for any.
    TagOrStar,
    /// `comm` and the number of a communicator, from 1; both may be left out.
    Communicator,
}

const VERBS: [Verb; 15] = [
    Verb::Send {
        mode: Mode::Standard,
        started: false,
    },
    Verb::Send {
        mode: Mode::Synchronous,
        started: false,
    },
    Verb::Send {
        mode: Mode::Buffered,
        started: false,
    },
    Verb::Send {
        mode: Mode::Standard,
        started: true,
    },
    Verb::Send {
        mode: Mode::Synchronous,
        started: true,
    },
    Verb::Send {
        mode: Mode::Buffered,
        started: true,
    },
    Verb::Receive { started: false },
    Verb::Receive { started: true },
    Verb::MatchedProbe,
    Verb::Probe,
    Verb::MatchedReceive { started: false },
    Verb::MatchedReceive { started: true },
    Verb::Wait,
    Verb::WaitAll,
    Verb::SendReceive,
];

fn all() -> [Verb; 15]
    ensures { result ≡ verbs }
{
    VERBS
}

fn send_text(mode: Mode, started: bool) -> &'static str
    ensures { result.now ≡ started_word started (send_word mode) }
{
    match (mode, started) {
        (Mode::Standard, false) => "send",
        (Mode::Synchronous, false) => "ssend",
        (Mode::Buffered, false) => "bsend",
        (Mode::Standard, true) => "isend",
        (Mode::Synchronous, true) => "issend",
        (Mode::Buffered, true) => "ibsend",
    }
}

impl Verb {
    /// The word that a text spells it with.
    pub fn text(&self) -> &'static str
        ensures { result.now ≡ verb_word self.now }
    {
        match self {
            Verb::Send { mode, started } => send_text(*mode, *started),
            Verb::Receive { started: false } => "recv",
            Verb::Receive { started: true } => "irecv",
            Verb::MatchedProbe => "mprobe",
            Verb::Probe => "probe",
            Verb::MatchedReceive { started: false } => "mrecv",
            Verb::MatchedReceive { started: true } => "imrecv",
            Verb::Wait => "wait",
            Verb::WaitAll => "waitall",
            Verb::SendReceive => "sendrecv",
        }
    }

    /// What the words behind it stand for, in their order.
    pub fn slots(&self) -> &'static [Slot]
        ensures { result.now ≡ slots_of self.now }
    {
        match self {
            Verb::Send { started: false, .. } => &[Slot::Rank, Slot::Tag, Slot::Communicator],
            Verb::Send { started: true, .. } => {
                &[Slot::Request, Slot::Rank, Slot::Tag, Slot::Communicator]
            }
            Verb::Receive { started: false } | Verb::Probe => {
                &[Slot::RankOrStar, Slot::TagOrStar, Slot::Communicator]
            }
            Verb::Receive { started: true } => {
                &[
                    Slot::Request,
                    Slot::RankOrStar,
                    Slot::TagOrStar,
                    Slot::Communicator,
                ]
            }
            Verb::MatchedProbe => {
                &[
                    Slot::Handle,
                    Slot::RankOrStar,
                    Slot::TagOrStar,
                    Slot::Communicator,
                ]
            }
            Verb::MatchedReceive { started: false } => &[Slot::Handle],
            Verb::MatchedReceive { started: true } => &[Slot::Request, Slot::Handle],
            Verb::Wait => &[Slot::Request],
            Verb::WaitAll => &[Slot::Requests],
            Verb::SendReceive => &[
                Slot::Rank,
                Slot::Tag,
                Slot::RankOrStar,
                Slot::TagOrStar,
                Slot::Communicator,
            ],
        }
    }

    /// The verb that is spelled so; none where no verb is.
    pub fn find(word: &[u8]) -> Option<Verb>
        ensures none { IfNone result ((verb : Verb) → verb_word verb ≢ word.now) }
        ensures some { IfSome result (λ verb. verb_word verb ≡ word.now) }
    {
        let verbs = all();
        for verb in verbs.iter() {
            if is_word(word, verb.text()) {
                return Some(*verb);
            }
        }
        None
    }

    /// The verb of a call.
    pub fn of(call: &CallLine) -> Verb
        ensures { result ≡ verb_of call.now }
    {
        match call {
            CallLine::Send { mode, request, .. } => Verb::Send {
                mode: *mode,
                started: request.is_some(),
            },
            CallLine::Receive { request, .. } => Verb::Receive {
                started: request.is_some(),
            },
            CallLine::MatchedProbe { .. } => Verb::MatchedProbe,
            CallLine::Probe { .. } => Verb::Probe,
            CallLine::MatchedReceive { request, .. } => Verb::MatchedReceive {
                started: request.is_some(),
            },
            CallLine::Wait { .. } => Verb::Wait,
            CallLine::WaitAll { .. } => Verb::WaitAll,
            CallLine::SendReceive { .. } => Verb::SendReceive,
        }
    }
}
