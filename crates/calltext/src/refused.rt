//! The words that are refused by name.

ghost use Rattle.std.specs.Prelude.{◌≡◌, ◌≢◌, ◌<◌, ℕ, length, map, Some, IfNone, IfSome};
ghost use Rattle.calltext.specs.RefusedWords.{refused_word, refused_words};

use plaintext::is_word;
use std::fmt;
use std::marker::Model;

/// All words that are refused by name. Each collective call is here twice: in its blocking form
/// and, with an `i` before it, in its non-blocking form.
const WORDS: [&str; 64] = [
    "iprobe",
    "improbe",
    "test",
    "testall",
    "testany",
    "testsome",
    "waitany",
    "waitsome",
    "cancel",
    "request_free",
    "rsend",
    "irsend",
    "send_init",
    "bsend_init",
    "ssend_init",
    "rsend_init",
    "recv_init",
    "psend_init",
    "precv_init",
    "start",
    "startall",
    "isendrecv",
    "sendrecv_replace",
    "put",
    "get",
    "accumulate",
    "win_create",
    "comm_dup",
    "comm_split",
    "comm_create",
    "barrier",
    "bcast",
    "gather",
    "gatherv",
    "scatter",
    "scatterv",
    "allgather",
    "allgatherv",
    "alltoall",
    "alltoallv",
    "alltoallw",
    "reduce",
    "allreduce",
    "reduce_scatter",
    "reduce_scatter_block",
    "scan",
    "exscan",
    "ibarrier",
    "ibcast",
    "igather",
    "igatherv",
    "iscatter",
    "iscatterv",
    "iallgather",
    "iallgatherv",
    "ialltoall",
    "ialltoallv",
    "ialltoallw",
    "ireduce",
    "iallreduce",
    "ireduce_scatter",
    "ireduce_scatter_block",
    "iscan",
    "iexscan",
];

fn table() -> [&'static str; 64]
    ensures words { map (λ w. w.now) result ≡ refused_words }
    ensures count { length refused_words ≡ 64 }
{
    WORDS
}

/// A word that is refused by name: the first word of a call of MPI that a program's text can't
/// hold. A contract sees it as its place, from 0, in the list of those words.
#[derive(Clone, Copy, Debug, PartialEq, Eq)]
pub struct RefusedWord {
    index: usize,
}

impl Model for RefusedWord {
    ghost use Rattle.std.specs.Prelude.{ℕ, ◌<◌, length};
    ghost use Rattle.calltext.specs.RefusedWords.{refused_words};

    ghost Value = { ℕ };

    ghost view = { λ w. w.index };

    ghost invariant = { λ w. w.index < length refused_words };

    ghost inverse = { λ index. record { index = index } };
}

impl RefusedWord {
    /// The word's text.
    pub fn text(self) -> &'static str
        ensures text { result.now ≡ refused_word self }
        ensures known { self < length refused_words }
    {
        let words = table();
        words[self.index]
    }

    /// The refused word that is spelled so; none where no refused word is.
    pub(crate) fn find(word: &[u8]) -> Option<RefusedWord>
        ensures none { IfNone result ((place : ℕ) → place < length refused_words → refused_word place ≢ word.now) }
        ensures some { IfSome result (λ place. (place < length refused_words) × (refused_word place ≡ word.now)) }
    {
        let words = table();
        for (index, text) in words.iter().enumerate() {
            if is_word(word, text) {
                return Some(RefusedWord { index });
            }
        }
        None
    }
}

impl fmt::Display for RefusedWord {
    ghost output = { λ word. Some (refused_word word) };

    fn fmt<W: fmt::Write>(&self, f: &mut fmt::Formatter<W>) -> fmt::Result {
        f.write_str(self.text())
    }
}
