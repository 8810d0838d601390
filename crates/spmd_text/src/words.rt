//! The words of the language.

ghost use Rattle.std.specs.Prelude.{◌≡◌};
ghost use Rattle.std.specs.Str.{bytes_eq};
ghost use Rattle.spmd_text.specs.Words.{keyword_of, block_keyword, branch_of, part_keyword, logic_of, operator_of, send_of, receive_keyword, probe_of, wait_of, rooted_of, collective_of};

use crate::piece::Word;

/// Whether the word is this text.
pub(crate) fn is(word: &[u8], text: &str) -> bool
    ensures { result ≡ bytes_eq word.now text.now }
{
    word == text.as_bytes()
}

/// The word of the language that is spelled so.
#[tactic(auto, unfolding(crate::specs::Words::keyword_of))]
pub(crate) fn word_of(word: &[u8]) -> Option<Word>
    ensures { result ≡ keyword_of word.now }
{
    if is(word, "spmd") {
        return Some(Word::Spmd);
    }
    if is(word, "policy") {
        return Some(Word::Policy);
    }
    if is(word, "any") {
        return Some(Word::Any);
    }
    if is(word, "none") {
        return Some(Word::Never);
    }
    if is(word, "all") {
        return Some(Word::Always);
    }
    block_of(word)
}

/// A word of parameters, of `let` and of loops, or one of those below.
#[tactic(auto, unfolding(crate::specs::Words::block_keyword))]
fn block_of(word: &[u8]) -> Option<Word>
    ensures { result ≡ block_keyword word.now }
{
    if is(word, "param") {
        return Some(Word::Param);
    }
    if is(word, "let") {
        return Some(Word::Let);
    }
    if is(word, "for") {
        return Some(Word::For);
    }
    if is(word, "to") {
        return Some(Word::To);
    }
    if is(word, "step") {
        return Some(Word::Step);
    }
    branch_of(word)
}

/// A word of blocks and branches, or one of those below.
#[tactic(auto, unfolding(crate::specs::Words::branch_of))]
fn branch_of(word: &[u8]) -> Option<Word>
    ensures { result ≡ branch_of word.now }
{
    if is(word, "end") {
        return Some(Word::End);
    }
    if is(word, "if") {
        return Some(Word::If);
    }
    if is(word, "then") {
        return Some(Word::Then);
    }
    if is(word, "elif") {
        return Some(Word::Elif);
    }
    if is(word, "else") {
        return Some(Word::Else);
    }
    part_of(word)
}

/// A word that stands in calls and expressions, or one of those below.
#[tactic(auto, unfolding(crate::specs::Words::part_keyword))]
fn part_of(word: &[u8]) -> Option<Word>
    ensures { result ≡ part_keyword word.now }
{
    if is(word, "error") {
        return Some(Word::Error);
    }
    if is(word, "comm") {
        return Some(Word::Comm);
    }
    if is(word, "among") {
        return Some(Word::Among);
    }
    if is(word, "rank") {
        return Some(Word::Rank);
    }
    if is(word, "size") {
        return Some(Word::Size);
    }
    logic_of(word)
}

/// A word of conditions or `null`, or one of those below.
#[tactic(auto, unfolding(crate::specs::Words::logic_of))]
fn logic_of(word: &[u8]) -> Option<Word>
    ensures { result ≡ logic_of word.now }
{
    if is(word, "null") {
        return Some(Word::Null);
    }
    if is(word, "not") {
        return Some(Word::Not);
    }
    if is(word, "and") {
        return Some(Word::And);
    }
    if is(word, "or") {
        return Some(Word::Or);
    }
    operator_of(word)
}

/// An operator's word, or one of those below.
#[tactic(auto, unfolding(crate::specs::Words::operator_of))]
fn operator_of(word: &[u8]) -> Option<Word>
    ensures { result ≡ operator_of word.now }
{
    if is(word, "div") {
        return Some(Word::Div);
    }
    if is(word, "mod") {
        return Some(Word::Mod);
    }
    if is(word, "shl") {
        return Some(Word::Shl);
    }
    if is(word, "shr") {
        return Some(Word::Shr);
    }
    if is(word, "xor") {
        return Some(Word::Xor);
    }
    send_of(word)
}

/// A send's word, or one of those below.
#[tactic(auto, unfolding(crate::specs::Words::send_of))]
fn send_of(word: &[u8]) -> Option<Word>
    ensures { result ≡ send_of word.now }
{
    if is(word, "send") {
        return Some(Word::Send);
    }
    if is(word, "ssend") {
        return Some(Word::Ssend);
    }
    if is(word, "bsend") {
        return Some(Word::Bsend);
    }
    if is(word, "isend") {
        return Some(Word::Isend);
    }
    receive_of(word)
}

/// A further send's word, a receive's, or one of those below.
#[tactic(auto, unfolding(crate::specs::Words::receive_keyword))]
fn receive_of(word: &[u8]) -> Option<Word>
    ensures { result ≡ receive_keyword word.now }
{
    if is(word, "issend") {
        return Some(Word::Issend);
    }
    if is(word, "ibsend") {
        return Some(Word::Ibsend);
    }
    if is(word, "recv") {
        return Some(Word::Recv);
    }
    if is(word, "irecv") {
        return Some(Word::Irecv);
    }
    probe_of(word)
}

/// A probe's word, that of a receive on a handle, or one of those below.
#[tactic(auto, unfolding(crate::specs::Words::probe_of))]
fn probe_of(word: &[u8]) -> Option<Word>
    ensures { result ≡ probe_of word.now }
{
    if is(word, "probe") {
        return Some(Word::Probe);
    }
    if is(word, "mprobe") {
        return Some(Word::Mprobe);
    }
    if is(word, "mrecv") {
        return Some(Word::Mrecv);
    }
    if is(word, "imrecv") {
        return Some(Word::Imrecv);
    }
    wait_of(word)
}

/// A wait's word, `sendrecv`, `barrier`, or one of those below.
#[tactic(auto, unfolding(crate::specs::Words::wait_of))]
fn wait_of(word: &[u8]) -> Option<Word>
    ensures { result ≡ wait_of word.now }
{
    if is(word, "wait") {
        return Some(Word::Wait);
    }
    if is(word, "waitall") {
        return Some(Word::Waitall);
    }
    if is(word, "sendrecv") {
        return Some(Word::Sendrecv);
    }
    if is(word, "barrier") {
        return Some(Word::Barrier);
    }
    rooted_of(word)
}

/// A word of a collective call with a root, or one of those below.
#[tactic(auto, unfolding(crate::specs::Words::rooted_of))]
fn rooted_of(word: &[u8]) -> Option<Word>
    ensures { result ≡ rooted_of word.now }
{
    if is(word, "bcast") {
        return Some(Word::Bcast);
    }
    if is(word, "reduce") {
        return Some(Word::Reduce);
    }
    if is(word, "gather") {
        return Some(Word::Gather);
    }
    if is(word, "scatter") {
        return Some(Word::Scatter);
    }
    collective_of(word)
}

/// A word of a collective call with no root.
#[tactic(auto, unfolding(crate::specs::Words::collective_of))]
fn collective_of(word: &[u8]) -> Option<Word>
    ensures { result ≡ collective_of word.now }
{
    if is(word, "allreduce") {
        return Some(Word::Allreduce);
    }
    if is(word, "allgather") {
        return Some(Word::Allgather);
    }
    if is(word, "alltoall") {
        return Some(Word::Alltoall);
    }
    if is(word, "scan") {
        return Some(Word::Scan);
    }
    None
}
