//! The words of the headings, and the numbers of call lines.

ghost use Rattle.std.specs.Prelude.{◌≡◌, ◌≢◌, ◌↔◌, ◌≤◌, ℕ, List, Option, IsTrue, IfNone, IfSome, map, min};
ghost use Rattle.plaintext.specs.Plain.{numeral};
ghost use Rattle.calltext.specs.declared.call.Policy.{Policy};
ghost use Rattle.calltext.specs.Grammar.{policy_words, ranks_words, rank_words, or_star, communicator_words};
ghost use Rattle.calltext.specs.parts.Verbs.{message_words, pattern_words};
ghost use Rattle.calltext.specs.parts.Capped.{capped_option};

use crate::call::Policy;
use plaintext::{is_word, number_of};

/// The number of ranks, where the words are the first line's. Numbers are read up to 2,147,483,648
/// here and below.
pub fn ranks_of(words: &[&[u8]]) -> Option<u32>
    ensures none { IfNone result ((n : ℕ) → ranks_words n ≢ map (λ w. w.now) words.now) }
    ensures some { IfSome result (λ found. (n : ℕ) × (ranks_words n ≡ map (λ w. w.now) words.now) × (found ≡ min n 2147483648)) }
{
    match words {
        [kind, number] if is_word(kind, "ranks") => number_of(number),
        _ => None,
    }
}

/// The policy, where the words are the second line's.
pub fn policy_of(words: &[&[u8]]) -> Option<Policy>
    ensures none { IfNone result ((p : Policy) → policy_words p ≢ map (λ w. w.now) words.now) }
    ensures some { IfSome result (λ p. policy_words p ≡ map (λ w. w.now) words.now) }
{
    match words {
        [kind, policy] if is_word(kind, "policy") => {
            if is_word(policy, "any") {
                Some(Policy::Any)
            } else if is_word(policy, "none") {
                Some(Policy::Never)
            } else if is_word(policy, "all") {
                Some(Policy::Always)
            } else {
                None
            }
        }
        _ => None,
    }
}

/// Whether the words are the heading of this rank.
pub fn is_rank(words: &[&[u8]], rank: u32) -> bool
    requires { rank ≤ 2147483647 }
    ensures { IsTrue result ↔ (rank_words rank ≡ map (λ w. w.now) words.now) }
{
    match words {
        [kind, number] if is_word(kind, "rank") => match number_of(number) {
            Some(found) => found == rank,
            None => false,
        },
        _ => false,
    }
}

fn number_or_star(word: &[u8]) -> Option<Option<u32>>
    ensures none { IfNone result ((n : Option ℕ) → or_star n ≢ word.now) }
    ensures some { IfSome result (λ found. (n : Option ℕ) × (or_star n ≡ word.now) × (found ≡ capped_option n)) }
{
    if is_word(word, "*") {
        return Some(None);
    }
    Some(Some(number_of(word)?))
}

fn communicator_of(words: &[&[u8]]) -> Option<Option<u32>>
    ensures none { IfNone result ((n : Option ℕ) → communicator_words n ≢ map (λ w. w.now) words.now) }
    ensures some { IfSome result (λ found. (n : Option ℕ) ×
        (communicator_words n ≡ map (λ w. w.now) words.now) × (found ≡ capped_option n)) }
{
    match words {
        [] => Some(None),
        [kind, number] if is_word(kind, "comm") => Some(Some(number_of(number)?)),
        _ => None,
    }
}

/// What a send names after its request.
#[derive(Clone, Copy)]
pub struct MessageNumbers {
    pub destination: u32,
    pub tag: u32,
    pub communicator: Option<u32>,
}

/// What a receive, a matched probe or a probe names last.
#[derive(Clone, Copy)]
pub struct PatternNumbers {
    pub source: Option<u32>,
    pub tag: Option<u32>,
    pub communicator: Option<u32>,
}

/// A destination, a tag and perhaps a communicator.
pub fn message_of(words: &[&[u8]]) -> Option<MessageNumbers>
    ensures none { IfNone result ((d t : ℕ) (k : Option ℕ) → message_words d t k ≢ map (λ w. w.now) words.now) }
    ensures some { IfSome result (λ found. (d : ℕ) × (t : ℕ) × (k : Option ℕ) ×
        (message_words d t k ≡ map (λ w. w.now) words.now) × (found.destination ≡ min d 2147483648) ×
        (found.tag ≡ min t 2147483648) × (found.communicator ≡ capped_option k)) }
{
    let [destination, tag, others @ ..] = words else {
        return None;
    };
    let destination = number_of(destination)?;
    let tag = number_of(tag)?;
    let communicator = communicator_of(others)?;
    Some(MessageNumbers {
        destination,
        tag,
        communicator,
    })
}

/// A source and a tag, or a star in the place of each, and perhaps a communicator.
pub fn pattern_of(words: &[&[u8]]) -> Option<PatternNumbers>
    ensures none { IfNone result ((s t k : Option ℕ) → pattern_words s t k ≢ map (λ w. w.now) words.now) }
    ensures some { IfSome result (λ found. (s : Option ℕ) × (t : Option ℕ) × (k : Option ℕ) ×
        (pattern_words s t k ≡ map (λ w. w.now) words.now) × (found.source ≡ capped_option s) ×
        (found.tag ≡ capped_option t) × (found.communicator ≡ capped_option k)) }
{
    let [source, tag, others @ ..] = words else {
        return None;
    };
    let source = number_or_star(source)?;
    let tag = number_or_star(tag)?;
    let communicator = communicator_of(others)?;
    Some(PatternNumbers {
        source,
        tag,
        communicator,
    })
}
