//! A proof line's line.

ghost use Rattle.std.specs.Prelude.{◌≡◌, ◌≢◌, ◌++◌, ◌∷◌, [], ℕ, List, codes, map, IsTrue, IfNone, IfSome, IfOk, IfErr, OnOk};
ghost use Rattle.std.specs.Option.{option_copied};
ghost use Rattle.plaintext.specs.Plain.{numeral};
ghost use Rattle.clauses.specs.Clauses.{Literal};
ghost use Rattle.prooflog.specs.Refutations.{literal_word, proof_words, is_line_in_range};
ghost use Rattle.prooflog.specs.parts.Reading.{words_of, words_after, capped, IsReadLiteral, AreRead, IsUnread};
ghost use Rattle.prooflog.specs.declared.proof_line.Unread.TheVariants.{Memory as NoMemory};

use crate::words::cut_word;
use clauses::Lit;
use plaintext::{is_word, number_of};
use refutations::Line;
use std::alloc::{AllocError, AllocFailed, Global};

/// Why a line gave no proof line.
#[derive(Clone, Copy)]
pub enum Unread {
    /// Memory ran out.
    Memory,
    /// It has not the words of one.
    Syntax,
    /// It has them, and a number is out of range or the literals don't rise.
    Range,
}

impl<T: Drop> From<AllocFailed<T>> for Unread {
    ghost from_gives = { λ _ e. e ≡ NoMemory };

    fn from(_e: AllocFailed<T>) -> Unread {
        Unread::Memory
    }
}

impl From<AllocError> for Unread {
    ghost from_gives = { λ _ e. e ≡ NoMemory };

    fn from(_e: AllocError) -> Unread {
        Unread::Memory
    }
}

/// The literal of a word, where it is one's: `None` within where its variable is out of range.
fn literal_of(word: &[u8]) -> Option<Option<Lit>>
    ensures none { IfNone result ((l : Literal) → literal_word l ≢ word.now) }
    ensures some { IfSome result (λ found. (l : Literal) × (literal_word l ≡ word.now) × IsReadLiteral found l) }
{
    if !word.is_empty() && word[0] == b'-' {
        let Some(variable) = number_of(&word[1..]) else {
            return None;
        };
        return Some(Lit::make(variable, false));
    }
    let Some(variable) = number_of(word) else {
        return None;
    };
    Some(Lit::make(variable, true))
}

/// How many words stand before the first colon, or in all where there is none.
fn count_to_colon(others: Option<&[u8]>) -> usize {
    let mut count = 0usize;
    let mut rest = others;
    while let Some(words) = rest {
        let (word, after) = cut_word(words);
        if is_word(word, ":") {
            return count;
        }
        count += 1;
        rest = after;
    }
    count
}

/// How many words there are.
fn word_count(others: Option<&[u8]>) -> usize {
    match others {
        None => 0,
        Some(words) => words.iter().filter(|b| **b == b' ').count() + 1,
    }
}

/// What stands before the colon of a proof line and after it.
#[derive(Drop)]
struct Literals<'a> {
    literals: Vec<Lit>,
    in_range: bool,
    hints: Option<&'a [u8]>,
}

/// The literals before the colon, where there are literals and a colon.
fn literals_of(alloc: Global, others: Option<&[u8]>) -> Result<Option<Literals<'_>>, AllocError>
    ensures none { IfOk result (λ found. IfNone found ((ls : List Literal) (hints : List (List ℕ)) →
        map literal_word ls ++ codes ":" ∷ hints ≢ words_after (option_copied others.entry))) }
    ensures some { IfOk result (λ found. IfSome found (λ read. (ls : List Literal) ×
        (map literal_word ls ++ codes ":" ∷ words_after (option_copied read.hints) ≡
        words_after (option_copied others.entry)) × AreRead read.in_range read.literals.items ls)) }
{
    let mut literals = Vec::with_capacity(alloc, count_to_colon(others))?;
    let mut in_range = true;
    let mut rest = others;
    while let Some(words) = rest {
        let (word, after) = cut_word(words);
        if is_word(word, ":") {
            return Ok(Some(Literals {
                literals,
                in_range,
                hints: after,
            }));
        }
        match literal_of(word) {
            None => return Ok(None),
            Some(None) => in_range = false,
            Some(Some(literal)) => literals.push(literal)?,
        }
        rest = after;
    }
    Ok(None)
}

/// The numbers of the words, where each is one; each above 2,147,483,647 as 2,147,483,648.
fn numbers_of(alloc: Global, others: Option<&[u8]>) -> Result<Option<Vec<u32>>, AllocError>
    ensures none { IfOk result (λ found. IfNone found ((ns : List ℕ) → map numeral ns ≢ words_after (option_copied others.entry))) }
    ensures some { IfOk result (λ found. IfSome found (λ read. (ns : List ℕ) ×
        (map numeral ns ≡ words_after (option_copied others.entry)) × (read.items ≡ map capped ns))) }
{
    let mut numbers = Vec::with_capacity(alloc, word_count(others))?;
    let mut rest = others;
    while let Some(words) = rest {
        let (word, after) = cut_word(words);
        let Some(number) = number_of(word) else {
            return Ok(None);
        };
        numbers.push(number)?;
        rest = after;
    }
    Ok(Some(numbers))
}

/// The proof line of a line, which stands here without its LF; else the first of want of memory,
/// wrong words and numbers out of range.
pub fn proof_line_of(alloc: Global, line: &[u8]) -> Result<Line, Unread>
    ensures found { IfOk result (λ found. (proof_words found ≡ words_of line.now) × IsTrue (is_line_in_range found)) }
    ensures why { IfErr result (λ why. IsUnread (words_of line.now) why) }
{
    let (kind, others) = cut_word(line);
    if !is_word(kind, "line") {
        return Err(Unread::Syntax);
    }
    let Some(read) = literals_of(alloc, others)? else {
        return Err(Unread::Syntax);
    };
    let Some(hints) = numbers_of(alloc, read.hints)? else {
        return Err(Unread::Syntax);
    };
    if !read.in_range {
        return Err(Unread::Range);
    }
    match Line::from_vecs(read.literals, hints) {
        Some(line) => Ok(line),
        None => Err(Unread::Range),
    }
}
