//! Which lines of a text are left in a smaller one.

ghost use Rattle.std.specs.Prelude.{◌≡◌, ◌⊎◌, ◌<◌, ◌≤◌, ◌+◌, ◌-◌, IfOk, IsTrue, [], codes, get_or, length, map, ℕ};
ghost use Rattle.shrinking.specs.Left.{AreLeft, AreRenumbered, AreSome, IsLeftAt, IsLineLeft, IsNumeral, IsRankPlace, IsSameWord, IsShorterWait, is_first_at, ranks_at};

use crate::lines::{count_lines, lines_of};
use calltext::Verb;
use plaintext::{is_word, number_of, words_of};
use std::alloc::{AllocError, Global};

/// Whether the first rank that a call names stands at this place, behind a name or not.
fn is_first_at(named: bool, place: usize) -> bool
    ensures { result ≡ is_first_at named place }
{
    if named { place == 2 } else { place == 1 }
}

/// Whether a call line that begins so names a rank at this place, from 0.
fn ranks_at(verb: Verb, place: usize) -> bool
    ensures { result ≡ ranks_at verb place }
{
    match verb {
        Verb::Send { started, .. } => is_first_at(started, place),
        Verb::Receive { started } => is_first_at(started, place),
        Verb::MatchedProbe => place == 2,
        Verb::Probe => place == 1,
        Verb::MatchedReceive { .. } => false,
        Verb::Wait => false,
        Verb::WaitAll => false,
        Verb::SendReceive => place == 1 || place == 3,
    }
}

/// Whether a line that begins with this word names a rank at this place, from 0, or how many ranks
/// there are.
fn is_rank_place(first: &[u8], place: usize) -> bool
    ensures { IsTrue result → IsRankPlace first.now place }
{
    match Verb::find(first) {
        Some(verb) => ranks_at(verb, place),
        None => place == 1,
    }
}

/// Whether the word is a number's.
fn is_numeral(word: &[u8]) -> bool
    ensures { IsTrue result → IsNumeral word.now }
{
    number_of(word).is_some()
}

/// Whether the two are numbers of ranks at this place of a line that begins with this word.
fn are_ranks(first: &[u8], place: usize, old: &[u8], new: &[u8]) -> bool
    ensures { IsTrue result → IsSameWord first.now place old.now new.now }
{
    is_rank_place(first, place) && is_numeral(old) && is_numeral(new)
}

/// Whether the words are the same.
fn are_same(one: &[u8], other: &[u8]) -> bool
    ensures { IsTrue result → one.now ≡ other.now }
{
    one == other
}

/// Whether the one word may stand for the other at this place of a line that begins with this word.
fn is_same_word(first: &[u8], place: usize, old: &[u8], new: &[u8]) -> bool
    ensures { IsTrue result → IsSameWord first.now place old.now new.now }
{
    if are_same(old, new) {
        return true;
    }
    are_ranks(first, place, old, new)
}

/// Whether the words are the same, but for numbers of ranks.
fn are_renumbered(olds: &[&[u8]], news: &[&[u8]]) -> bool
    ensures { IsTrue result → AreRenumbered (map (λ w. w.now) olds.now) (map (λ w. w.now) news.now) }
{
    if olds.len() != news.len() {
        return false;
    }
    let (Some(first), Some(front)) = (news.first(), olds.first()) else {
        return false;
    };
    if !are_same(front, first) {
        return false;
    }
    for (place, word) in news.iter().enumerate() {
        if !is_same_word(first, place, olds[place], word) {
            return false;
        }
    }
    true
}

/// The place behind a word, where it stands at this place; else this place.
fn place_behind(news: &[&[u8]], place: usize, word: &[u8]) -> usize
    requires { place ≤ length news.now }
    ensures behind { (result ≡ place) ⊎ ((result ≡ place + 1) × (place < length (map (λ w. w.now) news.now)) ×
        (get_or (map (λ w. w.now) news.now) place [] ≡ word.now)) }
    ensures within { result ≤ length news.now }
{
    match news.get(place) {
        Some(new) => if are_same(new, word) {
            place + 1
        } else {
            place
        },
        None => place,
    }
}

/// Whether the words are some of the other ones, in their order.
fn are_some(olds: &[&[u8]], news: &[&[u8]]) -> bool
    ensures { IsTrue result → AreSome (map (λ w. w.now) olds.now) (map (λ w. w.now) news.now) }
{
    let mut place: usize = 0;
    for word in olds {
        place = place_behind(news, place, word);
    }
    place == news.len()
}

/// Whether the words begin a wait for several requests.
fn is_wait(words: &[&[u8]]) -> bool
    ensures { IsTrue result → get_or (map (λ w. w.now) words.now) 0 [] ≡ codes "waitall" }
{
    match words.first() {
        Some(first) => is_word(first, "waitall"),
        None => false,
    }
}

/// Whether the words are those of a wait for some of the requests that the other one waits for.
fn is_shorter_wait(olds: &[&[u8]], news: &[&[u8]]) -> bool
    ensures { IsTrue result → IsShorterWait (map (λ w. w.now) olds.now) (map (λ w. w.now) news.now) }
{
    is_wait(olds) && is_wait(news) && are_some(olds, news)
}

/// Whether the words are left of the other ones.
fn are_words_left(olds: &[&[u8]], news: &[&[u8]]) -> bool
    ensures { IsTrue result → AreRenumbered (map (λ w. w.now) olds.now) (map (λ w. w.now) news.now) ⊎
        IsShorterWait (map (λ w. w.now) olds.now) (map (λ w. w.now) news.now) }
{
    are_renumbered(olds, news) || is_shorter_wait(olds, news)
}

/// Whether the line is left of the other one.
fn is_line_left(alloc: Global, old: &[u8], new: &[u8]) -> Result<bool, AllocError>
    ensures { IfOk result (λ left. IsTrue left → IsLineLeft old.now new.now) }
{
    let olds = words_of(alloc, old)?;
    let news = words_of(alloc, new)?;
    Ok(are_words_left(&olds, &news))
}

/// Whether the line at this place of the smaller text, from 0, is left of the one of the given text
/// that this number, from 1, names.
fn is_left_at(
    alloc: Global,
    olds: &[&[u8]],
    news: &[&[u8]],
    number: usize,
    place: usize,
) -> Result<bool, AllocError>
    ensures { IfOk result (λ left. IsTrue left
        → IsLineLeft (get_or (map (λ line. line.now) olds.now) (number - 1) []) (get_or (map (λ line. line.now) news.now) place [])) }
{
    let (Some(old), Some(new)) = (olds.get(number.saturating_sub(1)), news.get(place)) else {
        return Ok(false);
    };
    is_line_left(alloc, old, new)
}

/// Whether each line of the smaller text is left of the one of the given text that its number, from
/// 1, names, and the numbers rise.
fn are_lines_left(
    alloc: Global,
    given: &[u8],
    text: &[u8],
    numbers: &[usize],
) -> Result<bool, AllocError>
    ensures { IfOk result (λ left. IsTrue left → (place : ℕ) → place < length numbers.now → IsLeftAt given.now text.now numbers.now place) }
{
    let olds = lines_of(alloc, given)?;
    let news = lines_of(alloc, text)?;
    let most = count_lines(given);
    let mut last: usize = 0;
    for (place, number) in numbers.iter().enumerate() {
        if *number <= last || *number > most {
            return Ok(false);
        }
        if !is_left_at(alloc, &olds, &news, *number, place)? {
            return Ok(false);
        }
        last = *number;
    }
    Ok(true)
}

/// Whether these are the numbers, from 1, of the lines of the given text that the lines of the
/// smaller one are left of.
pub fn are_left(
    alloc: Global,
    given: &[u8],
    text: &[u8],
    numbers: &[usize],
) -> Result<bool, AllocError>
    ensures { IfOk result (λ left. IsTrue left → AreLeft given.now text.now numbers.now) }
{
    if numbers.len() != count_lines(text) {
        return Ok(false);
    }
    are_lines_left(alloc, given, text, numbers)
}
