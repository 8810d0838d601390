//! How a race is told: by the lines and the ranks of its calls.
ghost use Rattle.std.specs.Prelude.{◌≡◌, IfOk, false, slice_index, string_bytes, true};
ghost use Rattle.session.specs.Racing.{call_object, caller_words, race_line, race_members, race_object, race_sentence, race_text};

use crate::page::object_with;
use crate::status::UNKNOWN;
use deciding::{Caller, CallerRace};
use std::alloc::{AllocError, Global};

/// The number of the line, from 1, that the call at a place stands in, by the numbers of all calls.
fn line_of(lines: &[usize], place: usize) -> usize
    ensures { result ≡ slice_index lines.now place }
{
    lines.get(place).copied().unwrap_or(0)
}

/// A call by its line and its rank.
pub fn call_words(alloc: Global, lines: &[usize], call: Caller) -> Result<String, AllocError>
    ensures { IfOk result (λ words. string_bytes words ≡ caller_words lines.now call) }
{
    let mut words = String::from_str(alloc, "line ")?;
    words.push_str(&line_of(lines, call.place).to_string(alloc)?)?;
    words.push_str(" of rank ")?;
    words.push_str(&call.rank.to_string(alloc)?)?;
    Ok(words)
}

/// Which call takes any source, what it found, and what may come first.
fn race_sentence(
    alloc: Global,
    finder: &str,
    found: &str,
    other: &str,
) -> Result<String, AllocError>
    ensures { IfOk result (λ words. string_bytes words ≡ race_sentence finder.now found.now other.now) }
{
    let mut words = String::from_str(alloc, finder)?;
    words.push_str(" takes any source: it found ")?;
    words.push_str(found)?;
    words.push_str(", and ")?;
    words.push_str(other)?;
    words.push_str(" may come first\n")?;
    Ok(words)
}

/// The line that tells the calls of a race.
fn race_line(alloc: Global, lines: &[usize], race: CallerRace) -> Result<String, AllocError>
    ensures { IfOk result (λ words. string_bytes words ≡ race_line lines.now race) }
{
    let finder = call_words(alloc, lines, race.finder)?;
    let found = call_words(alloc, lines, race.found)?;
    let other = call_words(alloc, lines, race.other)?;
    race_sentence(alloc, &finder, &found, &other)
}

/// A call as a JSON object.
fn call_object(alloc: Global, lines: &[usize], call: Caller) -> Result<String, AllocError>
    ensures { IfOk result (λ object. string_bytes object ≡ call_object lines.now call) }
{
    let mut object = String::from_str(alloc, "{\"rank\":")?;
    object.push_str(&call.rank.to_string(alloc)?)?;
    object.push_str(",\"line\":")?;
    object.push_str(&line_of(lines, call.place).to_string(alloc)?)?;
    object.push_str("}")?;
    Ok(object)
}

/// The calls of a race as members of a JSON object.
fn race_members(alloc: Global, finder: &str, found: &str, other: &str) -> Result<String, AllocError>
    ensures { IfOk result (λ object. string_bytes object ≡ race_members finder.now found.now other.now) }
{
    let mut object = String::from_str(alloc, "{\"call\":")?;
    object.push_str(finder)?;
    object.push_str(",\"found\":")?;
    object.push_str(found)?;
    object.push_str(",\"other\":")?;
    object.push_str(other)?;
    object.push_str("}")?;
    Ok(object)
}

/// The calls of a race as a JSON object.
fn race_object(alloc: Global, lines: &[usize], race: CallerRace) -> Result<String, AllocError>
    ensures { IfOk result (λ object. string_bytes object ≡ race_object lines.now race) }
{
    let finder = call_object(alloc, lines, race.finder)?;
    let found = call_object(alloc, lines, race.found)?;
    let other = call_object(alloc, lines, race.other)?;
    race_members(alloc, &finder, &found, &other)
}

/// The line that tells a race, and below it the line of its calls.
fn plain_race(alloc: Global, lines: &[usize], race: CallerRace) -> Result<String, AllocError>
    ensures { IfOk result (λ text. string_bytes text ≡ race_text false lines.now race) }
{
    let calls = race_line(alloc, lines, race)?;
    let mut text = String::from_str(alloc, "unknown race\n")?;
    text.push_str(&calls)?;
    Ok(text)
}

/// A race as one JSON object.
fn json_race(alloc: Global, lines: &[usize], race: CallerRace) -> Result<String, AllocError>
    ensures { IfOk result (λ text. string_bytes text ≡ race_text true lines.now race) }
{
    let object = race_object(alloc, lines, race)?;
    object_with(alloc, "unknown race", UNKNOWN, "race", &object)
}

/// What tells a race, plain or as a JSON object. `lines` has the number of the line of each call of
/// the program.
pub fn race_text(
    alloc: Global,
    lines: &[usize],
    race: CallerRace,
    json: bool,
) -> Result<String, AllocError>
    ensures { IfOk result (λ text. string_bytes text ≡ race_text json lines.now race) }
{
    if json {
        json_race(alloc, lines, race)
    } else {
        plain_race(alloc, lines, race)
    }
}
