//! The map of a program's text.

ghost use Rattle.std.specs.Prelude.{◌≡◌, ◌≤◌, ◌+◌, ◌++◌, ◌∷◌, ◌↔◌, [], true, false, codes, IfErr, IfNone, IfOk, IfSome, IsTrue, List, ℕ, Some, length, slice_get, string_bytes};
ghost use Rattle.plaintext.specs.Plain.{text_lines};
ghost use Rattle.places.specs.Maps.{AreFrom, HasEntry, IsMapFault, IsMapOf, IsRemark, StartsWith, map_heading, hex_digits};
ghost use Rattle.places.specs.parts.Noting.{HasNoPlace, IsTakenIf, Notes};
ghost use Rattle.places.specs.declared.entries.MapEntry.{MapEntry};

use crate::entries::{MapEntry, entry_of};
use crate::sums::sum_of;
use plaintext::{MOST, next_line, number_of};
use std::alloc::{AllocError, Global};
use thiserror::Error;

/// Why bytes aren't the map of a text.
#[derive(Clone, Copy, Debug, PartialEq, Eq, Error)]
pub enum MapFault {
    /// Memory ran out.
    #[error("memory")]
    Memory,
    /// The line of this number, from 1, may not stand there, or is missing.
    #[error("map line {line}")]
    Line { line: usize },
    /// The map is that of another text.
    #[error("map of another text")]
    OtherText,
}

impl From<AllocError> for MapFault {
    ghost use Rattle.places.specs.declared.map.MapFault.{MapFault};

    ghost from_gives = { λ _ fault. fault ≡ MapFault.Memory };

    fn from(_error: AllocError) -> MapFault {
        MapFault::Memory
    }
}

/// What a map says of the lines of its text.
#[derive(Drop)]
pub struct Places<'a> {
    /// For each line, from 0, what is said of it. Lines count from 1.
    entries: Vec<Option<MapEntry<'a>>>,
}

/// Sixteen hexadecimal digits of a number.
fn hex_digits(alloc: Global, number: u64) -> Result<String, AllocError>
    ensures { IfOk result (λ text. string_bytes text ≡ hex_digits number) }
{
    format!(in alloc; "{number:016x}")
}

/// The line, without its LF, by which a map names its text.
pub fn heading_of(alloc: Global, text: &[u8]) -> Result<String, AllocError>
    ensures { IfOk result (λ line. string_bytes line ≡ map_heading text.now) }
{
    let mut line = String::from_str(alloc, "of ")?;
    line.push_str(&text.len().to_string(alloc)?)?;
    line.push_str(" bytes, sum ")?;
    line.push_str(&hex_digits(alloc, sum_of(text))?)?;
    Ok(line)
}

/// What stands behind the first two lines of a map of the text with this heading.
fn behind_heading<'a>(map: &'a [u8], text_heading: &[u8]) -> Result<&'a [u8], MapFault>
    ensures ok { IfOk result (λ rest. text_lines map.now ≡
        (codes "map 1" ++ 10 ∷ []) ∷ (text_heading.now ++ 10 ∷ []) ∷ text_lines rest.now) }
    ensures shorter { IfOk result (λ rest. length rest.now + 2 ≤ length map.now) }
    ensures fault { IfErr result (λ fault. (text : List ℕ) → text_heading.now ≡ map_heading text → IsMapFault text map.now fault) }
{
    let Some((first, behind)) = next_line(map) else {
        return Err(MapFault::Line { line: 1 });
    };
    if !are_same(first, b"map 1") {
        return Err(MapFault::Line { line: 1 });
    }
    let Some((second, behind)) = next_line(behind) else {
        return Err(MapFault::Line { line: 2 });
    };
    if are_same(second, text_heading) {
        Ok(behind)
    } else if is_begun(second, b"of ") {
        Err(MapFault::OtherText)
    } else {
        Err(MapFault::Line { line: 2 })
    }
}

/// Whether the line begins so.
fn is_begun(line: &[u8], front: &[u8]) -> bool
    ensures { IsTrue result ↔ StartsWith front.now line.now }
{
    line.starts_with(front)
}

/// Whether a line below the first two, which isn't on a line of the text, may stand there.
fn is_remark(line: &[u8]) -> bool
    ensures { IsTrue result ↔ IsRemark line.now }
{
    is_begun(line, b"text ")
        || is_begun(line, b"note: ")
        || is_begun(line, b"file ")
        || is_begun(line, b"comm ")
        || is_begun(line, b"tag ")
        || are_same(line, b"end")
}

/// Notes an entry, which may stand once for each line. False where it may not stand there.
fn put_entry<'a>(entries: &mut Vec<Option<MapEntry<'a>>>, entry: MapEntry<'a>) -> bool
    ensures noted { result ≡ true → Notes entries.old.items entries.new.items entry.entry }
    ensures not { result ≡ false → HasNoPlace entries.old.items entry.entry.number.now }
{
    let Some(number) = number_of(entry.number) else {
        return false;
    };
    if number == 0 || number >= MOST {
        return false;
    }
    let Some(slot) = entries.get_mut(number as usize) else {
        return false;
    };
    if slot.is_some() {
        return false;
    }
    *slot = Some(entry);
    true
}

/// Notes a line below the first two, where it may stand there.
fn put_line<'a>(entries: &mut Vec<Option<MapEntry<'a>>>, line: &'a [u8]) -> bool
    ensures { IsTakenIf result entries.old.items entries.new.items line.now }
{
    match entry_of(line) {
        Some(entry) => put_entry(entries, entry),
        None => is_remark(line),
    }
}

/// How many lines a text has, of which each ends with an LF.
fn line_count(text: &[u8]) -> usize
    ensures count { result + 1 ≡ length (text_lines text.now) }
    ensures few { result ≤ length text.now }
{
    let mut count: usize = 0;
    for byte in text {
        if *byte == b'\n' {
            count += 1;
        }
    }
    count
}

/// What a map says of the lines of this text.
///
/// A map begins with the line `map 1` and the one that names its text, and ends with the line
/// `end`. Between them stand remarks, and at most one line for each line of the text, up to
/// 2,147,483,647. Of a map of another text that is told; else a fault names the first line, from 1,
/// that may not stand there or is missing.
pub fn read_map<'a>(alloc: Global, map: &'a [u8], text: &[u8]) -> Result<Places<'a>, MapFault>
    ensures places { IfOk result (AreFrom map.now) }
    ensures whole { IfOk result (λ _places. IsMapOf text.now map.now) }
    ensures fault { IfErr result (IsMapFault text.now map.now) }
{
    let heading = heading_of(alloc, text)?;
    let mut rest = behind_heading(map, heading.as_bytes())?;
    let mut entries: Vec<Option<MapEntry<'a>>> = vec![in alloc; None; line_count(text) + 1]?;
    let mut last: &[u8] = b"";
    let mut number: usize = 2;
    while let Some((line, behind)) = next_line(rest) {
        number += 1;
        if !put_line(&mut entries, line) {
            return Err(MapFault::Line { line: number });
        }
        last = line;
        rest = behind;
    }
    if are_same(last, b"end") && rest.is_empty() {
        Ok(Places { entries })
    } else {
        Err(MapFault::Line { line: number + 1 })
    }
}

/// Whether the two are the same.
fn are_same(one: &[u8], other: &[u8]) -> bool
    ensures { IsTrue result ↔ (one.now ≡ other.now) }
{
    one == other
}

impl<'a> Places<'a> {
    /// What is said of the line of this number.
    fn entry_at(&self, number: usize) -> Option<MapEntry<'a>>
        ensures some { IfSome result (λ entry. slice_get self.now.entries.items number ≡ Some (Some entry)) }
        ensures none { IfNone result ((entry : MapEntry) → slice_get self.now.entries.items number ≡ Some (Some entry) → ⊥) }
    {
        match self.entries.get(number) {
            Some(Some(entry)) => Some(*entry),
            Some(None) => None,
            None => None,
        }
    }

    /// What the map says of the line whose number has these digits.
    pub fn words_at(&self, digits: &[u8]) -> Option<&'a [u8]>
        ensures some { IfSome result (λ words. (map : List ℕ) → AreFrom map self.now → HasEntry map digits.now words.now) }
        ensures none { IfNone result ((map words : List ℕ) → AreFrom map self.now → HasEntry map digits.now words → ⊥) }
    {
        let number = number_of(digits)?;
        let entry = self.entry_at(number as usize)?;
        if are_same(entry.number, digits) {
            Some(entry.words)
        } else {
            None
        }
    }
}
