//! The map of a smaller text.

ghost use Rattle.std.specs.Prelude.{◌≡◌, ◌<◌, ◌≤◌, ◌++◌, ◌+◌, ◌^◌, IfOk, OnOk, map};
ghost use Rattle.shrinking.specs.Left.{words_in};
ghost use Rattle.shrinking.specs.Mapping.{begins, entries, entry, entry_if_call, is_call, map_text, ranks_after, shown_byte};

use crate::lines::lines_of;
use places::heading_of;
use plaintext::words_of;
use std::alloc::{AllocError, Global};
use writing::{Part, put_parts};

/// Whether the first of the words is this one.
fn begins(word: &str, words: &[&[u8]]) -> bool
    ensures { result ≡ begins word.now (map (λ w. w.now) words.now) }
{
    match words.first() {
        Some(first) => *first == word.as_bytes(),
        None => word.is_empty(),
    }
}

/// Whether a line of these words is a call's.
fn is_call(words: &[&[u8]]) -> bool
    ensures { result ≡ is_call (map (λ w. w.now) words.now) }
{
    let is_other = begins("rank", words)
        || begins("ranks", words)
        || begins("policy", words)
        || begins("", words);
    !is_other
}

/// A path as it can be shown: with a question mark for each byte that isn't printable ASCII.
pub fn shown(alloc: Global, path: &str) -> Result<Vec<u8>, AllocError>
    ensures { IfOk result (λ shown. shown.items ≡ map shown_byte path.now) }
{
    path.as_bytes()
        .iter()
        .map(|byte| if *byte < 32 || *byte > 126 {
            b'?'
        } else {
            *byte
        })
        .collect(alloc)
}

/// Adds the line of the map on the line of the smaller text with this number.
fn put_entry(
    out: &mut Vec<u8>,
    path: &[u8],
    line: u64,
    rank: u64,
    number: usize,
) -> Result<(), AllocError>
    ensures { OnOk result (out.new.items ≡ out.old.items ++ entry path.now line rank number) }
{
    let parts = [
        Part::Text("line "),
        Part::Number(line as u128),
        Part::Text(": rank "),
        Part::Number(rank as u128),
        Part::Text(", "),
        Part::Bytes(path),
        Part::Text(":"),
        Part::Number(number as u128),
        Part::Text("\n"),
    ];
    put_parts(out, &parts)
}

/// Adds the line of the map on a line of these words, where it is a call's.
fn put_entry_of(
    out: &mut Vec<u8>,
    path: &[u8],
    line: u64,
    ranks: u64,
    words: &[&[u8]],
    number: usize,
) -> Result<(), AllocError>
    ensures { OnOk result (out.new.items ≡ out.old.items ++ entry_if_call path.now line ranks (map (λ w. w.now) words.now) number) }
{
    if is_call(words) {
        return put_entry(out, path, line, ranks.saturating_sub(1), number);
    }
    Ok(())
}

/// How many ranks have their headings above what follows a line of these words.
fn ranks_after(ranks: u64, words: &[&[u8]]) -> u64
    requires { ranks + 1 < 2 ^ 64 }
    ensures ranks { result ≡ ranks_after ranks (map (λ w. w.now) words.now) }
    ensures few { result ≤ ranks + 1 }
{
    if begins("rank", words) {
        return ranks + 1;
    }
    ranks
}

/// Adds the line of the map on a line of the smaller text, and answers how many ranks have their
/// headings above what follows.
fn put_line_of(
    alloc: Global,
    out: &mut Vec<u8>,
    path: &[u8],
    line: u64,
    ranks: u64,
    text: &[u8],
    number: usize,
) -> Result<u64, AllocError>
    requires { ranks + 1 < 2 ^ 64 }
    ensures written { IfOk result (λ next. out.new.items ≡ out.old.items ++ entry_if_call path.now line ranks (words_in text.now) number) }
    ensures ranks { IfOk result (λ next. next ≡ ranks_after ranks (words_in text.now)) }
    ensures few { IfOk result (λ next. next ≤ ranks + 1) }
{
    let words = words_of(alloc, text)?;
    put_entry_of(out, path, line, ranks, &words, number)?;
    Ok(ranks_after(ranks, &words))
}

/// Adds the entries of the lines, each with the number of the line of the given text that it is
/// left of.
fn put_entries(
    alloc: Global,
    out: &mut Vec<u8>,
    path: &[u8],
    lines: &[&[u8]],
    numbers: &[usize],
) -> Result<(), AllocError>
    ensures { OnOk result (out.new.items ≡ out.old.items ++ entries path.now 1 0 (map (λ line. line.now) lines.now) numbers.now) }
{
    let mut ranks: u64 = 0;
    for (place, number) in numbers.iter().enumerate() {
        let Some(line) = lines.get(place) else {
            return Ok(());
        };
        ranks = put_line_of(alloc, out, path, place as u64 + 1, ranks, line, *number)?;
    }
    Ok(())
}

/// The map of a smaller text: for each call line the path of the given text, and the number of the
/// line there. `explain --map` reads it.
pub fn left_map(
    alloc: Global,
    path: &str,
    text: &[u8],
    numbers: &[usize],
) -> Result<Vec<u8>, AllocError>
    ensures { IfOk result (λ map. map.items ≡ map_text path.now text.now numbers.now) }
{
    let path = shown(alloc, path)?;
    let heading = heading_of(alloc, text)?;
    let lines = lines_of(alloc, text)?;
    let mut out = Vec::from_slice(alloc, b"map 1\n")?;
    out.extend_from_slice(heading.as_bytes())?;
    out.push(b'\n')?;
    put_entries(alloc, &mut out, &path, &lines, numbers)?;
    out.extend_from_slice(b"end\n")?;
    Ok(out)
}
