//! Lines whose words leave open no more than what a run did.

ghost use Rattle.std.specs.List.{slice_split};
ghost use Rattle.std.specs.Prelude.{◌≡◌, ◌++◌, ◌==◌, IfOk, OnOk, codes, map};
ghost use Rattle.choices.specs.Pins.{blank_before, communicator_ending, four_lines, front_letters, is_joined, are_same_bytes, letter_line, line_with, message_line, mode_line, part_ending, source_place, spaced_word, told_word, told_words_from};

use narrowing::ChoiceTaken;
use plaintext::{put_number, words_of};
use std::alloc::{AllocError, Global};

/// How many letters stand before the `send` of a line.
fn front_letters(line: &[u8]) -> usize
    ensures { result ≡ front_letters line.now }
{
    if line.starts_with(b"i") { 1 } else { 0 }
}

/// Whether a line is a `sendrecv`.
pub fn is_joined(line: &[u8]) -> bool
    ensures { result ≡ is_joined line.now }
{
    line.starts_with(b"sendrecv")
}

/// A send's line with a letter before its `send`.
fn with_letter(alloc: Global, line: &[u8], letter: u8) -> Result<Vec<u8>, AllocError>
    ensures { IfOk result (λ out. out.items ≡ letter_line letter line.now) }
{
    let front = front_letters(line).min(line.len());
    let mut out = Vec::from_slice(alloc, &line[..front])?;
    out.push(letter)?;
    out.extend_from_slice(&line[front..])?;
    Ok(out)
}

/// Whether a word is spelled so.
fn is_spelled(word: &[u8], text: &[u8]) -> bool
    ensures { result ≡ are_same_bytes word.now text.now }
{
    word == text
}

/// The place, from 0, of the word that names the source: the one before the tag, behind which
/// `comm` and a number may stand.
fn source_place(words: &[&[u8]]) -> usize
    ensures { result ≡ source_place (map (λ w. w.now) words.now) }
{
    let last_but_one = words.len().saturating_sub(2);
    let word = words.get(last_but_one).copied().unwrap_or(b"");
    if is_spelled(word, b"comm") {
        last_but_one.saturating_sub(2)
    } else {
        last_but_one
    }
}

/// Adds a blank, but before the first word.
fn put_blank(out: &mut Vec<u8>, place: usize) -> Result<(), AllocError>
    ensures { OnOk result (out.new.items ≡ out.old.items ++ blank_before place) }
{
    if place == 0 {
        return Ok(());
    }
    out.push(b' ')?;
    Ok(())
}

/// Adds the word at a place, or for a star the source or the tag.
fn put_word(
    out: &mut Vec<u8>,
    word: &[u8],
    place: usize,
    at: usize,
    source: u32,
    tag: u32,
) -> Result<(), AllocError>
    ensures { OnOk result (out.new.items ≡ out.old.items ++ (blank_before place ++ told_word source tag at place word.now)) }
{
    put_blank(out, place)?;
    if !is_spelled(word, b"*") {
        out.extend_from_slice(word)
    } else if place == at {
        put_number(out, source)
    } else {
        put_number(out, tag)
    }
}

/// Adds words, with the source and the tag in the place of stars.
fn put_words(
    out: &mut Vec<u8>,
    words: &[&[u8]],
    at: usize,
    source: u32,
    tag: u32,
) -> Result<(), AllocError>
    ensures { OnOk result (out.new.items ≡ out.old.items ++ told_words_from source tag at 0 (map (λ w. w.now) words.now)) }
{
    for (place, word) in words.iter().enumerate() {
        put_word(out, word, place, at, source, tag)?;
    }
    Ok(())
}

/// The line of a call that finds messages, with this source and this tag in the place of stars.
fn with_message(alloc: Global, line: &[u8], source: u32, tag: u32) -> Result<Vec<u8>, AllocError>
    ensures { IfOk result (λ out. out.items ≡ message_line source tag line.now) }
{
    let words = words_of(alloc, line)?;
    let at = source_place(&words);
    let mut out = Vec::new(alloc);
    put_words(&mut out, &words, at, source, tag)?;
    Ok(out)
}

/// Adds a blank and the word at a place, from 0.
fn put_spaced(out: &mut Vec<u8>, words: &[&[u8]], place: usize) -> Result<(), AllocError>
    ensures { OnOk result (out.new.items ≡ out.old.items ++ spaced_word (map (λ w. w.now) words.now) place) }
{
    out.push(b' ')?;
    out.extend_from_slice(words.get(place).copied().unwrap_or(b""))
}

/// Adds the words that name a communicator, where they follow the five words of a `sendrecv`.
fn put_communicator(out: &mut Vec<u8>, words: &[&[u8]]) -> Result<(), AllocError>
    ensures { OnOk result (out.new.items ≡ out.old.items ++ communicator_ending (map (λ w. w.now) words.now)) }
{
    let sixth = words.get(5).copied().unwrap_or(b"");
    if !is_spelled(sixth, b"comm") {
        return Ok(());
    }
    put_spaced(out, words, 5)?;
    put_spaced(out, words, 6)
}

/// Adds the end of a line of one part of a `sendrecv`: the words at these places, for its rank and
/// its tag, and its communicator.
fn put_part(out: &mut Vec<u8>, words: &[&[u8]], rank: usize, tag: usize) -> Result<(), AllocError>
    ensures { OnOk result (out.new.items ≡ out.old.items ++ part_ending (map (λ w. w.now) words.now) rank tag) }
{
    put_spaced(out, words, rank)?;
    put_spaced(out, words, tag)?;
    put_communicator(out, words)?;
    out.push(b'\n')?;
    Ok(())
}

/// Adds the waits for the two parts of a `sendrecv`.
fn put_waits(out: &mut Vec<u8>) -> Result<(), AllocError>
    ensures { OnOk result (out.new.items ≡ out.old.items ++ codes "wait sendofsendrecv\nwait recvofsendrecv") }
{
    out.extend_from_slice(b"wait sendofsendrecv\nwait recvofsendrecv")
}

/// The four calls of a `sendrecv`, with a letter before its `send`.
fn in_four_lines(alloc: Global, line: &[u8], letter: u8) -> Result<Vec<u8>, AllocError>
    ensures { IfOk result (λ out. out.items ≡ four_lines letter (slice_split (λ b. b == 32) line.now)) }
{
    let words = words_of(alloc, line)?;
    let mut out = Vec::from_slice(alloc, b"i")?;
    out.push(letter)?;
    out.extend_from_slice(b"send sendofsendrecv")?;
    put_part(&mut out, &words, 1, 2)?;
    out.extend_from_slice(b"irecv recvofsendrecv")?;
    put_part(&mut out, &words, 3, 4)?;
    put_waits(&mut out)?;
    Ok(out)
}

/// A send's line with a letter before its `send`, or a `sendrecv` as its four calls.
fn with_mode(alloc: Global, line: &[u8], letter: u8) -> Result<Vec<u8>, AllocError>
    ensures { IfOk result (λ out. out.items ≡ mode_line letter line.now) }
{
    if is_joined(line) {
        in_four_lines(alloc, line, letter)
    } else {
        with_letter(alloc, line, letter)
    }
}

/// The words in place of a line that leave open no more than what a run did: a send in buffered or
/// in synchronous mode, that of a `sendrecv` in four lines, its four calls; or a source and a tag
/// in the place of stars.
pub fn line_with(alloc: Global, line: &[u8], taken: ChoiceTaken) -> Result<Vec<u8>, AllocError>
    ensures { IfOk result (λ out. out.items ≡ line_with taken line.now) }
{
    match taken {
        ChoiceTaken::Buffered => with_mode(alloc, line, b'b'),
        ChoiceTaken::NotBuffered => with_mode(alloc, line, b's'),
        ChoiceTaken::Message { source, tag } => with_message(alloc, line, source, tag),
    }
}
