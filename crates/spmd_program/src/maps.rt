//! The map of a program's text.

ghost use Rattle.std.specs.Prelude.{◌≡◌, ◌++◌, ◌-◌, ◌≤◌, IfOk, OnOk, decimal, map, slice_get};
ghost use Rattle.spmd_program.specs.Lines.{begins_line};
ghost use Rattle.spmd_program.specs.Entries.{entries_of, entry_of_call, words_of_place};
ghost use Rattle.spmd_program.specs.Maps.{hex_digit, hex_text, map_head, program_map, said_words, shown_path_byte, checksum_of};

use crate::said::said_lines;
use crate::told::{put, put_turns};
use plaintext::put_number;
use std::alloc::{AllocError, Global};
use unroll::{Placed, Turn, UnrolledCall};

/// The checksum of Fowler, Noll and Vo in its form `1a`, of 64 bits.
fn sum_of(bytes: &[u8]) -> u64
    ensures { result ≡ checksum_of bytes.now }
{
    let mut sum: u64 = 0xcbf2_9ce4_8422_2325;
    for byte in bytes {
        sum = (sum ^ u64::from(*byte)).wrapping_mul(0x0000_0100_0000_01b3);
    }
    sum
}

fn hex_digit(number: u64) -> u8
    requires { number ≤ 15 }
    ensures { result ≡ hex_digit number }
{
    if number < 10 {
        b'0' + number as u8
    } else {
        b'a' - 10 + number as u8
    }
}

/// Adds so many hexadecimal digits of a number.
fn put_hex(out: &mut Vec<u8>, count: u32, number: u64) -> Result<(), AllocError>
    ensures { OnOk result (out.new.items ≡ out.old.items ++ hex_text count number) }
{
    if count == 0 {
        return Ok(());
    }
    put_hex(out, count - 1, number / 16)?;
    out.push(hex_digit(number % 16))?;
    Ok(())
}

fn put_decimal(alloc: Global, out: &mut Vec<u8>, number: u64) -> Result<(), AllocError>
    ensures { OnOk result (out.new.items ≡ out.old.items ++ decimal number) }
{
    let digits = number.to_string(alloc)?;
    out.extend_from_slice(digits.as_bytes())
}

/// Adds the lines that name the text of the map.
fn put_head(alloc: Global, out: &mut Vec<u8>, text: &[u8]) -> Result<(), AllocError>
    ensures { OnOk result (out.new.items ≡ out.old.items ++ map_head text.now) }
{
    put(out, "map 1\nof ")?;
    put_decimal(alloc, out, text.len() as u64)?;
    put(out, " bytes, sum ")?;
    put_hex(out, 16, sum_of(text))?;
    put(out, "\n")
}

/// Adds what a line of the SPMD text says, from 1.
fn put_said(out: &mut Vec<u8>, says: &[Vec<u8>], line: u32) -> Result<(), AllocError>
    ensures { OnOk result (out.new.items ≡ out.old.items ++ said_words (slice_get (map (λ words. words.items) says.now) (line - 1))) }
{
    let place = line.saturating_sub(1);
    match says.get(place as usize) {
        None => Ok(()),
        Some(words) => out.extend_from_slice(words.as_slice()),
    }
}

/// A text that has no byte beside printable ASCII.
fn shown(alloc: Global, path: &str) -> Result<Vec<u8>, AllocError>
    ensures { IfOk result (λ shown. shown.items ≡ map shown_path_byte path.now) }
{
    path.as_bytes()
        .iter()
        .map(|byte| if *byte < 32 || *byte > 126 {
            b'?'
        } else {
            *byte
        })
        .collect(alloc)
}

/// What entries of a map are made of: the path of the text, its names, what its lines say, and the
/// turns of loops.
#[derive(Clone, Copy)]
struct Sources<'a> {
    path: &'a [u8],
    names: &'a [Vec<u8>],
    says: &'a [Vec<u8>],
    turns: &'a [Turn],
}

/// Adds the place of a call.
fn put_words(
    alloc: Global,
    out: &mut Vec<u8>,
    sources: &Sources<'_>,
    placed: Placed,
) -> Result<(), AllocError>
    ensures { OnOk result (out.new.items ≡ out.old.items ++ words_of_place sources.now placed) }
{
    out.extend_from_slice(sources.path)?;
    put(out, ":")?;
    put_number(out, placed.line)?;
    put_turns(alloc, out, sources.names, sources.turns, placed.turn, 32)?;
    put(out, ": ")?;
    put_said(out, sources.says, placed.line)
}

/// Adds the line of the map on the line of the text with this number.
fn put_entry(
    alloc: Global,
    out: &mut Vec<u8>,
    sources: &Sources<'_>,
    number: u64,
    placed: Placed,
) -> Result<(), AllocError>
    ensures { OnOk result (out.new.items ≡ out.old.items ++ entry_of_call sources.now number placed) }
{
    put(out, "line ")?;
    put_decimal(alloc, out, number)?;
    put(out, ": rank ")?;
    put_number(out, placed.rank)?;
    put(out, ", ")?;
    put_words(alloc, out, sources, placed)?;
    put(out, "\n")
}

/// Whether a line begins with the call.
pub fn begins_line(call: UnrolledCall) -> bool
    ensures { result ≡ begins_line call }
{
    match call {
        UnrolledCall::WaitAlso { .. } => false,
        _ => true,
    }
}

/// Adds the entries of these calls.
fn put_entries(
    alloc: Global,
    out: &mut Vec<u8>,
    sources: &Sources<'_>,
    calls: &[Placed],
) -> Result<(), AllocError>
    ensures { OnOk result (out.new.items ≡ out.old.items ++ entries_of sources.now 0 calls.now) }
{
    let mut place: u64 = 0;
    for placed in calls {
        if begins_line(placed.call) {
            put_entry(
                alloc,
                out,
                sources,
                place + u64::from(placed.rank) + 4,
                *placed,
            )?;
            place += 1;
        }
    }
    Ok(())
}

/// The map of a program's text that these calls have, which stand rank by rank: for each line of
/// the text the place in the SPMD text at this path that it comes from. `explain --map` reads it.
pub fn map_text(
    alloc: Global,
    path: &str,
    source: &[u8],
    names: &[Vec<u8>],
    turns: &[Turn],
    calls: &[Placed],
    text: &[u8],
) -> Result<Vec<u8>, AllocError>
    ensures { IfOk result (λ map. map.items ≡ program_map path.now names.now source.now turns.now calls.now text.now) }
{
    let path = shown(alloc, path)?;
    let says = said_lines(alloc, source)?;
    let sources = Sources {
        path: path.as_slice(),
        names,
        says: says.as_slice(),
        turns,
    };
    let mut out = Vec::new(alloc);
    put_head(alloc, &mut out, text)?;
    put_entries(alloc, &mut out, &sources, calls)?;
    put(&mut out, "end\n")?;
    Ok(out)
}
