//! Texts put together of parts.

ghost use Rattle.std.specs.Prelude.{◌≡◌, ◌++◌, OnOk};
ghost use Rattle.std.specs.List.{flat_map};
ghost use Rattle.writing.specs.Parts.{part_text};

use crate::bytes::{put_number, put_text};
use std::alloc::AllocError;

/// A part of a text.
#[derive(Clone, Copy)]
pub enum Part<'a> {
    /// Words as they stand.
    Text(&'a str),
    /// Words that a text of another kind has.
    Bytes(&'a [u8]),
    /// A number, as its numeral.
    Number(u128),
}

/// Writes a part.
fn put_part(out: &mut Vec<u8>, part: &Part<'_>) -> Result<(), AllocError>
    ensures { OnOk result (out.new.items ≡ out.old.items ++ part_text part.now) }
{
    match part {
        Part::Text(text) => put_text(out, text),
        Part::Bytes(bytes) => out.extend_from_slice(bytes),
        Part::Number(number) => put_number(out, *number),
    }
}

/// Writes the parts, one after another.
pub fn put_parts(out: &mut Vec<u8>, parts: &[Part<'_>]) -> Result<(), AllocError>
    ensures { OnOk result (out.new.items ≡ out.old.items ++ flat_map part_text parts.now) }
{
    for part in parts {
        put_part(out, part)?;
    }
    Ok(())
}
