//! Lines in color.

ghost use Rattle.std.specs.Prelude.{◌≡◌, ◌++◌, IfNone, IfOk, IfSome, OnOk, [], ◌<◌, ◌∷◌, length, option_map, Some};
ghost use Rattle.plaintext.specs.Plain.{text_lines};
ghost use Rattle.coloring.specs.Colors.{color_of, colored, colored_line, painted};

use plaintext::next_line;
use std::alloc::{AllocError, Global};

/// The number of a line's color, by the words that it begins with.
fn color_of(line: &[u8]) -> Option<&'static [u8]>
    ensures { option_map (λ color. color.now) result ≡ color_of line.now }
{
    if line.starts_with(b"no deadlock") {
        Some(b"32")
    } else if line.starts_with(b"deadlock") || line.starts_with(b"cycle: ") {
        Some(b"31")
    } else if line.starts_with(b"unknown ") || line.starts_with(b"refused ") {
        Some(b"33")
    } else {
        None
    }
}

/// Adds a line in this color.
fn put_painted(out: &mut Vec<u8>, color: &[u8], line: &[u8]) -> Result<(), AllocError>
    ensures { OnOk result (out.new.items ≡ out.old.items ++ painted (Some color.now) line.now) }
{
    out.extend_from_slice(b"\x1b[1;")?;
    out.extend_from_slice(color)?;
    out.extend_from_slice(b"m")?;
    out.extend_from_slice(line)?;
    out.extend_from_slice(b"\x1b[0m")
}

/// Adds a line in its color.
fn put_line(out: &mut Vec<u8>, line: &[u8]) -> Result<(), AllocError>
    ensures { OnOk result (out.new.items ≡ out.old.items ++ colored_line line.now) }
{
    match color_of(line) {
        None => out.extend_from_slice(line),
        Some(color) => put_painted(out, color, line),
    }
}

/// The first line of a text with its LF, and what follows; none where there is no LF.
fn first_line(text: &[u8]) -> Option<(&[u8], &[u8])>
    ensures none { IfNone result (text_lines text.now ≡ text.now ∷ []) }
    ensures some { IfSome result (λ found. text_lines text.now ≡ found.0.now ∷ text_lines found.1.now) }
    ensures shorter { IfSome result (λ found. length found.1.now < length text.now) }
{
    let (line, _behind) = next_line(text)?;
    Some(text.split_at(line.len() + 1))
}

/// The text with a color for each line that tells an answer or a cycle, by the escape sequences of
/// ECMA-48, which terminals know: green for `no deadlock`, red for `deadlock` and `cycle: `, yellow
/// for `unknown ` and `refused `. The only error is want of memory.
pub fn colored(alloc: Global, text: &[u8]) -> Result<Vec<u8>, AllocError>
    ensures { IfOk result (λ told. told.items ≡ colored text.now) }
{
    let mut out = Vec::new(alloc);
    let mut rest = text;
    while let Some((line, behind)) = first_line(rest) {
        put_line(&mut out, line)?;
        rest = behind;
    }
    put_line(&mut out, rest)?;
    Ok(out)
}
