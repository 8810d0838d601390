//! What the lines of an SPMD text say.

ghost use Rattle.std.specs.Prelude.{◌≡◌, ◌++◌, IfOk, OnOk, map};
ghost use Rattle.plaintext.specs.Plain.{text_lines};
ghost use Rattle.spmd_program.specs.Maps.{blank_before_byte, is_blank_byte, said_lines, words_of_line};

use plaintext::next_line;
use std::alloc::{AllocError, Global};

fn is_blank(byte: u8) -> bool
    ensures { result ≡ is_blank_byte byte }
{
    byte == b'\n' || byte == b' ' || byte == b'\t' || byte == b'\r'
}

/// Adds the blank that stands before a byte of a line, where words began and blanks came or not.
fn put_blank(out: &mut Vec<u8>, begun: bool, blank: bool, byte: u8) -> Result<(), AllocError>
    ensures { OnOk result (out.new.items ≡ out.old.items ++ blank_before_byte begun blank byte) }
{
    if begun && blank && byte != b'<' {
        out.push(b' ')?;
    }
    Ok(())
}

/// What a line says up to a comment, with single blanks between its words, and none before `<`: a
/// map has callers behind that mark.
fn words_of(alloc: Global, line: &[u8]) -> Result<Vec<u8>, AllocError>
    ensures { IfOk result (λ words. words.items ≡ words_of_line line.now) }
{
    let mut out = Vec::new(alloc);
    let mut begun = false;
    let mut blank = false;
    for byte in line {
        if *byte == b'#' {
            return Ok(out);
        }
        if is_blank(*byte) {
            blank = true;
        } else {
            put_blank(&mut out, begun, blank, *byte)?;
            out.push(*byte)?;
            begun = true;
            blank = false;
        }
    }
    Ok(out)
}

/// What each line of a text says.
pub fn said_lines(alloc: Global, text: &[u8]) -> Result<Vec<Vec<u8>>, AllocError>
    ensures { IfOk result (λ lines. map (λ line. line.items) lines.items ≡ said_lines text.now) }
{
    let mut lines = Vec::new(alloc);
    let mut rest = text;
    while let Some((line, behind)) = next_line(rest) {
        lines.push(words_of(alloc, line)?)?;
        rest = behind;
    }
    lines.push(words_of(alloc, rest)?)?;
    Ok(lines)
}
