//! The lines of a text, as they are shown.

use std::alloc::{AllocError, Global};

/// The most characters of a line or of a word that are shown.
const MOST_SHOWN: usize = 60;

/// A line of a text, by its number.
#[derive(Clone, Copy)]
pub enum FoundLine<'a> {
    /// It stands there, without its LF.
    Whole(&'a [u8]),
    /// It is the last one, and lacks its LF.
    Unended(&'a [u8]),
    /// The text ends above it.
    Missing,
}

/// What stands between the LFs of a text. What follows the last one is the last item.
pub fn lines_of(alloc: Global, text: &[u8]) -> Result<Vec<&[u8]>, AllocError> {
    text.split(|byte| *byte == b'\n').collect(alloc)
}

/// The line of this number, from 1.
pub fn find<'a>(lines: &[&'a [u8]], number: usize) -> FoundLine<'a> {
    let Some(line) = lines.get(number.saturating_sub(1)).copied() else {
        return FoundLine::Missing;
    };
    if number < lines.len() {
        FoundLine::Whole(line)
    } else if line.is_empty() {
        FoundLine::Missing
    } else {
        FoundLine::Unended(line)
    }
}

/// The bytes of the line of this number, from 1.
pub fn bytes_at<'a>(lines: &[&'a [u8]], number: usize) -> &'a [u8] {
    match find(lines, number) {
        FoundLine::Whole(line) | FoundLine::Unended(line) => line,
        FoundLine::Missing => b"",
    }
}

/// Shows bytes, cut where they are many, with a question mark for each that isn't printed as
/// itself.
pub fn put_shown(out: &mut String, bytes: &[u8]) -> Result<(), AllocError> {
    for byte in bytes.iter().take(MOST_SHOWN) {
        if byte.is_ascii_graphic() || *byte == b' ' {
            out.push(char::from(*byte))?;
        } else {
            out.push('?')?;
        }
    }
    if bytes.len() > MOST_SHOWN {
        out.push_str("..")?;
    }
    Ok(())
}
