//! The lines of a program's text.

ghost use Rattle.std.specs.Prelude.{◌≡◌, IfOk, map};
ghost use Rattle.shrinking.specs.Left.{lines_in};
ghost use Rattle.shrinking.specs.Shrinking.{count_lines};

use calltext::Verb;
use std::alloc::{AllocError, Global};

/// How many lines the text has.
pub fn count_lines(text: &[u8]) -> usize
    ensures { result ≡ count_lines text.now }
{
    text.iter().filter(|byte| **byte == b'\n').count()
}

/// The lines of a text, without their LFs. What follows the last LF is the last item.
pub fn lines_of(alloc: Global, text: &[u8]) -> Result<Vec<&[u8]>, AllocError>
    ensures { IfOk result (λ lines. map (λ line. line.now) lines.items ≡ lines_in text.now) }
{
    text.split(|byte| *byte == b'\n').collect(alloc)
}

/// Whether the line is a heading: of the text, or of a rank.
pub fn is_heading(line: &[u8]) -> bool {
    line.starts_with(b"rank") || line.starts_with(b"policy")
}

/// Whether the line is a rank's heading.
pub fn is_rank(line: &[u8]) -> bool {
    line.starts_with(b"rank ")
}

/// Whether the line is a call's.
pub fn is_call(line: &[u8]) -> bool {
    !line.is_empty() && !is_heading(line)
}

/// How many ranks the text has.
pub fn count_ranks(alloc: Global, text: &[u8]) -> Result<usize, AllocError> {
    let lines = lines_of(alloc, text)?;
    Ok(lines.iter().filter(|line| is_rank(line)).count())
}

/// What the first word says, if it is a call's.
pub fn verb_of(words: &[&[u8]]) -> Option<Verb> {
    let first = words.first()?;
    Verb::find(first)
}

/// For how many calls a call line of these words stands.
pub fn count_calls(words: &[&[u8]]) -> usize {
    match verb_of(words) {
        Some(Verb::WaitAll) => words.len().saturating_sub(1),
        Some(Verb::SendReceive) => 4,
        _ => 1,
    }
}
