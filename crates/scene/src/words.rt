//! Words that several forms share.

use waits::Mismatch;

/// What is another one than it would have to be, in a word.
pub fn part_word(part: Mismatch) -> &'static str {
    match part {
        Mismatch::Destination => "destination",
        Mismatch::Communicator => "communicator",
        Mismatch::Source => "source",
        Mismatch::Tag => "tag",
    }
}
