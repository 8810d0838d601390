//! Numbers, words and lines: what every line format of this repository is made of.
//!
//! A text is lines, each ended by one LF; a line is words, parted by one space each; a number is
//! written as its decimal digits with no leading zero. What a format adds are the words of its
//! lines. `specs/Plain.antt` defines the parts, `specs/Fronts.antt` the first faulty line of a
//! text.
#![tactic(auto)]

mod laws;
mod lines;
mod numbers;

pub use laws::{lines_make_text, one_faulty_line, words_make_lines};
pub use lines::{is_word, next_line, words_of};
pub use numbers::{MOST, number_of, put_number};
