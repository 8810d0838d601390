//! Numbers, words and lines written behind a text.
//!
//! The only error is want of memory, after which a beginning of what was to be written may stand
//! there.
#![tactic(auto)]

mod bytes;
mod characters;
mod parts;

pub use bytes::{put_line, put_number, put_text, put_words};
pub use characters::put_characters;
pub use parts::{Part, put_parts};
