//! The map of a program's text, which the recorder writes: for each line of the text the place in
//! the sources that it comes from. A text that names lines gets these places beside them.
//!
//! A map is trusted by nobody: it changes words alone. Lines count from 1.
#![tactic(auto)]

mod entries;
mod map;
mod marks;
mod sources;
mod sums;
mod weaving;

pub use map::{MapFault, Places, heading_of, read_map};
pub use weaving::with_places;
