//! From an SPMD text to the text of a program: its calls as call lines, the map of their places,
//! and what is told of a text that has none.
#![tactic(auto)]

mod laws;
mod lines;
mod maps;
mod names;
mod program;
mod ranges;
mod requests;
mod said;
mod settings;
mod told;
mod unrolling;

pub use laws::outcomes_are_one;
pub use maps::map_text;
pub use program::program_text;
pub use ranges::{Ranks, ranks_of};
pub use told::put_fault;
pub use unrolling::{NotUnrolled, Unrolling, unrolled};
