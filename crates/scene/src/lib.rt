//! What the end of a run shows to the writer of an MPI code, whatever form it is told in: its calls
//! as they are told, what its steps did and decided, where each rank stands, what it waits for, and
//! which ranks wait for one another.
//!
//! Numbers of calls count from 1 over the program after expansion, ranks from 0, lines of the
//! program's text from 1; places count from 0.
#![tactic(auto)]

mod acts;
mod choices;
mod ending;
mod labels;
mod lasting;
mod needs;
mod numbering;
mod parting;
mod sizes;
mod words;

pub use acts::{Act, Played, play};
pub use choices::{RunChoice, choices_of};
pub use ending::{MOST_OF_LARGE, Scene, scene_of};
pub use labels::{CallLabel, call_labels, shortened};
pub use needs::needed;
pub use numbering::{line_numbers, lines_are_numbered};
pub use parting::{Parting, parting_of};
pub use sizes::is_large;
pub use words::part_word;
