//! The steps of a run as they are shown to the writer of an MPI code: a line for each, a message
//! sequence chart in plain text, and a timeline as a picture.
//!
//! Ranks count from 0, lines of the program's text from 1. A call is told by its rank, its line,
//! and the words of its line.
#![tactic(auto)]

mod charting;
mod cutting;
mod lining;
mod picturing;
mod placing;

pub use charting::chart;
pub use lining::lined_steps;
pub use picturing::{picture, put_escaped};
