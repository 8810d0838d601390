//! What helps where a text is refused: the line that is meant, and what may stand there.
//!
//! No contract says which words are told: a refusal is told by its own line, and this stands below
//! it.
#![tactic(auto)]

mod calls;
mod evidences;
mod forms;
mod helping;
mod lines;
mod requests;
mod shapes;
mod sizes;
mod spelling;
mod syntax;
mod told;

pub use helping::{help, help_object};
