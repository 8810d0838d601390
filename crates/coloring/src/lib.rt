//! Answers in color, as a terminal shows them: each line by the words that it begins with. Nothing
//! else changes.
#![tactic(auto)]

mod coloring;

pub use coloring::colored;
