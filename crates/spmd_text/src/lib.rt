//! An SPMD text, read to its syntax tree.
#![tactic(auto)]

mod blocks;
mod calls;
mod codes;
mod cutting;
mod expressions;
mod fault;
mod heading;
mod joints;
mod keeping;
mod labels;
mod laws;
mod lexer;
mod lines;
mod parser;
mod piece;
mod reading;
mod words;

pub use fault::{ParseFault, ParseReason, TextFault};
pub use heading::is_spmd;
pub use laws::{piece_faults_are_told, texts_are_one};
pub use lexer::place_of;
pub use reading::{SpmdPolicy, SpmdText, parse};
