//! A log of proof lines in pages that are shared and never copied.
//!
//! Full pages are shared between the log and what it hands out, so that handing out takes time in
//! proportion to the pages. Places are counted from 0.
#![tactic(auto)]

mod copies;
mod counted;
mod extended;
mod lines;
mod log;
mod page;

pub use extended::Extended;
pub use lines::Lines;
pub use log::Log;
