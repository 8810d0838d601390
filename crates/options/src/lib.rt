//! How much work a search may do, in how many pieces a refutation is checked, and in which form an
//! explanation is printed.
#![tactic(auto)]

mod form;
mod options;

pub use form::Form;
pub use options::{Options, Pieces, Searches};
