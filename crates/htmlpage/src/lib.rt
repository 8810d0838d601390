//! A run that ends stuck as a page in HTML that stands alone.
#![tactic(auto)]

mod listing;
mod paging;

pub use paging::page;
