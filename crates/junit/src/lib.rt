//! A report of tests in JUnit's form, which services for builds read: for each test its name,
//! whether it passed, failed or met an error, and the text that tells it.
#![tactic(auto)]

mod escaping;
mod report;

pub use report::{Report, TestOutcome};
