//! Cuts a program of any length into phases: parts that follow one another at each rank, each of
//! which takes what is sent in it.
//!
//! Nobody trusts what comes out: whoever judges a program by phases deals its calls to them and
//! tests each cut. So a contract says of the order alone that its numbers are those of texts, and
//! that each text is in it; a cut into no phase would meet it. The program's run that buffers least
//! tells who finds whose message. A phase is a set of calls that is closed: with a call it has the
//! wait, the other end of the message, the receive on the handle. With a finder of any source it
//! has, at each rank that sends there later, a call that returns only after the finder has found,
//! or else that rank's last such send. The strong components of that graph are the finest phases;
//! they come in an order in which each stands behind all that it needs. Time and memory are near
//! linear in the calls, times the ranks that have finders of any source.
//!
//! A finder is a receive, a matched probe or a probe. Ranks, and calls by their place in the
//! program's list, count from 0.
#![tactic(auto)]

mod clocks;
mod finders;
mod graph;
mod keys;
mod knots;
mod lists;
mod printing;
mod reaches;
mod routes;
mod strong;
mod tying;
mod whole;

pub use knots::Tie;
pub use whole::{Phases, cut};
