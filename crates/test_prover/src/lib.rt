//! Tests of the prover and the checker that are code, since they need threads, gates, a clock or
//! values that no text can name: searches that a gate holds back, and what is told of them.
#![tactic(auto)]

#[cfg(test)]
mod gates;
#[cfg(test)]
mod joining_lines;
