//! Tests of workers that are code, since they need threads or made values: what is known of
//! messages, lines that another thread reads, cubes that several workers steal, and workers over
//! shares that lie.
#![tactic(auto)]

#[cfg(test)]
mod columns;
#[cfg(test)]
mod deques;
#[cfg(test)]
mod pages_of_lines;
#[cfg(test)]
mod searches;
