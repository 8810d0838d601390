//! Files in memory: some that tell what they hold, so that the laws of runs hold of something, and
//! one that is read and written in short pieces.
#![tactic(auto)]

mod disk;
mod shelf;
#[cfg(test)]
mod tests;

pub use disk::{Disk, DiskFiles, DiskReader, DiskWriter};
pub use shelf::Shelf;
