//! Counting different numbers.

use std::alloc::{AllocError, Global};

/// Which numbers were met since the last beginning.
#[derive(Drop)]
pub(crate) struct Stamps {
    stamps: Vec<u32>,
    now: u32,
}

impl Stamps {
    /// For numbers up to this one.
    pub(crate) fn new(alloc: Global, most: u32) -> Result<Stamps, AllocError> {
        Ok(Stamps {
            stamps: vec![in alloc; 0; most as usize + 1]?,
            now: 0,
        })
    }

    /// No number was met since.
    pub(crate) fn begin(&mut self) {
        match self.now.checked_add(1) {
            Some(next) => self.now = next,
            None => {
                self.stamps.fill(0);
                self.now = 1;
            }
        }
    }

    /// Takes in a number, and answers whether it is a new one.
    pub(crate) fn is_new(&mut self, number: usize) -> bool {
        match self.stamps.get_mut(number) {
            Some(stamp) if *stamp != self.now => {
                *stamp = self.now;
                true
            }
            _ => false,
        }
    }
}
