//! Texts in parts.

ghost use Rattle.std.specs.Prelude.{◌≡◌, ◌++◌, IfOk, OnOk};
ghost use Rattle.std.specs.List.{flat_map};

use std::alloc::{AllocError, Global};
use std::marker::Model;

/// A text in parts, which stand one behind the other.
#[derive(Drop)]
pub struct Text {
    first: Vec<u8>,
    more: Vec<Vec<u8>>,
}

impl Model for Text {
    ghost use Rattle.std.specs.Prelude.{List, ℕ, ◌++◌};
    ghost use Rattle.std.specs.List.{flat_map};

    ghost Value = { List ℕ };

    ghost view = { λ t. t.first.items ++ flat_map (λ part. part.items) t.more.items };
}

impl Text {
    /// The text of this one part.
    pub fn of(alloc: Global, part: Vec<u8>) -> Text
        ensures { result ≡ part.items }
    {
        Text {
            first: part,
            more: Vec::new(alloc),
        }
    }

    /// Puts a part at the end. The only error is want of memory.
    pub fn push(&mut self, part: Vec<u8>) -> Result<(), AllocError>
        ensures { OnOk result (self.new ≡ self.old ++ part.items) }
    {
        self.more.push(part)?;
        Ok(())
    }

    /// The first part, and the others.
    pub fn parts(&self) -> (&[u8], &[Vec<u8>])
        ensures { self.now ≡ result.0.now ++ flat_map (λ part. part.items) result.1.now }
    {
        (self.first.as_slice(), self.more.as_slice())
    }

    /// The text as one part. The only error is want of memory.
    pub fn joined(&self, alloc: Global) -> Result<Vec<u8>, AllocError>
        ensures { IfOk result (λ text. text.items ≡ self.now) }
    {
        let mut text = self.first.as_slice().to_vec(alloc)?;
        for part in &self.more {
            text.extend_from_slice(part.as_slice())?;
        }
        Ok(text)
    }
}
