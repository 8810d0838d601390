//! A log with lines after it.

ghost use Rattle.std.specs.Prelude.{◌≡◌, ◌++◌, length, slice_get};
ghost use Rattle.std.specs.Option.{option_map};

use crate::log::Log;
use refutations::{Line, LineList};

/// The lines of a log and then those of a slice, none of which is moved or copied: what a line is
/// checked against before it is appended.
#[derive(Clone, Copy)]
pub struct Extended<'a> {
    /// The lines that come first.
    pub log: &'a Log,
    /// The lines after them.
    pub more: &'a [Line],
}

impl<'a> LineList for Extended<'a> {
    ghost lines = { λ list. list.log.now ++ list.more.now };

    fn len(&self) -> usize {
        self.log.len() + self.more.len()
    }

    fn get(&self, place: usize) -> Option<&Line> {
        let before = self.log.len();
        if place < before {
            return self.log.get(place);
        }
        self.more.get(place - before)
    }
}
