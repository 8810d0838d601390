//! What was judged so far.
use crate::given::Given;
use std::alloc::Global;

/// How many bytes are printed at most of a call, of what was wanted and of what was given: they may
/// have millions.
const MOST_SHOWN: usize = 700;

/// Where a line stands.
#[derive(Clone, Copy)]
pub struct Place<'a> {
    /// Its file.
    pub path: &'a str,
    /// Its number, from 1.
    pub line: usize,
}

/// A call of a row, with the reply that it is to have.
#[derive(Drop)]
pub struct Call<'a> {
    /// Where its row stands.
    pub place: Place<'a>,
    pub text: String,
    pub wanted: String,
    /// Whether the row makes no further call.
    pub is_last: bool,
}

/// How many rows held and how many didn't, and what is to be printed of the latter.
#[derive(Drop)]
pub struct Report {
    pub held: u64,
    pub missed: u64,
    pub failures: Given,
    /// The line of the last row that didn't hold, and 0 where there is none in this file.
    line: usize,
}

impl Report {
    pub fn new(alloc: Global) -> Report {
        Report {
            held: 0,
            missed: 0,
            failures: Given::new(alloc),
            line: 0,
        }
    }

    /// Forgets what was printed of a file.
    pub fn forget(&mut self) {
        self.failures.clear();
        self.line = 0;
    }

    /// Notes the reply that a call was given. A row holds once its last call is met and none of it
    /// was missed.
    pub fn note(&mut self, call: &Call<'_>, given: &str) {
        if self.line == call.place.line {
            return;
        }
        if call.wanted.as_str() != ".." && call.wanted.as_str() != given {
            self.miss(call.place, &call.text, &call.wanted, given);
        } else if call.is_last {
            self.held = self.held.saturating_add(1);
        }
    }

    /// Notes that the row at this place doesn't hold.
    pub fn miss(&mut self, place: Place<'_>, call: &str, wanted: &str, given: &str) {
        self.missed = self.missed.saturating_add(1);
        self.line = place.line;
        self.failures.put(place.path);
        self.failures.put(":");
        self.failures.show(place.line);
        self.put_front(": ", call);
        self.put_front("\n  wanted: ", wanted);
        self.put_front("\n  given:  ", given);
        self.failures.put("\n");
    }

    /// Writes the front of a text, and `..` where more follows.
    fn put_front(&mut self, name: &str, text: &str) {
        let front = &text[..text.floor_char_boundary(MOST_SHOWN)];
        self.failures.put(name);
        self.failures.put(front);
        if front.len() < text.len() {
            self.failures.put("..");
        }
    }
}
