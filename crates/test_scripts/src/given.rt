//! The reply that a call is given, and how values are written in it.
use clauses::Lit;
use pages::Lines;
use refutations::{Line, LineList, Node};
use semantics::Step;
use std::alloc::Global;
use std::fmt;

/// The reply that a call is given. What is written never fails: where something can't be told, the
/// reply says so in its place.
#[derive(Drop)]
pub struct Given {
    pub alloc: Global,
    text: String,
    /// Why the reply isn't what was written; empty where it is.
    trouble: &'static str,
}

/// What stands in replies.
pub trait Show {
    fn put(&self, given: &mut Given);
}

/// For how many bytes of a reply memory is taken at once, so that a call that was made isn't told
/// to lack it.
const USUAL: usize = 4_096;

/// What stands in the place of a reply where memory was wanting.
pub const MEMORY: &str = "memory";

impl Given {
    pub fn new(alloc: Global) -> Given {
        let text = match String::with_capacity(alloc, USUAL) {
            Ok(text) => text,
            Err(_error) => String::new(alloc),
        };
        Given {
            alloc,
            text,
            trouble: "",
        }
    }

    /// Whether the reply is that memory was wanting. Forgets it then.
    pub fn was_memory(&mut self) -> bool {
        let was_memory = self.reply() == MEMORY;
        if was_memory {
            self.clear();
        }
        was_memory
    }

    /// Forgets all of it.
    pub fn clear(&mut self) {
        self.text.clear();
        self.trouble = "";
    }

    /// Forgets what was written.
    pub fn rewrite(&mut self) {
        self.text.clear();
    }

    pub fn reply(&self) -> &str {
        if self.trouble.is_empty() {
            &self.text
        } else {
            self.trouble
        }
    }

    /// Whether the reply isn't what was written.
    pub fn is_refused(&self) -> bool {
        !self.trouble.is_empty()
    }

    /// Says this in place of what is written, unless something was said before.
    pub fn refuse(&mut self, why: &'static str) {
        if self.trouble.is_empty() {
            self.trouble = why;
        }
    }

    /// The value, without which the call isn't made; nor is it where something was said before.
    pub fn known<T: Drop>(&mut self, value: Option<T>, why: &'static str) -> Option<T> {
        if value.is_none() {
            self.refuse(why);
        }
        if self.is_refused() { None } else { value }
    }

    pub fn put(&mut self, text: &str) {
        if self.text.push_str(text).is_err() {
            self.trouble = MEMORY;
        }
    }

    pub fn show<T: fmt::Display + Drop>(&mut self, value: T) {
        if write!(self.text, "{value}").is_err() {
            self.trouble = MEMORY;
        }
    }

    /// Writes a word, behind a space where something stands before it.
    pub fn word(&mut self, word: &str) {
        if !self.text.is_empty() {
            self.put(" ");
        }
        self.put(word);
    }

    pub fn number(&mut self, number: usize) {
        self.word("");
        self.show(number);
    }

    pub fn yes(&mut self, is_so: bool) {
        self.word(if is_so { "yes" } else { "no" });
    }

    /// Writes a text with `/` in place of each end of a line.
    pub fn text(&mut self, text: &str) {
        for (place, line) in text.split('\n').enumerate() {
            if place > 0 {
                self.put("/");
            }
            self.put(line);
        }
    }
}

/// Adds a value to a list.
pub fn add<T: Drop>(values: &mut Vec<T>, value: T, given: &mut Given) {
    if values.push(value).is_err() {
        given.refuse(MEMORY);
    }
}

pub fn put_all<T: Show>(values: &[T], given: &mut Given) {
    for value in values {
        value.put(given);
    }
}

/// Writes the value, or the text of the fault.
pub fn tell<T: Show, E: fmt::Display>(answer: &Result<T, E>, given: &mut Given) {
    match answer {
        Ok(value) => value.put(given),
        Err(fault) => given.show(fault),
    }
}

impl Show for () {
    fn put(&self, given: &mut Given) {
        given.put("ok");
    }
}

impl Show for u32 {
    fn put(&self, given: &mut Given) {
        given.number(*self as usize);
    }
}

impl Show for usize {
    fn put(&self, given: &mut Given) {
        given.number(*self);
    }
}

impl Show for (u32, u32) {
    fn put(&self, given: &mut Given) {
        given.number(self.0 as usize);
        given.number(self.1 as usize);
    }
}

impl Show for Lit {
    fn put(&self, given: &mut Given) {
        given.word(if self.is_positive() { "" } else { "-" });
        given.show(self.variable());
    }
}

impl Show for Vec<Lit> {
    fn put(&self, given: &mut Given) {
        put_all(self.as_slice(), given);
    }
}

/// Such as `1 -2 : 4 3`.
impl Show for Line {
    fn put(&self, given: &mut Given) {
        put_all(self.literals(), given);
        given.word(":");
        put_all(self.hints(), given);
    }
}

/// How many lines there are, and the last one.
impl Show for Lines {
    fn put(&self, given: &mut Given) {
        let count = self.len();
        match self.get(count.saturating_sub(1)) {
            None => given.put("no lines"),
            Some(last) => {
                given.show(count);
                given.put(" lines to");
                last.put(given);
            }
        }
    }
}

impl Show for Node {
    fn put(&self, given: &mut Given) {
        match self {
            Node::Split(variable) => {
                given.word("s");
                given.show(*variable);
            }
            Node::Leaf(number) => given.number(*number as usize),
        }
    }
}

impl Show for Step {
    fn put(&self, given: &mut Given) {
        match *self {
            Step::Issue { rank, buffered } => {
                given.put("issue ");
                given.show(rank);
                given.put(if buffered { " buffered/" } else { "/" });
            }
            Step::Match { send, taker } => put_found("match ", send, taker, given),
            Step::See { send, probe } => put_found("see ", send, probe, given),
        }
    }
}

fn put_found(word: &str, send: usize, finder: usize, given: &mut Given) {
    given.put(word);
    given.show(send.saturating_add(1));
    given.put(" ");
    given.show(finder.saturating_add(1));
    given.put("/");
}

/// Steps, each with a `/` behind it.
impl Show for Vec<Step> {
    fn put(&self, given: &mut Given) {
        put_all(self.as_slice(), given);
    }
}
