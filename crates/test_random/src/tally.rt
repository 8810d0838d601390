//! What is counted.

use crate::exploring::Fate;
use callorder::{Call, Program};
use std::alloc::{AllocError, Global};
use std::collections::BTreeMap;

/// How many programs of each kind there were, and how often each kind of line was drawn.
#[derive(Drop)]
pub struct Tally {
    pub stuck: u32,
    pub never_stuck: u32,
    /// Programs that aren't explored to the end, and not counted.
    pub too_large: u32,
    /// Programs on which the answers differ.
    pub differing: u32,
    drawn: BTreeMap<String, u32>,
}

impl Tally {
    /// Nothing is counted.
    pub fn new(alloc: Global) -> Tally {
        Tally {
            stuck: 0,
            never_stuck: 0,
            too_large: 0,
            differing: 0,
            drawn: BTreeMap::new(alloc),
        }
    }

    /// Counts a program on which the answers agree.
    pub fn count_agreed(&mut self, fate: Fate) {
        match fate {
            Fate::Stuck => self.stuck = self.stuck.saturating_add(1),
            Fate::NeverStuck => self.never_stuck = self.never_stuck.saturating_add(1),
        }
    }

    fn count(&mut self, alloc: Global, word: &str) -> Result<(), AllocError> {
        let key = String::from_str(alloc, word)?;
        let count = self.drawn.entry(key)?.or_insert(0);
        *count = count.saturating_add(1);
        Ok(())
    }

    /// Counts the policy and the call lines of a program's text, and its calls with wildcards or in
    /// another communicator than 0.
    pub fn count_text(
        &mut self,
        alloc: Global,
        text: &str,
        program: &Program,
    ) -> Result<(), AllocError> {
        for line in text.lines() {
            self.count_line(alloc, line)?;
        }
        self.count_calls(alloc, program.calls())
    }

    fn count_line(&mut self, alloc: Global, line: &str) -> Result<(), AllocError> {
        let (word, _rest) = line.split_once(" ").unwrap_or((line, ""));
        if word == "rank" || word == "ranks" {
            return Ok(());
        }
        if word == "policy" {
            return self.count(alloc, line);
        }
        self.count(alloc, word)
    }

    fn count_calls(&mut self, alloc: Global, calls: &[Call]) -> Result<(), AllocError> {
        for call in calls {
            self.count_call(alloc, call)?;
        }
        Ok(())
    }

    fn count_call(&mut self, alloc: Global, call: &Call) -> Result<(), AllocError> {
        let Some(pattern) = call.kind.pattern() else {
            return Ok(());
        };
        if pattern.source.is_none() {
            self.count(alloc, "any source")?;
        }
        if pattern.tag.is_none() {
            self.count(alloc, "any tag")?;
        }
        if pattern.communicator == 0 {
            return Ok(());
        }
        if call.kind.is_probe() {
            return self.count(alloc, "seen in communicator 1");
        }
        self.count(alloc, "taken in communicator 1")
    }

    /// How often each kind of line was drawn, as `bsend 20, ibsend 13`.
    pub fn drawn_text(&self, alloc: Global) -> Result<String, AllocError> {
        let mut text = String::new(alloc);
        for (word, count) in self.drawn.iter() {
            if !text.is_empty() {
                text.push_str(", ")?;
            }
            text.push_str(&format!(in alloc; "{word} {count}")?)?;
        }
        Ok(text)
    }
}
