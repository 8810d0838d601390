//! Choices of a run, and what is known of them.

use narrowing::ChoiceTaken;
use options::Options;

/// A choice of a run.
#[derive(Drop)]
pub struct Choice {
    /// The number of its line in the program's text, from 1.
    pub line: usize,
    /// The place of its call in the program's list of calls, from 0.
    pub call: usize,
    /// The rank that makes the call, from 0.
    pub rank: u32,
    /// The place of the step that decided it in the run, from 0.
    pub step: usize,
    /// What the run did.
    pub taken: ChoiceTaken,
    /// All that the call could have done otherwise: of a send the other one of the two ways, of a
    /// call that found a message the rank and the tag of each send of the program that fits it, but
    /// for those that it found.
    pub others: Vec<ChoiceTaken>,
}

/// Whether a program hangs only where a choice is made as in a run.
#[derive(Clone, Copy, PartialEq, Eq)]
pub enum ChoiceNeed {
    /// It does: each run of the program that ends stuck makes the choice so, since none does with
    /// the choice made in any other way.
    Known,
    /// No run of the program that ends stuck was found in which the choice isn't made so; not all
    /// other ways are known to have none.
    Tried,
    /// Some run of the program ends stuck in which the choice isn't made so.
    No,
    /// It was not asked.
    NotAsked,
}

/// A choice, and whether it is needed.
#[derive(Drop)]
pub struct Weighed {
    /// The choice.
    pub choice: Choice,
    /// Whether it is needed.
    pub need: ChoiceNeed,
}

/// In which walks a program hangs.
#[derive(Clone, Copy, PartialEq, Eq)]
pub enum HangExtent {
    /// In each that was taken.
    Always,
    /// In each that was taken where the choices are made as in the run.
    Whenever,
    /// Also with all choices made as in the run some walk does not end stuck, or no walk was left
    /// to ask by.
    NotFound,
}

/// What decided a run.
#[derive(Drop)]
pub struct Decided {
    /// In which walks the program hangs.
    pub extent: HangExtent,
    /// Choices that suffice, in the order of the run. There are some only where it hangs whenever
    /// they are made so.
    pub choices: Vec<Weighed>,
    /// Whether it was asked of each of them whether it suffices without it.
    pub least: bool,
}

/// How much is asked.
#[derive(Clone, Copy)]
pub struct AskingLimits {
    /// The most walks that are taken to find choices that suffice, or few more.
    pub walks: u32,
    /// The most other ways that are looked into.
    pub ways: u32,
    /// How much work each search may do that looks into another way.
    pub search: Options,
}
