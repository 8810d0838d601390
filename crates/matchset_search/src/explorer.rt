//! What the search knows of states.

use crate::claims::InProgress;
use crate::cutting::cut_cycle;
use crate::engine::{Engine, MOST_WATCHED};
use crate::lemmas::{Lemmas, Portion};
use crate::others::SharedClosed;
use crate::tasks::Task;
use cdcl::Solver;
use clauses::Clause;
use encode::Encoded;
use matchsets::{MatchState, Shape, find_cycle, read_off};
use propagation::{ClauseRef, LitIndex, Origin, indices_of};
use refutations::Batch;
use std::alloc::{AllocError, Global};
use std::collections::HashMap;

/// All that the search knows.
#[derive(Drop)]
pub(crate) struct Explorer<'e> {
    pub(crate) shape: Shape<'e>,
    pub(crate) engine: Engine,
    lemmas: Lemmas,
    /// For each state that is closed the clause by which it is, by its key's hash. Of two states
    /// with the same one the second isn't closed by the clause of the first, which is seen where it
    /// isn't false, and then a clause is learnt.
    pub(crate) table: HashMap<u64, ClauseRef>,
    /// The clauses that closed states with the same matched calls, by the hash of these.
    pub(crate) near: HashMap<u64, Vec<ClauseRef>>,
    /// What is left to do; the last one comes first.
    pub(crate) tasks: Vec<Task>,
    /// What learns where no rule helps, once it was needed.
    pub(crate) learner: Option<Solver<'e>>,
    /// From which line of the batch on and up to which the lines are the learner's.
    pub(crate) learnt_from: usize,
    pub(crate) learnt_to: usize,
    /// Whether a cycle could not be cut, so that none is looked for any more.
    leaves_cycles: bool,
    /// What searches tell each other.
    pub(crate) others: SharedClosed,
    /// Which states searches are closing, where they tell each other.
    pub(crate) claims: Option<&'e InProgress>,
    /// Which lemmas it makes first. Its turn tells, too, which state below another one is visited
    /// first.
    pub(crate) portion: Portion,
}

/// The list of what is to do at first.
fn first_tasks(alloc: Global) -> Result<Vec<Task>, AllocError> {
    let mut tasks = Vec::new(alloc);
    tasks.push(Task::Start)?;
    Ok(tasks)
}

/// What is made anew where all is forgotten.
#[derive(Drop)]
struct Fresh {
    engine: Engine,
    lemmas: Lemmas,
    tasks: Vec<Task>,
}

fn begin_anew(alloc: Global, encoded: &Encoded, shape: &Shape<'_>) -> Result<Fresh, AllocError> {
    let engine = Engine::new(alloc, encoded.formula())?;
    let lemmas = Lemmas::new(alloc, shape)?;
    let tasks = first_tasks(alloc)?;
    Ok(Fresh {
        engine,
        lemmas,
        tasks,
    })
}

impl<'e> Explorer<'e> {
    /// What is known at first.
    pub(crate) fn new(alloc: Global, encoded: &'e Encoded) -> Result<Explorer<'e>, AllocError> {
        let shape = Shape::new(alloc, encoded)?;
        let fresh = begin_anew(alloc, encoded, &shape)?;
        Ok(Explorer {
            shape,
            engine: fresh.engine,
            lemmas: fresh.lemmas,
            table: HashMap::new(alloc),
            near: HashMap::new(alloc),
            tasks: fresh.tasks,
            learner: None,
            learnt_from: 0,
            learnt_to: 0,
            leaves_cycles: false,
            others: SharedClosed::new(alloc, encoded.formula().len()),
            claims: None,
            portion: Portion { turn: 0, lines: 0 },
        })
    }

    /// Forgets all.
    fn restart(&mut self, alloc: Global, encoded: &'e Encoded) -> Result<(), AllocError> {
        let fresh = begin_anew(alloc, encoded, &self.shape)?;
        self.engine = fresh.engine;
        self.lemmas = fresh.lemmas;
        self.tasks = fresh.tasks;
        self.table = HashMap::new(alloc);
        self.near = HashMap::new(alloc);
        self.learner = None;
        self.leaves_cycles = false;
        Ok(())
    }

    /// Begins a batch. Where lines of the last one didn't come back, all is forgotten.
    pub(crate) fn begin(&mut self, alloc: Global, encoded: &'e Encoded) -> Result<(), AllocError> {
        if self.engine.known.end_batch() {
            self.restart(alloc, encoded)?;
        }
        self.others.told.clear();
        self.learnt_from = 0;
        self.learnt_to = 0;
        self.drop_closed(alloc)
    }

    /// Tells the learner a clause and its number.
    fn teach(&mut self, alloc: Global, number: u32, clause: &Clause) -> Result<(), AllocError> {
        let Some(learner) = &mut self.learner else {
            return Ok(());
        };
        match learner.import(alloc, number, clause) {
            Ok(()) => Ok(()),
            Err(_) => Err(AllocError),
        }
    }

    /// Tells the learner the line at this place of the batch, which has this number now, where it
    /// is one of its own.
    fn teach_own(
        &mut self,
        alloc: Global,
        line: usize,
        number: u32,
        clause: &Clause,
    ) -> Result<(), AllocError> {
        if line < self.learnt_from || line >= self.learnt_to {
            return Ok(());
        }
        self.teach(alloc, number, clause)
    }

    /// Takes in a clause that was derived, and its number. One whose number no hint can have is
    /// left out, and so is a long one of others.
    pub(crate) fn import(
        &mut self,
        alloc: Global,
        number: u32,
        clause: &Clause,
    ) -> Result<(), AllocError> {
        let Some(origin) = Origin::of_number(number) else {
            return Ok(());
        };
        let literals = indices_of(alloc, clause.literals())?;
        let line = self.engine.known.returned();
        if self.engine.known.take_back(&literals, origin) {
            return self.teach_own(alloc, line, number, clause);
        }
        if literals.len() > MOST_WATCHED {
            return Ok(());
        }
        self.engine.to_root(alloc)?;
        self.engine.known.take_in(&literals, origin, 0)?;
        Ok(())
    }

    /// Makes these literals true from level 0 on, and answers whether that meets no conflict.
    pub(crate) fn stand_on(
        &mut self,
        alloc: Global,
        assumptions: &[LitIndex],
    ) -> Result<bool, AllocError> {
        if !self.engine.to_root(alloc)? {
            return Ok(false);
        }
        let conflict = self.engine.assume(alloc, assumptions)?;
        Ok(conflict.is_none())
    }

    /// Cuts a cycle, where the order that holds has one; then the trail is at level 0.
    fn cuts(&mut self, alloc: Global, batch: &mut Batch) -> Result<bool, AllocError> {
        if self.leaves_cycles {
            return Ok(false);
        }
        let Some(cycle) = find_cycle(alloc, &self.shape, self.engine.known.trail())? else {
            return Ok(false);
        };
        let is_cut = cut_cycle(
            alloc,
            &self.shape,
            &mut self.engine,
            &mut self.others,
            &cycle,
            batch,
        )?;
        self.leaves_cycles = !is_cut;
        Ok(true)
    }

    /// Makes lemmas that are due, or cuts a cycle, and answers whether there were any; then the
    /// trail is at level 0. Where nothing is due at the level that is given, only what is above it
    /// is looked at, and no cycle is looked for, since that comes once the state there is visited.
    pub(crate) fn makes_lemmas(
        &mut self,
        alloc: Global,
        settled: Option<usize>,
        batch: &mut Batch,
    ) -> Result<bool, AllocError> {
        let are_made = self.lemmas.make(
            alloc,
            &self.shape,
            &mut self.engine,
            &mut self.others,
            self.portion,
            settled,
            batch,
        )?;
        if are_made || settled.is_some() {
            return Ok(are_made);
        }
        self.cuts(alloc, batch)
    }

    /// Reads the first state off what holds at level 0, and has it closed.
    pub(crate) fn start(&mut self, alloc: Global, batch: &mut Batch) -> Result<(), AllocError> {
        if !self.engine.to_root(alloc)? {
            return Ok(());
        }
        if self.makes_lemmas(alloc, None, batch)? {
            return self.push(Task::Start);
        }
        let nothing = MatchState::new(alloc, &self.shape)?;
        let state = read_off(alloc, &self.shape, self.engine.known.trail(), &nothing)?;
        let again = read_off(alloc, &self.shape, self.engine.known.trail(), &nothing)?;
        self.push(Task::End(state))?;
        self.push(Task::Visit(again))
    }
}
