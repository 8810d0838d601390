//! What is read of a pool.

ghost use Rattle.std.specs.Prelude.{◌≡◌, ◌↔◌, ◌<◌, ℕ, length, IfOk, IsTrue, IsSome, Err};
ghost use Rattle.std.specs.Arc.{arc_value};
ghost use Rattle.trees.specs.Trees.{HasNoRoom, path_at};
ghost use Rattle.prooflog.specs.declared.refutation.Version.TheVariants.{One};
ghost use Rattle.pool.specs.Counts.{open_count};
ghost use Rattle.pool.specs.Evidence.{IsTreeOf, IsAssembled, IsUndecidedPool};
ghost use Rattle.pool.specs.Reasons.{IsSmallest};
ghost use Rattle.pool.specs.Calls.{IsSplitFault};
ghost use Rattle.pool.specs.States.{next_number, IsOpenLeaf, IsClosedBy, IsFormulaVariable, IsSoundPool};
ghost use Rattle.refutations.specs.Refutations.{Accepts};

use crate::assembly::{AssembleFault, lines_of, refutation_by, refutation_of, schedule_of_run};
use crate::entry::{Entry, PathFault, SplitFault};
use crate::keep::Pool;
use crate::why::Why;
use callorder::Program;
use clauses::{Formula, Lit};
use encode::Encoded;
use pages::Log;
use prooflog::{Evidence, Refutation};
use refutations::{clause_at, refutes};
use std::alloc::{AllocError, Global};
use std::sync::Arc;
use trees::{LONGEST_PATH, MOST_TREE_NODES};

/// How far the search is.
#[derive(Clone, Copy, Debug, PartialEq, Eq)]
pub struct Status {
    /// Whether a schedule was found.
    pub is_found: bool,
    /// How many leaves of the tree are open.
    pub open_leaves: u32,
    /// The smallest reason for which a worker left so far.
    pub why: Option<Why>,
}

impl Pool {
    /// The program.
    pub fn program(&self) -> &Program
        ensures { result.now ≡ self.now.held.program }
    {
        self.encoded.program()
    }

    /// The formula of the program.
    pub fn formula(&self) -> &Formula
        ensures { result.now ≡ self.now.held.formula }
    {
        self.encoded.formula()
    }

    /// The lines so far.
    pub fn log(&self) -> &Log
        ensures { result.now ≡ self.now.held.log }
    {
        &self.log
    }

    /// The program with its formula, for whoever reads it while others have the pool. It isn't
    /// copied. The only error is want of memory.
    pub fn lend_encoded(&self) -> Result<Arc<Encoded>, AllocError>
        ensures program { IfOk result (λ lent. (arc_value lent).program ≡ self.now.held.program) }
        ensures formula { IfOk result (λ lent. (arc_value lent).formula ≡ self.now.held.formula) }
    {
        let lent = Arc::try_clone(&self.encoded)?;
        Ok(lent)
    }

    /// The calls so far, in order, but for those that were answered with want of memory.
    pub fn history(&self) -> &[Entry]
        ensures calls { result.now ≡ self.now.history }
        ensures sound { IsSoundPool self.now.held }
    {
        self.ledger.history()
    }

    pub(crate) fn is_open(&self, leaf: u32) -> bool
        ensures open { IsTrue result ↔ IsOpenLeaf self.now.held leaf }
        ensures within { IsTrue result → leaf < length self.now.held.tree.nodes }
    {
        match self.closed.get(leaf as usize) {
            Some(0) => self.tree.is_leaf(leaf),
            _ => false,
        }
    }

    pub(crate) fn is_closed_by(&self, leaf: u32, number: u32) -> bool
        requires { leaf < length self.now.held.tree.nodes }
        ensures { IsTrue result ↔ IsClosedBy self.now.held leaf number }
    {
        match clause_at(self.encoded.formula(), &self.log, number) {
            Some(literals) => refutes(self.tree.path(leaf), literals),
            None => false,
        }
    }

    pub(crate) fn has_no_room(&self, leaf: u32) -> bool
        requires { leaf < length self.now.held.tree.nodes }
        ensures { IsTrue result ↔ HasNoRoom self.now.held.tree.nodes leaf }
    {
        self.tree.len() + 2 > MOST_TREE_NODES || self.tree.path(leaf).len() + 1 > LONGEST_PATH
    }

    pub(crate) fn is_variable(&self, variable: u32) -> bool
        ensures { IsTrue result ↔ IsFormulaVariable self.now.held variable }
    {
        1 <= variable && variable <= self.encoded.formula().variables()
    }

    /// Why a leaf isn't split on a variable, want of memory aside.
    pub(crate) fn split_fault(&self, leaf: u32, variable: u32) -> Option<SplitFault>
        ensures { IsSplitFault self.now.held leaf variable result }
    {
        if !self.is_open(leaf) {
            return Some(SplitFault::NotOpen);
        }
        if self.has_no_room(leaf) {
            return Some(SplitFault::Full);
        }
        if !self.is_variable(variable) {
            return Some(SplitFault::NoVariable);
        }
        None
    }

    pub(crate) fn next_number(&self) -> u32
        ensures { result ≡ next_number self.now.held }
    {
        let clauses = self.encoded.formula().clauses();
        (clauses.len() + self.log.len() + 1) as u32
    }

    /// How far the search is. Takes no memory, and no time by the number of leaves.
    pub fn status(&self) -> Status
        ensures found { IsTrue result.is_found ↔ IsSome self.now.held.schedule }
        ensures open { result.open_leaves ≡ open_count self.now.held.tree.nodes self.now.held.closed }
        ensures why { IsSmallest self.now.held.reasons result.why }
    {
        Status {
            is_found: self.schedule.is_some(),
            open_leaves: self.open_leaves,
            why: self.ledger.why(),
        }
    }

    /// The literals from an open leaf up to the root.
    pub fn path(&self, alloc: Global, leaf: u32) -> Result<Vec<Lit>, PathFault>
        ensures path { IfOk result (λ path. path.items ≡ path_at self.now.held.tree.nodes leaf) }
        ensures open { IfOk result (λ _. IsOpenLeaf self.now.held leaf) }
        ensures not_open { result ≡ Err PathFault.NotOpen ↔ (IsOpenLeaf self.now.held leaf → ⊥) }
    {
        if !self.is_open(leaf) {
            return Err(PathFault::NotOpen);
        }
        match Vec::from_slice(alloc, self.tree.path(leaf)) {
            Ok(path) => Ok(path),
            Err(AllocError) => Err(PathFault::Memory),
        }
    }

    /// The schedule that was found, or else the refutation of the formula by all lines of the log
    /// and the tree with the clauses that close its leaves, which there is where all leaves are
    /// closed.
    pub fn assemble(&self, alloc: Global) -> Result<Evidence, AssembleFault>
        ensures evidence { IfOk result (λ evidence. IsAssembled self.now.held evidence) }
        ensures open { result ≡ Err AssembleFault.Open ↔ IsUndecidedPool self.now.held }
    {
        if let Some(steps) = &self.schedule {
            return match Vec::from_slice(alloc, steps) {
                Ok(steps) => Ok(Evidence::Schedule(schedule_of_run(self.program(), steps))),
                Err(AllocError) => Err(AssembleFault::Memory),
            };
        }
        if self.open_leaves > 0 {
            return Err(AssembleFault::Open);
        }
        match self.refutation(alloc) {
            Ok(refutation) => Ok(Evidence::Refutation(refutation)),
            Err(AllocError) => Err(AssembleFault::Memory),
        }
    }

    fn refutation(&self, alloc: Global) -> Result<Refutation, AllocError>
        requires { (leaf : ℕ) → IsOpenLeaf self.now.held leaf → ⊥ }
        ensures version { IfOk result (λ claim. claim.version ≡ One) }
        ensures variables { IfOk result (λ claim. claim.variables ≡ self.now.held.formula.variables) }
        ensures clauses { IfOk result (λ claim. claim.clauses ≡ length self.now.held.formula.clauses) }
        ensures lines { IfOk result (λ claim. claim.lines ≡ self.now.held.log) }
        ensures tree { IfOk result (λ claim. IsTreeOf self.now.held.tree.nodes self.now.held.closed claim.nodes) }
        ensures accepted { IfOk result (λ claim. Accepts self.now.held.formula claim.lines claim.nodes) }
    {
        let lines = lines_of(alloc, &self.log)?;
        let formula = self.encoded.formula();
        refutation_of(alloc, formula, lines, &self.tree, self.closed.as_slice())
    }

    /// The same evidence of a pool that isn't needed any more: the lines of the log are moved where
    /// nobody else has them.
    pub fn into_evidence(self, alloc: Global) -> Result<Evidence, AssembleFault>
        ensures evidence { IfOk result (λ evidence. IsAssembled self.held evidence) }
        ensures open { result ≡ Err AssembleFault.Open ↔ IsUndecidedPool self.held }
    {
        let Pool {
            encoded,
            tree,
            closed,
            open_leaves,
            log,
            schedule,
            ..
        } = self;
        if let Some(steps) = schedule {
            let schedule = schedule_of_run(encoded.program(), steps);
            return Ok(Evidence::Schedule(schedule));
        }
        if open_leaves > 0 {
            return Err(AssembleFault::Open);
        }
        match refutation_by(alloc, encoded.formula(), log, &tree, closed.as_slice()) {
            Ok(moved) => Ok(Evidence::Refutation(moved)),
            Err(AllocError) => Err(AssembleFault::Memory),
        }
    }
}
