//! Refutations.

ghost use Rattle.std.specs.Prelude.{◌≡◌, ◌↔◌, ◌<◌, ◌≤◌, ◌⊎◌, true, false, ◌∷◌, [], ℕ, IfOk, IfErr, OnOk, OnErr, IsTrue};
ghost use Rattle.std.specs.List.{list_all};
ghost use Rattle.refutations.specs.Proofs.{is_tree, are_numbered};
ghost use Rattle.trimming.specs.Needed.{are_named};
ghost use Rattle.prooflog.specs.Trims.{trimmed_of};
ghost use Rattle.prooflog.specs.Refutations.{IsRefutation, IsSmallRefutation, is_line_in_range, is_depth, depths, waiting_after};

use refutations::{LARGEST_NUMBER, Line, Node, ProofTree};
use std::alloc::{AllocError, AllocFailed, Global};
use std::marker::Model;
use thiserror::Error;
use trimming::RefutationTrimFault;

/// The most proof lines that a refutation has.
pub const MOST_LINES: usize = 1_000_000;

/// The most nodes that the tree of a refutation has.
pub const MOST_NODES: usize = 65_536;

/// How deep a node of the tree may stand; the root's depth is 0.
pub const MOST_DEPTH: u32 = 64;

/// Which rules a refutation is held to. Its text begins with the number.
#[derive(Clone, Copy, PartialEq, Eq)]
pub enum Version {
    /// Lines that aren't needed may stand among the others.
    One,
    /// Each line is needed: a leaf of the tree names it, or a hint of a later line. The checker
    /// asks this, not the reader.
    Two,
}

/// What is said to refute a formula: how many variables and clauses the formula has, each number
/// from 0 to 2,147,483,647; at most 1,000,000 proof lines, numbered after the clauses; and a tree
/// of at most 65,536 nodes, none deeper than 64.
#[derive(Drop)]
pub struct Refutation {
    version: Version,
    variables: u32,
    clauses: u32,
    lines: Vec<Line>,
    tree: ProofTree,
}

impl Model for Refutation {
    ghost use Rattle.prooflog.specs.Refutations.{ClaimedRefutation, IsRefutation};

    ghost Value = { ClaimedRefutation };

    ghost view = { λ r. record {
      version = r.version;
      variables = r.variables;
      clauses = r.clauses;
      lines = r.lines.items;
      nodes = r.tree;
    } };

    ghost invariant = { λ r. IsRefutation (record {
      version = r.version;
      variables = r.variables;
      clauses = r.clauses;
      lines = r.lines.items;
      nodes = r.tree;
    }) };
}

/// Why no refutation was made.
#[derive(Clone, Copy, Debug, PartialEq, Eq, Error)]
pub enum MakeRefutationFault {
    /// Memory ran out.
    #[error("memory")]
    Memory,
    /// A count is above 2,147,483,647, or there are too many lines or nodes, or a node is too deep.
    #[error("too large")]
    TooLarge,
}

/// Below a split two more trees wait.
pub(crate) fn push_children(
    waiting: &mut Vec<u32>,
    depth: u32,
    node: &Node,
) -> Result<(), AllocFailed<u32>>
    requires { depth ≤ 64 }
    ensures { OnOk result (waiting.new.items ≡ waiting_after waiting.old.items depth node.now) }
{
    if let Node::Split(_) = node {
        let below = depth + 1;
        waiting.push(below)?;
        waiting.push(below)?;
    }
    Ok(())
}

fn is_too_deep(depth: u32) -> bool
    ensures yes { result ≡ true → 64 < depth }
    ensures no { result ≡ false → depth ≤ 64 }
{
    depth > MOST_DEPTH
}

/// Whether no node is deeper than the deepest that is allowed.
fn are_shallow(alloc: Global, nodes: &[Node]) -> Result<bool, AllocError>
    ensures { IfOk result (λ shallow. shallow ≡ list_all is_depth (depths (0 ∷ []) nodes.now)) }
{
    let mut waiting: Vec<u32> = Vec::new(alloc);
    waiting.push(0)?;
    for node in nodes {
        let Some(depth) = waiting.pop() else {
            return Ok(true);
        };
        if is_too_deep(depth) {
            return Ok(false);
        }
        push_children(&mut waiting, depth, node)?;
    }
    Ok(true)
}

/// Whether the line's numbers are in range. Those of each line are, by its type.
fn is_in_range(line: &Line) -> bool
    ensures same { result ≡ is_line_in_range line.now }
    ensures always { IsTrue result }
{
    let _literals = line.literals();
    let _hints = line.hints();
    true
}

/// Whether the numbers of all these lines are in range. Those of each line are, by its type; going
/// over lines with this brings that out for all of them, and so a caller can show that
/// `Refutation::make` doesn't refuse them.
pub fn are_in_range(lines: &[Line]) -> bool
    ensures same { result ≡ list_all is_line_in_range lines.now }
    ensures always { IsTrue result }
{
    lines.iter().all(is_in_range)
}

/// Copies of these lines.
fn line_copies(alloc: Global, lines: &[Line]) -> Result<Vec<Line>, AllocError>
    ensures { IfOk result (λ copies. copies.items ≡ lines.now) }
{
    let mut copies = Vec::with_capacity(alloc, lines.len())?;
    for line in lines {
        copies.push(line.copy(alloc)?)?;
    }
    Ok(copies)
}

/// A copy of this tree.
fn tree_copy(alloc: Global, tree: &ProofTree) -> Result<ProofTree, AllocError>
    ensures { IfOk result (λ copy. copy ≡ tree.now) }
{
    match ProofTree::make(tree.nodes().to_vec(alloc)?) {
        Ok(copy) => Ok(copy),
        Err(_nodes) => unreachable!(),
    }
}

impl Refutation {
    /// The refutation of these parts, where they are within the limits.
    pub fn make(
        alloc: Global,
        version: Version,
        variables: u32,
        clauses: u32,
        lines: Vec<Line>,
        tree: ProofTree,
    ) -> Result<Refutation, MakeRefutationFault>
        ensures made { IfOk result (λ r. r ≡ record {
          version = version;
          variables = variables;
          clauses =
              clauses;
          lines = lines.items;
          nodes = tree;
        }) }
        ensures limits { IfOk result (λ r. IsRefutation r) }
        ensures too_large { result ≡ Err MakeRefutationFault.TooLarge →
            IsRefutation (record {
              version = version;
              variables = variables;
              clauses = clauses;
              lines =
                  lines.items;
              nodes = tree;
            }) → ⊥ }
    {
        if variables > LARGEST_NUMBER || clauses > LARGEST_NUMBER {
            return Err(MakeRefutationFault::TooLarge);
        }
        if lines.len() > MOST_LINES || tree.nodes().len() > MOST_NODES {
            return Err(MakeRefutationFault::TooLarge);
        }
        let Ok(shallow) = are_shallow(alloc, tree.nodes()) else {
            return Err(MakeRefutationFault::Memory);
        };
        if !shallow || !are_in_range(&lines) {
            return Err(MakeRefutationFault::TooLarge);
        }
        Ok(Refutation {
            version,
            variables,
            clauses,
            lines,
            tree,
        })
    }

    /// A copy of it.
    pub(crate) fn copy(&self, alloc: Global) -> Result<Refutation, AllocError>
        ensures { IfOk result (λ copy. copy ≡ self.now) }
    {
        let tree = tree_copy(alloc, &self.tree)?;
        let lines = line_copies(alloc, &self.lines)?;
        Ok(Refutation {
            version: self.version,
            variables: self.variables,
            clauses: self.clauses,
            lines,
            tree,
        })
    }

    /// Leaves out the lines that aren't needed, and makes it one of version 2. Where that is
    /// refused, it stays as it is.
    pub(crate) fn trim(&mut self, alloc: Global) -> Result<(), RefutationTrimFault>
        ensures trimmed { OnOk result (self.new ≡ trimmed_of self.old) }
        ensures unchanged { OnErr result (self.new ≡ self.old) }
        ensures number { result ≡ Err RefutationTrimFault.Number → are_named self.old.clauses self.old.lines self.old.nodes ≡ false }
        ensures number_only { are_named self.old.clauses self.old.lines self.old.nodes ≡ false →
            (result ≡ Err RefutationTrimFault.Number) ⊎ (result ≡ Err RefutationTrimFault.Memory) }
    {
        trimming::trim(alloc, self.clauses, &mut self.lines, &mut self.tree)?;
        self.version = Version::Two;
        Ok(())
    }

    /// The refutation of parts that are known to be within the limits.
    pub(crate) fn of_checked(
        version: Version,
        variables: u32,
        clauses: u32,
        lines: Vec<Line>,
        tree: ProofTree,
    ) -> Refutation
        requires { IsRefutation (record {
          version = version;
          variables = variables;
          clauses = clauses;
          lines =
              lines.items;
          nodes = tree;
        }) }
        ensures { result ≡ record { version = version; variables = variables; clauses = clauses; lines = lines.items; nodes = tree } }
    {
        Refutation {
            version,
            variables,
            clauses,
            lines,
            tree,
        }
    }

    /// The proof lines and the tree.
    pub(crate) fn into_parts(self) -> (Vec<Line>, ProofTree)
        ensures lines { result.0.items ≡ self.lines }
        ensures tree { result.1 ≡ self.nodes }
    {
        let Refutation { lines, tree, .. } = self;
        (lines, tree)
    }

    /// Which rules it is held to.
    pub fn version(&self) -> Version
        ensures { result ≡ self.now.version }
    {
        self.version
    }

    /// How many variables the formula is said to have, from 0 to 2,147,483,647.
    pub fn variables(&self) -> u32
        ensures same { result ≡ self.now.variables }
        ensures limits { IsRefutation self.now }
    {
        self.variables
    }

    /// How many clauses the formula is said to have, from 0 to 2,147,483,647.
    pub fn clauses(&self) -> u32
        ensures same { result ≡ self.now.clauses }
        ensures limits { IsRefutation self.now }
    {
        self.clauses
    }

    /// The proof lines, which are numbered after the clauses.
    pub fn lines(&self) -> &[Line]
        ensures same { result.now ≡ self.now.lines }
        ensures limits { IsRefutation self.now }
    {
        self.lines.as_slice()
    }

    /// The tree.
    pub fn tree(&self) -> &ProofTree
        ensures same { result.now ≡ self.now.nodes }
        ensures limits { IsRefutation self.now }
    {
        &self.tree
    }
}
