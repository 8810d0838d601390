//! A refutation without the lines that aren't needed.

ghost use Rattle.std.specs.Prelude.{◌≡◌, ◌⊎◌, false, length, OnOk, OnErr};
ghost use Rattle.clauses.specs.Clauses.{Conjunction};
ghost use Rattle.refutations.specs.Refutations.{Accepts};
ghost use Rattle.trimming.specs.Needed.{Needed, are_named, trimmed_lines, trimmed_nodes};

use crate::marks::needed_lines;
use crate::names::are_named;
use crate::renumbering::Renumbering;
use refutations::{Line, ProofTree};
use std::alloc::{AllocError, Global};
use thiserror::Error;

/// Why no refutation was trimmed.
#[derive(Clone, Copy, Debug, PartialEq, Eq, Error)]
pub enum RefutationTrimFault {
    /// Memory ran out.
    #[error("memory")]
    Memory,
    /// A hint names neither a clause nor an earlier line, or a leaf names neither a clause nor a
    /// line.
    #[error("number")]
    Number,
}

impl From<AllocError> for RefutationTrimFault {
    ghost use Rattle.std.specs.Prelude.{◌≡◌};
    ghost use Rattle.trimming.specs.declared.trims.RefutationTrimFault.{RefutationTrimFault};

    ghost from_gives = { λ _ fault. fault ≡ RefutationTrimFault.Memory };

    fn from(_error: AllocError) -> RefutationTrimFault {
        RefutationTrimFault::Memory
    }
}

/// Leaves out the lines that aren't needed, where so many clauses stand before the lines. The
/// others stay in their order, the numbers of lines are closed up, and each hint and leaf has its
/// clause's new number. What accepted the lines and the tree accepts these. Where it is refused,
/// both stay as they are. It takes time linear in the lines, hints and nodes, and beside what there
/// is nine bytes a line and room for the lines and nodes themselves once more; no literal and no
/// hint is copied.
pub fn trim(
    alloc: Global,
    clauses: u32,
    lines: &mut Vec<Line>,
    tree: &mut ProofTree,
) -> Result<(), RefutationTrimFault>
    ensures lines { OnOk result (lines.new.items ≡ trimmed_lines clauses lines.old.items tree.old) }
    ensures tree { OnOk result (tree.new ≡ trimmed_nodes clauses lines.old.items tree.old) }
    ensures accepted { OnOk result ((f : Conjunction) → length f.clauses ≡ clauses →
        Accepts f lines.old.items tree.old → Accepts f lines.new.items tree.new) }
    ensures needed { OnOk result (Needed clauses lines.new.items tree.new) }
    ensures same_lines { OnErr result (lines.new.items ≡ lines.old.items) }
    ensures same_tree { OnErr result (tree.new ≡ tree.old) }
    ensures number { result ≡ Err RefutationTrimFault.Number → are_named clauses lines.old.items tree.old ≡ false }
    ensures number_only { are_named clauses lines.old.items tree.old ≡ false →
        (result ≡ Err RefutationTrimFault.Number) ⊎ (result ≡ Err RefutationTrimFault.Memory) }
{
    if !are_named(clauses, lines.as_slice(), tree.nodes()) {
        return Err(RefutationTrimFault::Number);
    }
    let stays = needed_lines(alloc, clauses, lines.as_slice(), tree.nodes())?;
    let renumbering = Renumbering::new(alloc, clauses, stays)?;
    let nodes = renumbering.nodes(alloc, tree.nodes())?;
    let Ok(trimmed) = ProofTree::make(nodes) else {
        unreachable!()
    };
    renumbering.keep(alloc, lines)?;
    *tree = trimmed;
    Ok(())
}
