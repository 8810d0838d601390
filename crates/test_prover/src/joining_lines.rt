//! Lines that join the leaves of a tree that code makes.
use clauses::{Clause, Formula, Lit};
use pieces::check_all;
use refutations::{Line, Node, ProofTree, check_tree};
use std::alloc::Global;
use std::test::Fail;
use tree_lines::joining_lines;

/// Whether the lines refute the formula, the last of which is empty.
fn refutes_without_tree(alloc: Global, formula: &Formula, lines: &[Line]) -> Result<bool, Fail> {
    let last = u32::try_from(formula.len().saturating_add(lines.len()))?;
    let mut nodes = Vec::new(alloc);
    nodes.push(Node::Leaf(last))?;
    let root = ProofTree::make(nodes).map_err(|_nodes| "no tree")?;
    let are_derived = check_all(alloc, formula, lines).is_ok();
    Ok(are_derived && check_tree(alloc, formula, lines, &root).is_ok())
}

/// The variables of the tree, each path of which splits on all of them.
const VARIABLES: u32 = 12;

/// Whether the path of the leaf at this place, counted from 0, has the variable true.
fn is_true(leaf: u32, variable: u32) -> bool {
    (leaf >> VARIABLES.saturating_sub(variable).min(31)) % 2 == 0
}

/// The clause that is false on the path of this leaf alone.
fn clause_of(alloc: Global, leaf: u32) -> Result<Clause, Fail> {
    let mut literals = Vec::new(alloc);
    for variable in 1..=VARIABLES {
        literals.push(Lit::make(variable, !is_true(leaf, variable)).ok_or("no literal")?)?;
    }
    Ok(Clause::make(alloc, literals.as_slice())?)
}

/// The nodes of the full tree up to this leaf that aren't above an earlier one.
fn put_nodes(nodes: &mut Vec<Node>, leaf: u32) -> Result<(), Fail> {
    let new = leaf.trailing_zeros().min(VARIABLES);
    for depth in VARIABLES.saturating_sub(new)..VARIABLES {
        nodes.push(Node::Split(depth.saturating_add(1)))?;
    }
    nodes.push(Node::Leaf(leaf.saturating_add(1)))?;
    Ok(())
}

/// The formula that has the clause of each leaf.
fn each_leaf(alloc: Global) -> Result<Formula, Fail> {
    let mut clauses = Vec::new(alloc);
    for leaf in 0..1_u32 << VARIABLES {
        clauses.push(clause_of(alloc, leaf)?)?;
    }
    Ok(Formula::make(VARIABLES, clauses).map_err(|_clauses| "no formula")?)
}

/// The full tree.
fn full_tree(alloc: Global) -> Result<ProofTree, Fail> {
    let mut nodes = Vec::new(alloc);
    for leaf in 0..1_u32 << VARIABLES {
        put_nodes(&mut nodes, leaf)?;
    }
    Ok(ProofTree::make(nodes).map_err(|_nodes| "no tree")?)
}

/// How many lines join the full tree, where both it and they are accepted.
fn joining_count(alloc: Global, formula: &Formula, tree: &ProofTree) -> Result<usize, Fail> {
    check_tree(alloc, formula, &[], tree)?;
    let added = joining_lines(alloc, formula, &[], tree)?;
    if refutes_without_tree(alloc, formula, added.as_slice())? {
        return Ok(added.len());
    }
    Err(Fail::from("not joined"))
}

/// The same of the formula of all leaves.
fn count_of_leaves(alloc: Global, formula: &Formula) -> Result<usize, Fail> {
    let tree = full_tree(alloc)?;
    joining_count(alloc, formula, &tree)
}

#[test]
fn a_tree_of_4096_leaves(rt: HostRuntime) -> Result<(), Fail> {
    let formula = each_leaf(rt.alloc())?;
    assert_eq!(rt; count_of_leaves(rt.alloc(), &formula)?, 4095);
    Ok(())
}
