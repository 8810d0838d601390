//! Trees of refutations from trees of cubes.

ghost use Rattle.std.specs.Prelude.{◌≡◌, ◌++◌, IfOk, OnOk, length};
ghost use Rattle.refutations.specs.BinaryTrees.{Tree as BinaryTree, preorder};
ghost use Rattle.trees.specs.Trees.{IsBelow, AreLeavesNumbered};
ghost use Rattle.trees.specs.parts.Preorders.{proof_node, nodes_below, tree_below};

use crate::tree::{NodeKind, Tree};
use refutations::{Node, ProofTree};
use std::alloc::{AllocError, Global};

fn proof_node(kind: &NodeKind, number: u32) -> Node
    ensures { result ≡ proof_node kind.now number }
{
    match *kind {
        NodeKind::Leaf => Node::Leaf(number),
        NodeKind::Split { variable, .. } => Node::Split(variable),
    }
}

/// Puts the nodes below a node before all that wait, which come from the end on.
fn push_below(waiting: &mut Vec<u32>, kind: &NodeKind) -> Result<(), AllocError>
    ensures { OnOk result (waiting.new.items ≡ waiting.old.items ++ nodes_below kind.now) }
{
    if let NodeKind::Split {
        if_true,
        if_false,
        ..
    } = *kind
    {
        waiting.push(if_false)?;
        waiting.push(if_true)?;
    }
    Ok(())
}

fn preorder(alloc: Global, tree: &Tree, numbers: &[u32]) -> Result<Vec<Node>, AllocError>
    requires { length numbers.now ≡ length tree.now.nodes }
    ensures { IfOk result (λ nodes. nodes.items ≡ preorder (tree_below tree.now.nodes numbers.now 0)) }
{
    let mut nodes = Vec::with_capacity(alloc, tree.len())?;
    let mut waiting = Vec::new(alloc);
    waiting.push(0)?;
    while let Some(node) = waiting.pop() {
        let kind = tree.kind_of(node);
        nodes.push(proof_node(&kind, numbers[node as usize]))?;
        push_below(&mut waiting, &kind)?;
    }
    Ok(nodes)
}

impl Tree {
    /// The tree of a refutation with the same splits, in which each leaf has the number that stands
    /// at its place; other places may hold any number. In time and memory proportional to the
    /// nodes.
    pub fn proof_tree(&self, alloc: Global, numbers: &[u32]) -> Result<ProofTree, AllocError>
        requires many { length numbers.now ≡ length self.now.nodes }
        requires numbered { AreLeavesNumbered self.now.nodes numbers.now }
        ensures { IfOk result (λ nodes. (tree : BinaryTree) × (preorder tree ≡ nodes) × IsBelow self.now.nodes numbers.now tree 0) }
    {
        let _variables = self.variables();
        let nodes = preorder(alloc, self, numbers)?;
        match ProofTree::make(nodes) {
            Ok(tree) => Ok(tree),
            Err(_nodes) => unreachable!(),
        }
    }
}
