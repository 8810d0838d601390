//! Trees of cubes.

ghost use Rattle.std.specs.Prelude.{◌≡◌, ◌≤◌, ◌<◌, ◌+◌, ◌∷◌, ◌++◌, ◌↔◌, [], IfOk, IfSome, OnOk, OnErr, IsTrue, Some, length};
ghost use Rattle.refutations.specs.Trees.{branch};
ghost use Rattle.trees.specs.Trees.{leaf_with, path_at, kind_at, IsLeaf, split_at, HasNoRoom, IsGrownTree};

use crate::fault::LeafSplitFault;
use clauses::{LARGEST_VARIABLE, Lit};
use std::alloc::{AllocError, Global};
use std::marker::Model;

/// The most nodes that a tree has.
pub const MOST_TREE_NODES: usize = 65_536;

/// The most literals that a path has.
pub const LONGEST_PATH: usize = 64;

/// What a node is.
#[derive(Clone, Copy, Debug, PartialEq, Eq)]
pub enum NodeKind {
    /// Nothing hangs below it.
    Leaf,
    /// It is split on a variable, numbered from 1, into two nodes.
    Split {
        variable: u32,
        /// The node where the variable is true.
        if_true: u32,
        /// The node where it is false.
        if_false: u32,
    },
}

/// A node with the literals from it up to the root.
#[derive(Drop)]
pub(crate) struct Node {
    pub(crate) path: Vec<Lit>,
    pub(crate) kind: NodeKind,
}

impl Model for Node {
    ghost use Rattle.trees.specs.Trees.{TreeNode};

    ghost Value = { TreeNode };

    ghost view = { λ n. record { path = n.path.items; kind = n.kind } };
}

/// A tree whose splits cut the assignments into cubes, one for each leaf: the assignments under
/// which the literals from the leaf up to the root are true. Nodes are numbered from 0, the root.
/// It has at most [`MOST_TREE_NODES`] nodes, and each path has at most [`LONGEST_PATH`] literals.
#[derive(Drop)]
pub struct Tree {
    variables: u32,
    nodes: Vec<Node>,
}

impl Model for Tree {
    ghost use Rattle.trees.specs.Trees.{TreeState, IsGrownTree};

    ghost Value = { TreeState };

    ghost view = { λ t. record { variables = t.variables; nodes = t.nodes.items } };

    ghost invariant = { λ t. IsGrownTree (record { variables = t.variables; nodes = t.nodes.items }) };
}

/// The literals of a leaf below a split of a node with this path.
fn branch(alloc: Global, variable: u32, value: bool, path: &[Lit]) -> Result<Vec<Lit>, AllocError>
    requires from_one { 1 ≤ variable }
    requires most { variable ≤ LARGEST_VARIABLE }
    requires short { length path.now ≤ LONGEST_PATH }
    ensures { IfOk result (λ longer. longer.items ≡ branch variable value path.now) }
{
    let Some(literal) = Lit::make(variable, value) else {
        unreachable!()
    };
    let mut longer = Vec::with_capacity(alloc, path.len() + 1)?;
    longer.push(literal)?;
    longer.extend_from_slice(path)?;
    Ok(longer)
}

fn leaf_below(alloc: Global, node: &Node, variable: u32, value: bool) -> Result<Node, AllocError>
    requires from_one { 1 ≤ variable }
    requires most { variable ≤ LARGEST_VARIABLE }
    requires short { length node.now.path ≤ LONGEST_PATH }
    ensures { IfOk result (λ below. below ≡ leaf_with (branch variable value node.now.path)) }
{
    let path = branch(alloc, variable, value, node.path.as_slice())?;
    Ok(Node {
        path,
        kind: NodeKind::Leaf,
    })
}

/// Adds two nodes, or none.
fn push_two(nodes: &mut Vec<Node>, first: Node, second: Node) -> Result<(), AllocError>
    ensures ok { OnOk result (nodes.new.items ≡ nodes.old.items ++ first ∷ second ∷ []) }
    ensures err { OnErr result (nodes.new.items ≡ nodes.old.items) }
{
    nodes.push(first)?;
    match nodes.push(second) {
        Ok(()) => Ok(()),
        Err(_second) => {
            let _first = nodes.pop();
            Err(AllocError)
        }
    }
}

fn make_split(node: &mut Node, variable: u32, if_true: u32)
    requires { if_true < MOST_TREE_NODES }
    ensures { node.new ≡ record { path = node.old.path; kind = NodeKind.Split variable if_true (if_true + 1) } }
{
    node.kind = NodeKind::Split {
        variable,
        if_true,
        if_false: if_true + 1,
    };
}

fn split_node(
    alloc: Global,
    nodes: &mut Vec<Node>,
    leaf: usize,
    variable: u32,
) -> Result<(), AllocError>
    requires there { leaf < length nodes.old.items }
    requires few { length nodes.old.items < MOST_TREE_NODES }
    requires short { length (path_at nodes.old.items leaf) ≤ LONGEST_PATH }
    requires from_one { 1 ≤ variable }
    requires most { variable ≤ LARGEST_VARIABLE }
    ensures ok { OnOk result (nodes.new.items ≡ split_at nodes.old.items leaf variable) }
    ensures err { OnErr result (nodes.new.items ≡ nodes.old.items) }
{
    let count = nodes.len() as u32;
    let first = leaf_below(alloc, &nodes[leaf], variable, true)?;
    let second = leaf_below(alloc, &nodes[leaf], variable, false)?;
    push_two(nodes, first, second)?;
    make_split(&mut nodes[leaf], variable, count);
    Ok(())
}

impl Tree {
    /// The tree of one leaf, over the variables from 1 to `variables`.
    pub fn new(alloc: Global, variables: u32) -> Result<Tree, AllocError>
        requires { variables ≤ LARGEST_VARIABLE }
        ensures { IfOk result (λ tree. tree ≡ record { variables = variables; nodes = leaf_with [] ∷ [] }) }
    {
        let mut nodes = Vec::new(alloc);
        nodes.push(Node {
            path: Vec::new(alloc),
            kind: NodeKind::Leaf,
        })?;
        Ok(Tree { variables, nodes })
    }

    /// How many variables it is over; they are numbered from 1.
    pub fn variables(&self) -> u32
        ensures same { result ≡ self.now.variables }
        ensures grown { IsGrownTree self.now }
    {
        self.variables
    }

    /// How many nodes it has.
    pub fn len(&self) -> usize
        ensures same { result ≡ length self.now.nodes }
        ensures some { 1 ≤ result }
        ensures few { result ≤ MOST_TREE_NODES }
    {
        self.nodes.len()
    }

    /// What the node of this number is. There is none past the last one.
    pub fn kind(&self, node: u32) -> Option<NodeKind>
        ensures same { result ≡ kind_at self.now.nodes node }
        ensures within { IfSome result (λ _. node < length self.now.nodes) }
    {
        match self.nodes.get(node as usize) {
            None => None,
            Some(node) => Some(node.kind),
        }
    }

    /// Whether there is a node of this number and it is a leaf.
    pub fn is_leaf(&self, node: u32) -> bool
        ensures same { IsTrue result ↔ IsLeaf self.now.nodes node }
        ensures within { IsTrue result → node < length self.now.nodes }
    {
        self.kind(node) == Some(NodeKind::Leaf)
    }

    /// What the node of this number is.
    pub(crate) fn kind_of(&self, node: u32) -> NodeKind
        requires { node < length self.now.nodes }
        ensures same { kind_at self.now.nodes node ≡ Some result }
        ensures grown { IsGrownTree self.now }
    {
        let node = &self.nodes[node as usize];
        node.kind
    }

    /// The literals from the node of this number, of which there has to be one, up to the root, in
    /// constant time.
    pub fn path(&self, node: u32) -> &[Lit]
        requires { node < length self.now.nodes }
        ensures { result.now ≡ path_at self.now.nodes node }
    {
        let node = &self.nodes[node as usize];
        node.path.as_slice()
    }

    /// Whether a split of the node would make more than [`MOST_TREE_NODES`] nodes or a path of more than
    /// [`LONGEST_PATH`] literals.
    fn has_no_room(&self, leaf: u32) -> bool
        requires { leaf < length self.now.nodes }
        ensures { IsTrue result ↔ HasNoRoom self.now.nodes leaf }
    {
        self.nodes.len() + 2 > MOST_TREE_NODES || self.path(leaf).len() + 1 > LONGEST_PATH
    }

    /// Splits a leaf on a variable. The two new leaves come to the end, first the one for true and
    /// then the one for false: answers their numbers. The only refusal beside want of memory is
    /// [`LeafSplitFault::TooMany`], exactly where there would be more than [`MOST_TREE_NODES`] nodes or a
    /// path of more than [`LONGEST_PATH`] literals. At a refusal the tree is as it was.
    pub fn split_leaf(
        &mut self,
        alloc: Global,
        leaf: u32,
        variable: u32,
    ) -> Result<(u32, u32), LeafSplitFault>
        requires leaf { IsLeaf self.old.nodes leaf }
        requires from_one { 1 ≤ variable }
        requires within { variable ≤ self.old.variables }
        ensures split { OnOk result (self.new ≡ record self.old { nodes = split_at self.old.nodes leaf variable }) }
        ensures numbers { IfOk result (λ below. below ≡ (length self.old.nodes, length self.old.nodes + 1)) }
        ensures too_many { result ≡ Err LeafSplitFault.TooMany ↔ HasNoRoom self.old.nodes leaf }
        ensures kept { OnErr result (self.new ≡ self.old) }
    {
        if self.has_no_room(leaf) {
            return Err(LeafSplitFault::TooMany);
        }
        let count = self.nodes.len() as u32;
        match split_node(alloc, &mut self.nodes, leaf as usize, variable) {
            Ok(()) => Ok((count, count + 1)),
            Err(AllocError) => Err(LeafSplitFault::Memory),
        }
    }
}
