//! Full trees, level by level.

ghost use Rattle.std.specs.Prelude.{◌≡◌, ◌≤◌, ◌<◌, ◌+◌, ◌*◌, IfOk, OnOk, length, map, drop};
ghost use Rattle.std.specs.List.{All};
ghost use Rattle.trees.specs.Trees.{leaf_with, path_at, IsLeaf, split_at};
ghost use Rattle.cubes.specs.Levels.{paths_from, level_after, full_tree};

use std::alloc::{AllocError, Global};
use trees::{LeafSplitFault, Tree};

/// Splits a leaf of a tree that has room for it.
fn split_leaf(alloc: Global, tree: &mut Tree, leaf: u32, variable: u32) -> Result<(), AllocError>
    requires leaf { IsLeaf tree.old.nodes leaf }
    requires from_one { 1 ≤ variable }
    requires within { variable ≤ tree.old.variables }
    requires few { length tree.old.nodes + 2 ≤ 65536 }
    requires short { length (path_at tree.old.nodes leaf) < 64 }
    ensures { OnOk result (tree.new ≡ record tree.old { nodes = split_at tree.old.nodes leaf variable }) }
{
    match tree.split_leaf(alloc, leaf, variable) {
        Ok(_numbers) => Ok(()),
        Err(LeafSplitFault::Memory) => Err(AllocError),
        Err(LeafSplitFault::TooMany) => unreachable!(),
    }
}

/// Splits all nodes from this one on, which are leaves, on one variable.
fn split_level(alloc: Global, tree: &mut Tree, first: u32, variable: u32) -> Result<(), AllocError>
    requires there { first ≤ length tree.old.nodes }
    requires leaves { drop first tree.old.nodes ≡ map leaf_with (paths_from first tree.old.nodes) }
    requires short { All (λ path. length path < 64) (paths_from first tree.old.nodes) }
    requires few { length tree.old.nodes + 2 * length (paths_from first tree.old.nodes) ≤ 65536 }
    requires from_one { 1 ≤ variable }
    requires within { variable ≤ tree.old.variables }
    ensures { OnOk result (tree.new ≡ record tree.old { nodes = level_after first variable tree.old.nodes }) }
{
    let end = tree.len() as u32;
    for leaf in first..end {
        split_leaf(alloc, tree, leaf, variable)?;
    }
    Ok(())
}

/// The full tree that branches on these variables, on the first one at the root, over the variables
/// from 1 to `most`.
pub fn full_tree(alloc: Global, most: u32, variables: &[u32]) -> Result<Tree, AllocError>
    requires most { most ≤ 2147483647 }
    requires few { length variables.now ≤ 15 }
    requires within { All (λ v. (1 ≤ v) × (v ≤ most)) variables.now }
    ensures { IfOk result (λ tree. tree ≡ record { variables = most; nodes = full_tree variables.now }) }
{
    let mut tree = Tree::new(alloc, most)?;
    let mut first = 0;
    for variable in variables {
        let end = tree.len() as u32;
        split_level(alloc, &mut tree, first, *variable)?;
        first = end;
    }
    Ok(tree)
}
