//! Trees of cubes, which grow by splits of leaves.
//!
//! Nodes are numbered from 0, the root. `specs/Trees.antt` says how trees grow and which tree hangs
//! below a node, `specs/Laws.antt` what holds of every one.
#![tactic(auto)]

mod fault;
mod laws;
mod proof_tree;
mod tree;

pub use fault::LeafSplitFault;
pub use laws::{
    closed_leaves_refute, one_leaf_for_each_assignment, paths_are_within, splits_are_sound,
    splits_change_one_leaf,
};
pub use tree::{LONGEST_PATH, MOST_TREE_NODES, NodeKind, Tree};
