//! What holds of every tree that grows, apart from any code.

ghost use Rattle.trees.specs.Laws.{OneLeafForEachAssignment, ClosedLeavesRefute, SplitsAreSound, SplitsChangeOneLeaf, PathsAreWithin};

/// Each assignment makes all literals of one leaf true, and those of no other.
pub fn one_leaf_for_each_assignment()
    ensures { OneLeafForEachAssignment }
{}

/// A tree each of whose leaves has a clause that its path refutes is one that refutes.
pub fn closed_leaves_refute()
    ensures { ClosedLeavesRefute }
{}

/// The root has the empty path. A split's variable is one of the tree's, and the two nodes below it
/// come after it, one after the other, and have its path with one literal more.
pub fn splits_are_sound()
    ensures { SplitsAreSound }
{}

/// After the split of a leaf all other nodes are as before, the leaf keeps its path, and the two
/// new nodes are leaves with one literal more.
pub fn splits_change_one_leaf()
    ensures { SplitsChangeOneLeaf }
{}

/// The variables of each path are those that the tree is over.
pub fn paths_are_within()
    ensures { PathsAreWithin }
{}
