//! What accepted lines and trees show, over all assignments, apart from any code.

ghost use Rattle.refutations.specs.BinaryTrees.{PreordersAreTrees, PreordersTellTrees, TreesPass};
ghost use Rattle.refutations.specs.Refutations.{DerivedLinesFollow, DerivationsFollow, AcceptedRefute};

/// A derived line is satisfied wherever the formula and the earlier lines are.
pub fn derived_lines_follow()
    ensures { DerivedLinesFollow }
{}

/// Each line of a derivation is satisfied wherever the formula is.
pub fn derivations_follow()
    ensures { DerivationsFollow }
{}

/// No assignment satisfies a formula with an accepted refutation.
pub fn accepted_refute()
    ensures { AcceptedRefute }
{}

/// A list of nodes that passes for a tree is the preorder of one.
pub fn preorders_are_trees()
    ensures { PreordersAreTrees }
{}

/// The preorder of a tree passes for one.
pub fn trees_pass()
    ensures { TreesPass }
{}

/// No two trees have one preorder.
pub fn preorders_tell_trees()
    ensures { PreordersTellTrees }
{}
