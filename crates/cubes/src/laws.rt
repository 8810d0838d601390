//! What holds of branching orders, match variables and full trees, apart from any code.

ghost use Rattle.cubes.specs.Laws.{OneBranchingOrder, MatchVariablesAreWithin, FullTreeSize};

/// No two branching orders are of as many pairs of one list.
pub fn one_branching_order()
    ensures { OneBranchingOrder }
{}

/// The match variable of each pair is one of the formula's.
pub fn match_variables_are_within()
    ensures { MatchVariablesAreWithin }
{}

/// A full tree over so many variables has one node less than twice as many as it has leaves, and
/// its leaves double with each variable.
pub fn full_tree_size()
    ensures { FullTreeSize }
{}
