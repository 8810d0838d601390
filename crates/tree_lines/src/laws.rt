//! What joined lines show, over all assignments, apart from any code.

ghost use Rattle.tree_lines.specs.Joining.{JoinedRefute};

/// No assignment satisfies a formula with lines that are joined to the empty clause.
pub fn joined_refute()
    ensures { JoinedRefute }
{}
