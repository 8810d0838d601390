//! What texts, values and faults are to one another, apart from any reader, and how deep nodes
//! stand.

ghost use Rattle.prooflog.specs.Depths.{DepthsAreOfTheTree};
ghost use Rattle.prooflog.specs.Fault.{OneEvidenceFault, OneEvidenceValue, EvidenceTextHasNoFault};

/// Bytes are the text of at most one evidence.
pub fn one_value()
    ensures { OneEvidenceValue }
{}

/// The text of an evidence has no fault but want of memory.
pub fn text_has_no_fault()
    ensures { EvidenceTextHasNoFault }
{}

/// Bytes have at most one fault besides want of memory.
pub fn one_fault()
    ensures { OneEvidenceFault }
{}

/// The depths of a tree's nodes, as the limits count them, are those of the tree: the root's is 0,
/// and a child's is one more than its parent's.
pub fn depths_are_of_the_tree()
    ensures { DepthsAreOfTheTree }
{}
