//! Why a leaf isn't split.

use thiserror::Error;

/// Why a leaf isn't split.
#[derive(Clone, Copy, Debug, PartialEq, Eq, Error)]
pub enum LeafSplitFault {
    /// Memory ran out.
    #[error("memory")]
    Memory,
    /// There would be more than 65,536 nodes, or more than 64 literals on a path.
    #[error("tree too many")]
    TooMany,
}
