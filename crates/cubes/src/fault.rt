//! Why a formula isn't split into cubes.

use thiserror::Error;

/// Why a formula isn't split into cubes.
#[derive(Clone, Copy, Debug, PartialEq, Eq, Error)]
pub enum CubeFault {
    /// Memory ran out.
    #[error("memory")]
    Memory,
    /// The depth is above 15.
    #[error("cubes too many")]
    TooMany,
}
