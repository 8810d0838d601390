//! What tells states apart.

/// An odd number whose products are spread well.
const MIXER: u64 = 0x9E37_79B9_7F4A_7C15;

/// The hash of nothing. With 0 in its place a first number 0 would add nothing.
pub(crate) const NOTHING: u64 = MIXER;

/// What tells a state from nearly all others of the same program: a hash of it, and one of its
/// matched calls alone.
#[derive(Clone, Copy, PartialEq, Eq)]
pub struct Key {
    /// The hash of the state.
    pub state: u64,
    /// The hash of its calls that are matched among themselves.
    pub matched: u64,
}

/// The hash of what has this hash and of one more number behind it.
pub fn mixed(hash: u64, number: u64) -> u64 {
    let product = (hash ^ number).wrapping_mul(MIXER);
    product ^ (product >> 32)
}
