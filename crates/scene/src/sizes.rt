//! How large a program is, for those who are told of it.

ghost use Rattle.std.specs.Prelude.{◌≡◌};
ghost use Rattle.scene.specs.Ends.{is_large};

use callorder::LongProgram;

/// The most ranks of a program that isn't large.
const FEW_RANKS: u32 = 64;

/// The most calls of a program that isn't large.
const FEW_CALLS: usize = 1_024;

/// Whether a program has more than 64 ranks, or more than 1,024 calls.
pub fn is_large(program: &LongProgram) -> bool
    ensures { result ≡ is_large program.now }
{
    FEW_RANKS < program.ranks() || FEW_CALLS < program.calls().len()
}
