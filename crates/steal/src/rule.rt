// What each seat of a deque knows, and the rule that ties it to the cubes in the deque.

use crossbeam_deque::protocol::{Join, Outcome, Protocol, Split};
use crossbeam_deque::{Pass, Stealer, Worker};
use std::alloc::Global;
use std::collections::LinkedList;

/// What a seat has pushed and taken, and its parts of the right to know the whole. No value of it
/// is made.
pub struct Hand {
    pub parts: u64,
    pub pushed: LinkedList<u32>,
    pub taken: LinkedList<u32>,
}

/// What was pushed is what was taken and what is left.
pub struct Balance;

impl Protocol<u32, Hand> for Balance {
    ghost use Rattle.std.specs.Prelude.{[]};
    ghost use Rattle.steal.specs.parts.Hands.{hand, Balanced};
    ghost use Rattle.steal.specs.Hands.{all_parts};

    ghost holds = { λ items views. Balanced items views };

    ghost first = { hand all_parts [] [] };

    ghost guest = { hand 0 [] [] };
}

/// A push.
pub struct Pushed;

impl Outcome<u32, Hand> for Pushed {
    ghost use Rattle.std.specs.Prelude.{◌≡◌, ◌++◌};
    ghost use Rattle.steal.specs.parts.Hands.{hand};

    ghost then = { λ v cubes w. w ≡ hand v.parts (v.pushed ++ cubes) v.taken };
}

/// A pop or a steal.
pub struct Taken;

impl Outcome<u32, Hand> for Taken {
    ghost use Rattle.std.specs.Prelude.{◌≡◌, ◌++◌};
    ghost use Rattle.steal.specs.parts.Hands.{hand};

    ghost then = { λ v cubes w. w ≡ hand v.parts v.pushed (v.taken ++ cubes) };
}

/// A pop in the end, by who knows the whole: no more cubes are taken than were pushed, and where
/// none is left, those taken are those pushed.
pub struct Drained;

impl Outcome<u32, Hand> for Drained {
    ghost use Rattle.std.specs.Prelude.{◌≡◌, ◌≤◌, ◌++◌, ℕ, Bool, count_by, length};
    ghost use Rattle.steal.specs.parts.Hands.{hand};

    ghost then = { λ v cubes w. (w ≡ hand v.parts v.pushed (v.taken ++ cubes)) × (length (v.taken ++ cubes) ≤ length v.pushed) };

    ghost empty = { λ v. (p : ℕ → Bool) → count_by p v.pushed ≡ count_by p v.taken };
}

/// A thief's seat is cut off with one part, and what it took comes back in the end.
pub struct Parts;

impl Split<Hand> for Parts {
    ghost use Rattle.std.specs.Prelude.{◌-◌, []};
    ghost use Rattle.steal.specs.parts.Hands.{hand};

    ghost left = { λ v. hand (v.parts - 1) v.pushed v.taken };

    ghost right = { λ v. hand 1 [] [] };
}

impl Join<Hand> for Parts {
    ghost use Rattle.std.specs.Prelude.{◌+◌, ◌++◌, []};
    ghost use Rattle.steal.specs.parts.Hands.{hand};

    ghost both = { λ v w. hand (v.parts + w.parts) (v.pushed ++ w.pushed) (v.taken ++ w.taken) };

    ghost spent = { hand 0 [] [] };
}

pub type Owner = Worker<u32, Global, Hand, Balance>;

pub type Thief = Stealer<u32, Global, Hand, Balance>;

pub type Token = Pass<u32, Hand>;
