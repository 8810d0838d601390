//! Which step a walk takes where several are enabled.

ghost use Rattle.std.specs.Prelude.{◌≤◌};

/// Which step a walk takes where several are enabled. Ranks count from 0.
#[derive(Clone, Copy, PartialEq, Eq)]
pub struct Manner {
    /// Whether a standard send is buffered where the policy leaves that open.
    pub buffers: bool,
    /// Whether matches come before issues.
    pub matches_first: bool,
    /// Whether the last match or see is taken, by send, then by finder, and not the first.
    pub last_match: bool,
    /// Whether a probe sees a message only where nothing else is enabled, and not before all else.
    pub sees_last: bool,
    /// Whether the highest rank issues first, and not the lowest.
    pub highest_rank: bool,
    /// A rank that issues only where nothing else is enabled.
    pub held_back: Option<u32>,
    /// From where on a match or see is looked for first: this many sends and finders behind the
    /// first, over and over; another number in each step, but 0 stays 0.
    pub chance: u64,
}

/// Sees where it can, then issues where it can, of the lowest rank first, and else matches; buffers
/// only what it must.
const PLAIN: Manner = Manner {
    buffers: false,
    matches_first: false,
    last_match: false,
    sees_last: false,
    highest_rank: false,
    held_back: None,
    chance: 0,
};

/// Sees and matches where it can, and else issues; buffers what it may.
const EAGER: Manner = Manner {
    buffers: true,
    matches_first: true,
    ..PLAIN
};

/// The manners that are tried in each program, in this order.
const FIRST: [Manner; 5] = [
    PLAIN,
    EAGER,
    Manner {
        highest_rank: true,
        ..EAGER
    },
    Manner {
        last_match: true,
        sees_last: true,
        ..EAGER
    },
    Manner {
        last_match: true,
        highest_rank: true,
        ..EAGER
    },
];

/// How many manners are tried in a program with so many ranks.
pub fn manners(ranks: u32) -> u32
    ensures { 1 ≤ result }
{
    ranks.saturating_add(FIRST.len() as u32)
}

/// The manner that is tried at this turn, from 0: first those for all programs, then one for each
/// rank that holds this rank back.
pub fn manner_at(turn: u32) -> Manner {
    if let Some(manner) = FIRST.get(turn as usize) {
        return *manner;
    }
    Manner {
        held_back: Some(turn - FIRST.len() as u32),
        ..PLAIN
    }
}

/// How many manners there are in which the matches are chosen by chance.
pub const CHANCES: u64 = 48;

/// A manner in which the matches are chosen by chance, for each number from 1.
pub fn by_chance(number: u64) -> Manner {
    Manner {
        buffers: number % 4 != 0,
        matches_first: number % 2 == 0,
        chance: number.wrapping_mul(0x9e37_79b9_7f4a_7c15),
        ..PLAIN
    }
}

/// How many manners there are that buffer only what they must.
pub const CHANCES_BEHIND: u64 = 8;

/// A manner that buffers only what it must, for each number: with 0 the first match is taken, with
/// others one that is chosen by chance.
pub fn unbuffered(number: u64) -> Manner {
    Manner {
        matches_first: number % 2 == 0,
        chance: number.wrapping_mul(0x9e37_79b9_7f4a_7c15),
        ..PLAIN
    }
}

/// What chance is in the next step: 0 stays 0.
pub fn next_chance(chance: u64) -> u64 {
    let first = chance ^ (chance << 13);
    let second = first ^ (first >> 7);
    second ^ (second << 17)
}
