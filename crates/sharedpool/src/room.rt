//! The cell beside the lock: what its passes know, and how that is cut and joined.

use atomic_table::{Join, Split};
use crossbeam_utils::atomic::seq_cell::{Pass, RuledSeqCell};
use crossbeam_utils::rule::{Outcome, Protocol};
use pool::LoggedCall;
use std::collections::LinkedList;
use std::marker::{Brand, PhantomData};

/// Names one shared pool: its cell, the pool that it began with, and how many workers it has. The
/// call that opens a room picks the three, for [`Brand`].
pub trait PoolName {
    ghost use Rattle.std.specs.Prelude.{ℕ};
    ghost use Rattle.atomic_table.specs.Seated.{TableId};
    ghost use Rattle.pool.specs.States.{PoolState};

    ghost table: { TableId };

    ghost opening: { PoolState };

    ghost workers: { ℕ };
}

impl PoolName for Brand {
    ghost use Rattle.sharedpool.specs.parts.Nothing.{no_table, no_pool};

    ghost table = { no_table };

    ghost opening = { no_pool };

    ghost workers = { 0 };
}

/// Names the item that one call adds.
pub trait ItemName {
    ghost use Rattle.pool.specs.declared.entry.LoggedCall.{LoggedCall};

    ghost item: { LoggedCall };
}

impl ItemName for Brand {
    ghost use Rattle.sharedpool.specs.parts.Nothing.{no_item};

    ghost item = { no_item };
}

/// Names the steps that one call is given.
pub trait StepsName {
    ghost use Rattle.std.specs.Prelude.{List};
    ghost use Rattle.semantics.specs.declared.state.Step.{Step};

    ghost steps: { List Step };
}

impl StepsName for Brand {
    ghost use Rattle.std.specs.Prelude.{[]};

    ghost steps = { [] };
}

/// What a pass knows: the keeper's how many seats were made, all items, and whose seats were taken
/// back; a seat's its worker and that worker's items. No value of it is made.
pub struct View {
    pub keeps: bool,
    pub workers: u64,
    pub all: LinkedList<LoggedCall>,
    pub taken: LinkedList<u64>,
    pub sits: bool,
    pub worker: u64,
    pub mine: LinkedList<LoggedCall>,
}

/// The rule of the cell, whose one word never changes.
pub struct Seated;

impl Protocol<[u64; 1], View> for Seated {
    ghost use Rattle.std.specs.Prelude.{[]};
    ghost use Rattle.sharedpool.specs.parts.Views.{Kept};
    ghost use Rattle.sharedpool.specs.Views.{knower};

    ghost holds = { λ words views. Kept words views };

    ghost first = { knower 0 [] };
}

/// The item is added to both lists of a keeper that has a seat joined.
pub struct Adds<J: ItemName> {
    of: PhantomData<J>,
}

impl<J: ItemName> Outcome<[u64; 1], View> for Adds<J> {
    ghost use Rattle.sharedpool.specs.parts.Views.{Added};

    ghost then = { Added J.item };
}

/// The list of a seat that is joined to a keeper is its worker's items.
pub struct Looks;

impl Outcome<[u64; 1], View> for Looks {
    ghost use Rattle.sharedpool.specs.parts.Views.{Looked};

    ghost then = { Looked };
}

/// The seat that is joined to the keeper is taken back, and its list is its worker's items.
pub struct TakesBack;

impl Outcome<[u64; 1], View> for TakesBack {
    ghost use Rattle.sharedpool.specs.parts.Views.{TakenBack};

    ghost then = { TakenBack };
}

/// A new seat, for the next worker.
pub struct NextSeat;

impl Split<View> for NextSeat {
    ghost use Rattle.sharedpool.specs.parts.Views.{one_more, next_seat};

    ghost left = { one_more };

    ghost right = { next_seat };
}

/// A pass that knows nothing.
pub struct Blank;

impl Split<View> for Blank {
    ghost use Rattle.sharedpool.specs.Views.{nobody};

    ghost left = { λ v. v };

    ghost right = { λ v. nobody };
}

/// The keeper with a seat joined, and the two apart again.
pub struct WithSeat;

impl Split<View> for WithSeat {
    ghost use Rattle.sharedpool.specs.parts.Views.{keeper_of, seat_of};

    ghost left = { keeper_of };

    ghost right = { seat_of };
}

impl Join<View> for WithSeat {
    ghost use Rattle.sharedpool.specs.parts.Views.{with_seat};
    ghost use Rattle.sharedpool.specs.Views.{nobody};

    ghost both = { with_seat };

    ghost spent = { nobody };
}

/// The cell of a room.
pub type Cell = RuledSeqCell<[u64; 1], View, Seated, 1>;

/// A pass of the cell.
pub type Token = Pass<[u64; 1], View>;
