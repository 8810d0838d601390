//! The seat of one worker.

ghost use Rattle.std.specs.Prelude.{◌≡◌, ◌≤◌, ◌<◌, ◌+◌, ◌∷◌, [], IfOk, IfSome, length, true};
ghost use Rattle.crossbeam_utils.specs.Seq.{cell_view};
ghost use Rattle.pool.specs.Moves.{AreOfBatch};
ghost use Rattle.sharedpool.specs.Seats.{GoesOnByFetch, IsDerivedFrom};
ghost use Rattle.sharedpool.specs.parts.Seats.{IsSeat};
ghost use Rattle.sharedpool.specs.parts.Views.{taker};
ghost use Rattle.sharedpool.specs.Views.{items_of, AllBelow, AreDifferent};

use crate::passes::{join, take_back};
use crate::room::{Cell, PoolName, Token};
use clauses::Formula;
use pages::{Lines, Log};
use pool::{DerivedLines, FetchFault, MOST_LINES, derived_lines};
use refutations::{Batch, PartialAssignment};
use std::alloc::{AllocError, Global};
use std::marker::{Model, PhantomData};
use std::sync::Wait;

/// The worker's number, and the pass that knows the items of its calls.
#[derive(Drop)]
pub(crate) struct Ticket<B: PoolName> {
    pub(crate) worker: u32,
    pub(crate) pass: Token,
    pub(crate) room: PhantomData<B>,
}

impl<B: PoolName> Model for Ticket<B> {
    ghost use Rattle.crossbeam_utils.specs.Seq.{cell_view};
    ghost use Rattle.sharedpool.specs.parts.Seats.{IsSeat};
    ghost use Rattle.sharedpool.specs.Seats.{Chair};

    ghost Value = { Chair };

    ghost view = { λ s. record { worker = s.worker; mine = (cell_view s.pass).mine } };

    ghost invariant = { λ s. IsSeat B.table s.worker s.pass };
}

/// What a worker makes its calls with: its number, and, for contracts, the items of its calls in
/// order.
///
/// It has the lines that the fetches with it told, too, so that a batch is checked over them before
/// the lock is taken.
#[derive(Drop)]
pub struct Seat<B: PoolName> {
    pub(crate) ticket: Ticket<B>,
    pub(crate) view: Log,
    pub(crate) known: PartialAssignment,
}

impl<B: PoolName> Model for Seat<B> {
    ghost use Rattle.std.specs.Prelude.{◌≡◌, ◌+◌, length};
    ghost use Rattle.sharedpool.specs.Seats.{Chair, IsViewTold};

    ghost Value = { Chair };

    ghost view = { λ s. s.ticket };

    ghost invariant = { λ s. IsViewTold B.opening.formula s.ticket.mine s.view × (length s.known ≡ B.opening.formula.variables + 1) };
}

/// The lines of a batch, if they derive from those that a seat was told. None where memory runs
/// out, too.
pub(crate) fn derived_from(
    alloc: Global,
    known: &mut PartialAssignment,
    formula: &Formula,
    view: &Log,
    batch: &Batch,
) -> Option<DerivedLines>
    requires size { length known.old ≡ formula.now.variables + 1 }
    requires few_clauses { length formula.now.clauses ≤ 4000000 }
    ensures lines { IfSome result (λ d. AreOfBatch batch.now.lines.items d) }
    ensures derived { IfSome result (λ _. IsDerivedFrom formula.now view.now batch.now.lines.items) }
    ensures size { length known.new ≡ length known.old }
{
    if view.len() > MOST_LINES {
        return None;
    }
    derived_lines(alloc, known, formula, view, batch.lines.as_slice())
}

/// After a fetch from among the lines that a seat was told, or from their end, has them go on by
/// those that it told. Where memory is wanting they stay as they were: batches are checked under
/// the lock then.
pub(crate) fn follow(alloc: Global, view: &mut Log, from: usize, reply: &Result<Lines, FetchFault>)
    ensures { GoesOnByFetch view.old from reply.now view.new }
{
    let Ok(lines) = reply else {
        return;
    };
    if from > view.len() {
        return;
    }
    match view.follow(alloc, from, lines) {
        Ok(()) | Err(AllocError) => {}
    }
}

impl<B: PoolName> Seat<B> {
    /// A seat for this worker, with which no call was made.
    pub(crate) fn new(
        alloc: Global,
        formula: &Formula,
        worker: u32,
        pass: Token,
    ) -> Result<Self, AllocError>
        requires formula { formula.now ≡ B.opening.formula }
        requires pass { IsSeat B.table worker pass }
        requires fresh { (cell_view pass).mine ≡ [] }
        ensures worker { IfOk result (λ seat. seat.worker ≡ worker) }
        ensures fresh { IfOk result (λ seat. seat.mine ≡ []) }
    {
        let known = PartialAssignment::new(alloc, formula.variables())?;
        Ok(Seat {
            ticket: Ticket {
                worker,
                pass,
                room: PhantomData,
            },
            view: Log::new(alloc),
            known,
        })
    }

    /// The worker's number, from 0.
    pub fn worker(&self) -> u32
        ensures { result ≡ self.now.worker }
    {
        self.ticket.worker
    }

    /// Gives the seat back to the keeper.
    pub(crate) fn hand_back<R: Wait>(self, rt: &R, cell: &Cell, keeper: &mut Token)
        requires room { cell.now.table.shared.table_id ≡ B.table }
        requires keeper_of { keeper.old.table_id ≡ B.table }
        requires keeps { (cell_view keeper.old).keeps ≡ true }
        ensures of { keeper.new.table_id ≡ B.table }
        ensures taken { cell_view keeper.new ≡
            taker (cell_view keeper.old).workers (cell_view keeper.old).all (self.worker ∷ (cell_view
            keeper.old).taken) }
        ensures mine { self.mine ≡ items_of self.worker (cell_view keeper.old).all }
        ensures below { self.worker < (cell_view keeper.old).workers }
        ensures others { AllBelow (cell_view keeper.old).workers (cell_view keeper.old).all }
        ensures different { AreDifferent (self.worker ∷ (cell_view keeper.old).taken) }
    {
        let Seat { ticket, .. } = self;
        join(cell, keeper, ticket.pass);
        take_back(rt, cell, keeper);
    }
}
