//! Both the keeper and a seat in one pass, for as long as their lists are compared, or one item is
//! added to both.

ghost use Rattle.std.specs.Prelude.{◌≡◌, true, []};
ghost use Rattle.crossbeam_utils.specs.Seq.{cell_view};
ghost use Rattle.sharedpool.specs.parts.Seats.{AreReady, AreMatched, AreNoted};

use crate::passes::{add, blank, join, look, part};
use crate::room::{Cell, ItemName, Token};
use std::mem;
use std::sync::Wait;

/// Compares the list of a seat with the keeper's, of which it is its worker's part.
pub(crate) fn match_lists<R: Wait>(rt: &R, cell: &Cell, keeper: &mut Token, seat: &mut Token)
    requires keeper_of { keeper.old.table_id ≡ cell.now.table.shared.table_id }
    requires seat_of { seat.old.table_id ≡ cell.now.table.shared.table_id }
    requires free { seat.old.me.1 ≡ [] }
    requires keeps { (cell_view keeper.old).keeps ≡ true }
    requires sits { (cell_view seat.old).sits ≡ true }
    ensures { AreMatched keeper.old keeper.new seat.old seat.new }
{
    let empty = blank(cell, keeper);
    let mine = mem::replace(seat, empty);
    join(cell, keeper, mine);
    look(rt, cell, keeper);
    *seat = part(cell, keeper);
}

/// Adds an item to the keeper's list and to the seat's, which was its worker's items so far. The
/// worker, the call and its reply are passed for contracts alone: the caller picks the item from
/// them.
pub(crate) fn note<J: ItemName, C, A, R: Wait>(
    rt: &R,
    cell: &Cell,
    keeper: &mut Token,
    seat: &mut Token,
    worker: u32,
    call: &C,
    reply: &A,
)
    requires { AreReady cell.now.table.shared.table_id keeper.old seat.old J.item }
    ensures { AreNoted keeper.old keeper.new seat.old seat.new J.item }
{
    let empty = blank(cell, keeper);
    let mine = mem::replace(seat, empty);
    join(cell, keeper, mine);
    add::<J, R>(rt, cell, keeper);
    *seat = part(cell, keeper);
}
