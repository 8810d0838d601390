//! The steps of the passes of the cell beside the lock, each for itself.

ghost use Rattle.std.specs.Prelude.{◌≡◌, ◌<◌, ◌∷◌, true, []};
ghost use Rattle.crossbeam_utils.specs.Seq.{cell_view};
ghost use Rattle.sharedpool.specs.parts.Views.{one_more, next_seat, taker, with_seat, with_item, keeper_of, seat_of};
ghost use Rattle.sharedpool.specs.Views.{items_of, AllBelow, AreDifferent};

use crate::room::{Adds, Blank, Cell, ItemName, Looks, NextSeat, TakesBack, Token, WithSeat};
use std::sync::Wait;

/// A seat for the next worker.
pub(crate) fn take_seat(cell: &Cell, keeper: &mut Token) -> Token
    requires keeper_of { keeper.old.table_id ≡ cell.now.table.shared.table_id }
    requires keeps { (cell_view keeper.old).keeps ≡ true }
    requires none_taken { (cell_view keeper.old).taken ≡ [] }
    ensures of { keeper.new.table_id ≡ keeper.old.table_id }
    ensures kept { cell_view keeper.new ≡ one_more (cell_view keeper.old) }
    ensures seat_of { result.table_id ≡ keeper.old.table_id }
    ensures free { result.me.1 ≡ [] }
    ensures seat { cell_view result ≡ next_seat (cell_view keeper.old) }
{
    cell.split_pass::<NextSeat>(keeper)
}

/// A pass that knows nothing.
pub(crate) fn blank(cell: &Cell, keeper: &mut Token) -> Token
    requires { keeper.old.table_id ≡ cell.now.table.shared.table_id }
    ensures of { keeper.new.table_id ≡ keeper.old.table_id }
    ensures same { cell_view keeper.new ≡ cell_view keeper.old }
{
    cell.split_pass::<Blank>(keeper)
}

/// The keeper with a seat joined.
pub(crate) fn join(cell: &Cell, keeper: &mut Token, seat: Token)
    requires keeper_of { keeper.old.table_id ≡ cell.now.table.shared.table_id }
    requires seat_of { seat.table_id ≡ keeper.old.table_id }
    requires free { seat.me.1 ≡ [] }
    requires keeps { (cell_view keeper.old).keeps ≡ true }
    requires sits { (cell_view seat).sits ≡ true }
    ensures of { keeper.new.table_id ≡ keeper.old.table_id }
    ensures joined { cell_view keeper.new ≡ with_seat (cell_view keeper.old) (cell_view seat) }
{
    cell.join_pass::<WithSeat>(keeper, seat);
}

/// Adds an item to both lists of a keeper with a seat, whose list was its worker's items so far.
pub(crate) fn add<J: ItemName, R: Wait>(rt: &R, cell: &Cell, keeper: &mut Token)
    requires keeper_of { keeper.old.table_id ≡ cell.now.table.shared.table_id }
    requires keeps { (cell_view keeper.old).keeps ≡ true }
    requires sits { (cell_view keeper.old).sits ≡ true }
    requires worker { (cell_view keeper.old).worker ≡ J.item.entry.worker }
    ensures of { keeper.new.table_id ≡ keeper.old.table_id }
    ensures added { cell_view keeper.new ≡ with_item (cell_view keeper.old) J.item }
    ensures mine { (cell_view keeper.old).mine ≡ items_of (cell_view keeper.old).worker (cell_view keeper.old).all }
{
    cell.load_as::<Adds<J>, R>(rt, keeper);
}

/// Looks at the list of the seat that is joined, which is its worker's items so far.
pub(crate) fn look<R: Wait>(rt: &R, cell: &Cell, keeper: &mut Token)
    requires keeper_of { keeper.old.table_id ≡ cell.now.table.shared.table_id }
    requires keeps { (cell_view keeper.old).keeps ≡ true }
    requires sits { (cell_view keeper.old).sits ≡ true }
    ensures of { keeper.new.table_id ≡ keeper.old.table_id }
    ensures same { cell_view keeper.new ≡ cell_view keeper.old }
    ensures mine { (cell_view keeper.old).mine ≡ items_of (cell_view keeper.old).worker (cell_view keeper.old).all }
    ensures below { (cell_view keeper.old).worker < (cell_view keeper.old).workers }
{
    cell.load_as::<Looks, R>(rt, keeper);
}

/// Takes the seat that is joined back. Its list is its worker's items, and it is another worker's
/// than those that were taken before.
pub(crate) fn take_back<R: Wait>(rt: &R, cell: &Cell, keeper: &mut Token)
    requires keeper_of { keeper.old.table_id ≡ cell.now.table.shared.table_id }
    requires keeps { (cell_view keeper.old).keeps ≡ true }
    requires sits { (cell_view keeper.old).sits ≡ true }
    ensures of { keeper.new.table_id ≡ keeper.old.table_id }
    ensures taken { cell_view keeper.new ≡
        taker (cell_view keeper.old).workers (cell_view keeper.old).all ((cell_view keeper.old).worker ∷
        (cell_view keeper.old).taken) }
    ensures mine { (cell_view keeper.old).mine ≡ items_of (cell_view keeper.old).worker (cell_view keeper.old).all }
    ensures below { (cell_view keeper.old).worker < (cell_view keeper.old).workers }
    ensures others { AllBelow (cell_view keeper.old).workers (cell_view keeper.old).all }
    ensures different { AreDifferent ((cell_view keeper.old).worker ∷ (cell_view keeper.old).taken) }
{
    cell.load_as::<TakesBack, R>(rt, keeper);
}

/// The seat that is joined, apart from the keeper again.
pub(crate) fn part(cell: &Cell, keeper: &mut Token) -> Token
    requires keeper_of { keeper.old.table_id ≡ cell.now.table.shared.table_id }
    requires keeps { (cell_view keeper.old).keeps ≡ true }
    requires sits { (cell_view keeper.old).sits ≡ true }
    ensures of { keeper.new.table_id ≡ keeper.old.table_id }
    ensures kept { cell_view keeper.new ≡ keeper_of (cell_view keeper.old) }
    ensures seat_of { result.table_id ≡ keeper.old.table_id }
    ensures free { result.me.1 ≡ [] }
    ensures seat { cell_view result ≡ seat_of (cell_view keeper.old) }
{
    cell.split_pass::<WithSeat>(keeper)
}
