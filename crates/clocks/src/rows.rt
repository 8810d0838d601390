//! For each call a row: how many of each column's finders are known to have found where it is
//! issued. A row is kept until it was read for the last time; what is asked of it stays.

ghost use Rattle.std.specs.Prelude.{◌≡◌, ℕ, Bool, IsTrue, IfOk, List, OnOk, Option, Some, slice_get};
ghost use Rattle.semantics.specs.Machine.{Configuration, partner_of};
ghost use Rattle.races.specs.Tells.{Table, knows_at, tells_find};
ghost use Rattle.clocks.specs.declared.race.Race.{Race};
ghost use Rattle.clocks.specs.parts.Clocks.{Numbering, IsJoin, AddsToRow, AreOrdered, AreRows, AreTold, AreSound, AreToldSoundly, IsCount, IsRow, IsToldAt, level, tells_find_at, tells_read};
ghost use Rattle.clocks.specs.parts.Exact.{AreOrderedBy};
ghost use Rattle.knowledge.specs.Knowledge.{with_partners};

use crate::columns::Columns;
use crate::race::Race;
use crate::reads::{Read, found_send, is_last_read, partner, read_for, reads_of};
use callorder::LongProgram;
use semantics::Step;
use std::alloc::{AllocError, Global};

/// How many finders of a column are known to have found, with those of all columns before it.
#[derive(Clone, Copy)]
pub struct Count {
    /// The column.
    pub column: usize,
    /// The number from which on none of its finders is known.
    pub count: usize,
}

/// Raises each count to that of the other row, where that one is larger.
fn join(row: &mut Vec<usize>, other: &[usize])
    ensures { IsJoin row.old.items other.now row.new.items }
{
    for column in 0..row.len() {
        let count = other.get(column).copied().unwrap_or(0);
        if row[column] < count {
            row[column] = count;
        }
    }
}

/// Adds what the issue of the call tells.
fn join_row(columns: &Columns, rows: &[Vec<usize>], row: &mut Vec<usize>, call: usize)
    ensures { AddsToRow columns.now rows.now (λ knows f. knows call f) row.old.items row.new.items }
{
    if let Some(other) = rows.get(call) {
        join(row, other.as_slice());
    }
}

/// Adds what the issue of the call tells, if there is one.
fn join_at(columns: &Columns, rows: &[Vec<usize>], row: &mut Vec<usize>, call: Option<usize>)
    ensures { AddsToRow columns.now rows.now (λ knows f. knows_at knows call f) row.old.items row.new.items }
{
    if let Some(call) = call {
        join_row(columns, rows, row, call);
    }
}

/// Adds what is told where the finder has found: that it has, and what its issue and that of its
/// send tell.
fn add_find(
    columns: &Columns,
    partners: &[Option<usize>],
    rows: &[Vec<usize>],
    row: &mut Vec<usize>,
    finder: usize,
)
    ensures { AddsToRow columns.now rows.now (λ knows f. tells_find (with_partners partners.now) knows finder f) row.old.items row.new.items }
{
    join_row(columns, rows, row, finder);
    join_at(columns, rows, row, partner(partners, finder));
    columns.raise(row, finder);
}

/// Adds what is told where the finder has found, if there is one.
fn add_find_at(
    columns: &Columns,
    partners: &[Option<usize>],
    rows: &[Vec<usize>],
    row: &mut Vec<usize>,
    finder: Option<usize>,
)
    ensures { AddsToRow columns.now rows.now (λ knows f. tells_find_at (with_partners partners.now) knows finder f) row.old.items row.new.items }
{
    if let Some(finder) = finder {
        add_find(columns, partners, rows, row, finder);
    }
}

/// Adds what is told by what is read.
fn add_read(
    columns: &Columns,
    partners: &[Option<usize>],
    rows: &[Vec<usize>],
    row: &mut Vec<usize>,
    read: &Read,
)
    ensures { AddsToRow columns.now rows.now (λ knows f. tells_read (with_partners partners.now) knows read.now f) row.old.items row.new.items }
{
    join_at(columns, rows, row, read.before);
    add_find_at(columns, partners, rows, row, read.found.finder);
    join_at(columns, rows, row, read.found.receive);
}

/// The row that is made from these. The only error is want of memory.
fn row_from(
    alloc: Global,
    columns: &Columns,
    partners: &[Option<usize>],
    rows: &[Vec<usize>],
    read: &Read,
) -> Result<Vec<usize>, AllocError>
    ensures { IfOk result (λ row. (knows : Table) → AreRows columns.now knows rows.now →
        IsRow columns.now (λ f. tells_read (with_partners partners.now) knows read.now f) row.items) }
{
    let mut row = vec![in alloc; 0; columns.count()]?;
    add_read(columns, partners, rows, &mut row, read);
    Ok(row)
}

/// The count of the row for the column.
fn count_in(row: &[usize], column: usize) -> Count
    ensures { (numbering : Numbering) (known : ℕ → Bool) → IsRow numbering known row.now →
        IsCount numbering known result.column result.count }
{
    Count {
        column,
        count: row.get(column).copied().unwrap_or(0),
    }
}

/// The count of the row that is asked later: that of the column of the rank that the call sends to.
fn count_for(program: &LongProgram, columns: &Columns, row: &[usize], call: usize) -> Count
    ensures { (numbering : Numbering) (known : ℕ → Bool) → IsRow numbering known row.now →
        IsCount numbering known result.column result.count }
{
    count_in(row, destination_column(program, columns, call).unwrap_or(0))
}

/// The column of the rank that the call sends to, if it is a send and there is one.
fn destination_column(program: &LongProgram, columns: &Columns, call: usize) -> Option<usize> {
    let message = program.call(call)?.kind.message()?;
    columns.column(message.destination)
}

/// Puts the count in the call's place.
fn tell(told: &mut Vec<Count>, call: usize, count: Count)
    ensures { (numbering : Numbering) (knows more : Table) → AreTold numbering knows told.old.items →
        ((c f : ℕ) → IsTrue (knows c f) → IsTrue (more c f)) →
        IsCount numbering (more call) count.column count.count → AreTold numbering more told.new.items }
{
    if let Some(place) = told.get_mut(call) {
        *place = count;
    }
}

/// Whether the count tells that the finder has found.
pub fn reaches(columns: &Columns, told: &Count, finder: usize) -> bool
    ensures { IsTrue result → (known : ℕ → Bool) → IsCount columns.now known told.now.column told.now.count → IsTrue (known finder) }
{
    let Some(mark) = columns.mark(finder) else {
        return false;
    };
    let Some(found) = columns.listed(mark.number) else {
        return false;
    };
    if found != finder {
        return false;
    }
    if mark.column != told.column || mark.number < columns.start(told.column) {
        return false;
    }
    if told.count <= mark.number {
        return false;
    }
    true
}

/// Whether the row tells that the finder has found.
fn tells(columns: &Columns, row: &[usize], finder: usize) -> bool
    ensures { IsTrue result → (known : ℕ → Bool) → IsRow columns.now known row.now → IsTrue (known finder) }
{
    match columns.mark(finder) {
        None => false,
        Some(mark) => reaches(columns, &count_in(row, mark.column), finder),
    }
}

/// Whether the race at the place is one of the call, and the row tells that its finder has found.
fn tells_at(columns: &Columns, row: &[usize], call: usize, asked: &[Race], place: usize) -> bool
    ensures { IsTrue result → (more : Table) → IsRow columns.now (more call) row.now → IsToldAt more asked.now place }
{
    let Some(race) = asked.get(place).copied() else {
        return false;
    };
    race.send == call && tells(columns, row, race.finder)
}

/// Notes at the place that the send is ordered behind the find.
fn order(ordered: &mut Vec<bool>, place: usize)
    ensures { (asked : List Race) (knows : Table) → AreOrdered knows asked ordered.old.items →
        IsToldAt knows asked place → AreOrdered knows asked ordered.new.items }
{
    if let Some(entry) = ordered.get_mut(place) {
        *entry = true;
    }
}

/// Notes for which of the races of the call the row tells that the finder has found.
fn order_races(
    columns: &Columns,
    row: &[usize],
    call: usize,
    asked: &[Race],
    ordered: &mut Vec<bool>,
)
    ensures { (knows more : Table) → AreOrdered knows asked.now ordered.old.items →
        ((c f : ℕ) → IsTrue (knows c f) → IsTrue (more c f)) →
        IsRow columns.now (more call) row.now → AreOrdered more asked.now ordered.new.items }
{
    let first = asked.partition_point(|race| race.send < call);
    let end = asked.partition_point(|race| race.send <= call);
    for place in first..end {
        if tells_at(columns, row, call, asked, place) {
            order(ordered, place);
        }
    }
}

/// Puts the row in the call's place, if it will be read.
fn put(rows: &mut Vec<Vec<usize>>, reads: &[usize], call: usize, row: Vec<usize>)
    ensures { (numbering : Numbering) (knows more : Table) → AreRows numbering knows rows.old.items →
        ((c f : ℕ) → IsTrue (knows c f) → IsTrue (more c f)) → IsRow numbering (more call) row.items →
        AreRows numbering more rows.new.items }
{
    if reads.get(call).copied().unwrap_or(0) == 0 {
        return;
    }
    if let Some(place) = rows.get_mut(call) {
        *place = row;
    }
}

/// Lets the row go that was read for the last time.
fn forget(alloc: Global, rows: &mut Vec<Vec<usize>>, reads: &mut [usize], call: Option<usize>)
    ensures { (numbering : Numbering) (knows : Table) → AreRows numbering knows rows.old.items → AreRows numbering knows rows.new.items }
{
    let Some(call) = call else {
        return;
    };
    if !is_last_read(reads, call) {
        return;
    }
    if let Some(place) = rows.get_mut(call) {
        *place = Vec::new(alloc);
    }
}

/// Lets go of the rows that were read for the last time.
fn forget_read(
    alloc: Global,
    partners: &[Option<usize>],
    rows: &mut Vec<Vec<usize>>,
    reads: &mut [usize],
    read: &Read,
)
    ensures { (numbering : Numbering) (knows : Table) → AreRows numbering knows rows.old.items → AreRows numbering knows rows.new.items }
{
    forget(alloc, rows, reads, read.before);
    forget(alloc, rows, reads, read.found.finder);
    forget(alloc, rows, reads, found_send(partners, read));
    forget(alloc, rows, reads, read.found.receive);
}

/// What is known in a run, up to some step.
#[derive(Drop)]
struct Known {
    /// For each call its row, which is empty before it is made and once nothing will read it.
    rows: Vec<Vec<usize>>,
    /// For each call the one count that is asked later.
    told: Vec<Count>,
    /// For each race that is asked of whether its finder has found where its send is issued.
    ordered: Vec<bool>,
    /// For each call how often its row will still be read.
    reads: Vec<usize>,
    /// For each rank the call that it issues next.
    next: Vec<usize>,
}

/// Makes the row of the call, and puts what is asked of it in its place. The only error is want of
/// memory.
fn note(
    alloc: Global,
    program: &LongProgram,
    columns: &Columns,
    partners: &[Option<usize>],
    asked: &[Race],
    known: &mut Known,
    call: usize,
) -> Result<(), AllocError>
    ensures { OnOk result (AreSound program.now (with_partners partners.now) columns.now asked.now
        known.old.rows.items known.old.told.items known.old.ordered.items →
        AreSound program.now (with_partners partners.now) columns.now asked.now
        known.new.rows.items known.new.told.items known.new.ordered.items) }
{
    let read = read_for(program, partners, call);
    let row = row_from(alloc, columns, partners, known.rows.as_slice(), &read)?;
    let count = count_for(program, columns, row.as_slice(), call);
    tell(&mut known.told, call, count);
    order_races(columns, row.as_slice(), call, asked, &mut known.ordered);
    put(&mut known.rows, known.reads.as_slice(), call, row);
    forget_read(
        alloc,
        partners,
        &mut known.rows,
        known.reads.as_mut_slice(),
        &read,
    );
    Ok(())
}

/// Takes in the step: of an issue, the call's row. The only error is want of memory.
fn take_step(
    alloc: Global,
    program: &LongProgram,
    columns: &Columns,
    partners: &[Option<usize>],
    asked: &[Race],
    known: &mut Known,
    step: &Step,
) -> Result<(), AllocError>
    ensures { OnOk result (AreSound program.now (with_partners partners.now) columns.now asked.now
        known.old.rows.items known.old.told.items known.old.ordered.items →
        AreSound program.now (with_partners partners.now) columns.now asked.now
        known.new.rows.items known.new.told.items known.new.ordered.items) }
{
    match step {
        Step::Issue { rank, .. } => {
            let call = issue_next(&mut known.next, *rank);
            note(alloc, program, columns, partners, asked, known, call)
        }
        _ => Ok(()),
    }
}

/// What is known from the issues of this run, in their order. The only error is want of memory.
fn known_in(
    alloc: Global,
    program: &LongProgram,
    columns: &Columns,
    partners: &[Option<usize>],
    asked: &[Race],
    run: &[Step],
) -> Result<Known, AllocError>
    ensures { IfOk result (λ known. AreSound program.now (with_partners partners.now) columns.now asked.now
        known.rows.items known.told.items known.ordered.items) }
{
    let mut known = nothing_known(alloc, program, columns, partners, asked)?;
    for step in run {
        take_step(alloc, program, columns, partners, asked, &mut known, step)?;
    }
    Ok(known)
}

/// For each send what is known, where it is issued, of the rank that it goes to, from the issues of
/// this run, in their order. The only error is want of memory.
pub fn told_of(
    alloc: Global,
    program: &LongProgram,
    columns: &Columns,
    partners: &[Option<usize>],
    run: &[Step],
) -> Result<Vec<Count>, AllocError>
    ensures { IfOk result (λ told. AreToldSoundly program.now (with_partners partners.now) columns.now told.items) }
{
    let known = known_in(alloc, program, columns, partners, &[], run)?;
    let Known { told, .. } = known;
    Ok(told)
}

/// For each of these races, which rise by their sends, whether it is told that its send is issued
/// only where its finder has found, from the issues of this run, in their order. The only error is
/// want of memory.
pub fn ordered_of(
    alloc: Global,
    program: &LongProgram,
    columns: &Columns,
    partners: &[Option<usize>],
    asked: &[Race],
    run: &[Step],
) -> Result<Vec<bool>, AllocError>
    ensures { IfOk result (λ ordered. AreOrderedBy program.now (with_partners partners.now) asked.now ordered.items) }
{
    let known = known_in(alloc, program, columns, partners, asked, run)?;
    let Known { ordered, .. } = known;
    Ok(ordered)
}

/// What is known before a run: nothing. The only error is want of memory.
fn nothing_known(
    alloc: Global,
    program: &LongProgram,
    columns: &Columns,
    partners: &[Option<usize>],
    asked: &[Race],
) -> Result<Known, AllocError>
    ensures { IfOk result (λ known. AreSound program.now (with_partners partners.now) columns.now asked.now
        known.rows.items known.told.items known.ordered.items) }
{
    let rows = empty_rows(alloc, program, columns, partners)?;
    let told = zero_counts(alloc, program)?;
    let ordered = none_ordered(alloc, asked)?;
    let reads = reads_of(alloc, program, partners)?;
    let next = first_calls(alloc, program)?;
    Ok(Known {
        rows,
        told,
        ordered,
        reads,
        next,
    })
}

/// For each call a count of no finders. The only error is want of memory.
fn zero_counts(alloc: Global, program: &LongProgram) -> Result<Vec<Count>, AllocError>
    ensures { IfOk result (λ told. (numbering : Numbering) (knows : Table) → AreTold numbering knows told.items) }
{
    let zero = Count {
        column: 0,
        count: 0,
    };
    vec![in alloc; zero; program.calls().len()]
}

/// That none of the races is told to be ordered. The only error is want of memory.
fn none_ordered(alloc: Global, asked: &[Race]) -> Result<Vec<bool>, AllocError>
    ensures { IfOk result (λ ordered. (knows : Table) → AreOrdered knows asked.now ordered.items) }
{
    vec![in alloc; false; asked.len()]
}

/// For each call an empty row, which tells nothing. The only error is want of memory.
fn empty_rows(
    alloc: Global,
    program: &LongProgram,
    columns: &Columns,
    partners: &[Option<usize>],
) -> Result<Vec<Vec<usize>>, AllocError>
    ensures { IfOk result (λ rows. AreRows columns.now (level program.now (with_partners partners.now) 0) rows.items) }
{
    let mut rows = Vec::new(alloc);
    for _ in 0..program.calls().len() {
        rows.push(Vec::new(alloc))?;
    }
    Ok(rows)
}

/// For each rank its first call. The only error is want of memory.
fn first_calls(alloc: Global, program: &LongProgram) -> Result<Vec<usize>, AllocError> {
    let mut next = vec![in alloc; 0; program.ranks() as usize]?;
    for call in (0..program.calls().len()).rev() {
        if let Some(known) = program.call(call) {
            if let Some(place) = next.get_mut(known.rank as usize) {
                *place = call;
            }
        }
    }
    Ok(next)
}

/// The call that a rank issues next, which is past then.
fn issue_next(next: &mut Vec<usize>, rank: u32) -> usize {
    match next.get_mut(rank as usize) {
        None => 0,
        Some(place) => {
            let call = *place;
            *place = call.saturating_add(1);
            call
        }
    }
}
