//! In which columns steps stand.

ghost use Rattle.std.specs.Prelude.{◌≡◌, ◌+◌, ◌<◌, ◌≤◌, ◌++◌, ◌∷◌, [], ℕ, IfOk, OnOk, map, slice_index, slice_set};
ghost use Rattle.scene.specs.declared.acts.Act.TheVariants.{Issue};
ghost use Rattle.charts.specs.Columns.{AreColumns, column_of, is_wait, wait_line};
ghost use Rattle.charts.specs.parts.Placing.{ArePlacedIn, HasPlaced, IsFindAct, HasRaisedRow, column_in, fresh_row, row_at, row_behind, shared_by};

use callorder::{Kind, LongProgram};
use scene::{Act, CallLabel};
use std::alloc::{AllocError, Global};

/// A step, and the column that it stands in, from 0.
#[derive(Clone, Copy)]
pub struct PlacedAct {
    pub act: Act,
    pub column: usize,
}

/// Waits that share a column: their line, and the column.
#[derive(Clone, Copy)]
struct Shared {
    line: usize,
    column: usize,
}

/// The row of a rank, as far as its steps are placed.
#[derive(Clone, Copy)]
struct Row {
    /// The first column that is free.
    free: usize,
    /// The waits that were issued last, if the last issue was one of a wait.
    waits: Option<Shared>,
}

/// Steps in columns.
#[derive(Drop)]
pub struct StepColumns {
    /// The steps, in order.
    pub steps: Vec<PlacedAct>,
    /// For each call the column that it is issued in; 0 where it isn't.
    pub issues: Vec<usize>,
    /// How many columns there are.
    pub count: usize,
    /// For each rank its row.
    rows: Vec<Row>,
}

/// Whether the call is a wait.
fn is_wait(program: &LongProgram, call: usize) -> bool
    ensures { result ≡ is_wait program.now call }
{
    match program.call(call) {
        None => false,
        Some(known) => matches!(known.kind, Kind::Wait { .. }),
    }
}

/// The line of a call that is a wait.
fn wait_line(program: &LongProgram, calls: &[CallLabel], call: usize) -> Option<usize>
    ensures { result ≡ wait_line program.now calls.now call }
{
    if !is_wait(program, call) {
        return None;
    }
    match calls.get(call) {
        None => None,
        Some(told) => Some(told.line()),
    }
}

/// The column behind this one. That there is none is told as want of memory.
fn next_column(column: usize) -> Result<usize, AllocError>
    ensures { IfOk result (λ next. next ≡ column + 1) }
{
    match column.checked_add(1) {
        None => Err(AllocError),
        Some(next) => Ok(next),
    }
}

/// The column that a wait of this line shares, if there is one.
fn shared_by(line: Option<usize>, waits: Option<Shared>) -> Option<usize>
    ensures { result ≡ shared_by line waits }
{
    let Some(line) = line else {
        return None;
    };
    match waits {
        None => None,
        Some(shared) => {
            if shared.line == line {
                Some(shared.column)
            } else {
                None
            }
        }
    }
}

/// The column of the next issue of a row's rank; the line is that of a wait.
fn column_in(row: Row, line: Option<usize>) -> usize
    ensures { result ≡ column_in row line }
{
    shared_by(line, row.waits).unwrap_or(row.free)
}

/// A row behind an issue that shares no column.
fn fresh_row(row: Row, line: Option<usize>) -> Result<Row, AllocError>
    ensures { IfOk result (λ fresh. fresh ≡ fresh_row row line) }
{
    let free = next_column(row.free)?;
    let column = row.free;
    match line {
        None => Ok(Row { free, waits: None }),
        Some(line) => Ok(Row {
            free,
            waits: Some(Shared { line, column }),
        }),
    }
}

/// A row behind the next issue of its rank.
fn row_behind(row: Row, line: Option<usize>) -> Result<Row, AllocError>
    ensures { IfOk result (λ behind. behind ≡ row_behind row line) }
{
    match shared_by(line, row.waits) {
        None => fresh_row(row, line),
        Some(_column) => Ok(row),
    }
}

/// A rank's row.
fn row_at(rows: &[Row], rank: usize) -> Row
    ensures { result ≡ row_at rows.now rank }
{
    let empty = Row {
        free: 0,
        waits: None,
    };
    rows.get(rank).copied().unwrap_or(empty)
}

fn set_row(rows: &mut Vec<Row>, rank: usize, row: Row)
    ensures { rows.new.items ≡ slice_set rows.old.items rank row }
{
    if let Some(place) = rows.get_mut(rank) {
        *place = row;
    }
}

fn set_issue(issues: &mut Vec<usize>, call: usize, column: usize)
    ensures { issues.new.items ≡ slice_set issues.old.items call column }
{
    if let Some(place) = issues.get_mut(call) {
        *place = column;
    }
}

/// The column that a call is issued in; 0 where it isn't.
pub fn issued_in(issues: &[usize], call: usize) -> usize
    ensures { result ≡ slice_index issues.now call }
{
    issues.get(call).copied().unwrap_or(0)
}

/// Leaves no column up to this one free in the row of a call's rank. That there is no such call is
/// told as want of memory.
fn raise(
    rows: &mut Vec<Row>,
    program: &LongProgram,
    call: usize,
    column: usize,
) -> Result<(), AllocError>
    ensures { OnOk result (HasRaisedRow program.now call column rows.old.items rows.new.items) }
{
    let Some(known) = program.call(call) else {
        return Err(AllocError);
    };
    let next = next_column(column)?;
    let rank = known.rank as usize;
    let Row { free, waits } = row_at(rows, rank);
    let free = if column < free { free } else { next };
    set_row(rows, rank, Row { free, waits });
    Ok(())
}

impl StepColumns {
    /// Adds a step in a column.
    fn push(&mut self, act: Act, column: usize) -> Result<(), AllocError>
        ensures { OnOk result ((self.new.steps.items ≡
            self.old.steps.items ++ record { act = act; column = column } ∷ []) ×
            (self.new.rows ≡ self.old.rows) × (self.new.issues ≡ self.old.issues) ×
            (column < self.new.count) × (self.old.count ≤ self.new.count)) }
    {
        let next = next_column(column)?;
        self.steps.push(PlacedAct { act, column })?;
        if self.count < next {
            self.count = next;
        }
        Ok(())
    }

    /// Adds the issue of a call. That there is no such call is told as want of memory.
    fn place_issue(
        &mut self,
        program: &LongProgram,
        calls: &[CallLabel],
        call: usize,
        buffered: bool,
    ) -> Result<(), AllocError>
        requires { ArePlacedIn program.now calls.now self.old }
        ensures { OnOk result (HasPlaced program.now calls.now self.old (Issue call buffered) self.new) }
    {
        let Some(known) = program.call(call) else {
            return Err(AllocError);
        };
        let rank = known.rank as usize;
        let line = wait_line(program, calls, call);
        let row = row_at(&self.rows, rank);
        let column = column_in(row, line);
        set_row(&mut self.rows, rank, row_behind(row, line)?);
        set_issue(&mut self.issues, call, column);
        self.push(Act::Issue { call, buffered }, column)?;
        Ok(())
    }

    /// Adds that the message of a send is found by a call.
    fn place_find(
        &mut self,
        program: &LongProgram,
        calls: &[CallLabel],
        send: usize,
        finder: usize,
        act: Act,
    ) -> Result<(), AllocError>
        requires placed { ArePlacedIn program.now calls.now self.old }
        requires is_find { IsFindAct send finder act }
        ensures { OnOk result (HasPlaced program.now calls.now self.old act self.new) }
    {
        let column = issued_in(&self.issues, send).max(issued_in(&self.issues, finder));
        raise(&mut self.rows, program, send, column)?;
        raise(&mut self.rows, program, finder, column)?;
        self.push(act, column)?;
        Ok(())
    }

    /// Adds a step.
    fn place(
        &mut self,
        program: &LongProgram,
        calls: &[CallLabel],
        act: Act,
    ) -> Result<(), AllocError>
        requires { ArePlacedIn program.now calls.now self.old }
        ensures { OnOk result (HasPlaced program.now calls.now self.old act self.new) }
    {
        match act {
            Act::Issue { call, buffered } => self.place_issue(program, calls, call, buffered),
            Act::Match { send, taker } => self.place_find(program, calls, send, taker, act),
            Act::See { send, probe } => self.place_find(program, calls, send, probe, act),
        }
    }
}

/// The steps of a part of a run in columns, each as far to the left as earlier ones let it stand.
/// The only error is want of memory.
pub fn columns_of(
    alloc: Global,
    program: &LongProgram,
    calls: &[CallLabel],
    acts: &[Act],
) -> Result<StepColumns, AllocError>
    ensures columns { IfOk result (λ columns. AreColumns program.now calls.now acts.now columns.count columns.steps.items) }
    ensures issues { IfOk result (λ columns. (c : ℕ) → slice_index columns.issues.items c ≡ column_of columns.steps.items c) }
{
    let mut columns = StepColumns {
        steps: Vec::new(alloc),
        issues: vec![in alloc; 0; program.calls().len()]?,
        count: 0,
        rows: vec![in alloc; Row {
            free: 0,
            waits: None
        }; program.ranks() as usize]?,
    };
    for act in acts {
        columns.place(program, calls, *act)?;
    }
    Ok(columns)
}
