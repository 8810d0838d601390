//! What is known of the messages of a run, worked out by hand.

use callorder::LongProgram;
use calltext::read_long;
use knowledge::{column_of, issue_order};
use semantics::Step;
use std::alloc::Global;
use std::test::Fail;

/// Rank 0 takes two messages of any source and sends one in between, after which rank 2 sends the
/// second one.
const TEXT: &[u8] =
    b"ranks 3\npolicy none\nrank 0\nrecv * 0\nsend 2 0\nrecv * 0\nrank 1\nsend 0 0\nrank 2\nrecv 0 0\nsend 0 0\n";

fn program(alloc: Global) -> Result<LongProgram, Fail> {
    let Ok(source) = read_long(alloc, TEXT) else {
        return Err(Fail::from("no text of a program"));
    };
    match LongProgram::resolve(alloc, source) {
        Ok(program) => Ok(program),
        Err(_fault) => Err(Fail::from("no program")),
    }
}

fn issue(rank: u32) -> Step {
    Step::Issue {
        rank,
        buffered: false,
    }
}

/// Which call each call finds, or is found by.
const PARTNERS: [Option<usize>; 6] = [Some(3), Some(4), Some(5), Some(0), Some(1), Some(2)];

/// Finders and their columns.
const COLUMNS: [(usize, [bool; 6]); 3] = [
    (0, [false, true, true, false, false, true]),
    (2, [false, false, false, false, false, false]),
    (4, [false, false, true, false, false, true]),
];

/// Whether this is the finder's column, where calls are issued in this order.
fn is_column(
    alloc: Global,
    program: &LongProgram,
    order: &[usize],
    finder: usize,
    column: &[bool],
) -> Result<bool, Fail> {
    let found = column_of(alloc, program, &PARTNERS, order, finder)?;
    Ok(found.as_slice() == column)
}

/// The first finder that has another column, in this order or in none.
fn other_column(
    alloc: Global,
    program: &LongProgram,
    order: &[usize],
) -> Result<Option<usize>, Fail> {
    for (finder, column) in COLUMNS {
        let is_same = is_column(alloc, program, order, finder, &column)?
            && is_column(alloc, program, &[9], finder, &column)?;
        if !is_same {
            return Ok(Some(finder));
        }
    }
    Ok(None)
}

/// The order in which the calls are issued, and the first finder that has another column.
fn found_in(alloc: Global, program: &LongProgram) -> Result<(Vec<usize>, Option<usize>), Fail> {
    let run = [issue(0), issue(1), issue(2), issue(0), issue(0), issue(2)];
    let order = issue_order(alloc, program, &run)?;
    let other = other_column(alloc, program, order.as_slice())?;
    Ok((order, other))
}

/// The same, where the program is made.
fn found(alloc: Global) -> Result<(Vec<usize>, Option<usize>), Fail> {
    let program = program(alloc)?;
    found_in(alloc, &program)
}

#[test]
fn columns_of_three_ranks(rt: HostRuntime) -> Result<(), Fail> {
    let (order, other) = found(rt.alloc())?;
    assert!(rt; order.as_slice() == [0, 3, 4, 1, 2, 5].as_slice());
    assert_eq!(rt; other, None);
    Ok(())
}
