//! A list of lines that was handed out, read while its log grows.
use pages::{Lines, Log};
use refutations::{Line, LineList};
use std::alloc::Global;
use std::test::Fail;
use std::thread;
use std::thread::Threads;

/// Lines without literals, each with one hint: these numbers from `first` on.
fn numbered(alloc: Global, first: u32, count: u32) -> Result<Vec<Line>, Fail> {
    let mut lines = Vec::new(alloc);
    for place in 0..count {
        lines.push(Line::make(alloc, &[], &[first.wrapping_add(place)])?)?;
    }
    Ok(lines)
}

/// Appends so many lines, numbered on.
fn grow(alloc: Global, log: &mut Log, count: u32) -> Result<(), Fail> {
    let Ok(first) = u32::try_from(log.len() + 1) else {
        return Err(Fail::from("a long log"));
    };
    let lines = numbered(alloc, first, count)?;
    log.append(alloc, lines)?;
    Ok(())
}

fn log_of(alloc: Global, count: u32) -> Result<Log, Fail> {
    let mut log = Log::new(alloc);
    grow(alloc, &mut log, count)?;
    Ok(log)
}

fn lines_after(alloc: Global, log: &Log, from: usize) -> Result<Lines, Fail> {
    if from > log.len() {
        return Err(Fail::from("past the end"));
    }
    Ok(log.after(alloc, from)?)
}

/// Whether the list has so many lines, numbered on from the one after `before`.
fn tells<L: LineList>(list: &L, before: u32, count: usize) -> bool {
    let mut number = before;
    for place in 0..count {
        number = number.wrapping_add(1);
        let Some(line) = list.get(place) else {
            return false;
        };
        if line.hints() != [number].as_slice() {
            return false;
        }
    }
    list.len() == count && list.get(count).is_none() && list.get(usize::MAX).is_none()
}

/// Whether a list that was taken from a log is read right by another thread while the log grows.
fn is_read_beside(rt: &(impl Threads + Sync), alloc: Global, mut log: Log) -> Result<bool, Fail> {
    let lines = lines_after(alloc, &log, 10)?;
    let more = numbered(alloc, 301, 300)?;
    let (read, grown) = thread::join(
        rt,
        move || tells(&lines, 10, 290),
        move || log.append(alloc, more).is_ok() && tells(&log, 0, 600),
    );
    Ok(read && grown)
}

#[test]
fn lines_read_by_another_thread(rt: HostRuntime) -> Result<(), Fail> {
    let log = log_of(rt.alloc(), 300)?;
    assert!(rt; is_read_beside(&rt, rt.alloc(), log)?);
    Ok(())
}
