//! Logs of lines in pages, and lists that are handed out.
use crate::given::{Given, MEMORY, Show, add};
use crate::reading::{cut, line_made, number};
use crate::report::Report;
use crate::scripts::{Section, Subject, judge_calls};
use pages::{Extended, Lines, Log};
use refutations::{Line, LineList};
use std::mem;

/// A log, a list that was taken from it, and a log that follows.
#[derive(Drop)]
struct Pages {
    log: Log,
    held: Option<Lines>,
    view: Log,
}

pub fn judge(section: Section<'_>, given: &mut Given, report: &mut Report) {
    let log = Log::new(given.alloc);
    let view = Log::new(given.alloc);
    let mut pages = Pages {
        log,
        held: None,
        view,
    };
    judge_calls(&mut pages, section.calls, given, report);
}

impl Subject for Pages {
    fn answer(&mut self, name: &str, words: &str, given: &mut Given) {
        match name {
            "append" => append(&mut self.log, words, given),
            "follow" => follow_on(&mut self.view, &self.log, words, given),
            "follow_held" => follow_held(&mut self.view, &self.held, words, given),
            "follow_vec" => follow_vec(&mut self.view, words, given),
            "hold" => hold(&self.log, &mut self.held, words, given),
            "held" => put_taken(&self.held, given),
            "after" => put_after(&self.log, words, given),
            "lines" => put_told(&self.log, given),
            "moved" => put_moved(&mut self.log, given),
            "get" => put_place(&self.log, words, given),
            "extended" => put_extended(&self.log, words, given),
            "from_vec" => put_from_vec(words, given),
            _ => given.refuse("not made: no such call"),
        }
    }
}

/// Takes a list in place of the one that is held.
fn hold(log: &Log, held: &mut Option<Lines>, words: &str, given: &mut Given) {
    let before = mem::replace(held, after(log, words, given));
    mem::drop(before);
    put_taken(held, given);
}

fn put_after(log: &Log, words: &str, given: &mut Given) {
    let lines = after(log, words, given);
    put_taken(&lines, given);
    mem::drop(lines);
}

/// Moves all lines out of the log, which has none then.
fn put_moved(log: &mut Log, given: &mut Given) {
    let moved = mem::replace(log, Log::new(given.alloc));
    match moved.into_lines(given.alloc) {
        Ok(lines) => put_told(&lines.as_slice(), given),
        Err(_error) => given.refuse("memory"),
    }
}

fn put_from_vec(word: &str, given: &mut Given) {
    let lines = from_vec(word, given);
    put_taken(&lines, given);
    mem::drop(lines);
}

/// Lines without literals, each with one hint: the numbers from `first` on.
fn numbered(first: u32, word: &str, given: &mut Given) -> Vec<Line> {
    let mut lines = Vec::new(given.alloc);
    for place in 0..number(word, given) {
        let made = Line::make(given.alloc, &[], &[first.wrapping_add(place)]);
        if let Some(line) = line_made(made, given) {
            add(&mut lines, line, given);
        }
    }
    lines
}

/// The number of the line that comes next.
fn next(log: &Log) -> u32 {
    u32::try_from(log.len().saturating_add(1)).unwrap_or(0)
}

/// Appends so many lines, numbered on.
fn append(log: &mut Log, word: &str, given: &mut Given) {
    let lines = numbered(next(log), word, given);
    if given.is_refused() {
        return;
    }
    match log.append(given.alloc, lines) {
        Ok(()) => given.number(log.len()),
        Err(_error) => given.refuse("memory"),
    }
}

/// Has a log keep its first lines, and go on by those that another one has after so many.
fn follow_on(view: &mut Log, log: &Log, word: &str, given: &mut Given) {
    let lines = after(log, word, given);
    follow(view, word, &lines, given);
    mem::drop(lines);
}

/// The same by the list that is held.
fn follow_held(view: &mut Log, held: &Option<Lines>, word: &str, given: &mut Given) {
    follow(view, word, held, given);
}

/// The same by so many lines, numbered from 1: the last word says how many.
fn follow_vec(view: &mut Log, words: &str, given: &mut Given) {
    let (from, count) = cut(words);
    let lines = from_vec(count, given);
    follow(view, from, &lines, given);
    mem::drop(lines);
}

fn follow(view: &mut Log, from: &str, lines: &Option<Lines>, given: &mut Given) {
    let from = number(from, given) as usize;
    if from > view.len() {
        return given.refuse("not made: past the end");
    }
    let Some(lines) = lines else {
        return given.refuse("no lines");
    };
    match view.follow(given.alloc, from, lines) {
        Ok(()) => put_told(view, given),
        Err(_error) => given.refuse("memory"),
    }
}

fn after(log: &Log, word: &str, given: &mut Given) -> Option<Lines> {
    let from = number(word, given) as usize;
    if from > log.len() {
        return given.known(None, "not made: past the end");
    }
    let lines = log.after(given.alloc, from).ok();
    given.known(lines, MEMORY)
}

fn from_vec(word: &str, given: &mut Given) -> Option<Lines> {
    let lines = numbered(1, word, given);
    let lines = Lines::from_vec(given.alloc, lines).ok();
    given.known(lines, MEMORY)
}

fn put_taken(lines: &Option<Lines>, given: &mut Given) {
    match lines {
        Some(lines) => put_told(lines, given),
        None => given.put("no lines"),
    }
}

fn put_place<L: LineList>(lines: &L, word: &str, given: &mut Given) {
    match lines.get(number(word, given) as usize) {
        Some(line) => line.put(given),
        None => given.put("none"),
    }
}

/// Such as `300 lines from 11`: how many lines there are, and the number of the first one, where
/// each is numbered on.
fn put_told<L: LineList>(lines: &L, given: &mut Given) {
    let count = lines.len();
    let Some(first) = hint_of(lines, 0) else {
        return given.put("no lines");
    };
    given.show(count);
    given.put(" lines from ");
    given.show(first);
    if !are_numbered(lines, first, count) {
        given.put(" in disorder");
    }
}

/// The only hint of the line at this place.
fn hint_of<L: LineList>(lines: &L, place: usize) -> Option<u32> {
    match lines.get(place) {
        Some(line) => line.hints().first().copied(),
        None => None,
    }
}

/// Whether the lines are numbered on from this number, and there are no more.
fn are_numbered<L: LineList>(lines: &L, first: u32, count: usize) -> bool {
    let mut number = first;
    for place in 0..count {
        if hint_of(lines, place) != Some(number) {
            return false;
        }
        number = number.wrapping_add(1);
    }
    lines.get(count).is_none() && lines.get(usize::MAX).is_none()
}

/// The log with so many lines more, which are no part of it.
fn put_extended(log: &Log, word: &str, given: &mut Given) {
    let more = numbered(next(log), word, given);
    let more = more.as_slice();
    put_told(&Extended { log, more }, given);
}
