//! Files, their sections and rows. The crate's `README.md` tells the language.
use crate::given::Given;
use crate::reading::cut;
use crate::report::{Call, Place, Report};
use crate::{checks, deques, encodings, evidences, logs, programs, searches, shares, splits};
use std::alloc::{AllocError, Global};
use std::sync::Wait;
use std::thread::Threads;

/// A section of a file.
#[derive(Clone, Copy)]
pub struct Section<'a> {
    /// What stands in its first line behind the kind.
    pub heading: &'a str,
    /// The calls of its rows before the row `then`.
    pub calls: &'a [Call<'a>],
    /// Those from the row `then` on.
    pub later: &'a [Call<'a>],
}

/// What rows are about.
pub trait Subject {
    /// Makes the call of this name with these words, and writes its reply.
    fn answer(&mut self, name: &str, words: &str, given: &mut Given);

    /// Whether it is as it was behind a call that lacked memory, and takes that call again.
    fn goes_on(&self) -> bool {
        true
    }
}

/// Judges the rows of a file's text.
pub fn judge_file(
    rt: &(impl Threads + Wait + Sync),
    alloc: Global,
    path: &str,
    text: &str,
    report: &mut Report,
) -> Result<(), AllocError> {
    let mut line: usize = 1;
    for (part, text) in text.split("\ngiven ").enumerate() {
        match section_of(part, text) {
            Some(section) => judge_section(rt, alloc, Place { path, line }, section, report)?,
            None => judge_above(alloc, path, text, report)?,
        }
        line = line.saturating_add(text.split('\n').count());
    }
    Ok(())
}

/// The section of this part of a file, from 0; the first part is one only where the file begins
/// with it.
fn section_of(part: usize, text: &str) -> Option<&str> {
    if part > 0 {
        return Some(text);
    }
    text.strip_prefix("given ")
}

/// Tells of each row that stands above the first section, in this text, that it belongs to none.
fn judge_above(
    alloc: Global,
    path: &str,
    text: &str,
    report: &mut Report,
) -> Result<(), AllocError> {
    let calls = calls_of(alloc, Place { path, line: 0 }, text)?;
    for call in &calls {
        report.miss(call.place, &call.text, "a section", "none");
    }
    Ok(())
}

/// Judges the section of this text, whose first line stands here.
fn judge_section(
    rt: &(impl Threads + Wait + Sync),
    alloc: Global,
    place: Place<'_>,
    text: &str,
    report: &mut Report,
) -> Result<(), AllocError> {
    let (first, rows) = text.split_once("\n").unwrap_or((text, ""));
    let calls = calls_of(alloc, place, rows)?;
    let first = written_out(alloc, first, 0)?;
    judge_rows(rt, alloc, place, &first, calls.as_slice(), report);
    Ok(())
}

fn judge_rows(
    rt: &(impl Threads + Wait + Sync),
    alloc: Global,
    place: Place<'_>,
    first: &str,
    calls: &[Call<'_>],
    report: &mut Report,
) {
    let (kind, heading) = cut(first);
    let (calls, later) = halves(calls);
    let section = Section {
        heading,
        calls,
        later,
    };
    let mut given = Given::new(alloc);
    judge_kind(rt, kind, section, &mut given, report);
    if given.is_refused() {
        // What the rows are about may have lacked memory.
        given.clear();
        judge_kind(rt, kind, section, &mut given, report);
    }
    if given.is_refused() {
        report.miss(place, first, "a section", given.reply());
    }
}

/// The calls before the row `then`, and the others.
fn halves<'a, 'b>(calls: &'b [Call<'a>]) -> (&'b [Call<'a>], &'b [Call<'a>]) {
    match calls.iter().position(|call| call.text.as_str() == "then") {
        Some(place) => calls.split_at(place),
        None => calls.split_at(calls.len()),
    }
}

fn judge_kind<R: Threads + Wait + Sync>(
    rt: &R,
    kind: &str,
    section: Section<'_>,
    given: &mut Given,
    report: &mut Report,
) {
    match kind {
        "formula" => checks::judge(rt, section, given, report),
        "tree" => splits::judge(section, given, report),
        "log" => logs::judge(section, given, report),
        "evidences" => evidences::judge(rt, section, given, report),
        "program" => programs::judge(rt, section, given, report),
        "encoding" => encodings::judge(rt, section, given, report),
        "solver" => searches::judge(section, given, report),
        "states" => searches::judge_states(rt, section, given, report),
        _ => judge_shared_kind(rt, kind, section, given, report),
    }
}

/// The same for the kinds of what workers share.
fn judge_shared_kind<R: Threads + Wait + Sync>(
    rt: &R,
    kind: &str,
    section: Section<'_>,
    given: &mut Given,
    report: &mut Report,
) {
    match kind {
        "pool" => shares::judge_pool(rt, section, given, report),
        "run" => shares::judge_run(rt, section, given, report),
        "seats" => shares::judge_seats(rt, section, given, report),
        "deque" => deques::judge(section, given, report),
        _ => given.refuse("no such kind"),
    }
}

/// The calls of the rows below this place.
fn calls_of<'a>(alloc: Global, place: Place<'a>, text: &str) -> Result<Vec<Call<'a>>, AllocError> {
    let mut calls = Vec::new(alloc);
    let mut line = place.line;
    for row in text.lines() {
        line = line.saturating_add(1);
        if !row.is_empty() && !row.starts_with("#") {
            push_calls(alloc, &mut calls, Place { line, ..place }, row)?;
        }
    }
    Ok(calls)
}

/// Adds a row's calls.
fn push_calls<'a>(
    alloc: Global,
    calls: &mut Vec<Call<'a>>,
    place: Place<'a>,
    row: &str,
) -> Result<(), AllocError> {
    let (call, wanted) = row.split_once("=").unwrap_or((row, ".."));
    let (first, times, call) = counted(call.trim());
    for time in 0..times {
        let is_last = time.saturating_add(1) == times;
        let number = first.saturating_add(time);
        push_call(alloc, calls, place, call, wanted.trim(), number, is_last)?;
    }
    Ok(())
}

fn push_call<'a>(
    alloc: Global,
    calls: &mut Vec<Call<'a>>,
    place: Place<'a>,
    call: &str,
    wanted: &str,
    number: u32,
    is_last: bool,
) -> Result<(), AllocError> {
    let call = call_of(alloc, place, call, wanted, number, is_last)?;
    calls.push(call)?;
    Ok(())
}

fn call_of<'a>(
    alloc: Global,
    place: Place<'a>,
    call: &str,
    wanted: &str,
    number: u32,
    is_last: bool,
) -> Result<Call<'a>, AllocError> {
    let text = written_out(alloc, call, number)?;
    let wanted = written_out(alloc, wanted, number)?;
    Ok(Call {
        place,
        text,
        wanted,
        is_last,
    })
}

/// The number that stands for the first call of a row, how often the call is made, and the call.
fn counted(row: &str) -> (u32, u32, &str) {
    let Some((times, call)) = row.split_once(" times ") else {
        return (0, 1, row);
    };
    let times = times.parse::<u32>().unwrap_or(1);
    let Some(rest) = call.strip_prefix("from ") else {
        return (0, times, call);
    };
    let (first, call) = cut(rest);
    (first.parse::<u32>().unwrap_or(0), times, call)
}

/// Judges these calls of a subject. One that lacks memory is made once more, and the others are
/// left out where the subject doesn't go on.
pub fn judge_calls<S: Subject>(
    subject: &mut S,
    calls: &[Call<'_>],
    given: &mut Given,
    report: &mut Report,
) {
    for call in calls {
        let (name, words) = cut(&call.text);
        subject.answer(name, words, given);
        if given.was_memory() {
            if !subject.goes_on() {
                return;
            }
            subject.answer(name, words, given);
        }
        report.note(call, given.reply());
        given.clear();
    }
}

/// A text with each `%` as this number, and each `{N PART}` in it written out, also within another.
fn written_out(alloc: Global, text: &str, time: u32) -> Result<String, AllocError> {
    let time = time.to_string(alloc)?;
    let mut whole = text.replace(alloc, '%', &time)?;
    for _ in text.split('{').skip(1) {
        whole = with_last_part(alloc, &whole)?;
    }
    Ok(whole)
}

/// The text with the last `{N PART}` in it written out, within which there is no other.
fn with_last_part(alloc: Global, text: &str) -> Result<String, AllocError> {
    let (front, rest) = text.rsplit_once("{").unwrap_or((text, ""));
    let (part, back) = rest.split_once("}").unwrap_or((rest, ""));
    let (count, part) = part.split_once(" ").unwrap_or(("0", ""));
    let part = part.repeat(alloc, count.parse::<usize>().unwrap_or(0))?;
    format!(in alloc; "{front}{part}{back}")
}
