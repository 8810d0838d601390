//! Texts of evidences.
use crate::given::{Given, Show, tell};
use crate::reading::{cut, number};
use crate::report::Report;
use crate::scripts::Section;
use clauses::Lit;
use cubes::CubeFault;
use pieces::LinesFault;
use prooflog::{
    Evidence, EvidenceFault, Text, TrimFault, read_evidence, read_evidence_in, trim, trim_in_place,
    write_evidence, write_evidence_in,
};
use refutations::{LineFault, MakeLineFault, TreeFault};
use std::alloc::{AllocError, Global};
use std::thread::Threads;
use std::{mem, str};
use trees::LeafSplitFault;

pub fn judge<R: Threads + Sync>(
    rt: &R,
    section: Section<'_>,
    given: &mut Given,
    report: &mut Report,
) {
    for call in section.calls {
        let (name, words) = cut(&call.text);
        answer(rt, name, words, given);
        if given.was_memory() {
            answer(rt, name, words, given);
        }
        report.note(call, given.reply());
        given.clear();
    }
}

fn answer<R: Threads + Sync>(rt: &R, name: &str, words: &str, given: &mut Given) {
    if name == "text" {
        return put_fault(words, given);
    }
    match words.replace(given.alloc, '/', "\n") {
        Ok(text) => read(rt, name, &text, given),
        Err(_error) => given.refuse("memory"),
    }
}

/// Answers a call about a text: `read_in`, such as `4 evidence 1/..`, reads it in so many parts,
/// and writes it so.
fn read<R: Threads + Sync>(rt: &R, name: &str, text: &str, given: &mut Given) {
    match name {
        "read" => read_whole(text, given),
        "trim" => trim_whole(text, given),
        "read_in" => read_in(rt, text, given),
        _ => given.refuse("not made: no such call"),
    }
}

fn read_whole(text: &str, given: &mut Given) {
    let read = read_evidence(given.alloc, text.as_bytes());
    match &read {
        Ok(evidence) => put_written(text, write_evidence(given.alloc, evidence), given),
        Err(fault) => given.show(fault),
    }
    mem::drop(read);
}

fn trim_whole(text: &str, given: &mut Given) {
    let mut read = read_evidence(given.alloc, text.as_bytes());
    put_trimmed(&mut read, given);
    mem::drop(read);
}

fn read_in<R: Threads + Sync>(rt: &R, words: &str, given: &mut Given) {
    let (parts, text) = words.split_once(' ').unwrap_or(("", words));
    let parts = number(parts, given) as usize;
    match read_evidence_in(rt, given.alloc, text.as_bytes(), parts) {
        Ok(evidence) => {
            let written = write_evidence_in(rt, given.alloc, evidence, parts);
            put_written(text, joined(given.alloc, written), given);
        }
        Err(fault) => given.show(fault),
    }
}

/// The text as one part.
fn joined(alloc: Global, written: Result<Text, AllocError>) -> Result<Vec<u8>, AllocError> {
    written?.joined(alloc)
}

/// The text of a fault that only want of memory brings about, and the size of a literal.
fn put_fault(words: &str, given: &mut Given) {
    match words {
        "LineFault::Memory" => given.show(LineFault::Memory),
        "TreeFault::Memory" => given.show(TreeFault::Memory),
        "LinesFault::Memory" => given.show(LinesFault::Memory),
        "MakeLineFault::Memory" => given.show(MakeLineFault::Memory),
        "TrimFault::Memory" => given.show(TrimFault::Memory),
        "CubeFault::Memory" => given.show(CubeFault::Memory),
        "SplitFault::Memory" => given.show(LeafSplitFault::Memory),
        "size_of Lit" => given.show(size_of::<Lit>()),
        _ => given.refuse("not made: no such fault"),
    }
}

/// Writes `read`, where the text is written as it was read.
fn put_written(text: &str, written: Result<Vec<u8>, AllocError>, given: &mut Given) {
    match written {
        Ok(written) => given.put(if written.as_slice() == text.as_bytes() {
            "read"
        } else {
            "written otherwise"
        }),
        Err(_error) => given.refuse("memory"),
    }
}

/// Writes the text of the refutation without the lines that aren't needed, or why there is none.
fn put_trimmed(read: &mut Result<Evidence, EvidenceFault>, given: &mut Given) {
    match read {
        Ok(evidence) => {
            let copy = trim(given.alloc, evidence);
            put_both(&copy, evidence, given);
            mem::drop(copy);
        }
        Err(fault) => given.show(fault),
    }
}

/// Writes what is trimmed in place, where the copy is alike, or why neither is trimmed.
fn put_both(copy: &Result<Evidence, TrimFault>, evidence: &mut Evidence, given: &mut Given) {
    match (copy, trim_in_place(given.alloc, evidence)) {
        (Ok(copy), Ok(())) if are_alike(given.alloc, copy, evidence) => evidence.put(given),
        (Err(told), Err(fault)) if *told == fault => given.show(fault),
        _ => given.put("another copy"),
    }
}

/// Whether both have one text.
fn are_alike(alloc: Global, one: &Evidence, other: &Evidence) -> bool {
    match (write_evidence(alloc, one), write_evidence(alloc, other)) {
        (Ok(one), Ok(other)) => one.as_slice() == other.as_slice(),
        _ => false,
    }
}

impl Show for Evidence {
    fn put(&self, given: &mut Given) {
        match write_evidence(given.alloc, self) {
            Ok(written) => put_bytes(written.as_slice(), given),
            Err(_error) => given.refuse("memory"),
        }
    }
}

fn put_bytes(bytes: &[u8], given: &mut Given) {
    match str::from_utf8(bytes) {
        Ok(text) => given.text(text),
        Err(_fault) => given.put("no text"),
    }
}
