//! What helps, as a text and as an object.

use crate::told::{File, Help, MeantLine};
use serde::Serialize;
use serde_json::to_string;
use std::alloc::{AllocError, Global};

/// What helps, as it is written.
#[derive(Drop, Serialize)]
struct Object<'a> {
    file: Option<&'static str>,
    line: Option<usize>,
    rank: Option<u32>,
    found: Option<&'a str>,
    word: Option<&'a str>,
    notes: Vec<&'a str>,
    expected: Option<&'a str>,
}

/// The lines, without their LFs.
fn lines_of(alloc: Global, text: &str) -> Result<Vec<&str>, AllocError> {
    text.lines().collect(alloc)
}

/// A text, or none where it is empty.
fn unless_empty(text: &str) -> Option<&str> {
    if text.is_empty() { None } else { Some(text) }
}

/// What the text is called that a line stands in.
fn name_of(file: File) -> &'static str {
    match file {
        File::Program => "program",
        File::Evidence => "evidence",
    }
}

/// The object with what helps.
fn object_at<'a>(alloc: Global, help: &'a Help) -> Result<Object<'a>, AllocError> {
    let mut object = Object {
        file: None,
        line: None,
        rank: None,
        found: None,
        word: unless_empty(&help.word),
        notes: lines_of(alloc, &help.notes)?,
        expected: unless_empty(&help.expected),
    };
    if let Some(place) = &help.place {
        object.file = Some(name_of(place.file));
        object.line = Some(place.line);
        object.rank = place.rank;
        object.found = place.found.as_deref();
    }
    Ok(object)
}

/// The text of the JSON object.
pub fn object_text(alloc: Global, help: &Help) -> Result<String, AllocError> {
    let object = object_at(alloc, help)?;
    // The writer fails for want of memory alone.
    match to_string(alloc, &object) {
        Ok(text) => Ok(text),
        Err(_fault) => Err(AllocError),
    }
}

/// Shows the line that is meant, but for one of a program that isn't there.
fn put_place(out: &mut String, place: &MeantLine) -> Result<(), AllocError> {
    let found = match &place.found {
        Some(found) => found.as_str(),
        None if place.file == File::Evidence => "",
        None => return Ok(()),
    };
    let line = place.line;
    if let Some(rank) = place.rank {
        return write!(out, "rank {rank}, line {line}: {found}: ");
    }
    if place.file == File::Evidence {
        out.push_str("evidence ")?;
    }
    write!(out, "line {line}: {found}\n")
}

/// The lines of the text, each with its LF.
pub fn plain_text(alloc: Global, help: &Help) -> Result<String, AllocError> {
    let mut out = String::new(alloc);
    if let Some(place) = &help.place {
        put_place(&mut out, place)?;
    }
    out.push_str(&help.notes)?;
    if !help.expected.is_empty() {
        let expected = &help.expected;
        write!(out, "expected {expected}\n")?;
    }
    Ok(out)
}
