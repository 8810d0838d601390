//! What helps where a text is refused.

use crate::evidences::{put_evidence, put_step};
use crate::forms::{object_text, plain_text};
use crate::lines::lines_of;
use crate::requests::put_resolve;
use crate::sizes::{Size, size_words};
use crate::syntax::put_syntax;
use crate::told::{File, Help};
use callorder::ResolveFault;
use calltext::{Limits, ReadFault};
use checker::Reason;
use encode::EncodeFault;
use semantics::End;
use spmd_text::is_spmd;
use std::alloc::{AllocError, Global};

/// Tells why a program's text can't be read.
fn put_read(
    help: &mut Help,
    alloc: Global,
    program: &[u8],
    fault: ReadFault,
) -> Result<(), AllocError> {
    let lines = lines_of(alloc, program)?;
    match fault {
        ReadFault::Memory => Ok(()),
        ReadFault::TooLarge => help
            .notes
            .push_str("a program's text has at most 1048576 bytes\n"),
        ReadFault::NotAscii { line } => {
            help.show(alloc, File::Program, &lines, line as usize)?;
            help.notes
                .push_str("a program's text has ASCII characters alone\n")
        }
        ReadFault::OutOfProfile { line, word } => {
            help.show(alloc, File::Program, &lines, line as usize)?;
            let text = word.text();
            help.name(text.as_bytes())?;
            write!(
                help.notes,
                "{text} can't be written in a program: see FROM_MPI.md in the folder docs\n"
            )
        }
        ReadFault::Syntax { line } => put_shape(help, alloc, program, &lines, line as usize),
        ReadFault::Range { line } => put_syntax(help, alloc, &lines, line as usize),
    }
}

/// Tells what is wrong with the shape of a line, by its number, from 1, or that the text is of
/// another language.
fn put_shape(
    help: &mut Help,
    alloc: Global,
    program: &[u8],
    lines: &[&[u8]],
    number: usize,
) -> Result<(), AllocError> {
    if number == 1 && is_spmd(program) {
        return help.notes.push_str(
            "this is an SPMD text: decide, explain and unroll take it with --ranks N\n",
        );
    }
    put_syntax(help, alloc, lines, number)
}

/// What is told of a reason that names no line.
fn reason_words(reason: Reason) -> &'static str {
    match reason {
        Reason::Counts => "the evidence is for another program\n",
        Reason::Line(_found) => CHANGED,
        Reason::Tree(_fault) => CHANGED,
        Reason::Unneeded { .. } => CHANGED,
        Reason::NotStuck(End::Live) => "the schedule ends where the run can go on\n",
        Reason::NotStuck(_end) => "the schedule ends with all ranks finished\n",
        _ => "",
    }
}

const TOO_LARGE: &str = "the program is too large: fewer ranks, calls or rounds may do\n";

const CHANGED: &str =
    "it isn't as prove writes it: is it for another program, or was it changed?\n";

/// Tells how large a program is that is too large, where that is counted.
fn put_large(
    help: &mut Help,
    alloc: Global,
    program: &[u8],
    size: Option<Size>,
) -> Result<(), AllocError> {
    if let Some(size) = size
        && let Some(words) = size_words(alloc, program, size)?
    {
        write!(help.notes, "{words}\n")?;
    }
    help.notes.push_str(TOO_LARGE)
}

/// Tells what helps where a text is refused for this reason.
fn put_help(
    help: &mut Help,
    alloc: Global,
    program: &[u8],
    evidence: &[u8],
    reason: Reason,
) -> Result<(), AllocError> {
    match reason {
        Reason::Read(fault) => put_read(help, alloc, program, fault),
        Reason::Resolve(ResolveFault::At { rank, place, fault }) => {
            put_resolve(help, alloc, program, rank, place, fault)
        }
        Reason::Evidence(fault) => put_evidence(help, alloc, evidence, fault),
        Reason::Replay { at } => put_step(help, alloc, evidence, at),
        Reason::Pairs(_fault) => put_large(help, alloc, program, Some(Size::Pairs)),
        Reason::Encode(EncodeFault::TooManyEvents) => {
            put_large(help, alloc, program, Some(Size::Events))
        }
        Reason::Encode(_fault) => put_large(help, alloc, program, None),
        _ => help.notes.push_str(reason_words(reason)),
    }
}

/// What helps where a program that was read within these limits, or an evidence that is named, is
/// refused for this reason: lines, each with its LF. The only error is want of memory.
pub fn help(
    alloc: Global,
    limits: Limits,
    program: &[u8],
    evidence: Option<&[u8]>,
    reason: Reason,
) -> Result<Vec<u8>, AllocError> {
    let mut help = Help::new(alloc, limits);
    put_help(&mut help, alloc, program, evidence.unwrap_or(b""), reason)?;
    let text = plain_text(alloc, &help)?;
    Ok(text.into_bytes())
}

/// The same as the text of a JSON object, without an LF: which `line` of which `file` is meant, the
/// `rank` whose call it is, what was `found` there, which `word` of it is meant, `notes` on what is
/// wrong, and what is `expected` there. Each is null where there is nothing to tell.
pub fn help_object(
    alloc: Global,
    limits: Limits,
    program: &[u8],
    evidence: Option<&[u8]>,
    reason: Reason,
) -> Result<String, AllocError> {
    let mut help = Help::new(alloc, limits);
    put_help(&mut help, alloc, program, evidence.unwrap_or(b""), reason)?;
    object_text(alloc, &help)
}
