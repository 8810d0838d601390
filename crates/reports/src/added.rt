//! What is told of a program below its numbers.

ghost use Rattle.std.specs.Prelude.{◌≡◌, ◌++◌, IfOk, string_bytes};
ghost use Rattle.explain.specs.Losing.{TellsLosses};
ghost use Rattle.reports.specs.Explanations.{IsAddedBelow, TellsNumbers};

use crate::decided::source_of;
use callorder::LongProgram;
use explain::{losing, lost_messages};
use options::Form;
use std::alloc::{AllocError, Global};

/// The text on the messages of a program that no receive takes; empty where there are none. Only
/// where there are some is the program's text, `text`, read again for its lines.
fn losses(alloc: Global, text: &[u8], program: &LongProgram) -> Result<String, AllocError>
    ensures { IfOk result (λ told. TellsLosses program.now (string_bytes told)) }
{
    let channels = losing(alloc, program)?;
    if channels.is_empty() {
        return Ok(String::new(alloc));
    }
    let source = source_of(alloc, text)?;
    lost_messages(alloc, text, &source, program, &channels)
}

/// What the form adds below the numbers of a program.
fn added(
    alloc: Global,
    text: &[u8],
    program: &LongProgram,
    form: Form,
) -> Result<String, AllocError>
    ensures { IfOk result (λ told. IsAddedBelow form program.now (string_bytes told)) }
{
    match form {
        Form::Brief | Form::Whole => losses(alloc, text, program),
        Form::Chart => Ok(String::new(alloc)),
        Form::Graph | Form::Picture | Form::Page | Form::Object | Form::Messages => Ok(String::new(
            alloc,
        )),
    }
}

/// The numbers of a program, with what the form adds below them. The only error is want of memory.
pub fn numbered(
    alloc: Global,
    text: &[u8],
    program: &LongProgram,
    form: Form,
    numbers: Vec<u8>,
) -> Result<Vec<u8>, AllocError>
    ensures { IfOk result (λ told. TellsNumbers form program.now numbers.items told.items) }
{
    let added = added(alloc, text, program, form)?;
    let mut told = numbers;
    told.extend_from_slice(added.as_bytes())?;
    Ok(told)
}
