//! What is told of a program of any length that one run decides.

ghost use Rattle.std.specs.Prelude.{IfOk};
ghost use Rattle.calltext.specs.Grammar.{IsTextWithin, long};
ghost use Rattle.callorder.specs.Resolving.{IsTextOfWithin};
ghost use Rattle.semantics.specs.Headline.{IsNeverStuckWithin, IsStuckRunWithin};
ghost use Rattle.reports.specs.Explanations.{IsRunDrawn, TellsSizes};

use crate::added::numbered;
use crate::asked::ask_if_short;
use crate::counts::sizes_text;
use crate::telling::run_text;
use callorder::LongProgram;
use calltext::{LongSource, read_long};
use options::Form;
use semantics::Step;
use std::alloc::{AllocError, Global};
use std::sync::Wait;
use std::thread::Threads;

/// What the text of a program says. The only error is want of memory.
pub fn source_of(alloc: Global, text: &[u8]) -> Result<LongSource, AllocError>
    ensures { IfOk result (IsTextWithin long text.now) }
{
    match read_long(alloc, text) {
        Ok(source) => Ok(source),
        Err(_memory) => Err(AllocError),
    }
}

/// The program of a text. The only error is want of memory.
fn program_of(alloc: Global, text: &[u8]) -> Result<LongProgram, AllocError>
    ensures { IfOk result (IsTextOfWithin long text.now) }
{
    let source = source_of(alloc, text)?;
    match LongProgram::resolve(alloc, source) {
        Ok(program) => Ok(program),
        Err(_memory) => Err(AllocError),
    }
}

/// Explains a run of the program of a text of any length, which ends stuck, in the forms of
/// `explain_evidence`. `schedule` is the text of the steps as an evidence: what decided the run is
/// asked of a program that `prove` takes, by that text, and else it is said that it isn't asked. Of
/// a program of more than 64 ranks or 1,024 calls long lists are cut sooner, and a chart or a
/// picture has the last 400 steps. The only error is want of memory.
pub fn explain_run<R: Threads + Wait + Sync>(
    rt: &R,
    alloc: Global,
    text: &[u8],
    steps: &[Step],
    schedule: &[u8],
    form: Form,
) -> Result<Vec<u8>, AllocError>
    requires { IsStuckRunWithin long text.now steps.now }
    ensures { IfOk result (λ told. IsRunDrawn form text.now steps.now told.items) }
{
    let program = program_of(alloc, text)?;
    let source = source_of(alloc, text)?;
    let asked = ask_if_short(rt, alloc, text, schedule, form)?;
    run_text(rt, alloc, text, &source, &program, steps, &asked, form)
}

/// Tells that no run of the program of a text of any length ends stuck, and the program's numbers:
/// of ranks, calls, messages and wildcards, and of sends that the policy leaves open. Of at most
/// 1,024 calls it is told how many wildcards have a choice, of more how many there are. In a graph
/// these are comments, in a chart lines. Below them a text tells the messages that no receive
/// takes. The only error is want of memory.
pub fn explain_sizes(alloc: Global, text: &[u8], form: Form) -> Result<Vec<u8>, AllocError>
    requires { IsNeverStuckWithin long text.now }
    ensures { IfOk result (λ told. TellsSizes form text.now told.items) }
{
    let program = program_of(alloc, text)?;
    let numbers = sizes_text(alloc, &program, form)?;
    numbered(alloc, text, &program, form, numbers)
}
