//! From which rows a row is made, and how often each row is read.

ghost use Rattle.std.specs.Prelude.{◌≡◌, ◌||◌, ◌&&◌, ℕ, Option, None, IsTrue, IfSome};
ghost use Rattle.callorder.specs.Programs.{call_at};
ghost use Rattle.semantics.specs.Machine.{Configuration, partner_of};
ghost use Rattle.races.specs.Tells.{knows_at, tells_find, tells_receive, tells_fetch, tells_done, tells_return_call, tells_issue};
ghost use Rattle.knowledge.specs.Knowledge.{with_partners};
ghost use Rattle.clocks.specs.parts.Clocks.{Leads, tells_sent, tells_found, tells_read};

use callorder::{Kind, LongProgram, Policy};
use calltext::Mode;
use std::alloc::{AllocError, Global};

/// What has happened where an operation is done.
#[derive(Clone, Copy)]
pub struct DoneOperation {
    /// The finder that has found.
    pub finder: Option<usize>,
    /// The receive on its handle, which is issued.
    pub receive: Option<usize>,
}

/// From which rows a row is made.
#[derive(Clone, Copy)]
pub struct Read {
    /// The call before it in its rank.
    pub before: Option<usize>,
    /// What has happened where that one has returned.
    pub found: DoneOperation,
}

/// What a call is matched with, or has seen, by the list.
pub fn partner(partners: &[Option<usize>], call: usize) -> Option<usize>
    ensures { result ≡ partner_of (with_partners partners.now) call }
{
    partners.get(call).copied().unwrap_or(None)
}

/// The operation that is done where this call has returned, if there is one that may have to wait.
pub fn done_by_return(program: &LongProgram, call: usize) -> Option<usize>
    ensures { IfSome result (λ operation. (e : Configuration) →
        Leads (λ knows f. tells_done program.now e knows operation f) (λ knows f.
        tells_return_call program.now e knows call (call_at program.now call) f)) }
{
    match program.call(call)?.kind {
        Kind::Send { blocking: true, .. }
        | Kind::Receive { blocking: true, .. }
        | Kind::MatchedProbe { .. }
        | Kind::Probe { .. } => Some(call),
        Kind::Wait { operation } => Some(operation),
        _ => None,
    }
}

/// The receive on the handle of the taker, if that is a matched probe.
fn received_on(program: &LongProgram, taker: usize) -> Option<usize>
    ensures { Leads (λ knows f. knows_at knows result f) (λ knows f. tells_receive knows (call_at program.now taker) f) }
{
    match program.call(taker)?.kind {
        Kind::MatchedProbe { receive, .. } => Some(receive),
        _ => None,
    }
}

/// Whether something is told where a send of this mode is done, which is so where it isn't
/// buffered.
fn is_told_by_send(program: &LongProgram, mode: Mode) -> bool
    ensures { IsTrue result → (e : Configuration) (send : ℕ) →
        Leads (λ knows f. tells_fetch program.now e knows send f) (λ knows f.
        tells_sent program.now e knows send mode f) }
{
    match mode {
        Mode::Standard => matches!(program.policy(), Policy::Never),
        Mode::Synchronous => true,
        Mode::Buffered => false,
    }
}

/// Nothing.
fn nothing() -> DoneOperation
    ensures { result ≡ record { finder = None; receive = None } }
{
    DoneOperation {
        finder: None,
        receive: None,
    }
}

/// What has happened where the send's message is fetched.
fn fetched(program: &LongProgram, partners: &[Option<usize>], send: usize) -> DoneOperation
    ensures { Leads (λ knows f. tells_found (with_partners partners.now) knows result f) (λ knows f.
        tells_fetch program.now (with_partners partners.now) knows send f) }
{
    match partner(partners, send) {
        None => nothing(),
        Some(taker) => DoneOperation {
            finder: Some(taker),
            receive: received_on(program, taker),
        },
    }
}

/// What has happened where the operation is done.
fn done(program: &LongProgram, partners: &[Option<usize>], operation: usize) -> DoneOperation
    ensures { Leads (λ knows f. tells_found (with_partners partners.now) knows result f) (λ knows f.
        tells_done program.now (with_partners partners.now) knows operation f) }
{
    let Some(call) = program.call(operation) else {
        return nothing();
    };
    match call.kind {
        Kind::Send { mode, .. } => {
            if is_told_by_send(program, mode) {
                fetched(program, partners, operation)
            } else {
                nothing()
            }
        }
        Kind::Receive { .. } | Kind::MatchedProbe { .. } | Kind::Probe { .. } => DoneOperation {
            finder: Some(operation),
            receive: None,
        },
        _ => nothing(),
    }
}

/// The finder that has found where this call has returned, if the call waits for its send.
pub fn found_by_send(
    program: &LongProgram,
    partners: &[Option<usize>],
    call: usize,
) -> Option<usize> {
    let operation = done_by_return(program, call)?;
    program.call(operation)?.kind.message()?;
    done(program, partners, operation).finder
}

/// What has happened where the call has returned.
fn returned(program: &LongProgram, partners: &[Option<usize>], call: usize) -> DoneOperation
    ensures { Leads (λ knows f. tells_found (with_partners partners.now) knows result f) (λ knows f.
        tells_return_call program.now (with_partners partners.now) knows call (call_at program.now call) f) }
{
    match done_by_return(program, call) {
        None => nothing(),
        Some(operation) => done(program, partners, operation),
    }
}

/// What has happened where the call is issued: that the one before it in its rank is, and has
/// returned.
pub fn read_for(program: &LongProgram, partners: &[Option<usize>], call: usize) -> Read
    ensures { Leads (λ knows f. tells_read (with_partners partners.now) knows result f) (λ knows f.
        tells_issue program.now (with_partners partners.now) knows call f) }
{
    if call > 0 {
        let before = call - 1;
        if program.are_of_one_rank(before, call) {
            return Read {
                before: Some(before),
                found: returned(program, partners, before),
            };
        }
    }
    Read {
        before: None,
        found: nothing(),
    }
}

/// What the finder that is read has found.
pub fn found_send(partners: &[Option<usize>], read: &Read) -> Option<usize> {
    partner(partners, read.found.finder?)
}

/// Counts one read more of the row.
fn count_read(reads: &mut Vec<usize>, call: Option<usize>) {
    if let Some(call) = call {
        if let Some(count) = reads.get_mut(call) {
            *count = count.saturating_add(1);
        }
    }
}

/// For each call how often its row will be read. The only error is want of memory.
pub fn reads_of(
    alloc: Global,
    program: &LongProgram,
    partners: &[Option<usize>],
) -> Result<Vec<usize>, AllocError> {
    let calls = program.calls().len();
    let mut reads = vec![in alloc; 0; calls]?;
    for call in 0..calls {
        let read = read_for(program, partners, call);
        count_read(&mut reads, read.before);
        count_read(&mut reads, read.found.finder);
        count_read(&mut reads, found_send(partners, &read));
        count_read(&mut reads, read.found.receive);
    }
    Ok(reads)
}

/// Counts one read less of the row, and tells whether it was the last one.
pub fn is_last_read(reads: &mut [usize], call: usize) -> bool {
    match reads.get_mut(call) {
        None => false,
        Some(left) => {
            *left = left.saturating_sub(1);
            *left == 0
        }
    }
}
