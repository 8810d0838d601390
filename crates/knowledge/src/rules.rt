//! What calls tell of one finder, by what is known of it.

ghost use Rattle.std.specs.Prelude.{◌≡◌};
ghost use Rattle.callorder.specs.Programs.{call_at};
ghost use Rattle.semantics.specs.Machine.{partner_of};
ghost use Rattle.races.specs.Tells.{never_buffers, knows_at, tells_find, tells_receive, tells_fetch, tells_done, tells_return_call, tells_issue};
ghost use Rattle.knowledge.specs.Knowledge.{column_table, entry_at, with_partners};

use callorder::{Kind, LongProgram, Policy};
use calltext::Mode;

/// What a call is matched with, or has seen, by the list.
fn partner(partners: &[Option<usize>], call: usize) -> Option<usize>
    ensures { result ≡ partner_of (with_partners partners.now) call }
{
    partners.get(call).copied().unwrap_or(None)
}

/// Whether the call is in the column.
fn is_in(known: &[bool], call: usize) -> bool
    ensures { result ≡ entry_at known.now call }
{
    known.get(call).copied().unwrap_or(false)
}

/// Whether the finder is known to have found where the call is issued, by the column of the finder.
/// Of a call behind the column's end nothing is known.
pub fn knows(known: &[bool], finder: usize, call: usize) -> bool
    ensures { result ≡ column_table finder known.now call finder }
{
    is_in(known, call)
}

/// The same of a call that may be missing.
fn knows_if_any(known: &[bool], finder: usize, call: Option<usize>) -> bool
    ensures { result ≡ knows_at (column_table finder known.now) call finder }
{
    match call {
        None => false,
        Some(call) => knows(known, finder, call),
    }
}

/// Whether the finder has found where this one has.
fn tells_find(partners: &[Option<usize>], known: &[bool], finder: usize, taker: usize) -> bool
    ensures { result ≡ tells_find (with_partners partners.now) (column_table finder known.now) taker finder }
{
    if finder == taker {
        return true;
    }
    knows(known, finder, taker) || knows_if_any(known, finder, partner(partners, taker))
}

/// Whether the finder has found where the receive on the handle of a matched probe is issued.
fn tells_receive(program: &LongProgram, known: &[bool], finder: usize, taker: usize) -> bool
    ensures { result ≡ tells_receive (column_table finder known.now) (call_at program.now taker) finder }
{
    match program.call(taker) {
        None => false,
        Some(call) => match call.kind {
            Kind::MatchedProbe { receive, .. } => knows(known, finder, receive),
            _ => false,
        },
    }
}

/// Whether the finder has found where the send's message is fetched.
fn tells_fetch(
    program: &LongProgram,
    partners: &[Option<usize>],
    known: &[bool],
    finder: usize,
    send: usize,
) -> bool
    ensures { result ≡ tells_fetch program.now (with_partners partners.now) (column_table finder known.now) send finder }
{
    match partner(partners, send) {
        None => false,
        Some(taker) => {
            tells_find(partners, known, finder, taker)
                || tells_receive(program, known, finder, taker)
        }
    }
}

/// Whether no standard send is buffered.
fn never_buffers(program: &LongProgram) -> bool
    ensures { result ≡ never_buffers program.now.policy }
{
    matches!(program.policy(), Policy::Never)
}

/// Whether the finder has found where the operation is done.
fn tells_done(
    program: &LongProgram,
    partners: &[Option<usize>],
    known: &[bool],
    finder: usize,
    operation: usize,
) -> bool
    ensures { result ≡ tells_done program.now (with_partners partners.now) (column_table finder known.now) operation finder }
{
    match program.call(operation) {
        None => false,
        Some(call) => match call.kind {
            Kind::Send { mode, .. } => match mode {
                Mode::Standard => {
                    never_buffers(program)
                        && tells_fetch(program, partners, known, finder, operation)
                }
                Mode::Synchronous => tells_fetch(program, partners, known, finder, operation),
                Mode::Buffered => false,
            },
            Kind::Receive { .. } | Kind::MatchedProbe { .. } | Kind::Probe { .. } => {
                tells_find(partners, known, finder, operation)
            }
            Kind::MatchedReceive { .. } | Kind::Wait { .. } => false,
        },
    }
}

/// Whether the finder is known to have found where the call has returned, by the column of the
/// finder and the list of partners: what a call waits for tells so, and its issue is no part of it.
/// Of a call that isn't there nothing is known.
pub fn tells_return(
    program: &LongProgram,
    partners: &[Option<usize>],
    known: &[bool],
    finder: usize,
    call: usize,
) -> bool
    ensures { result ≡
        tells_return_call program.now (with_partners partners.now) (column_table finder known.now) call
        (call_at program.now call) finder }
{
    match program.call(call) {
        None => false,
        Some(known_call) => match known_call.kind {
            Kind::Send { blocking, .. } | Kind::Receive { blocking, .. } => {
                blocking && tells_done(program, partners, known, finder, call)
            }
            Kind::MatchedProbe { .. } | Kind::Probe { .. } => {
                tells_done(program, partners, known, finder, call)
            }
            Kind::MatchedReceive { .. } => false,
            Kind::Wait { operation } => tells_done(program, partners, known, finder, operation),
        },
    }
}

/// Whether the finder has found where the call is issued: the one before it in its rank is issued,
/// and has returned.
pub fn tells_issue(
    program: &LongProgram,
    partners: &[Option<usize>],
    known: &[bool],
    finder: usize,
    call: usize,
) -> bool
    ensures { result ≡ tells_issue program.now (with_partners partners.now) (column_table finder known.now) call finder }
{
    if call == 0 {
        return false;
    }
    let before = call - 1;
    if !program.are_of_one_rank(before, call) {
        return false;
    }
    knows(known, finder, before) || tells_return(program, partners, known, finder, before)
}
