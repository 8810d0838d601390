//! What a collective call does: the calls that it stands for are made.

ghost use Rattle.std.specs.Prelude.{◌≡◌, ◌<◌, IfErr, IfOk, OnOk};
ghost use Rattle.unroll.specs.Collectives.{kind_for};
ghost use Rattle.unroll.specs.parts.Runs.{HasOutcome, seen_run, faulty};
ghost use Rattle.unroll.specs.Groups.{attendance_put, meeting_number};
ghost use Rattle.unroll.specs.Runs.{call_put, put_each, collective_put, meeting_run, with_meeting, collective_run};

use crate::call::{Attendance, Group, Meeting, UnrolledCall};
use crate::collective::{calls_of, way_of};
use crate::machine::{Machine, Scope, Stop, faulty, put};
use crate::members::{alike, calls_so_far, is_member};
use crate::value::FaultReason;
use spmd_tree::CollectiveKind;
use std::alloc::AllocError;

/// Makes these calls, one after another.
fn put_each(
    machine: &mut Machine,
    scope: Scope,
    line: u32,
    calls: &[UnrolledCall],
) -> Result<(), Stop>
    ensures { HasOutcome result (put_each calls.now scope line (seen_run machine.old)) (seen_run machine.new) }
{
    for call in calls {
        match put(machine, scope, line, *call) {
            Err(stop) => return Err(stop),
            Ok(()) => {}
        }
    }
    Ok(())
}

/// The kind of a collective call whose calls are made.
fn kind_for(barriers: bool, kind: CollectiveKind) -> CollectiveKind
    ensures { result ≡ kind_for barriers kind }
{
    if barriers {
        CollectiveKind::Barrier
    } else {
        kind
    }
}

/// Notes that the rank made so many of the collective calls of those with this number.
fn attend(attended: &mut Vec<Attendance>, number: usize, last: Attendance) -> Result<(), AllocError>
    ensures { OnOk result (attended.new.items ≡ attendance_put attended.old.items number last) }
{
    if number < attended.len() {
        attended[number] = last;
        return Ok(());
    }
    attended.push(last)?;
    Ok(())
}

/// Makes the calls that a collective call of those with this number stands for, before which the
/// rank made so many.
fn make(
    machine: &mut Machine,
    scope: Scope,
    line: u32,
    kind: CollectiveKind,
    root: u32,
    group: Group,
    number: u32,
    earlier: u32,
) -> Result<(), Stop>
    requires few { earlier < 67108864 }
    requires known { number < 2147483520 }
    ensures { HasOutcome result (collective_put scope line kind root group number earlier (seen_run machine.old)) (seen_run machine.new) }
{
    let calls = calls_of(
        machine.alloc,
        kind_for(scope.barriers, kind),
        root,
        group,
        scope.size,
        scope.rank,
        way_of(kind, earlier, number),
    )?;
    let last = Attendance {
        rank: scope.rank,
        calls: earlier + 1,
    };
    attend(&mut machine.attended, number as usize, last)?;
    put_each(machine, scope, line, calls.as_slice())
}

/// Makes a collective call of those with this number.
fn perform_meeting(
    machine: &mut Machine,
    scope: Scope,
    line: u32,
    kind: CollectiveKind,
    root: u32,
    group: Group,
    number: usize,
) -> Result<(), Stop>
    ensures { HasOutcome result (meeting_run scope line kind root group number (seen_run machine.old)) (seen_run machine.new) }
{
    if number >= 2_147_483_520 {
        return Err(faulty(machine, scope, line, FaultReason::TooManyGroups));
    }
    let earlier = calls_so_far(machine.attended.get(number), scope.rank);
    if earlier >= 67_108_864 {
        return Err(faulty(machine, scope, line, FaultReason::TooManyCollectives));
    }
    make(
        machine,
        scope,
        line,
        kind,
        root,
        group,
        number as u32,
        earlier,
    )
}

/// Numbers those who meet, unless they have a number.
fn number_of(machine: &mut Machine, meeting: Meeting) -> Result<usize, Stop>
    ensures number { IfOk result (λ number. number ≡ meeting_number (seen_run machine.old).meetings meeting) }
    ensures noted { OnOk result (seen_run machine.new ≡ with_meeting meeting (seen_run machine.old)) }
    ensures err { IfErr result (λ stop. stop ≡ Stop.Memory) }
{
    let (number, _is_new) = machine.meetings.insert_full(meeting)?;
    Ok(number)
}

/// Makes the calls that a collective call stands for, with its communicator, 0 to 127.
pub(crate) fn perform_collective(
    machine: &mut Machine,
    scope: Scope,
    line: u32,
    kind: CollectiveKind,
    root: u32,
    group: Group,
    communicator: u32,
) -> Result<(), Stop>
    ensures { HasOutcome result (collective_run scope line kind root group communicator (seen_run machine.old)) (seen_run machine.new) }
{
    if !is_member(group, scope.rank) {
        return Err(faulty(
            machine,
            scope,
            line,
            FaultReason::NotInGroup { rank: scope.rank },
        ));
    }
    if !is_member(group, root) {
        return Err(faulty(machine, scope, line, FaultReason::NotInGroup { rank: root }));
    }
    let meeting = Meeting {
        communicator,
        group: alike(group),
    };
    let number = number_of(machine, meeting)?;
    perform_meeting(machine, scope, line, kind, root, group, number)
}
