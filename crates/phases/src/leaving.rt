//! Whether all that is sent is taken, by one pass over the calls.

ghost use Rattle.std.specs.Prelude.{◌≡◌, ◌↔◌, ◌≤◌, ◌<◌, ◌++◌, ◌∷◌, true, List, [], IfOk, map, length, Some};
ghost use Rattle.std.specs.List.{list_all};
ghost use Rattle.phases.specs.Conditions.{LeavesNothing};
ghost use Rattle.phases.specs.parts.Traffic.{address_of, address_taken, is_even_at, AreNumbers, AreTraffic, IsTraffic};

use callorder::{Call, LongProgram};
use interning::number;
use std::alloc::{AllocError, Global};

/// A rank and a communicator on which messages are sent to it.
#[derive(Clone, Copy, PartialEq, Eq, Hash)]
pub struct Address {
    pub rank: u32,
    pub communicator: u32,
}

/// How many messages are sent to an address, and how many are taken there.
#[derive(Clone, Copy)]
pub struct Traffic {
    pub sent: usize,
    pub taken: usize,
}

/// The address of a receive or a matched probe.
fn address_taken(call: &Call) -> Option<Address>
    ensures { result ≡ address_taken call.now.rank call.now.kind }
{
    if call.kind.is_probe() {
        return None;
    }
    match call.kind.pattern() {
        None => None,
        Some(pattern) => Some(Address {
            rank: call.rank,
            communicator: pattern.communicator,
        }),
    }
}

/// The address of a send's message, or of a taker.
fn address_of(call: &Call) -> Option<Address>
    ensures { result ≡ address_of call.now }
{
    match call.kind.message() {
        None => address_taken(call),
        Some(message) => Some(Address {
            rank: message.destination,
            communicator: message.communicator,
        }),
    }
}

/// The address of each call.
fn addresses_of(alloc: Global, calls: &[Call]) -> Result<Vec<Option<Address>>, AllocError>
    ensures { IfOk result (λ addresses. addresses.items ≡ map address_of calls.now) }
{
    calls.iter().map(address_of).collect(alloc)
}

/// A number for each address.
fn numbers_of(
    alloc: Global,
    addresses: Vec<Option<Address>>,
) -> Result<Vec<Option<usize>>, AllocError>
    ensures { IfOk result (λ numbers. AreNumbers addresses.items numbers.items) }
{
    number(alloc, addresses)
}

/// What calls send and take at an address, after one more call there.
fn counted(traffic: Traffic, call: &Call) -> Traffic
    requires sent { traffic.sent < 9223372036854775807 }
    requires taken { traffic.taken < 9223372036854775807 }
    ensures { (calls : List Call) (address : Address) → address_of call.now ≡ Some address →
        IsTraffic calls address traffic → IsTraffic (calls ++ call.now ∷ []) address result }
{
    if call.kind.message().is_some() {
        Traffic {
            sent: traffic.sent + 1,
            ..traffic
        }
    } else {
        Traffic {
            taken: traffic.taken + 1,
            ..traffic
        }
    }
}

/// What the calls send and take at each address, by the address's number.
fn traffic_of(
    alloc: Global,
    calls: &[Call],
    numbers: &[Option<usize>],
) -> Result<Vec<Traffic>, AllocError>
    requires few { length calls.now ≤ 9223372036854775807 }
    requires numbered { AreNumbers (map address_of calls.now) numbers.now }
    ensures { IfOk result (λ table. AreTraffic calls.now (map address_of calls.now) numbers.now table.items) }
{
    let none = Traffic { sent: 0, taken: 0 };
    let mut table = vec![in alloc; none; calls.len()]?;
    for (place, number) in numbers.iter().enumerate() {
        if let Some(number) = number {
            table[*number] = counted(table[*number], &calls[place]);
        }
    }
    Ok(table)
}

/// Whether as many messages are sent as are taken at the address of a number.
fn is_even_at(table: &[Traffic], number: &Option<usize>) -> bool
    ensures { result ≡ is_even_at table.now number.now }
{
    let Some(number) = number else {
        return true;
    };
    match table.get(*number) {
        None => true,
        Some(traffic) => traffic.sent == traffic.taken,
    }
}

/// So of each of these numbers.
fn are_even_at(table: &[Traffic], numbers: &[Option<usize>]) -> bool
    ensures { result ≡ list_all (is_even_at table.now) numbers.now }
{
    numbers.iter().all(|number| is_even_at(table, number))
}

/// Whether each rank takes, on each communicator, as many messages as are sent to it there. The
/// only error is want of memory.
///
/// The time is linear in the calls.
pub fn leaves_nothing(alloc: Global, program: &LongProgram) -> Result<bool, AllocError>
    ensures { IfOk result (λ even. (even ≡ true) ↔ LeavesNothing program.now) }
{
    let calls = program.calls();
    let addresses = addresses_of(alloc, calls)?;
    let numbers = numbers_of(alloc, addresses)?;
    let table = traffic_of(alloc, calls, &numbers)?;
    Ok(are_even_at(&table, &numbers))
}
