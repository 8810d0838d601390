//! The channel of each call.

ghost use Rattle.std.specs.Prelude.{◌≡◌, ◌++◌, ◌∷◌, ℕ, List, [], map, IfOk, length, slice_get, Some, Option};
ghost use Rattle.callorder.specs.Programs.{MpiProgram};
ghost use Rattle.balance.specs.Balance.{channel_at, channel_of, channel_to, taken_by};
ghost use Rattle.balance.specs.parts.Wildcards.{channel_address_of, AreWild, AreNumbersOfNames, IsWild};

use callorder::{Call, LongProgram, Pattern};
use interning::number;
use std::alloc::{AllocError, Global};

/// What the sends and the takers have in common that can match with one another alone.
#[derive(Clone, Copy, Debug, PartialEq, Eq, Hash)]
pub struct Channel {
    /// The rank that the messages are sent to.
    pub destination: u32,
    pub communicator: u32,
    /// The rank that sends them; `None` where a taker takes any source.
    pub source: Option<u32>,
    /// Their tag; `None` where a taker takes any tag.
    pub tag: Option<u32>,
}

/// The rank that messages are sent to, and their communicator.
#[derive(Clone, Copy, PartialEq, Eq, Hash)]
pub struct ChannelAddress {
    pub destination: u32,
    pub communicator: u32,
}

/// What takers at an address leave open.
#[derive(Clone, Copy)]
pub struct TakerWildcards {
    /// One takes any source.
    pub source: bool,
    /// One takes any tag.
    pub tag: bool,
}

/// What a receive or a matched probe takes.
fn taken_by(call: &Call) -> Option<Pattern>
    ensures { result ≡ taken_by call.now }
{
    if call.kind.is_probe() {
        None
    } else {
        call.kind.pattern()
    }
}

/// The address of a send's message, or of a taker.
fn address_of(call: &Call) -> Option<ChannelAddress>
    ensures { result ≡ channel_address_of call.now }
{
    if let Some(message) = call.kind.message() {
        return Some(ChannelAddress {
            destination: message.destination,
            communicator: message.communicator,
        });
    }
    match taken_by(call) {
        None => None,
        Some(pattern) => Some(ChannelAddress {
            destination: call.rank,
            communicator: pattern.communicator,
        }),
    }
}

/// The address of each call.
fn addresses_of(alloc: Global, calls: &[Call]) -> Result<Vec<Option<ChannelAddress>>, AllocError>
    ensures { IfOk result (λ addresses. addresses.items ≡ map channel_address_of calls.now) }
{
    calls.iter().map(address_of).collect(alloc)
}

/// A number for each address.
fn numbers_of(
    alloc: Global,
    addresses: Vec<Option<ChannelAddress>>,
) -> Result<Vec<Option<usize>>, AllocError>
    ensures { IfOk result (λ numbers. AreNumbersOfNames addresses.items numbers.items) }
{
    number(alloc, addresses)
}

/// What calls at an address leave open, after one more call there.
fn loosened(loose: TakerWildcards, call: &Call) -> TakerWildcards
    ensures { (calls : List Call) (address : ChannelAddress) → channel_address_of call.now ≡ Some address →
        IsWild calls address loose → IsWild (calls ++ call.now ∷ []) address result }
{
    match taken_by(call) {
        None => loose,
        Some(pattern) => TakerWildcards {
            source: loose.source || pattern.source.is_none(),
            tag: loose.tag || pattern.tag.is_none(),
        },
    }
}

/// What the takers at each address leave open, by the address's number.
fn loose_of(
    alloc: Global,
    calls: &[Call],
    numbers: &[Option<usize>],
) -> Result<Vec<TakerWildcards>, AllocError>
    requires { AreNumbersOfNames (map channel_address_of calls.now) numbers.now }
    ensures { IfOk result (λ table. AreWild calls.now (map channel_address_of calls.now) numbers.now table.items) }
{
    let bound = TakerWildcards {
        source: false,
        tag: false,
    };
    let mut table = vec![in alloc; bound; calls.len()]?;
    for (place, number) in numbers.iter().enumerate() {
        if let Some(number) = number {
            table[*number] = loosened(table[*number], &calls[place]);
        }
    }
    Ok(table)
}

/// The channel at an address where takers leave this open.
fn channel_to(
    address: ChannelAddress,
    loose: TakerWildcards,
    source: Option<u32>,
    tag: Option<u32>,
) -> Channel
    ensures { (p : MpiProgram) → IsWild p.calls address loose → result ≡ channel_to p address.destination address.communicator source tag }
{
    Channel {
        destination: address.destination,
        communicator: address.communicator,
        source: if loose.source { None } else { source },
        tag: if loose.tag { None } else { tag },
    }
}

/// The channel of a send or a taker, at an address where takers leave this open.
fn channel_in(call: &Call, loose: TakerWildcards) -> Option<Channel>
    ensures { (p : MpiProgram) (address : ChannelAddress) → channel_address_of call.now ≡ Some address →
        IsWild p.calls address loose → result ≡ channel_of p call.now }
{
    let address = address_of(call)?;
    match call.kind.message() {
        Some(message) => Some(channel_to(address, loose, Some(call.rank), Some(message.tag))),
        None => {
            let pattern = taken_by(call)?;
            Some(channel_to(address, loose, pattern.source, pattern.tag))
        }
    }
}

/// The channel of each call; none of one that is no send and no taker. The only error is want of
/// memory.
pub fn channels_of(alloc: Global, program: &LongProgram) -> Result<Vec<Option<Channel>>, AllocError>
    ensures size { IfOk result (λ channels. length channels.items ≡ length program.now.calls) }
    ensures each { IfOk result (λ channels. (c : ℕ) (channel : Option Channel) →
        slice_get channels.items c ≡ Some channel → channel ≡ channel_at program.now c) }
{
    let calls = program.calls();
    let addresses = addresses_of(alloc, calls)?;
    let numbers = numbers_of(alloc, addresses)?;
    let table = loose_of(alloc, calls, &numbers)?;
    let mut channels = Vec::new(alloc);
    for (place, number) in numbers.iter().enumerate() {
        channels.push(match number {
            None => None,
            Some(number) => channel_in(&calls[place], table[*number]),
        })?;
    }
    Ok(channels)
}
