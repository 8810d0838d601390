//! The numbers of a program.

ghost use Rattle.std.specs.Prelude.{◌≡◌};
ghost use Rattle.callorder.specs.Calls.{pattern_of};
ghost use Rattle.reports.specs.Sizes.{wildcards_with_choice, has_choice, has_star, is_message, is_standard_send, messages, open_sends, senders, count_standard_sends, wildcards};

use callorder::{Call, Kind, Mode, Pattern, Policy, is_fit};

/// Whether a call sends a message.
fn is_message(call: &Call) -> bool
    ensures { result ≡ is_message call.now }
{
    call.kind.message().is_some()
}

/// How many messages the calls send.
pub fn messages(calls: &[Call]) -> usize
    ensures { result ≡ messages calls.now }
{
    calls.iter().filter(|call| is_message(call)).count()
}

/// Whether any source or any tag is wanted.
fn has_star(pattern: Option<Pattern>) -> bool
    ensures { result ≡ has_star pattern }
{
    match pattern {
        None => false,
        Some(pattern) => pattern.source.is_none() || pattern.tag.is_none(),
    }
}

/// How many of the calls have a star as their source or their tag.
pub fn wildcards(calls: &[Call]) -> usize
    ensures { result ≡ wildcards calls.now }
{
    calls
        .iter()
        .filter(|call| has_star(call.kind.pattern()))
        .count()
}

/// How many of the calls are sends that fit this receive, matched probe or probe.
fn senders(calls: &[Call], finder: &Call) -> usize
    ensures { result ≡ senders calls.now finder.now }
{
    calls.iter().filter(|send| is_fit(send, finder)).count()
}

/// Whether a call has a star as its source or its tag, and more than one send fits it.
fn has_choice(calls: &[Call], finder: &Call) -> bool
    ensures { result ≡ has_choice calls.now finder.now }
{
    has_star(finder.kind.pattern()) && senders(calls, finder) > 1
}

/// How many of the calls have a star, and more than one send that fits.
pub fn choices(calls: &[Call]) -> usize
    ensures { result ≡ wildcards_with_choice calls.now }
{
    calls
        .iter()
        .filter(|finder| has_choice(calls, finder))
        .count()
}

/// Whether a call is a standard send.
fn is_standard(kind: &Kind) -> bool
    ensures { result ≡ is_standard_send kind.now }
{
    match kind {
        Kind::Send {
            mode: Mode::Standard,
            ..
        } => true,
        _ => false,
    }
}

/// How many of the calls are standard sends.
fn standard_sends(calls: &[Call]) -> usize
    ensures { result ≡ count_standard_sends calls.now }
{
    calls.iter().filter(|call| is_standard(&call.kind)).count()
}

/// How many sends the policy leaves open.
pub fn open_sends(policy: Policy, calls: &[Call]) -> usize
    ensures { result ≡ open_sends policy calls.now }
{
    match policy {
        Policy::Any => standard_sends(calls),
        Policy::Never | Policy::Always => 0,
    }
}
