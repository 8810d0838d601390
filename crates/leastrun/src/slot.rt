//! Which calls wait together. A finder has a slot, made of what it asks for, and a send has one for
//! each form that a pattern may have: a send and a finder that fit have one slot in the finder's
//! form.

ghost use Rattle.std.specs.Prelude.{◌≡◌, ◌<◌, ℕ, true, IfOk, OnOk};
ghost use Rattle.callorder.specs.Calls.{pattern_of};
ghost use Rattle.leastrun.specs.parts.Slots.{mix, told, named, slot_of, form_of, send_slot, finder_slot, Lists, ListsMore, HasForms};

use callorder::{Call, LongProgram, Pattern};
use std::alloc::{AllocError, Global};

/// Which of its source and its tag a pattern names.
#[derive(Clone, Copy)]
pub struct PatternForm {
    /// Whether it names its source.
    pub source: bool,
    /// Whether it names its tag.
    pub tag: bool,
}

/// A number made of two others.
fn mix(one: u64, other: u64) -> u64
    ensures { result ≡ mix one other }
{
    one.wrapping_mul(11_400_714_819_323_198_485)
        .wrapping_add(other)
}

/// A number for what is named, and another one for what isn't.
fn told(number: Option<u32>) -> u64
    ensures { result ≡ told number }
{
    match number {
        None => 0,
        Some(number) => u64::from(number) + 1,
    }
}

/// The slot of what a rank is sent by this communicator, from this source, or any, and with this
/// tag, or any.
fn slot_of(rank: u32, communicator: u32, source: Option<u32>, tag: Option<u32>) -> u64
    ensures { result ≡ slot_of rank communicator source tag }
{
    let place = mix(u64::from(rank), u64::from(communicator));
    mix(mix(place, told(source)), told(tag))
}

/// The number where it is named.
fn named(names: bool, number: u32) -> Option<u32>
    ensures { result ≡ named names number }
{
    if names { Some(number) } else { None }
}

/// The slot of a send in this form, and `None` for another call.
pub fn send_slot(form: PatternForm, call: &Call) -> Option<u64>
    ensures { result ≡ send_slot form call.now }
{
    let Some(message) = call.kind.message() else {
        return None;
    };
    let source = named(form.source, call.rank);
    let tag = named(form.tag, message.tag);
    Some(slot_of(message.destination, message.communicator, source, tag))
}

/// The slot of a finder, and `None` for another call.
pub fn finder_slot(call: &Call) -> Option<u64>
    ensures { result ≡ finder_slot call.now }
{
    let Some(pattern) = call.kind.pattern() else {
        return None;
    };
    Some(slot_of(call.rank, pattern.communicator, pattern.source, pattern.tag))
}

/// Which of its source and its tag this pattern names.
fn form_of(pattern: Pattern) -> PatternForm
    ensures { result ≡ form_of pattern }
{
    PatternForm {
        source: pattern.source.is_some(),
        tag: pattern.tag.is_some(),
    }
}

/// Whether the form is listed.
fn is_listed(forms: &[PatternForm], form: PatternForm) -> bool
    ensures { result ≡ true → Lists forms.now form }
{
    for place in 0..forms.len() {
        let one = forms[place];
        if one.source == form.source && one.tag == form.tag {
            return true;
        }
    }
    false
}

/// Lists the form of a finder, unless it is listed. The only error is want of memory.
fn list(forms: &mut Vec<PatternForm>, call: &Call) -> Result<(), AllocError>
    ensures { OnOk result (ListsMore forms.old.items forms.new.items (pattern_of call.now.kind)) }
{
    let Some(pattern) = call.kind.pattern() else {
        return Ok(());
    };
    let form = form_of(pattern);
    if is_listed(forms, form) {
        return Ok(());
    }
    forms.push(form)?;
    Ok(())
}

/// The forms of the program's finders. The only error is want of memory.
pub fn forms_of(alloc: Global, program: &LongProgram) -> Result<Vec<PatternForm>, AllocError>
    ensures { IfOk result (λ forms. HasForms program.now forms.items) }
{
    let calls = program.calls();
    let mut forms = Vec::new(alloc);
    for place in 0..calls.len() {
        list(&mut forms, &calls[place])?;
    }
    Ok(forms)
}
