//! The settings of a text's parameters.

ghost use Rattle.std.specs.Prelude.{◌≡◌, ◌^◌, ◌<◌, ◌-ℤ◌, IfNone, IfOk, IfSome, false, map, nat_eq, option_map, pos, slice_get, true};
ghost use Rattle.std.specs.List.{list_any};
ghost use Rattle.unroll.specs.Statements.{has_value};
ghost use Rattle.spmd_program.specs.Settings.{Sets, SetsOne, digits_from, digits_in, has_equals, name_in_setting, number_in_value, of_parameter, parameter_of, set_all, set_one, set_place, unset, value_in};

use spmd_text::{SpmdText, place_of};
use std::alloc::{AllocError, Global};
use unroll::Value;

/// What is wrong with a setting.
#[derive(Clone, Copy)]
pub enum SettingFault {
    /// It isn't written NAME=VALUE.
    NoEquals,
    /// The value is no number of at most 19 digits, below 2^63, with or without a minus.
    NoNumber,
    /// The name is none of the text's parameters.
    NoParameter,
    /// The parameter was set before.
    Twice,
}

/// A setting, and what is wrong with it.
#[derive(Clone, Copy)]
pub struct BadSetting<'a> {
    pub word: &'a str,
    pub fault: SettingFault,
}

/// The number of the digits behind those that made this value, below 2^63.
fn digits_from(value: u64, digits: &[u8]) -> Option<u64>
    requires { value < 2 ^ 63 }
    ensures number { result ≡ digits_from value digits.now }
    ensures small { IfSome result (λ n. n < 2 ^ 63) }
{
    let [first, others @ ..] = digits else {
        return Some(value);
    };
    if !first.is_ascii_digit() {
        return None;
    }
    let longer = u128::from(value) * 10 + u128::from(*first - b'0');
    if longer >= 1 << 63 {
        return None;
    }
    digits_from(longer as u64, others)
}

/// The number of one digit or more, at most 19.
fn digits_in(digits: &[u8]) -> Option<u64>
    ensures number { result ≡ digits_in digits.now }
    ensures small { IfSome result (λ n. n < 2 ^ 63) }
{
    if digits.is_empty() || digits.len() > 19 {
        return None;
    }
    digits_from(0, digits)
}

/// The number, where one was found.
fn positive(digits: Option<u64>) -> Option<i64>
    requires { IfSome digits (λ n. n < 2 ^ 63) }
    ensures { result ≡ option_map pos digits }
{
    match digits {
        None => None,
        Some(number) => Some(number as i64),
    }
}

/// As much below 0 as the number is above it, where one was found.
fn negative(digits: Option<u64>) -> Option<i64>
    requires { IfSome digits (λ n. n < 2 ^ 63) }
    ensures { result ≡ option_map (λ n. pos 0 -ℤ pos n) digits }
{
    match digits {
        None => None,
        Some(number) => Some(0 - number as i64),
    }
}

/// The number that a text spells, with a minus before its digits where it is below 0.
fn number_in(text: &[u8]) -> Option<i64>
    ensures { result ≡ number_in_value text.now }
{
    let [first, digits @ ..] = text else {
        return None;
    };
    if *first == b'-' {
        return negative(digits_in(digits));
    }
    positive(digits_in(text))
}

fn is_among(places: &[u32], place: usize) -> bool
    ensures { result ≡ list_any (λ p. nat_eq p place) places.now }
{
    places.iter().any(|other| *other as usize == place)
}

/// The place of a name, where it is that of a parameter.
fn of_parameter(text: &SpmdText, place: Option<usize>) -> Option<usize>
    ensures { result ≡ of_parameter text.now place }
{
    match place {
        None => None,
        Some(place) => {
            if is_among(&text.parameters, place) {
                return Some(place);
            }
            None
        }
    }
}

/// The place of a parameter's name.
fn parameter_of(text: &SpmdText, name: &[u8]) -> Option<usize>
    ensures { result ≡ parameter_of text.now name.now }
{
    of_parameter(text, place_of(&text.names, name))
}

/// Whether the name at a place has a value.
fn has_value(values: &[Option<Value>], place: usize) -> bool
    ensures { result ≡ has_value (slice_get values.now place) }
{
    match values.get(place) {
        None => false,
        Some(None) => false,
        Some(Some(_)) => true,
    }
}

/// Gives the name at a place its value, where it is a parameter's and has none.
fn set_place(
    values: &mut Vec<Option<Value>>,
    number: i64,
    place: Option<usize>,
) -> Result<(), SettingFault>
    ensures { SetsOne result (set_place values.old.items number place) values.new.items }
{
    let Some(place) = place else {
        return Err(SettingFault::NoParameter);
    };
    if has_value(values, place) {
        return Err(SettingFault::Twice);
    }
    if place < values.len() {
        values[place] = Some(Value::Number(number));
    }
    Ok(())
}

/// What stands before the first `=` of a setting, and behind it.
fn parts_of(word: &str) -> Option<(&str, &str)>
    ensures none { IfNone result (has_equals word.now ≡ false) }
    ensures some { IfSome result (λ parts. (has_equals word.now ≡ true) × (parts.0.now ≡ name_in_setting word.now) ×
        (parts.1.now ≡ value_in word.now)) }
{
    word.split_once('=')
}

/// Gives a parameter the value that a setting has for it.
fn set_one(text: &SpmdText, values: &mut Vec<Option<Value>>, word: &str) -> Result<(), SettingFault>
    ensures { SetsOne result (set_one text.now values.old.items word.now) values.new.items }
{
    let Some((name, value)) = parts_of(word) else {
        return Err(SettingFault::NoEquals);
    };
    let Some(number) = number_in(value.as_bytes()) else {
        return Err(SettingFault::NoNumber);
    };
    set_place(values, number, parameter_of(text, name.as_bytes()))
}

/// Gives the parameters their values, in the order of the settings.
pub fn set_all<'a>(
    text: &SpmdText,
    values: &mut Vec<Option<Value>>,
    words: &[&'a str],
) -> Result<(), BadSetting<'a>>
    ensures { Sets result (set_all text.now values.old.items (map (λ w. w.now) words.entry.now)) values.new.items }
{
    for word in words {
        match set_one(text, values, word) {
            Ok(()) => {}
            Err(fault) => return Err(BadSetting { word, fault }),
        }
    }
    Ok(())
}

/// No name has a value.
pub fn unset(alloc: Global, names: &[Vec<u8>]) -> Result<Vec<Option<Value>>, AllocError>
    ensures { IfOk result (λ values. values.items ≡ unset names.now) }
{
    let mut values = Vec::new(alloc);
    for _name in names {
        values.push(None)?;
    }
    Ok(values)
}
