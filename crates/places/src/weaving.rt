//! A text with the places of the lines that it names.

ghost use Rattle.std.specs.Prelude.{◌≡◌, ◌++◌, IfOk, List, OnOk, ℕ, option_copied};
ghost use Rattle.std.specs.List.{flat_map};
ghost use Rattle.places.specs.Maps.{AreFrom};
ghost use Rattle.places.specs.Woven.{HasPlaces, IsAtSource, IsNamedLine, IsSaid, IsToldOfWords, IsWoven, closing, drawn_byte, is_in_place, marker, place_opening, place_text, plain_byte, quoted_byte, shown, source_text};

use crate::map::Places;
use crate::marks::{around, digits_of, naming};
use crate::sources::source_of;
use options::Form;
use std::alloc::{AllocError, Global};

/// What stands before the number of a line that a text of this form names.
fn marker(form: Form) -> &'static [u8]
    ensures { result.now ≡ marker form }
{
    match form {
        Form::Object => b"\"line\":",
        Form::Brief
        | Form::Whole
        | Form::Graph
        | Form::Chart
        | Form::Picture
        | Form::Page
        | Form::Messages => { b"line " }
    }
}

/// Adds what stands for a byte in a text.
fn put_plain(out: &mut Vec<u8>, byte: u8) -> Result<(), AllocError>
    ensures { OnOk result (out.new.items ≡ out.old.items ++ plain_byte byte) }
{
    if byte < 32 || byte > 126 {
        out.push(b'?')?;
    } else {
        out.push(byte)?;
    }
    Ok(())
}

/// Adds what stands for a byte in quotes.
fn put_quoted(out: &mut Vec<u8>, byte: u8) -> Result<(), AllocError>
    ensures { OnOk result (out.new.items ≡ out.old.items ++ quoted_byte byte) }
{
    if byte == b'"' || byte == b'\\' {
        out.extend_from_slice(&[b'\\', byte])
    } else {
        put_plain(out, byte)
    }
}

/// Adds what stands for a byte in a picture or a page.
fn put_drawn(out: &mut Vec<u8>, byte: u8) -> Result<(), AllocError>
    ensures { OnOk result (out.new.items ≡ out.old.items ++ drawn_byte byte) }
{
    match byte {
        b'&' => out.extend_from_slice(b"&amp;"),
        b'<' => out.extend_from_slice(b"&lt;"),
        b'>' => out.extend_from_slice(b"&gt;"),
        byte => put_plain(out, byte),
    }
}

/// Adds what stands for a byte in a text of this form.
fn put_byte(out: &mut Vec<u8>, form: Form, byte: u8) -> Result<(), AllocError>
    ensures { OnOk result (out.new.items ≡ out.old.items ++ shown form byte) }
{
    match form {
        Form::Object | Form::Graph => put_quoted(out, byte),
        Form::Picture | Form::Page => put_drawn(out, byte),
        Form::Brief | Form::Whole | Form::Chart | Form::Messages => put_plain(out, byte),
    }
}

/// Adds the words of a place.
fn put_words(out: &mut Vec<u8>, form: Form, words: &[u8]) -> Result<(), AllocError>
    ensures { OnOk result (out.new.items ≡ out.old.items ++ flat_map (shown form) words.now) }
{
    for byte in words {
        put_byte(out, form, *byte)?;
    }
    Ok(())
}

/// What a text of this form tells of the words of a map: the call and its place, and in an object
/// its callers too.
fn told_of<'a>(form: Form, words: &'a [u8]) -> &'a [u8]
    ensures { IsToldOfWords form words.now result.now }
{
    match form {
        Form::Object => words,
        Form::Brief
        | Form::Whole
        | Form::Graph
        | Form::Chart
        | Form::Picture
        | Form::Page
        | Form::Messages => {
            match around(words, b" < ") {
                Some((place, _callers)) => place,
                None => words,
            }
        }
    }
}

/// What stands before the words of a place.
fn opening(form: Form) -> &'static [u8]
    ensures { result.now ≡ place_opening form }
{
    match form {
        Form::Object => b",\"place\":\"",
        Form::Brief
        | Form::Whole
        | Form::Graph
        | Form::Chart
        | Form::Picture
        | Form::Page
        | Form::Messages => b" (",
    }
}

/// What stands behind them.
fn closing(form: Form) -> &'static [u8]
    ensures { result.now ≡ closing form }
{
    match form {
        Form::Object => b"\"",
        Form::Brief
        | Form::Whole
        | Form::Graph
        | Form::Chart
        | Form::Picture
        | Form::Page
        | Form::Messages => b")",
    }
}

/// Adds a place.
fn put_place(out: &mut Vec<u8>, form: Form, words: &[u8]) -> Result<(), AllocError>
    ensures { OnOk result (out.new.items ≡ out.old.items ++ place_text form words.now) }
{
    out.extend_from_slice(opening(form))?;
    put_words(out, form, words)?;
    out.extend_from_slice(closing(form))
}

/// Adds the number of a line, and the place of that line, where one is known.
fn put_beside(
    out: &mut Vec<u8>,
    form: Form,
    digits: &[u8],
    places: &Places<'_>,
) -> Result<(), AllocError>
    ensures { OnOk result ((map : List ℕ) → AreFrom map places.now → (added : List ℕ)
        × IsSaid form map digits.now added × (out.new.items ≡ out.old.items ++ (marker form ++ (digits.now ++ added)))) }
{
    out.extend_from_slice(marker(form))?;
    out.extend_from_slice(digits)?;
    match places.words_at(digits) {
        Some(words) => put_place(out, form, told_of(form, words)),
        None => Ok(()),
    }
}

/// Adds the source of a line, or where none is known its number.
fn put_source(out: &mut Vec<u8>, source: Option<&[u8]>, digits: &[u8]) -> Result<(), AllocError>
    ensures { OnOk result (out.new.items ≡ out.old.items ++ source_text (option_copied source.entry) digits.now) }
{
    match source {
        Some(source) => put_words(out, Form::Messages, source),
        None => {
            out.extend_from_slice(marker(Form::Messages))?;
            out.extend_from_slice(digits)
        }
    }
}

/// Adds the source that the map has for the line of this number, or the number.
fn put_in_place(out: &mut Vec<u8>, digits: &[u8], places: &Places<'_>) -> Result<(), AllocError>
    ensures { OnOk result ((map : List ℕ) → AreFrom map places.now → (named : List ℕ)
        × IsAtSource map digits.now named × (out.new.items ≡ out.old.items ++ named)) }
{
    match places.words_at(digits) {
        Some(words) => put_source(out, source_of(words), digits),
        None => put_source(out, None, digits),
    }
}

/// Whether a text of this form tells a source in place of the number of a line.
fn is_in_place(form: Form) -> bool
    ensures { result ≡ is_in_place form }
{
    match form {
        Form::Messages => true,
        Form::Brief
        | Form::Whole
        | Form::Graph
        | Form::Chart
        | Form::Picture
        | Form::Page
        | Form::Object => false,
    }
}

/// Adds what is told of the line of this number.
fn put_named(
    out: &mut Vec<u8>,
    form: Form,
    digits: &[u8],
    places: &Places<'_>,
) -> Result<(), AllocError>
    ensures { OnOk result ((map : List ℕ) → AreFrom map places.now → (named : List ℕ)
        × IsNamedLine form map digits.now named × (out.new.items ≡ out.old.items ++ named)) }
{
    if is_in_place(form) {
        put_in_place(out, digits, places)
    } else {
        put_beside(out, form, digits, places)
    }
}

/// A text with the places of the lines whose numbers stand behind the marker of this form, where
/// that is no part of a name.
fn woven(
    alloc: Global,
    plain: &[u8],
    form: Form,
    places: &Places<'_>,
) -> Result<Vec<u8>, AllocError>
    ensures { IfOk result (λ told. (map : List ℕ) → AreFrom map places.now → IsWoven form map plain.now told.items) }
{
    let mut out = Vec::new(alloc);
    let mut rest = plain;
    while let Some((front, behind)) = naming(rest, marker(form)) {
        let (digits, behind) = digits_of(behind);
        out.extend_from_slice(front)?;
        put_named(&mut out, form, digits, places)?;
        rest = behind;
    }
    out.extend_from_slice(rest)?;
    Ok(out)
}

/// A text that names lines, with their places beside them, in the form in which it was printed: in
/// brackets behind each number of a line, without callers; in an object so in its strings, and as
/// the member `place`, with callers, behind each member `line`. Each line that the map says
/// something of gets its place, wherever its number stands behind the marker, and no other: the
/// name `line` of a request or handle, as in `irecv line 4 1`, is no marker, and neither is the end
/// of a longer one.
///
/// In messages a place's source, its file and line, stands instead of the words `line N`: of the
/// parts of what the map says, which blanks and commas part, the first that is a name without
/// quotes, a colon and digits. Where there is none, `line N` stays.
///
/// The only error is want of memory.
pub fn with_places(
    alloc: Global,
    plain: &[u8],
    form: Form,
    places: &Places<'_>,
) -> Result<Vec<u8>, AllocError>
    ensures { IfOk result (λ told. (map : List ℕ) → AreFrom map places.now → HasPlaces form map plain.now told.items) }
{
    match form {
        Form::Object => {
            let strings = woven(alloc, plain, Form::Graph, places)?;
            woven(alloc, &strings, Form::Object, places)
        }
        Form::Brief
        | Form::Whole
        | Form::Graph
        | Form::Chart
        | Form::Picture
        | Form::Page
        | Form::Messages => { woven(alloc, plain, form, places) }
    }
}
