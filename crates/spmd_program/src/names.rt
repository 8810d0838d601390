//! How names, requests and handles are spelled.

ghost use Rattle.std.specs.Prelude.{◌≡◌, ◌++◌, ◌∷◌, [], IfOk, IsTrue, OnOk};
ghost use Rattle.calltext.specs.Names.{are_letters_or_digits, is_name};
ghost use Rattle.plaintext.specs.Plain.{spaced};
ghost use Rattle.spmd_program.specs.Lines.{index_text, name_at, spelled};

use plaintext::put_number;
use std::alloc::{AllocError, Global};
use unroll::Label;

/// Adds the name at a place of the list of a text's names.
pub fn put_name(out: &mut Vec<u8>, names: &[Vec<u8>], place: u32) -> Result<(), AllocError>
    ensures { OnOk result (out.new.items ≡ out.old.items ++ name_at names.now place) }
{
    match names.get(place as usize) {
        None => Ok(()),
        Some(name) => out.extend_from_slice(name.as_slice()),
    }
}

/// Adds an index behind `ix`, where there is one.
fn put_index(out: &mut Vec<u8>, index: Option<u32>) -> Result<(), AllocError>
    ensures { OnOk result (out.new.items ≡ out.old.items ++ index_text index) }
{
    match index {
        None => Ok(()),
        Some(index) => {
            out.extend_from_slice(b"ix")?;
            put_number(out, index)
        }
    }
}

fn are_letters_or_digits(letters: &[u8]) -> bool
    ensures { result ≡ are_letters_or_digits letters.now }
{
    let [first, others @ ..] = letters else {
        return true;
    };
    (first.is_ascii_lowercase() || first.is_ascii_digit()) && are_letters_or_digits(others)
}

/// Whether a program's text can have this name.
fn is_name(word: &[u8]) -> bool
    ensures { result ≡ is_name word.now }
{
    let [first, others @ ..] = word else {
        return false;
    };
    first.is_ascii_lowercase() && others.len() <= 15 && are_letters_or_digits(others)
}

/// How a request or handle is spelled. That is a name, as labels of a text that was read are
/// spelled so; another one would be told as want of memory.
fn spelled(alloc: Global, names: &[Vec<u8>], label: Label) -> Result<Vec<u8>, AllocError>
    ensures text { IfOk result (λ text. text.items ≡ spelled names.now label) }
    ensures name { IfOk result (λ text. IsTrue (is_name text.items)) }
{
    let mut text = Vec::new(alloc);
    put_name(&mut text, names, label.name)?;
    put_index(&mut text, label.index)?;
    if !is_name(&text) {
        return Err(AllocError);
    }
    Ok(text)
}

/// Adds a request or handle behind a blank.
pub fn put_label(
    alloc: Global,
    out: &mut Vec<u8>,
    names: &[Vec<u8>],
    label: Label,
) -> Result<(), AllocError>
    ensures text { OnOk result (out.new.items ≡ out.old.items ++ spaced (spelled names.now label ∷ [])) }
    ensures name { OnOk result (IsTrue (is_name (spelled names.now label))) }
{
    let text = spelled(alloc, names, label)?;
    out.push(b' ')?;
    out.extend_from_slice(text.as_slice())
}
