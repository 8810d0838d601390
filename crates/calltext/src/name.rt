//! The names of requests and of handles.

ghost use Rattle.std.specs.Prelude.{◌≡◌, ◌≤◌, IsTrue, IfNone, IfOk, IfSome, false, length, map};
ghost use Rattle.calltext.specs.Names.{are_letters_or_digits, is_name, AreNames};

use std::alloc::{AllocError, Global};
use std::marker::Model;

/// The name of a request or of a handle: one letter a to z, and then up to 15 of a to z and 0 to 9.
/// It stands in place, since a text has as many names as calls.
#[derive(Drop)]
pub struct Name {
    letters: [u8; 16],
    count: usize,
}

impl Model for Name {
    ghost use Rattle.std.specs.Prelude.{ℕ, List, IsTrue, ◌≤◌, take};
    ghost use Rattle.calltext.specs.Names.{is_name};

    ghost Value = { List ℕ };

    ghost view = { λ name. take name.count name.letters };

    ghost invariant = { λ name. (name.count ≤ 16) × IsTrue (is_name (take name.count name.letters)) };
}

impl Name {
    /// The name of these letters and digits.
    pub(crate) fn new(word: &[u8]) -> Name
        requires name { IsTrue (is_name word.now) }
        requires short { length word.now ≤ 16 }
        ensures { result ≡ word.now }
    {
        let mut letters = [0; 16];
        for (place, letter) in word.iter().enumerate() {
            letters[place] = *letter;
        }
        Name {
            letters,
            count: word.len(),
        }
    }

    /// The letters and digits of the name, in ASCII.
    pub fn letters(&self) -> &[u8]
        ensures value { result.now ≡ self.now }
        ensures kept { IsTrue (is_name self.now) }
    {
        &self.letters[..self.count]
    }
}

/// One name or more.
#[derive(Drop)]
pub struct Names {
    names: Vec<Name>,
}

impl Model for Names {
    ghost use Rattle.std.specs.Prelude.{ℕ, List};
    ghost use Rattle.calltext.specs.Names.{AreNames};

    ghost Value = { List (List ℕ) };

    ghost view = { λ names. names.names.items };

    ghost invariant = { λ names. AreNames names.names.items };
}

impl Names {
    /// These names, one or more.
    pub(crate) fn new(names: Vec<Name>) -> Names
        requires { AreNames names.items }
        ensures { result ≡ names.items }
    {
        Names { names }
    }

    /// The names, in their order.
    pub fn as_slice(&self) -> &[Name]
        ensures value { result.now ≡ self.now }
        ensures kept { AreNames self.now }
    {
        self.names.as_slice()
    }
}

fn are_letters_or_digits(letters: &[u8]) -> bool
    ensures { result ≡ are_letters_or_digits letters.now }
{
    for letter in letters {
        if !letter.is_ascii_lowercase() && !letter.is_ascii_digit() {
            return false;
        }
    }
    true
}

/// Whether the word can name a request or a handle: one letter a to z, and then up to 15 of a to z
/// and 0 to 9.
pub fn is_name(word: &[u8]) -> bool
    ensures { result ≡ is_name word.now }
{
    let [first, others @ ..] = word else {
        return false;
    };
    first.is_ascii_lowercase() && others.len() <= 15 && are_letters_or_digits(others)
}

/// The name that is spelled so; none where the word is no name.
pub(crate) fn name_of(word: &[u8]) -> Option<Name>
    ensures none { IfNone result (is_name word.now ≡ false) }
    ensures some { IfSome result (λ name. (name ≡ word.now) × IsTrue (is_name name)) }
{
    if !is_name(word) {
        return None;
    }
    Some(Name::new(word))
}

/// The names that are spelled so; none where there is no word, or one is no name. The only error is
/// want of memory.
pub(crate) fn names_of(alloc: Global, words: &[&[u8]]) -> Result<Option<Names>, AllocError>
    ensures none { IfOk result (λ found. IfNone found (AreNames (map (λ w. w.now) words.now) → ⊥)) }
    ensures some { IfOk result (λ found. IfSome found (λ names. (names ≡ map (λ w. w.now) words.now) × AreNames names)) }
{
    let mut names = Vec::new(alloc);
    for word in words {
        match name_of(word) {
            Some(name) => names.push(name)?,
            None => return Ok(None),
        }
    }
    if names.is_empty() {
        return Ok(None);
    }
    Ok(Some(Names::new(names)))
}
