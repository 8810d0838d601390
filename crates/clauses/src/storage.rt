//! How a clause keeps its literals.

ghost use Rattle.std.specs.Prelude.{◌≡◌, ◌≤◌, take, length, IfOk};
ghost use Rattle.clauses.specs.Storage.{literals_in, IsSound};

use crate::literal::{FILLER, Lit};
use std::alloc::{AllocError, Global};
use std::marker::Model;

/// How many literals are kept without a block of memory of their own.
const SHORT: usize = 4;

/// Literals in a block of memory of their own.
#[derive(Debug, Drop)]
pub(crate) struct Block {
    literals: Vec<Lit>,
}

impl Model for Block {
    ghost use Rattle.std.specs.Prelude.{List};
    ghost use Rattle.clauses.specs.Clauses.{Literal};

    ghost Value = { List Literal };

    ghost view = { λ b. b.literals.items };
}

/// Literals, a few of them in place: a look at a short clause is one look into memory.
#[derive(Debug, Drop)]
pub(crate) enum Storage {
    Short { len: u32, literals: [Lit; 4] },
    Long(Block),
}

/// The literals at the front of four; the others are filled up.
fn filled(literals: &[Lit]) -> [Lit; 4]
    requires { length literals.now ≤ 4 }
    ensures { take (length literals.now) result ≡ literals.now }
{
    let mut filled = [FILLER; 4];
    for (place, literal) in literals.iter().enumerate() {
        filled[place] = *literal;
    }
    filled
}

fn short(literals: &[Lit]) -> Storage
    requires { length literals.now ≤ 4 }
    ensures kept { literals_in result ≡ literals.now }
    ensures sound { IsSound result }
{
    Storage::Short {
        len: literals.len() as u32,
        literals: filled(literals),
    }
}

/// Keeps a copy of the literals.
pub(crate) fn copied(alloc: Global, literals: &[Lit]) -> Result<Storage, AllocError>
    ensures kept { IfOk result (λ storage. literals_in storage ≡ literals.now) }
    ensures sound { IfOk result (λ storage. IsSound storage) }
{
    if literals.len() <= SHORT {
        return Ok(short(literals));
    }
    let literals = literals.to_vec(alloc)?;
    Ok(Storage::Long(Block { literals }))
}

/// Keeps the literals. Takes no memory.
pub(crate) fn kept(literals: Vec<Lit>) -> Storage
    ensures kept { literals_in result ≡ literals.items }
    ensures sound { IsSound result }
{
    if literals.len() <= SHORT {
        return short(literals.as_slice());
    }
    Storage::Long(Block { literals })
}

/// The literals that are kept.
pub(crate) fn literals(storage: &Storage) -> &[Lit]
    requires { IsSound storage.now }
    ensures { result.now ≡ literals_in storage.now }
{
    match storage {
        Storage::Short { len, literals } => &literals[..*len as usize],
        Storage::Long(block) => block.literals.as_slice(),
    }
}
