//! Clauses.

ghost use Rattle.std.specs.Prelude.{◌≡◌, ◌↔◌, IfOk, IfErr, IsOk, IsTrue, false};
ghost use Rattle.clauses.specs.Clauses.{rises, rises_above, is_within};

use crate::literal::{LARGEST_VARIABLE, Lit};
use crate::storage::{Storage, copied, kept, literals};
use std::alloc::{AllocError, Global};
use std::marker::Model;
use thiserror::Error;

/// Literals whose variables rise strictly, so that no variable stands twice. It demands that one of
/// them is true, so the empty clause is never satisfied.
/// Up to four literals take no block of memory.
#[derive(Debug, Drop)]
pub struct Clause {
    storage: Storage,
}

impl Model for Clause {
    ghost use Rattle.std.specs.Prelude.{List, IsTrue};
    ghost use Rattle.clauses.specs.Clauses.{Literal, rises, is_within};
    ghost use Rattle.clauses.specs.declared.literal.TheConstants.{LARGEST_VARIABLE};

    ghost Value = { List Literal };

    ghost use Rattle.clauses.specs.Storage.{literals_in, IsSound};

    ghost view = { λ c. literals_in c.storage };

    ghost invariant = { λ c. IsSound c.storage × IsTrue (rises (literals_in c.storage)) ×
        IsTrue (is_within LARGEST_VARIABLE (literals_in c.storage)) };
}

/// Why no clause was made.
#[derive(Clone, Copy, Debug, PartialEq, Eq, Error)]
pub enum ClauseFault {
    /// Memory ran out; the variables do rise strictly.
    #[error("memory")]
    Memory,
    /// The variables don't rise strictly.
    #[error("order")]
    Order,
}

fn rises(literals: &[Lit]) -> bool
    ensures rises { result ≡ rises literals.now }
    ensures within { IsTrue result → IsTrue (is_within LARGEST_VARIABLE literals.now) }
{
    let mut last = 0;
    for literal in literals {
        let variable = literal.variable();
        if variable <= last {
            return false;
        }
        last = variable;
    }
    true
}

impl Clause {
    /// The clause of these literals, which may be none. Refused with [`ClauseFault::Order`] exactly
    /// where the variables don't rise strictly, before any memory is asked for.
    pub fn make(alloc: Global, literals: &[Lit]) -> Result<Clause, ClauseFault>
        ensures made { IfOk result (λ clause. clause ≡ literals.now) }
        ensures rises { IfOk result (λ clause. IsTrue (rises clause)) }
        ensures order { result ≡ Err ClauseFault.Order ↔ rises literals.now ≡ false }
    {
        if !rises(literals) {
            return Err(ClauseFault::Order);
        }
        match copied(alloc, literals) {
            Ok(storage) => Ok(Clause { storage }),
            Err(AllocError) => Err(ClauseFault::Memory),
        }
    }

    /// The clause that keeps these literals, which may be none. They come back exactly where the
    /// variables don't rise strictly. Takes no memory.
    pub fn from_vec(literals: Vec<Lit>) -> Result<Clause, Vec<Lit>>
        ensures made { IfOk result (λ clause. clause ≡ literals.items) }
        ensures back { IfErr result (λ back. back ≡ literals) }
        ensures when { IsOk result ↔ IsTrue (rises literals.items) }
    {
        if !rises(literals.as_slice()) {
            return Err(literals);
        }
        let storage = kept(literals);
        Ok(Clause { storage })
    }

    /// A copy of the clause.
    pub fn copy(&self, alloc: Global) -> Result<Clause, AllocError>
        ensures { IfOk result (λ clause. clause ≡ self.now) }
    {
        let storage = copied(alloc, self.literals())?;
        Ok(Clause { storage })
    }

    /// Whether no variable of the clause is above this one.
    pub fn is_within(&self, variables: u32) -> bool
        ensures { result ≡ is_within variables self.now }
    {
        self.literals()
            .iter()
            .all(|literal| literal.variable() <= variables)
    }

    /// Its literals, rising strictly by variable.
    pub fn literals(&self) -> &[Lit]
        ensures same { result.now ≡ self.now }
        ensures rises { IsTrue (rises self.now) }
        ensures within { IsTrue (is_within LARGEST_VARIABLE self.now) }
    {
        literals(&self.storage)
    }
}
