//! Literals.

ghost use Rattle.std.specs.Prelude.{◌≡◌, ◌≤◌, ◌↔◌, IfSome, IsSome};
ghost use Rattle.clauses.specs.Clauses.{negation};

use std::marker::Model;

/// The largest number of a variable, so that a literal fits into four bytes.
pub const LARGEST_VARIABLE: u32 = 2_147_483_647;

/// A variable, numbered from 1 to [`LARGEST_VARIABLE`], or its negation. It takes four bytes.
#[derive(Clone, Copy, Debug, PartialEq, Eq)]
pub struct Lit {
    number: u32,
}

const _: () = prove!(size_of::<Lit>() == 4);

impl Model for Lit {
    ghost use Rattle.std.specs.Prelude.{ℕ, ◌≤◌};
    ghost use Rattle.std.proofs.Common.{ap};
    ghost use Rattle.clauses.specs.Clauses.{Literal};
    ghost use Rattle.clauses.specs.Packing.{packed, unpacked, packed-unpacked};

    ghost Value = { Literal };

    ghost view = { λ l. unpacked l.number };

    ghost invariant = { λ l. (2 ≤ l.number) × (l.number ≤ 4294967295) };

    ghost inverse = { λ l. record { number = packed l } };

    ghost inverse_ok = { λ l _. ap (λ (n : ℕ). record { number = n }) (packed-unpacked l.number) };
}

/// A literal for places that hold none.
pub(crate) const FILLER: Lit = Lit { number: 2 };

impl Lit {
    /// The variable of this number, or its negation where `positive` is false. There is none for 0
    /// and for a number above [`LARGEST_VARIABLE`].
    pub fn make(variable: u32, positive: bool) -> Option<Lit>
        ensures made { IfSome result (λ l. l ≡ record { variable = variable; positive = positive }) }
        ensures when { IsSome result ↔ ((1 ≤ variable) × (variable ≤ 2147483647)) }
    {
        if variable == 0 || variable > LARGEST_VARIABLE {
            return None;
        }
        let number = if positive {
            2 * variable + 1
        } else {
            2 * variable
        };
        Some(Lit { number })
    }

    /// The number of the variable, from 1 to [`LARGEST_VARIABLE`].
    pub fn variable(&self) -> u32
        ensures same { result ≡ self.now.variable }
        ensures from_one { 1 ≤ result }
        ensures most { result ≤ 2147483647 }
    {
        self.number / 2
    }

    /// Whether it is the variable itself, and not its negation.
    pub fn is_positive(&self) -> bool
        ensures { result ≡ self.now.positive }
    {
        self.number % 2 == 1
    }

    /// The literal of the same variable that is true where this one is false.
    pub fn negated(&self) -> Lit
        ensures { result ≡ negation self.now }
    {
        if self.number % 2 == 1 {
            return Lit {
                number: self.number - 1,
            };
        }
        Lit {
            number: self.number + 1,
        }
    }
}
