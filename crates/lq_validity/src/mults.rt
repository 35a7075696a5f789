//! Lists of multipliers.

ghost use Rattle.std.specs.Prelude.{◌≡◌, ◌↔◌, ◌+◌, ◌≤◌, IsTrue, IsSome, IfSome, MatchOption, [], ◌∷◌};
ghost use Rattle.lq_validity.specs.Mults.{IsRest, IsMultipliers, is_factor, has_coefficient, stands_in, is_coefficient, offered_from, multipliers_for};

use lq_linear::Row;
use lq_quals::{Qualifier, Quals};
use lq_tree::PProgram;
use std::marker::Model;

/// The multipliers of a search: 1, and at most two more from 2 to 64, in ascending order
/// (docs/CHECKING.md, "Derivation"). Contracts see them as a list.
#[derive(Debug, Drop)]
pub struct Mults {
    numbers: [u32; 3],
    count: usize,
}

impl Model for Mults {
    ghost use Rattle.std.specs.Prelude.{List, ℕ, take, ◌≤◌};
    ghost use Rattle.lq_validity.specs.Mults.{IsMultipliers};

    ghost Value = { List ℕ };

    ghost view = { λ m. take m.count m.numbers };

    ghost invariant = { λ m. (m.count ≤ 3) × IsMultipliers (take m.count m.numbers) };
}

impl Mults {
    /// 1 and these numbers, or `None` where they are more than two, don't ascend, or one of them
    /// isn't from 2 to 64.
    pub fn list(rest: &[u32]) -> Option<Mults>
        ensures numbers { IfSome result (λ m. m ≡ 1 ∷ rest.now) }
        ensures bounds { IsSome result ↔ IsRest rest.now }
    {
        match rest {
            [] => Some(Mults {
                numbers: [1, 0, 0],
                count: 1,
            }),
            [first] if is_multiplier(*first) => Some(Mults {
                numbers: [1, *first, 0],
                count: 2,
            }),
            [first, second] if is_multiplier(*first) && first < second && is_multiplier(*second) =>
                {
                    Some(Mults {
                        numbers: [1, *first, *second],
                        count: 3,
                    })
                }
            _ => None,
        }
    }

    /// The multipliers of a program and its qualifiers: 1, and the two least of the numbers from 2
    /// to 64 that are factors of the program or, up to sign, coefficients of the qualifiers.
    pub fn of(p: &PProgram, q: &Quals) -> Mults
        ensures { result ≡ multipliers_for p.now q.now }
    {
        let Some(first) = next_offered(p, q, 2) else {
            return Mults {
                numbers: [1, 0, 0],
                count: 1,
            };
        };
        let Some(second) = next_offered(p, q, first + 1) else {
            return Mults {
                numbers: [1, first, 0],
                count: 2,
            };
        };
        Mults {
            numbers: [1, first, second],
            count: 3,
        }
    }

    /// The numbers, 1 first.
    pub fn numbers(&self) -> &[u32]
        ensures numbers { result.now ≡ self.now }
        ensures bounds { IsMultipliers self.now }
    {
        &self.numbers[..self.count]
    }
}

/// Tells whether a number may stand behind the 1.
fn is_multiplier(number: u32) -> bool
    ensures { IsTrue result ↔ ((2 ≤ number) × (number ≤ 64)) }
{
    2 <= number && number <= 64
}

// The least number from this one to 64 that is a factor of the program or, up to sign, a coefficient
// of the qualifiers.
fn next_offered(p: &PProgram, q: &Quals, from: u32) -> Option<u32>
    requires { from ≤ 65 }
    ensures { MatchOption result (offered_from p.now q.now from ≡ [])
        (λ n. (from ≤ n) × (n ≤ 64) × (offered_from p.now q.now from ≡ n ∷ offered_from p.now q.now (n + 1))) }
{
    (from..65).find(|n| is_factor(p, *n) || is_coefficient(q, *n))
}

// Whether a number is a factor of the program.
fn is_factor(p: &PProgram, n: u32) -> bool
    ensures { result ≡ is_factor p.now n }
{
    let n = i64::from(n);
    p.factors.as_slice().iter().any(|factor| *factor == n)
}

// Whether a number is, up to sign, a coefficient of one of the qualifiers.
fn is_coefficient(q: &Quals, n: u32) -> bool
    ensures { result ≡ is_coefficient q.now n }
{
    q.list
        .as_slice()
        .iter()
        .any(|qualifier| stands_in(n, qualifier))
}

// Whether a number is, up to sign, a coefficient of a row of the qualifier.
fn stands_in(n: u32, qualifier: &Qualifier) -> bool
    ensures { result ≡ stands_in n qualifier.now }
{
    match qualifier {
        Qualifier::AtMost(row) => has_coefficient(n, row),
        Qualifier::Equal(row, opposite) => has_coefficient(n, row) || has_coefficient(n, opposite),
    }
}

// Whether a number is, up to sign, a coefficient of the row.
fn has_coefficient(n: u32, row: &Row) -> bool
    ensures { result ≡ has_coefficient n row.now }
{
    let n = u64::from(n);
    row.form
        .terms()
        .iter()
        .any(|term| term.1.unsigned_abs() == n)
}
