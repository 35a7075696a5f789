//! Natural numbers of any size.

ghost use Rattle.std.specs.Prelude.{◌≡◌, ◌↔◌, ◌≤◌, ◌<◌, ◌^◌, IsTrue, IfOk};
ghost use Rattle.std.specs.Option.{SomeIff};
ghost use Rattle.lq_text.specs.Reads.{Reads};
ghost use Rattle.lq_cert.specs.Numeral.{numeral, IsNatural};

use crate::copy::Copied;
use lq_text::read_number;
use std::alloc::{AllocError, Global};
use std::marker::Model;

/// A natural number from 1 of any size, kept as its decimal digits. Contracts see the number.
#[derive(Debug, Drop)]
pub struct Numeral {
    digits: Vec<u8>,
}

impl Model for Numeral {
    ghost use Rattle.std.specs.Prelude.{ℕ};
    ghost use Rattle.lq_text.specs.Numeral.{place_value};
    ghost use Rattle.lq_cert.specs.Numeral.{IsNatural};

    ghost Value = { ℕ };

    ghost view = { λ n. place_value n.digits.items };

    ghost invariant = { λ n. IsNatural n.digits.items };
}

impl Numeral {
    /// The number that a text is, or `None` where the text is no decimal number from 1 without
    /// needless zeros (docs/PROOF-FILE.md, "Lines").
    pub fn read(alloc: Global, text: &[u8]) -> Result<Option<Numeral>, AllocError>
        ensures { IfOk result (Reads (λ n. 1 ≤ n) numeral text.now) }
    {
        if !is_natural(text) {
            return Ok(None);
        }
        let digits = Vec::from_slice(alloc, text)?;
        Ok(Some(Numeral { digits }))
    }

    /// The number as a numeral.
    pub fn of(alloc: Global, number: u32) -> Result<Numeral, AllocError>
        requires { 1 ≤ number }
        ensures { IfOk result (λ n. n ≡ number) }
    {
        let text = number.to_string(alloc)?;
        let digits = Vec::from_slice(alloc, text.as_bytes())?;
        Ok(Numeral { digits })
    }

    /// The decimal digits of the number, without needless zeros.
    pub fn as_bytes(&self) -> &[u8]
        ensures digits { result.now ≡ numeral self.now }
        ensures positive { 1 ≤ self.now }
    {
        self.digits.as_slice()
    }

    /// The number, or `None` where it is 2^32 or more.
    pub fn to_u32(&self) -> Option<u32>
        ensures { SomeIff result (self.now < 2 ^ 32) self.now }
    {
        let number = read_number(self.digits.as_slice())?;
        u32::try_from(number).ok()
    }
}

impl Copied for Numeral {
    fn copy(&self, alloc: Global) -> Result<Numeral, AllocError> {
        let digits = Vec::from_slice(alloc, self.digits.as_slice())?;
        Ok(Numeral { digits })
    }
}

// Whether a text is a decimal number from 1 without needless zeros.
pub(crate) fn is_natural(text: &[u8]) -> bool
    ensures { IsTrue result ↔ IsNatural text.now }
{
    match text.first() {
        None | Some(b'0') => false,
        Some(_) => text.iter().all(|byte| byte.is_ascii_digit()),
    }
}
