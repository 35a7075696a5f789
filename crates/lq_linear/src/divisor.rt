//! Divisors.

ghost use Rattle.std.specs.Prelude.{◌≡◌, ◌↔◌, ◌≤ℤ◌, pos, IsSome, IfSome};

/// What a form is divided by: from 1 to 65,536 (docs/CHECKING.md, "Forms and rows").
#[derive(Clone, Copy, Debug)]
pub struct Divisor {
    pub value: i64,
    pub ghost at_least: { pos 1 ≤ℤ value },
    pub ghost at_most: { value ≤ℤ pos 65536 },
}

impl Divisor {
    /// The divisor with this value, or `None` where it isn't from 1 to 65,536.
    pub fn of(value: i64) -> Option<Divisor>
        ensures value { IfSome result (λ d. d.value ≡ value) }
        ensures bounds { IsSome result ↔ ((pos 1 ≤ℤ value) × (value ≤ℤ pos 65536)) }
    {
        if 1 <= value && value <= 65_536 {
            Some(Divisor { value })
        } else {
            None
        }
    }
}
