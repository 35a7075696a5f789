//! Certificates: combinations that were found, written down.

use sqlite_items::Items;
use std::marker::Model;

/// A combination of facts. Contracts see the three parts.
#[derive(Debug, Drop)]
pub struct Combo {
    /// Whether the facts contradict each other; then the divisor is 1.
    pub void: bool,
    /// What the sum of the multiples is divided by.
    pub divisor: u32,
    /// The multiplier and the number of each fact, from 1.
    pub parts: Items<(u32, u32)>,
}

impl Model for Combo {
    ghost use Rattle.std.specs.Prelude.{◌≡◌, IsTrue};
    ghost use Rattle.lq_linear.specs.Derivation.{Combination};

    ghost Value = { Combination };

    ghost view = { λ c. record { void = c.void; divisor = c.divisor; parts = c.parts } };

    ghost invariant = { λ c. IsTrue c.void → c.divisor ≡ 1 };
}

/// Says that the dividend of a division or remainder isn't negative.
#[derive(Debug, Drop)]
pub struct Exact {
    /// The number of the item among the divisions and remainders, from 1.
    pub item: u32,
    /// What shows it, which is no contradiction.
    pub combo: Combo,
}

impl Model for Exact {
    ghost use Rattle.lq_linear.specs.Certificate.{Exactness, IsDirect};

    ghost Value = { Exactness };

    ghost view = { λ e. record { item = e.item; combination = e.combo } };

    ghost invariant = { λ e. IsDirect e.combo };
}

/// What shows that facts derive a goal: the dividends that aren't negative, and the combination for
/// the goal (docs/PROOF-FILE.md, "Lines").
#[derive(Debug, Drop)]
pub struct Cert {
    pub exacts: Items<Exact>,
    pub goal: Combo,
}

impl Model for Cert {
    ghost use Rattle.lq_linear.specs.Certificate.{Certificate};

    ghost Value = { Certificate };

    ghost view = { λ c. record { exacts = c.exacts; goal = c.goal } };
}
