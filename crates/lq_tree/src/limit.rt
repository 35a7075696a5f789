ghost use Rattle.std.specs.Prelude.{◌≡◌, ◌==◌, find};
ghost use Rattle.std.specs.Option.{option_copied};
ghost use Rattle.lq_tree.specs.Limit.{row_of};

use std::fmt;

/// A counted quantity that passes its number.
#[derive(Clone, Copy, Debug, PartialEq, Eq)]
pub struct Limit {
    /// Which quantity: its place, from 1, in the table of docs/COMMANDS.md, "Limits".
    pub which: u32,
    /// The largest count that was found.
    pub found: u64,
    /// The largest count that is allowed.
    pub allowed: u64,
}

/// A quantity that has a limit, in the order of the table of docs/COMMANDS.md, "Limits".
#[derive(Clone, Copy, Debug, PartialEq, Eq)]
pub enum Quantity {
    SourceBytes,
    QualifierBytes,
    InputBytes,
    PickBytes,
    ProofBytes,
    /// Brackets that are open at once.
    Brackets,
    /// Tokens in a row that are none of `;`, `{` and `}`.
    Stretch,
    Functions,
    InputNumbers,
    PickNumbers,
    Structs,
    /// Fields of one struct.
    Fields,
    /// Parameters, locals and indices that are in scope at once.
    Locals,
    /// Branches of one `cobegin`.
    Branches,
    /// Rows of one template.
    Instances,
    Conditions,
    /// Facts of one condition.
    Facts,
    /// Conditions of one `if`.
    Arms,
}

/// All quantities, in the order of the table.
const QUANTITIES: [Quantity; 18] = [
    Quantity::SourceBytes,
    Quantity::QualifierBytes,
    Quantity::InputBytes,
    Quantity::PickBytes,
    Quantity::ProofBytes,
    Quantity::Brackets,
    Quantity::Stretch,
    Quantity::Functions,
    Quantity::InputNumbers,
    Quantity::PickNumbers,
    Quantity::Structs,
    Quantity::Fields,
    Quantity::Locals,
    Quantity::Branches,
    Quantity::Instances,
    Quantity::Conditions,
    Quantity::Facts,
    Quantity::Arms,
];

// The first of these quantities with this number.
fn numbered_among(quantities: &[Quantity], which: u32) -> Option<&Quantity>
    ensures { option_copied result ≡ find (λ q. (row_of q).number == which) quantities.now }
{
    quantities
        .iter()
        .find(|quantity| quantity.number() == which)
}

impl Quantity {
    ghost use Rattle.lq_tree.specs.Limit as spec;

    /// The quantity with this number in the table, from 1.
    pub fn numbered(which: u32) -> Option<Quantity>
        ensures { result ≡ spec.numbered which }
    {
        numbered_among(&QUANTITIES, which).copied()
    }

    /// Its number in the table, from 1.
    pub fn number(self) -> u32
        ensures { result ≡ (spec.row_of self).number }
    {
        match self {
            Quantity::SourceBytes => 1,
            Quantity::QualifierBytes => 2,
            Quantity::InputBytes => 3,
            Quantity::PickBytes => 4,
            Quantity::ProofBytes => 5,
            Quantity::Brackets => 6,
            Quantity::Stretch => 7,
            Quantity::Functions => 8,
            Quantity::InputNumbers => 9,
            Quantity::PickNumbers => 10,
            Quantity::Structs => 11,
            Quantity::Fields => 12,
            Quantity::Locals => 13,
            Quantity::Branches => 14,
            Quantity::Instances => 15,
            Quantity::Conditions => 16,
            Quantity::Facts => 17,
            Quantity::Arms => 18,
        }
    }

    /// The largest count that is allowed.
    pub fn allowed(self) -> u64
        ensures { result ≡ (spec.row_of self).allowed }
    {
        match self {
            Quantity::SourceBytes => 262_144,
            Quantity::QualifierBytes => 65_536,
            Quantity::InputBytes | Quantity::PickBytes => 33_554_432,
            Quantity::ProofBytes => 67_108_864,
            Quantity::Brackets | Quantity::Structs | Quantity::Arms => 64,
            Quantity::Stretch | Quantity::Facts => 512,
            Quantity::Functions | Quantity::Instances => 256,
            Quantity::InputNumbers | Quantity::PickNumbers => 1_048_576,
            Quantity::Fields | Quantity::Branches => 16,
            Quantity::Locals => 32,
            Quantity::Conditions => 4_096,
        }
    }

    /// So much of it, told as what passes its limit.
    pub fn passed(self, found: u64) -> Limit
        ensures { result ≡ spec.passed self found }
    {
        Limit {
            which: self.number(),
            found,
            allowed: self.allowed(),
        }
    }

    /// Whether so much of it is allowed.
    pub fn check(self, found: u64) -> Result<(), Limit>
        ensures { result ≡ spec.checked self found }
    {
        if found > self.allowed() {
            return Err(self.passed(found));
        }
        Ok(())
    }
}

impl fmt::Display for Quantity {
    ghost use Rattle.std.specs.Prelude.{Some};
    ghost use Rattle.lq_tree.specs.Limit.{row_of};

    ghost output = { λ quantity. Some (row_of quantity).name };

    fn fmt<W: fmt::Write>(&self, f: &mut fmt::Formatter<W>) -> fmt::Result {
        let name = match self {
            Quantity::SourceBytes => "source bytes",
            Quantity::QualifierBytes => "qualifier bytes",
            Quantity::InputBytes => "input bytes",
            Quantity::PickBytes => "pick bytes",
            Quantity::ProofBytes => "proof bytes",
            Quantity::Brackets => "brackets",
            Quantity::Stretch => "stretch",
            Quantity::Functions => "functions",
            Quantity::InputNumbers => "input numbers",
            Quantity::PickNumbers => "pick numbers",
            Quantity::Structs => "structs",
            Quantity::Fields => "fields",
            Quantity::Locals => "locals",
            Quantity::Branches => "branches",
            Quantity::Instances => "instances",
            Quantity::Conditions => "conditions",
            Quantity::Facts => "facts",
            Quantity::Arms => "arms",
        };
        f.write_str(name)
    }
}
