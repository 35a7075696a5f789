//! What follows from the definitions alone: each law is the contract of a function that does nothing.

ghost use Rattle.std.specs.Prelude.{◌≡◌, ℕ, ℤ, ◌≤◌, List, reverse};
ghost use Rattle.std.specs.List.{AllByRecursion};
ghost use Rattle.lq_linear.specs.Row.{Inequality, Meets};
ghost use Rattle.lq_linear.specs.Item.{MeetsItem};
ghost use Rattle.lq_linear.specs.Certificate.{Certificate};
ghost use Rattle.lq_linear.specs.declared.item.Item.{Item};
ghost use Rattle.lq_cert.specs.Right.{IsRightCertificate, IsNarrow};
ghost use Rattle.lq_linear.specs.Derivation.{Derives};
ghost use Rattle.lq_validity.specs.Mults.{IsMultipliers};
ghost use Rattle.lq_validity.specs.Order.{IsFirst};
ghost use Rattle.lq_validity.specs.Derives.{Gives, AreExacts};
ghost use Rattle.lq_text.specs.Numeral.{place_value};
ghost use Rattle.lq_cert.specs.Numeral.{numeral, IsNatural};
ghost use Rattle.lq_cert.specs.ProofFile.{AreLines, IsProofText, IsFirstBadLine};
ghost use Rattle.lq_cert.specs.Renewal.{renewed};
ghost use Rattle.lq_cert.specs.declared.line.Line.{Line};

/// Every valuation that meets the items meets each goal for which there is a right certificate.
pub fn certified_goals_hold()
    ensures { (v : ℕ → ℤ) (items : List Item) (goal : Inequality) (certificate : Certificate)
        → AllByRecursion (MeetsItem v) items → IsRightCertificate items goal certificate → Meets v goal }
{}

/// A right certificate whose combinations a search with these multipliers may find is a derivation.
pub fn narrow_certificates_derive()
    ensures { (multipliers : List ℕ) (items : List Item) (goal : Inequality) (certificate : Certificate)
        → IsRightCertificate items goal certificate → IsNarrow multipliers certificate.goal
        → AllByRecursion (λ entry. IsNarrow multipliers entry.combination) certificate.exacts
        → Derives multipliers (reverse items) goal }
{}

/// What the search finds is a right certificate: the premises say of `certificate` what `derives`
/// says of its answer.
pub fn found_certificates_are_right()
    ensures { (multipliers : List ℕ) (items : List Item) (goal : Inequality) (certificate : Certificate)
        → IsMultipliers multipliers
        → AreExacts multipliers (reverse items) certificate.exacts
        → IsFirst (Gives multipliers (reverse items) goal) certificate.goal
        → IsRightCertificate items goal certificate }
{}

/// A text is that of the lines of at most one proof, so what was written reads as what it was
/// written of.
pub fn proof_is_one()
    ensures { (text : List ℕ) (lines others : List Line) → IsProofText text lines → IsProofText text others → lines ≡ others }
{}

/// The text of a proof has no bad line, and no text has two first bad lines.
pub fn bad_line_is_one()
    ensures none { (text : List ℕ) (lines : List Line) (entry : ℕ)
        → IsProofText text lines → ¬ IsFirstBadLine text entry }
    ensures one { (text : List ℕ) (entry other : ℕ)
        → IsFirstBadLine text entry → IsFirstBadLine text other → entry ≡ other }
{}

/// The digits of a number from 1 are decimal, the first of them isn't 0, and they write the number;
/// and no other such digits do.
pub fn numerals_are_decimal()
    ensures decimal { (n : ℕ) → 1 ≤ n → IsNatural (numeral n) }
    ensures value { (n : ℕ) → place_value (numeral n) ≡ n }
    ensures only { (digits : List ℕ) → IsNatural digits → numeral (place_value digits) ≡ digits }
{}

/// The version 2 of a proof is one: where its lines were those of a proof file, they still are.
pub fn renewals_are_proofs()
    ensures { (lines : List Line) → AreLines lines → AreLines (renewed lines) }
{}

/// A renewal has nothing more to renew.
pub fn renewals_stay()
    ensures { (lines : List Line) → renewed (renewed lines) ≡ renewed lines }
{}
