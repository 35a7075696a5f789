//! What follows from the definitions alone: each law is the contract of a function that does nothing.

ghost use Rattle.std.specs.Prelude.{◌≡◌, ◌≢◌, ℕ, ◌^◌, ◌<◌, List, ℤ, pos};
ghost use Rattle.std.specs.List.{AllPairs};
ghost use Rattle.lq_text.specs.Atom.{IsAtom, atom_text};
ghost use Rattle.lq_text.specs.declared.atom.Atom.{Atom};
ghost use Rattle.lq_text.specs.Literal.{IsLiteral};
ghost use Rattle.lq_text.specs.Numeral.{IsWord, IsNumeral, IsShort, place_value, decimal_of};
ghost use Rattle.lq_text.specs.Order.{AreInOrder};
ghost use Rattle.lq_text.specs.Numbers.{IsNumbersFile, IsFirstBadLine};

/// A text is the numeral of at most one number.
pub fn one_value()
    ensures { (text : List ℕ) (y z : ℤ) → IsNumeral text y → IsNumeral text z → y ≡ z }
{}

/// The decimal text of a word is a numeral of it without needless zeros, and no other text is.
/// So reading what was appended for a number gives the number.
pub fn decimal_texts()
    ensures numeral { (z : ℤ) → IsWord z → IsNumeral (decimal_of z) z }
    ensures short { (z : ℤ) → IsWord z → IsShort (decimal_of z) }
    ensures only { (text : List ℕ) (z : ℤ) → IsNumeral text z → IsShort text → text ≡ decimal_of z }
{}

/// The decimal text of a number from 0 to 2^63-1 is a literal, and no other text is a literal of this
/// value. So reading what was written for such a number gives the number.
pub fn literal_texts()
    ensures literal { (n : ℕ) → n < 2 ^ 63 → IsLiteral (decimal_of (pos n)) }
    ensures only { (text : List ℕ) → IsLiteral text → text ≡ decimal_of (pos (place_value text)) }
{}

/// A text is a file of at most one list of numbers.
pub fn one_list()
    ensures { (least : ℤ) (text : List ℕ) (xs ys : List ℤ)
        → IsNumbersFile least text xs → IsNumbersFile least text ys → xs ≡ ys }
{}

/// A file of numbers has no bad line, and no text has two first bad lines.
pub fn one_fault()
    ensures none { (least : ℤ) (text : List ℕ) (numbers : List ℤ) (line : ℕ)
        → IsNumbersFile least text numbers → ¬ IsFirstBadLine least text line }
    ensures one { (least : ℤ) (text : List ℕ) (m n : ℕ)
        → IsFirstBadLine least text m → IsFirstBadLine least text n → m ≡ n }
{}

/// A text is that of at most one atom, so what was written of an atom reads as the atom.
pub fn one_atom()
    ensures { (atom other : Atom) → IsAtom atom → IsAtom other → atom_text atom ≡ atom_text other → atom ≡ other }
{}

/// In the order of a row each atom stands once.
pub fn atoms_stand_once()
    ensures { (atoms : List Atom) → AreInOrder atoms → AllPairs (λ atom later. atom ≢ later) atoms }
{}
