//! What follows from the definitions alone: each law is the contract of a function that does nothing.

ghost use Rattle.std.specs.Prelude.{◌≡◌, ℕ, List, Some, slice_get};
ghost use Rattle.std.specs.List.{AllByRecursion};
ghost use Rattle.lq_text.specs.Atom.{IsAtom};
ghost use Rattle.lq_text.specs.declared.atom.Atom.{Atom};
ghost use Rattle.lq_quals.specs.Qualifier.{IsGoodRow, rows_of};
ghost use Rattle.lq_quals.specs.Quals.{IsQualsText, IsFirstBadLine};
ghost use Rattle.lq_quals.specs.declared.quals.Quals.{Quals};

/// A text is that of at most one list of qualifiers.
pub fn one_reading()
    ensures { (text : List ℕ) (quals others : Quals) → IsQualsText text quals → IsQualsText text others → quals ≡ others }
{}

/// The text of qualifiers has no bad line, and no text has two first bad lines.
pub fn one_bad_line()
    ensures none { (text : List ℕ) (quals : Quals) (line : ℕ) → IsQualsText text quals → ¬ IsFirstBadLine text line }
    ensures one { (text : List ℕ) (m n : ℕ) → IsFirstBadLine text m → IsFirstBadLine text n → m ≡ n }
{}

/// The rows of the qualifiers of a text are within the bounds of a row, each with an atom, and of atoms
/// that may stand in one line.
pub fn rows_are_bounded()
    ensures { (text : List ℕ) (quals : Quals) → IsQualsText text quals
        → AllByRecursion (λ each. AllByRecursion (IsGoodRow quals.atoms) (rows_of each)) quals.list }
{}

/// The names in the atoms of a text are names, and no atom has two numbers.
pub fn atoms_differ()
    ensures named { (text : List ℕ) (quals : Quals) (k : ℕ) (atom : Atom) → IsQualsText text quals → slice_get quals.atoms k ≡ Some atom → IsAtom atom }
    ensures once { (text : List ℕ) (quals : Quals) (i j : ℕ) (atom : Atom) → IsQualsText text quals
        → slice_get quals.atoms i ≡ Some atom → slice_get quals.atoms j ≡ Some atom → i ≡ j }
{}
