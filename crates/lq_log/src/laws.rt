//! What follows from the definitions alone: the law is the contract of a function that does nothing.

ghost use Rattle.std.specs.Prelude.{◌≡◌, ◌↔◌, ◌⊎◌, ℕ, true, List};
ghost use Rattle.lq_log.specs.Race.{unordered, IsOrdered, IsUnordered};

/// Two paths are unordered exactly where they first differ in a branch. Each two paths are ordered or unordered, and
/// never both, whichever of them is named first.
pub fn ordered_or_unordered()
    ensures unordered { (path other : List ℕ) → (unordered path other ≡ true) ↔ IsUnordered path other }
    ensures either { (path other : List ℕ) → IsOrdered path other ⊎ IsUnordered path other }
    ensures never_both { (path other : List ℕ) → IsOrdered path other → IsUnordered path other → ⊥ }
    ensures ordered_symmetric { (path other : List ℕ) → IsOrdered path other → IsOrdered other path }
    ensures unordered_symmetric { (path other : List ℕ) → IsUnordered path other → IsUnordered other path }
{}
