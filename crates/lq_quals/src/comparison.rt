//! Comparisons.

ghost use Rattle.std.specs.Prelude.{◌≡◌, ◌++◌, ℕ, List, IfOk, MatchOption};
ghost use Rattle.lq_quals.specs.Reading.{Tells};
ghost use Rattle.lq_quals.specs.Comparison.{relation_text, is_reversed, is_strict, IsComparison, IsLongest};
ghost use Rattle.lq_quals.specs.declared.comparison.Relation.{Relation as RelationValue};

use crate::side::read_side;
use crate::split::before_relation;
use crate::term::Addend;
use sqlite_items::Items;
use std::alloc::{AllocError, Global};

// How two sides compare.
#[derive(Clone, Copy)]
pub(crate) enum Relation {
    AtMost,
    Less,
    AtLeast,
    More,
    Equal,
}

// The addends of one side less those of the other, in the order of the text, and how the sides
// compare.
#[derive(Drop)]
pub(crate) struct Comparison {
    pub(crate) relation: Relation,
    pub(crate) addends: Items<Addend>,
}

impl Relation {
    // Whether the right side is the one that is at most the other.
    fn is_reversed(self) -> bool
        ensures { result ≡ is_reversed self }
    {
        matches!(self, Relation::AtLeast | Relation::More)
    }

    // Whether the sides aren't equal.
    pub(crate) fn is_strict(self) -> bool
        ensures { result ≡ is_strict self }
    {
        matches!(self, Relation::Less | Relation::More)
    }
}

// The comparison that a text without blanks is.
pub(crate) fn read_comparison(alloc: Global, text: &[u8]) -> Result<Option<Comparison>, AllocError>
    ensures { IfOk result (Tells (IsComparison text.now)) }
{
    let (left, behind) = before_relation(text);
    let Some((relation, right)) = read_relation(behind) else {
        return Ok(None);
    };
    let is_reversed = relation.is_reversed();
    let Some(mut addends) = read_side(alloc, left, is_reversed)? else {
        return Ok(None);
    };
    let Some(later) = read_side(alloc, right, !is_reversed)? else {
        return Ok(None);
    };
    addends.append(later)?;
    Ok(Some(Comparison { relation, addends }))
}

// The longest relation at the front of a text, and what stands behind it.
fn read_relation(text: &[u8]) -> Option<(Relation, &[u8])>
    ensures { MatchOption result ((relation : RelationValue) (rest : List ℕ) → ¬ (text.now ≡ relation_text relation ++ rest))
        (λ r. IsLongest text.now r.0 r.1.now) }
{
    match text {
        [b'<', b'=', rest @ ..] => Some((Relation::AtMost, rest)),
        [b'<', rest @ ..] => Some((Relation::Less, rest)),
        [b'>', b'=', rest @ ..] => Some((Relation::AtLeast, rest)),
        [b'>', rest @ ..] => Some((Relation::More, rest)),
        [b'=', b'=', rest @ ..] => Some((Relation::Equal, rest)),
        _ => None,
    }
}
