//! What facts derive.

ghost use Rattle.std.specs.Prelude.{◌^◌, ◌<◌, IfOk, IfSome, IfNone, length, reverse};
ghost use Rattle.lq_linear.specs.Derivation.{Derives};
ghost use Rattle.lq_validity.specs.Order.{IsFirst};
ghost use Rattle.lq_validity.specs.Derives.{Gives, AreExacts};

use crate::index::GoalIndex;
use crate::mults::Mults;
use lq_linear::{Cert, Facts, Row};
use std::alloc::{AllocError, Global};
use std::slice;

/// The first combination of facts that gives the goal, with the first ones for the dividends that
/// aren't negative, or `None` exactly where the facts don't derive the goal (docs/CHECKING.md,
/// "Derivation").
pub fn derives(
    alloc: Global,
    facts: &Facts,
    goal: &Row,
    mults: &Mults,
) -> Result<Option<Cert>, AllocError>
    requires { length facts.now.items < 2 ^ 30 }
    ensures none { IfOk result (λ r. IfNone r (¬ Derives mults.now (reverse facts.now.items) goal.now)) }
    ensures goal { IfOk result (λ r. IfSome r
        (λ cert. IsFirst (Gives mults.now (reverse facts.now.items) goal.now) cert.goal)) }
    ensures exacts { IfOk result (λ r. IfSome r
        (λ cert. AreExacts mults.now (reverse facts.now.items) cert.exacts)) }
{
    GoalIndex::of(alloc, facts, slice::from_ref(goal), mults)?.find(goal)
}
