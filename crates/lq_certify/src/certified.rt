//! Certificates for the goals of conditions under an assignment.

ghost use Rattle.std.specs.Prelude.{◌≡◌, IfOk, IfErr, MatchOption, Contains, reverse};
ghost use Rattle.std.specs.List.{AllZip, AllByRecursion};
ghost use Rattle.lq_linear.specs.Row.{Inequality};
ghost use Rattle.lq_linear.specs.Derivation.{Derives};
ghost use Rattle.lq_templates.specs.Conditions.{IsMet};
ghost use Rattle.lq_certify.specs.Certified.{IsFound, IsCertified, TellsUnmet};

use lq_fixpoint::{facts_under, goals_under};
use lq_linear::{Cert, Row};
use lq_templates::{Assign, Condition, Rule, Site};
use lq_validity::{GoalIndex, Mults};
use sqlite_items::Items;
use std::alloc::{AllocError, Global};

/// Why conditions have no certificates.
#[derive(Clone, Copy)]
pub enum Failure {
    /// Where and by which rule the first condition comes that has a goal which isn't derived.
    Unmet(Site, Rule),
    NoMemory,
}

impl From<AllocError> for Failure {
    ghost use Rattle.std.specs.Prelude.{◌≡◌};
    ghost use Rattle.lq_certify.specs.declared.certified.Failure.TheVariants.{NoMemory};

    ghost from_gives = { λ _ failure. failure ≡ NoMemory };

    fn from(_failed: AllocError) -> Failure {
        Failure::NoMemory
    }
}

/// Certificates for the goals of each condition, or the first condition that isn't met (docs/CHECKING.md, "Verdict").
pub fn certify_all(
    alloc: Global,
    list: &[Condition],
    assign: &Assign,
    mults: &Mults,
) -> Result<Items<Items<Cert>>, Failure>
    ensures certified { IfOk result (λ all. AllZip (IsCertified mults.now assign.now) list.now all) }
    ensures failure { IfErr result (λ failure. TellsUnmet mults.now assign.now list.now failure) }
{
    let mut all = Items::new(alloc);
    for c in list {
        match certify(alloc, c, assign, mults)? {
            Some(certs) => all.push(certs)?,
            None => return Err(Failure::Unmet(c.site, c.rule)),
        }
    }
    Ok(all)
}

// Certificates for the goals of a condition, or `None` where one of them isn't derived.
fn certify(
    alloc: Global,
    c: &Condition,
    assign: &Assign,
    mults: &Mults,
) -> Result<Option<Items<Cert>>, AllocError>
    ensures { IfOk result (λ found. MatchOption found (¬ IsMet mults.now assign.now c.now) (IsCertified mults.now assign.now c.now)) }
{
    let Some(goals) = goals_under(alloc, c, assign)? else {
        return Ok(None);
    };
    let facts = facts_under(alloc, c, assign)?;
    let index = GoalIndex::of(alloc, &facts, goals.as_slice(), mults)?;
    certificates(alloc, &index, goals.as_slice())
}

// Certificates for these of the goals of an index, or `None` where one of them isn't derived.
fn certificates(
    alloc: Global,
    index: &GoalIndex<'_>,
    goals: &[Row],
) -> Result<Option<Items<Cert>>, AllocError>
    requires { (goal : Inequality) → Contains goals.now goal → Contains index.now.goals goal }
    ensures { IfOk result (λ found. MatchOption found
        (¬ AllByRecursion (Derives index.now.multipliers (reverse index.now.items)) goals.now)
        (AllZip (IsFound index.now.multipliers (reverse index.now.items)) goals.now)) }
{
    let mut certs = Items::new(alloc);
    let mut rest = goals;
    while let Some((goal, later)) = rest.split_first() {
        let Some(cert) = index.find(goal)? else {
            return Ok(None);
        };
        certs.push(cert)?;
        rest = later;
    }
    Ok(Some(certs))
}
