//! Lines of proof files copied.

ghost use Rattle.std.specs.Prelude.{◌≡◌, IfOk};

use crate::line::{Line, Part};
use lq_text::Term;
use sqlite_items::Items;
use std::alloc::{AllocError, Global};

// What can be copied where memory suffices.
pub(crate) trait Copied: Sized {
    fn copy(&self, alloc: Global) -> Result<Self, AllocError>
        ensures { IfOk result (λ copy. copy ≡ self.now) };
}

// Copies of the items.
pub(crate) fn copy_items<T: Copied + Drop>(
    alloc: Global,
    items: &[T],
) -> Result<Items<T>, AllocError>
    ensures { IfOk result (λ copies. copies ≡ items.now) }
{
    let mut copies = Items::new(alloc);
    for item in items {
        copies.push(item.copy(alloc)?)?;
    }
    Ok(copies)
}

impl Copied for Line {
    fn copy(&self, alloc: Global) -> Result<Line, AllocError> {
        match self {
            Line::Version(version) => Ok(Line::Version(*version)),
            Line::Row {
                template,
                terms,
                most,
            } => Ok(Line::Row {
                template: template.copy(alloc)?,
                terms: copy_items(alloc, terms.as_slice())?,
                most: *most,
            }),
            Line::Condition(number) => Ok(Line::Condition(number.copy(alloc)?)),
            Line::Exact {
                item,
                divisor,
                parts,
            } => Ok(Line::Exact {
                item: item.copy(alloc)?,
                divisor: *divisor,
                parts: copy_items(alloc, parts.as_slice())?,
            }),
            Line::Goal {
                goal,
                divisor,
                parts,
            } => Ok(Line::Goal {
                goal: goal.copy(alloc)?,
                divisor: *divisor,
                parts: copy_items(alloc, parts.as_slice())?,
            }),
            Line::Void { goal, parts } => Ok(Line::Void {
                goal: goal.copy(alloc)?,
                parts: copy_items(alloc, parts.as_slice())?,
            }),
            Line::End => Ok(Line::End),
        }
    }
}

impl Copied for Term {
    fn copy(&self, alloc: Global) -> Result<Term, AllocError> {
        Ok(Term {
            coefficient: self.coefficient,
            atom: self.atom.copy(alloc)?,
        })
    }
}

impl Copied for Part {
    fn copy(&self, alloc: Global) -> Result<Part, AllocError> {
        Ok(Part {
            multiplier: self.multiplier,
            fact: self.fact.copy(alloc)?,
        })
    }
}
