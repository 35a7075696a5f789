//! Which functions make an access, themselves or by calls.

ghost use Rattle.std.specs.Prelude.{◌≡◌, ◌↔◌, IsTrue, length, map, IfOk};
ghost use Rattle.lq_templates.specs.Accesses as accesses;
ghost use Rattle.lq_templates.specs.Makers as spec;
ghost use Rattle.lq_templates.specs.Names.{marked};
ghost use Rattle.lq_templates.specs.Touches as touches;

use crate::Access;
use crate::names::is_marked;
use crate::touches::Touch;
use sqlite_items::Items;
use std::alloc::{AllocError, Global};

// An access, and for each function whether it makes it.
#[derive(Drop)]
pub(crate) struct Makers {
    pub(crate) access: Access,
    pub(crate) functions: Items<bool>,
}

// Whether two accesses are the same.
fn same_access(a: Access, b: Access) -> bool
    ensures { result ≡ accesses.same_access a b }
{
    a.class == b.class && (a.field == b.field && a.write == b.write)
}

// Whether the access is made, itself or by a call of a function that is marked.
fn touch_makes(touch: &Touch, access: Access, makers: &[bool]) -> bool
    ensures { result ≡ touches.touch_makes (marked makers.now) access touch.now }
{
    match touch {
        Touch::Assigns(_) => false,
        Touch::Makes(other) => same_access(access, *other),
        Touch::Calls(function) => is_marked(makers, *function as usize),
    }
}

// Whether what is done makes the access.
pub(crate) fn touches_make(done: &[Touch], access: Access, makers: &[bool]) -> bool
    ensures { result ≡ touches.touches_make (marked makers.now) access done.now }
{
    done.iter().any(|touch| touch_makes(touch, access, makers))
}

// Which functions make the access by what they do themselves, or by a call of one that is marked.
fn next_makers(
    alloc: Global,
    all: &[Items<Touch>],
    access: Access,
    makers: &[bool],
) -> Result<Items<bool>, AllocError>
    ensures { IfOk result (λ next. next ≡ spec.next_makers access all.now makers.now) }
{
    let mut next = Items::new(alloc);
    for done in all {
        next.push(touches_make(done.as_slice(), access, makers))?;
    }
    Ok(next)
}

// Whether the same functions are marked.
fn are_same(a: &[bool], b: &[bool]) -> bool
    ensures { IsTrue result ↔ (a.now ≡ b.now) }
{
    a == b
}

// Which functions make the access. Once a round adds none, no later one does.
fn makers_of(alloc: Global, all: &[Items<Touch>], access: Access) -> Result<Items<bool>, AllocError>
    ensures { IfOk result (λ functions. functions ≡ spec.round access all.now (length all.now)) }
{
    let mut makers = Items::new(alloc);
    for count in 0..all.len() {
        let next = next_makers(alloc, all, access, makers.as_slice())?;
        if are_same(next.as_slice(), makers.as_slice()) {
            return Ok(makers);
        }
        makers = next;
    }
    Ok(makers)
}

// Which functions make each of these accesses.
pub(crate) fn all_makers(
    alloc: Global,
    all: &[Items<Touch>],
    accesses: &[Access],
) -> Result<Items<Makers>, AllocError>
    ensures { IfOk result (λ makers. makers ≡ map (spec.makers_of all.now) accesses.now) }
{
    let mut makers = Items::new(alloc);
    for access in accesses {
        makers.push(Makers {
            access: *access,
            functions: makers_of(alloc, all, *access)?,
        })?;
    }
    Ok(makers)
}
