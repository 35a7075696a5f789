//! What has been made of a function so far: its slots, and the statements of the list at hand.

ghost use Rattle.std.specs.Prelude.{◌≡◌, length, [], IfOk, OnOk};
ghost use Rattle.lq_tree.specs.Seen.{seen};
ghost use Rattle.lq_plain.specs.Flat as spec;
ghost use Rattle.lq_plain.specs.SeenMade.{made_of};

use crate::copies::copy_base;
use crate::lookups::numbered;
use lq_tree::{Base, CType, ExprType, Items, Name, PKind, PStmt, Place, Slot};
use std::alloc::{AllocError, Global};
use std::mem;

/// The slots made so far, and the statements that stand in front.
#[derive(Drop)]
pub struct Made {
    pub slots: Items<Slot>,
    pub front: Items<PStmt>,
}

/// The type of an int.
pub fn int_type() -> CType
    ensures { result ≡ spec.int_type }
{
    CType {
        base: Base::Int,
        stars: 0,
    }
}

/// The type of a slot for a value of this type. A type of a source has few stars.
pub fn slot_type(alloc: Global, kind: ExprType<'_>) -> Result<CType, AllocError>
    ensures { IfOk result (λ type. type ≡ spec.slot_type (seen kind.entry)) }
{
    match kind {
        ExprType::Pointer(base, more) => Ok(CType {
            base: copy_base(alloc, base)?,
            stars: more.checked_add(1).ok_or(AllocError)?,
        }),
        _ => Ok(int_type()),
    }
}

impl Made {
    /// Puts a statement behind the others.
    pub fn stand(&mut self, at: Place, kind: PKind) -> Result<(), AllocError>
        ensures { OnOk result (made_of self.new ≡ spec.then_stands at kind (made_of self.old)) }
    {
        self.front.push(PStmt { at, kind })
    }

    /// Makes one slot more, and gives its number.
    pub fn add_slot(&mut self, name: Option<Name>, ctype: CType) -> Result<u32, AllocError>
        ensures number { IfOk result (λ to. to ≡ length self.old.slots) }
        ensures made { OnOk result (made_of self.new ≡ spec.with_slot name ctype (made_of self.old)) }
    {
        let to = numbered(self.slots.len())?;
        self.slots.push(Slot { name, ctype })?;
        Ok(to)
    }

    /// Begins a list of statements of its own, and gives the one so far.
    pub fn begin(&mut self, alloc: Global) -> Items<PStmt>
        ensures outer { result ≡ self.old.front }
        ensures made { made_of self.new ≡ record { slots = self.old.slots; front = [] } }
    {
        mem::replace(&mut self.front, Items::new(alloc))
    }

    /// Ends a list of statements, which it gives, and goes on with the one before.
    pub fn end(&mut self, outer: Items<PStmt>) -> Items<PStmt>
        ensures inner { result ≡ self.old.front }
        ensures made { made_of self.new ≡ record { slots = self.old.slots; front = outer } }
    {
        mem::replace(&mut self.front, outer)
    }
}
