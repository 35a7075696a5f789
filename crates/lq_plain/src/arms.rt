//! The arms of an `if`, each in the second list of the one before.

ghost use Rattle.std.specs.Prelude.{◌≡◌, OnOk};
ghost use Rattle.lq_plain.specs.SeenArms.{closed};
ghost use Rattle.lq_plain.specs.SeenMade.{made_of};

use crate::made::Made;
use lq_tree::{Items, PExpr, PKind, PStmt, Place};
use std::alloc::AllocError;

/// An arm that is begun: its condition, what it guards, and the statements in front of it.
#[derive(Drop)]
pub struct Open {
    pub cond: PExpr,
    pub held: Items<PStmt>,
    pub outer: Items<PStmt>,
}

/// Ends the arms of an `if`, the last one first.
pub fn close_arms(at: Place, opens: Items<Open>, made: &mut Made) -> Result<(), AllocError>
    ensures { OnOk result (made_of made.new ≡ closed at opens (made_of made.old)) }
{
    let mut opens = opens;
    'arms: while let Some(open) = opens.pop() {
        let other = made.end(open.outer);
        made.stand(at, PKind::If(open.cond, open.held, other))?;
    }
    Ok(())
}
