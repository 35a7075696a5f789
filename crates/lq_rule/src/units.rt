//! The rule of the table's words. Cell c is word c + 1, and word 0 holds no cell.
use crate::view::{Supply, View};
use atomic_table::TableRule;

/// The units of a cell over all views are at most all its units, and each view with a unit of a cell has the cell's word.
pub struct Units;

impl TableRule<(), View, Supply> for Units {
    ghost use Rattle.lq_rule.specs.Units.{IsKept, opening_view};

    ghost holds = { IsKept };

    ghost first = { opening_view };
}
