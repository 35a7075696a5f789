//! Linear forms over symbols, what items say of the symbols, and what follows from items: the
//! arithmetic of the checker.
#![tactic(auto)]

mod certificate;
mod combination;
mod divisor;
mod form;
mod item;
mod laws;
mod loose;
mod row;
mod weight;

pub use certificate::{Cert, Combo, Exact};
pub use combination::{MOST_PARTS, WIDTH, is_consequence, is_contradiction};
pub use divisor::Divisor;
pub use form::{Form, MOST_COEFFICIENT, MOST_CONSTANT, MOST_SYMBOLS, add, scale};
pub use item::{Facts, Item, is_row_fact};
pub use laws::derived_goals_hold;
pub use loose::LooseRow;
pub use row::Row;
