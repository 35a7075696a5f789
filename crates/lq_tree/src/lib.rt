//! The trees of a program: names, places, types, expressions, statements and functions as the grammar spells
//! them. Contracts see a list as the list of its items and a box as its value, so a tree is plain data.
#![tactic(auto)]

mod boxed;
mod expr;
mod laws;
mod limit;
mod lookup;
mod name;
mod place;
mod plain;
mod program;
mod scope;
mod step;
mod stmt;
mod trap;
mod types;

pub use boxed::Boxed;
pub use expr::{Base, BinOp, CType, Expr};
pub use laws::numbers_tell_quantities;
pub use limit::{Limit, Quantity};
pub use lookup::{field_of, function_of, same, struct_of};
pub use name::Name;
pub use place::{Place, place_of};
pub use plain::{Branch, PExpr, PFunc, PKind, PProgram, PStmt, Slot};
pub use program::{Func, Param, Program, StructDef};
pub use scope::{Variable, is_in_scope, type_in_scope};
pub use sqlite_items::Items;
pub use step::is_step;
pub use stmt::{Arm, Stmt, StmtKind};
pub use trap::TrapKind;
pub use types::{ExprType, declared, is_known, type_of};
