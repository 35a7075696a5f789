use crate::{CType, Name, Place, Stmt};
use sqlite_items::Items;

/// A parameter of a function, or a field of a struct.
#[derive(Drop)]
pub struct Param {
    pub ctype: CType,
    pub name: Name,
}

/// A struct and the place of its first byte.
#[derive(Drop)]
pub struct StructDef {
    pub at: Place,
    pub name: Name,
    pub fields: Items<Param>,
}

/// A function and the place of its first byte. The result is `None` for `void`.
#[derive(Drop)]
pub struct Func {
    pub at: Place,
    pub result: Option<CType>,
    pub name: Name,
    pub params: Items<Param>,
    pub body: Items<Stmt>,
}

/// A whole source: its structs and its functions, each in the order of the text.
#[derive(Drop)]
pub struct Program {
    pub structs: Items<StructDef>,
    pub funcs: Items<Func>,
}
