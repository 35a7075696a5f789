//! Templates.

use lq_tree::{Name, Place};
use sqlite_items::Items;

/// Which number of a local, a field or a result a name stands for.
#[derive(Clone, Copy)]
pub enum NamePart {
    /// The value of an int.
    Value,
    /// The offset of a pointer in its block, in elements.
    Off,
    /// The length of a pointer's block, in elements.
    Len,
}

/// A number that the rows of a template may speak of.
#[derive(Drop)]
pub struct Named {
    /// A local, a field with `.` before it, `@`, or `result`.
    pub text: Name,
    pub part: NamePart,
    /// Whether the statement of a join or loop template changes it.
    pub changed: bool,
}

/// A scope: its number in the order of the source, from 0, and the place of its function or block.
#[derive(Clone, Copy)]
pub struct ScopeRef {
    pub scope: u32,
    pub at: Place,
}

/// What a template stands for (docs/CHECKING.md, "Templates"). Classes are numbered from 1, functions and
/// fields from 0.
#[derive(Clone, Copy)]
pub enum TemplateKind {
    /// Every record of a class that isn't open.
    Rec {
        class: u32,
    },
    /// The entry of a function.
    Pre {
        func: u32,
    },
    /// Each return of a function.
    Post {
        func: u32,
    },
    /// The end of an If.
    Join,
    /// The head of a While.
    Loop,
    /// Each access of one class, field and kind that a scope makes.
    Effect {
        scope: ScopeRef,
        class: u32,
        field: u32,
        write: bool,
    },
}

/// A place where rows may be remembered, and the numbers that they may speak of, in the order of the atoms of a
/// row (docs/CHECKING.md, "Templates"). Symbol k of its rows is name k, from 0.
#[derive(Drop)]
pub struct Template {
    pub kind: TemplateKind,
    pub names: Items<Named>,
}
