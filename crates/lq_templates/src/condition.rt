//! Conditions: what the checker asks of the rows of templates.

use crate::Template;
use lq_chain::Chain;
use lq_linear::{Form, Item, Row};
use lq_tree::Place;
use sqlite_items::Items;

/// A fact or a goal of a condition.
#[derive(Drop)]
pub enum Given {
    /// An item that stands whatever rows are remembered. As a goal it is one row that holds.
    Fixed(Item),
    /// The rows of the template with this number, from 1, and the form of each of its names.
    Of { template: u32, values: Items<Form> },
}

/// The rule that gives a condition (docs/CHECKING.md, "Conditions").
#[derive(Clone, Copy)]
pub enum Rule {
    BoundsLow,
    BoundsHigh,
    Input,
    Fold,
    Join,
    LoopEntry,
    LoopAgain,
    Pre,
    Post,
    Effect,
    Pair,
}

/// Where a condition comes from. All behind `at` matters for a pair only: the places of its two scopes, the class
/// of its two templates, whether each is a write, and their fields.
#[derive(Clone, Copy)]
pub struct Site {
    pub at: Place,
    pub first: Place,
    pub second: Place,
    pub class: u32,
    pub kinds: (bool, bool),
    pub fields: (u32, u32),
}

/// From the facts each goal is to follow (docs/CHECKING.md, "Conditions"). Conditions that follow one another have the
/// front of their facts in common.
#[derive(Drop)]
pub struct Condition {
    pub facts: Chain<Given>,
    pub goals: Items<Given>,
    pub rule: Rule,
    pub site: Site,
}

/// The templates of a program and its conditions, in their order.
#[derive(Drop)]
pub struct Conditions {
    pub templates: Items<Template>,
    pub list: Items<Condition>,
}

/// The rows that each template remembers, some of its instances in their order (docs/CHECKING.md, "Instances").
#[derive(Drop)]
pub struct Assign {
    pub rows: Items<Items<Row>>,
}
