//! Indexes of the sums of facts.

ghost use Rattle.std.specs.Prelude.{◌≡◌, ◌+◌, ◌^◌, ◌<◌, false, IfOk, IfSome, IfNone, Contains, length, reverse};
ghost use Rattle.std.specs.List.{AllByRecursion};
ghost use Rattle.lq_linear.specs.Row.{Inequality, nothing};
ghost use Rattle.lq_linear.specs.Item.{rows, dividend_row};
ghost use Rattle.lq_linear.specs.Derivation.{Derives};
ghost use Rattle.lq_validity.specs.Mults.{IsMultipliers};
ghost use Rattle.lq_validity.specs.Order.{IsFirst};
ghost use Rattle.lq_validity.specs.Derives.{Gives, AreExacts};
ghost use Rattle.lq_validity.specs.Marks.{IsMarked};
ghost use Rattle.lq_validity.specs.Families.{WithFew, FindsFirst};
ghost use Rattle.lq_validity.specs.Spare.{LeavesFor};

use crate::known::{Known, known_of};
use crate::marks::either_marked;
use crate::mults::Mults;
use crate::narrow::{keep_consequences, keep_contradictions};
use crate::rows::{fetch_rows, sums_of};
use crate::search::Search;
use crate::spare::{all_left, leave_out, wanted_rows};
use crate::sum::Sum;
use lq_linear::{Cert, Combo, Exact, Facts, Item, LooseRow, Row, WIDTH};
use sqlite_items::Items;
use std::alloc::{AllocError, Global};
use std::marker::Model;

/// The parts of an index.
#[derive(Drop)]
struct Parts<'a> {
    alloc: Global,
    items: &'a [Item],
    multipliers: &'a [u32],
    rows: Vec<LooseRow<'a>>,
    sums: Vec<Sum>,
    known: Known,
    voids: Vec<bool>,
}

impl<'a> Parts<'a> {
    ghost use Rattle.lq_validity.specs.Index.{AreParts, ServeFor};

    /// The parts for these items, with their rows and marks on those that are left.
    fn of(
        alloc: Global,
        items: &'a [Item],
        multipliers: &'a [u32],
        fetched: Vec<LooseRow<'a>>,
        left: &[bool],
    ) -> Result<Parts<'a>, AllocError>
        requires few { length items.now < 2 ^ 30 }
        requires multipliers { IsMultipliers multipliers.now }
        requires fetched { fetched.items ≡ rows (reverse items.now) }
        requires dividends { AllByRecursion (λ item. LeavesFor fetched.items left.now (dividend_row item)) items.now }
        requires none { LeavesFor fetched.items left.now nothing }
        ensures items { IfOk result (λ parts. parts.items.now ≡ items.now) }
        ensures multipliers { IfOk result (λ parts. parts.multipliers.now ≡ multipliers.now) }
        ensures right { IfOk result AreParts }
        ensures serving { IfOk result (λ parts. (goal : Inequality) → LeavesFor fetched.entry.items left.now goal → ServeFor parts goal) }
    {
        let sums = sums_of(alloc, fetched.as_slice())?;
        let known = known_of(
            alloc,
            items,
            fetched.as_slice(),
            sums.as_slice(),
            left,
            multipliers,
        )?;
        let voids = keep_contradictions(
            alloc,
            fetched.as_slice(),
            &known.pool,
            known.left.as_slice(),
            multipliers,
        )?;
        Ok(Parts {
            alloc,
            items,
            multipliers,
            rows: fetched,
            sums,
            known,
            voids,
        })
    }

    /// The first combination of facts that gives the goal.
    fn first(&self, goal: &Row) -> Result<Option<Combo>, AllocError>
        requires right { AreParts self.now }
        requires serving { ServeFor self.now goal.now }
        ensures { IfOk result (FindsFirst (WithFew self.now.multipliers.now (IsMarked self.now.known.marks.items)
            (rows (reverse self.now.items.now)) goal.now false (WIDTH + 1))) }
    {
        let row = LooseRow::of(goal);
        let marks = self.known.left.as_slice();
        let search = Search {
            alloc: self.alloc,
            items: self.items,
            marks,
            multipliers: self.multipliers,
            direct: false,
            sums: self.sums.as_slice(),
            weight: row.weight(),
        };
        if let Some(combo) = search.first_alone(&row)? {
            return Ok(Some(combo));
        }
        let useful = keep_consequences(
            self.alloc,
            self.rows.as_slice(),
            &self.known.pool,
            marks,
            self.multipliers,
            &row,
            goal.form.terms(),
        )?;
        let both = either_marked(self.alloc, useful.as_slice(), self.voids.as_slice())?;
        Search {
            marks: both.as_slice(),
            ..search
        }
        .first(&row)
    }

    /// The first combination of facts that gives the goal, with the first ones for the dividends.
    fn find(&self, goal: &Row) -> Result<Option<Cert>, AllocError>
        requires right { AreParts self.now }
        requires serving { ServeFor self.now goal.now }
        ensures none { IfOk result (λ r. IfNone r (¬ Derives self.now.multipliers.now (reverse self.now.items.now) goal.now)) }
        ensures goal { IfOk result (λ r. IfSome r
            (λ cert. IsFirst (Gives self.now.multipliers.now (reverse self.now.items.now) goal.now) cert.goal)) }
        ensures exacts { IfOk result (λ r. IfSome r
            (λ cert. AreExacts self.now.multipliers.now (reverse self.now.items.now) cert.exacts)) }
    {
        match self.first(goal)? {
            None => Ok(None),
            Some(combo) => Ok(Some(Cert {
                exacts: copy_exacts(self.alloc, self.known.exacts.as_slice())?,
                goal: combo,
            })),
        }
    }
}

/// The sums of at most two facts by what their forms weigh: a look-up for goals. A combination of
/// four facts is two sums that it holds. Contracts see the items and the multipliers.
#[derive(Drop)]
pub struct Index<'a> {
    parts: Parts<'a>,
}

impl<'a> Model for Index<'a> {
    ghost use Rattle.lq_linear.specs.Row.{Inequality};
    ghost use Rattle.lq_validity.specs.Index.{Indexed, AreParts, ServeFor};

    ghost Value = { Indexed };

    ghost view = { λ i. record { items = i.parts.items.now; multipliers = i.parts.multipliers.now } };

    ghost invariant = { λ i. AreParts i.parts × ((goal : Inequality) → ServeFor i.parts goal) };
}

impl<'a> Index<'a> {
    /// The index of the facts.
    pub fn of(alloc: Global, facts: &'a Facts, mults: &'a Mults) -> Result<Index<'a>, AllocError>
        requires { length facts.now.items < 2 ^ 30 }
        ensures { IfOk result (λ index. index ≡ record { items = facts.now.items; multipliers = mults.now }) }
    {
        let items = facts.items.as_slice();
        let rows = fetch_rows(alloc, items)?;
        let left = all_left(alloc, rows.as_slice())?;
        let parts = Parts::of(alloc, items, mults.numbers(), rows, left.as_slice())?;
        Ok(Index { parts })
    }

    /// The first combination of facts that gives the goal, with the first ones for the dividends
    /// that aren't negative, or `None` exactly where the facts don't derive the goal
    /// (docs/CHECKING.md, "Derivation").
    ///
    /// The order comes out right because the search still goes through all combinations in the
    /// stated order: the index only tells which facts can't take part in any, and these are left
    /// out. So a combination that the index sees early is never answered before its turn.
    pub fn find(&self, goal: &Row) -> Result<Option<Cert>, AllocError>
        ensures none { IfOk result (λ r. IfNone r (¬ Derives self.now.multipliers (reverse self.now.items) goal.now)) }
        ensures goal { IfOk result (λ r. IfSome r
            (λ cert. IsFirst (Gives self.now.multipliers (reverse self.now.items) goal.now) cert.goal)) }
        ensures exacts { IfOk result (λ r. IfSome r
            (λ cert. AreExacts self.now.multipliers (reverse self.now.items) cert.exacts)) }
    {
        self.parts.find(goal)
    }
}

/// An index for some goals: facts that none of them can use are left out of it from the start.
/// Contracts see the items, the multipliers and the goals.
#[derive(Drop)]
pub struct GoalIndex<'a> {
    parts: Parts<'a>,
    goals: &'a [Row],
}

impl<'a> Model for GoalIndex<'a> {
    ghost use Rattle.std.specs.Prelude.{Contains};
    ghost use Rattle.lq_linear.specs.Row.{Inequality};
    ghost use Rattle.lq_validity.specs.Index.{GoalIndexed, AreParts, ServeFor};

    ghost Value = { GoalIndexed };

    ghost view = { λ i. record { items = i.parts.items.now; multipliers = i.parts.multipliers.now; goals = i.goals.now } };

    ghost invariant = { λ i. AreParts i.parts × ((goal : Inequality) → Contains i.goals.now goal → ServeFor i.parts goal) };
}

impl<'a> GoalIndex<'a> {
    /// The index of the facts for these goals.
    ///
    /// A fact is left out where it has a symbol that no other fact that is left has with the other
    /// sign, and that no goal and no row that says that a dividend isn't negative has with the same
    /// sign: such a symbol can't cancel. This is done again and again. The numbers of the facts
    /// stay.
    pub fn of(
        alloc: Global,
        facts: &'a Facts,
        goals: &'a [Row],
        mults: &'a Mults,
    ) -> Result<GoalIndex<'a>, AllocError>
        requires { length facts.now.items < 2 ^ 30 }
        ensures { IfOk result (λ index. index ≡ record { items = facts.now.items; multipliers = mults.now; goals = goals.now }) }
    {
        let items = facts.items.as_slice();
        let rows = fetch_rows(alloc, items)?;
        let wanted = wanted_rows(alloc, items, goals)?;
        let left = leave_out(alloc, items, rows.as_slice(), wanted.as_slice())?;
        let parts = Parts::of(alloc, items, mults.numbers(), rows, left.as_slice())?;
        Ok(GoalIndex { parts, goals })
    }

    /// What `Index::find` finds, for one of the goals.
    pub fn find(&self, goal: &Row) -> Result<Option<Cert>, AllocError>
        requires { Contains self.now.goals goal.now }
        ensures none { IfOk result (λ r. IfNone r (¬ Derives self.now.multipliers (reverse self.now.items) goal.now)) }
        ensures goal { IfOk result (λ r. IfSome r
            (λ cert. IsFirst (Gives self.now.multipliers (reverse self.now.items) goal.now) cert.goal)) }
        ensures exacts { IfOk result (λ r. IfSome r
            (λ cert. AreExacts self.now.multipliers (reverse self.now.items) cert.exacts)) }
    {
        self.parts.find(goal)
    }
}

/// The entries once more.
fn copy_exacts(alloc: Global, exacts: &[Exact]) -> Result<Items<Exact>, AllocError>
    ensures { IfOk result (λ copied. copied ≡ exacts.now) }
{
    let mut copied = Items::new(alloc);
    for exact in exacts {
        copied.push(Exact {
            item: exact.item,
            combo: copy_combo(alloc, &exact.combo)?,
        })?;
    }
    Ok(copied)
}

/// The combination once more.
fn copy_combo(alloc: Global, combo: &Combo) -> Result<Combo, AllocError>
    ensures { IfOk result (λ copied. copied ≡ combo.now) }
{
    Ok(Combo {
        void: combo.void,
        divisor: combo.divisor,
        parts: Items::from_slice(alloc, combo.parts.as_slice())?,
    })
}
