//! The full assignment.

ghost use Rattle.std.specs.Prelude.{◌≡◌, ◌≤◌, List, IfOk, IfErr};
ghost use Rattle.lq_templates.specs.declared.condition.Condition.{Condition};
ghost use Rattle.lq_full.specs.Full as spec;
ghost use Rattle.lq_full.specs.Faults.{HasFewRows, Tells};

use crate::ConditionsFault;
use crate::counting::most_facts;
use lq_instances::instances;
use lq_quals::Quals;
use lq_templates::{Assign, Conditions, Template};
use lq_tree::Quantity;
use sqlite_items::Items;
use std::alloc::Global;

/// The full assignment: each template has all its instances (docs/CHECKING.md, "Verdict"). More than 256 of one template
/// are refused first, and told as 257. Then more than 512 facts of one condition, with or without goals, are: what is told
/// is the most that one has. A division or a remainder counts three, and a row that passes the bounds of rows doesn't count
/// (docs/COMMANDS.md, "Limits").
pub fn full(alloc: Global, c: &Conditions, quals: &Quals) -> Result<Assign, ConditionsFault>
    ensures rows { IfOk result (λ assign. assign ≡ spec.full quals.now c.now.templates) }
    ensures few_instances { IfOk result (λ assign. HasFewRows assign) }
    ensures few_facts { IfOk result (λ assign. spec.most_facts assign c.now.list ≤ 512) }
    ensures fault { IfErr result (λ fault. Tells fault (spec.full quals.now c.now.templates) c.now.list) }
{
    let assign = all_instances(alloc, c.templates.as_slice(), quals)?;
    let most = most_facts(alloc, c.list.as_slice(), &assign)?;
    Quantity::Facts.check(most)?;
    Ok(assign)
}

// All instances of each template.
fn all_instances(
    alloc: Global,
    templates: &[Template],
    quals: &Quals,
) -> Result<Assign, ConditionsFault>
    ensures rows { IfOk result (λ assign. assign ≡ spec.full quals.now templates.now) }
    ensures few { IfOk result (λ assign. HasFewRows assign) }
    ensures fault { (list : List Condition) → IfErr result (λ fault. Tells fault (spec.full quals.now templates.now) list) }
{
    let mut rows = Items::new(alloc);
    for template in templates {
        rows.push(instances(alloc, template, quals)?)?;
    }
    Ok(Assign { rows })
}
