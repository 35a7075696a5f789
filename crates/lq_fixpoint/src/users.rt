//! Which conditions stand on a template.

ghost use Rattle.std.specs.Prelude.{◌≡◌, [], length, replicate, IfOk, OnOk};
ghost use Rattle.lq_fixpoint.specs.Users.{AreUsers, with_user, with_users};

use lq_templates::{Condition, Given};
use sqlite_items::Items;
use std::alloc::{AllocError, Global};

/// For each of so many templates, in their order, the numbers of the conditions among whose facts it is.
pub(crate) fn users_of(
    alloc: Global,
    list: &[Condition],
    templates: usize,
) -> Result<Vec<Items<usize>>, AllocError>
    ensures count { IfOk result (λ users. length users.items ≡ templates) }
    ensures users { IfOk result (λ users. AreUsers list.now users.items) }
{
    let mut users = no_users(alloc, templates)?;
    for (number, c) in list.iter().enumerate() {
        add_users(c, number, &mut users)?;
    }
    Ok(users)
}

// No numbers for each of so many templates.
fn no_users(alloc: Global, templates: usize) -> Result<Vec<Items<usize>>, AllocError>
    ensures { IfOk result (λ users. users.items ≡ replicate templates []) }
{
    let mut users = Vec::new(alloc);
    for _ in 0..templates {
        users.push(Items::new(alloc))?;
    }
    Ok(users)
}

// Puts the number of a condition down at each template among its facts.
fn add_users(c: &Condition, number: usize, users: &mut [Items<usize>]) -> Result<(), AllocError>
    ensures { OnOk result (users.new ≡ with_users number users.old c.now.facts) }
{
    for given in c.facts.iter() {
        add_user(given, number, users)?;
    }
    Ok(())
}

// Puts the number of a condition down at the template of one of its facts.
fn add_user(given: &Given, number: usize, users: &mut [Items<usize>]) -> Result<(), AllocError>
    ensures { OnOk result (users.new ≡ with_user number users.old given.now) }
{
    let Given::Of { template, .. } = given else {
        return Ok(());
    };
    let place = template.saturating_sub(1) as usize;
    if place < users.len() {
        users[place].push(number)?;
    }
    Ok(())
}
