//! What was seen of the accesses so far, by which a later access is told to race.

ghost use Rattle.std.specs.Prelude.{◌≡◌, IfOk};
ghost use Rattle.lq_log.specs.Seen.{numbers_of, Adds, NotesAt, Notes};

use crate::Entry;
use std::alloc::{AllocError, Global};
use std::collections::HashMap;

/// What was seen of the accesses of one address in the branches of one fork, where no two of them race.
#[derive(Clone, Copy)]
pub(crate) enum Seen {
    /// All of them are in this branch; whether one of them is a store.
    InOneBranch { branch: u64, stored: bool },
    /// They are in several branches, and all of them are loads.
    LoadsInSeveral,
}

/// What was seen, by the address and the path up to the fork.
pub(crate) type Forks = HashMap<Vec<u64>, Seen>;

/// What is seen with one more access; none where it races with one that was seen.
fn with_access(seen: Option<Seen>, branch: u64, write: bool) -> Option<Seen>
    ensures { Adds seen branch write result }
{
    let Some(known) = seen else {
        return Some(Seen::InOneBranch {
            branch,
            stored: write,
        });
    };
    match known {
        Seen::InOneBranch {
            branch: only,
            stored,
        } => {
            if only == branch {
                Some(Seen::InOneBranch {
                    branch,
                    stored: stored || write,
                })
            } else if stored || write {
                None
            } else {
                Some(Seen::LoadsInSeveral)
            }
        }
        Seen::LoadsInSeveral => {
            if write {
                None
            } else {
                Some(Seen::LoadsInSeveral)
            }
        }
    }
}

/// Notes an access at one fork on its way; answers whether it races with one that was noted there.
fn note_at(
    alloc: Global,
    forks: &mut Forks,
    front: &[u64],
    branch: u64,
    write: bool,
) -> Result<bool, AllocError>
    ensures { IfOk result (λ raced. NotesAt front.now branch write forks.old forks.new raced) }
{
    let Some(seen) = with_access(forks.get(front).copied(), branch, write) else {
        return Ok(true);
    };
    forks.insert(Vec::from_slice(alloc, front)?, seen)?;
    Ok(false)
}

/// The numbers of an access: those of its address, and behind them its path.
fn numbers(alloc: Global, entry: &Entry) -> Result<Vec<u64>, AllocError>
    ensures { IfOk result (λ numbers. numbers.items ≡ numbers_of entry.now) }
{
    let address = [entry.block, entry.element, entry.field].map(u64::from);
    let mut numbers = Vec::from_array(alloc, address)?;
    numbers.extend_from_slice(entry.path.as_slice())?;
    Ok(numbers)
}

/// Notes an access at each fork on its way; answers whether it races with one that was noted before.
pub(crate) fn note(alloc: Global, forks: &mut Forks, entry: &Entry) -> Result<bool, AllocError>
    ensures { IfOk result (λ raced. Notes entry.now forks.old forks.new raced) }
{
    let numbers = numbers(alloc, entry)?;
    for fork in 0..entry.path.as_slice().len() / 2 {
        // Before the branch stand the address, two numbers for each earlier branch, and the forks passed since.
        let at = 3 + 2 * fork + 1;
        if note_at(alloc, forks, &numbers[..at], numbers[at], entry.write)? {
            return Ok(true);
        }
    }
    Ok(false)
}
