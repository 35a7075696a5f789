//! The least race of a log.

ghost use Rattle.std.specs.Prelude.{◌≡◌, MatchOption, IfOk, position};
ghost use Rattle.lq_log.specs.Race.{unordered as unordered_paths, meet as meet_at, races as are_a_race, IsRaceFree, IsLeastRace};

use crate::Entry;
use crate::forks::note;
use std::alloc::{AllocError, Global};
use std::collections::HashMap;

/// Whether two paths first differ at a branch.
fn unordered(path: &[u64], other: &[u64]) -> bool
    ensures { result ≡ unordered_paths path.now other.now }
{
    let mut at_branch = false;
    for (step, taken) in path.iter().zip(other) {
        if step != taken {
            return at_branch;
        }
        at_branch = !at_branch;
    }
    false
}

/// Whether two accesses are of one address.
fn meet(a: &Entry, b: &Entry) -> bool
    ensures { result ≡ meet_at a.now b.now }
{
    a.block == b.block && a.element == b.element && a.field == b.field
}

/// Whether two accesses race: they are unordered, of one address, and at least one is a store.
fn races(a: &Entry, b: &Entry) -> bool
    ensures { result ≡ are_a_race a.now b.now }
{
    unordered(a.path.as_slice(), b.path.as_slice()) && meet(a, b) && (a.write || b.write)
}

/// The number, from 0, of the first entry that races with this later one.
fn partner(log: &[Entry], later: &Entry) -> Option<usize>
    ensures { result ≡ position (λ earlier. are_a_race earlier later.now) log.now }
{
    log.iter().position(|earlier| races(earlier, later))
}

/// The least race: the numbers, from 0, of the two entries of the race whose second entry comes first, and of these of
/// the one whose first entry comes first; none exactly where the log has no race (docs/LANGUAGE.md, "Races"). An error
/// is want of memory. It looks once at each branch that an entry took, and only at the second entry of the race at the
/// entries before it.
pub fn first_race(alloc: Global, log: &[Entry]) -> Result<Option<(usize, usize)>, AllocError>
    ensures { IfOk result (λ found. MatchOption found (IsRaceFree log.now) (λ race. IsLeastRace log.now race.0 race.1)) }
{
    let mut forks = HashMap::new(alloc);
    for (j, later) in log.iter().enumerate() {
        if note(alloc, &mut forks, later)? {
            return Ok(partner(&log[..j], later).map(|i| (i, j)));
        }
    }
    Ok(None)
}
