use lq_log::{Entry, Path, first_race};
use lq_tree::Place;
use std::alloc::{AllocError, Global};
use std::test::Fail;

/// A block, an element and a field.
type Address = (u32, u32, u32);

/// The path, whether it is a store, and what is accessed.
type Access = (&'static [u64], bool, Address);

const LOAD: bool = false;

const STORE: bool = true;

const FIRST: Address = (1, 0, 0);

const SECOND: Address = (1, 1, 0);

const OTHER_FIELD: Address = (1, 0, 1);

const OTHER_BLOCK: Address = (2, 0, 0);

fn entry_of(
    alloc: Global,
    path: &[u64],
    write: bool,
    (block, element, field): Address,
) -> Result<Entry, AllocError> {
    Ok(Entry {
        path: Path::from_slice(alloc, path)?,
        write,
        block,
        element,
        field,
        at: Place { line: 1, col: 1 },
    })
}

fn log_of(alloc: Global, accesses: &[Access]) -> Result<Vec<Entry>, AllocError> {
    let mut log = Vec::new(alloc);
    for (path, write, address) in accesses {
        log.push(entry_of(alloc, path, *write, *address)?)?;
    }
    Ok(log)
}

type Race = Option<(usize, usize)>;

/// What the log is about, its accesses, and its least race.
type Case = (&'static str, &'static [Access], Race);

fn race_in(alloc: Global, accesses: &[Access]) -> Result<Race, AllocError> {
    first_race(alloc, log_of(alloc, accesses)?.as_slice())
}

/// Logs with a race, each with the entries of its least one.
const RACES: [Case; 4] = [
    (
        "the lower half is one element too long",
        &[
            (&[0, 0, 0], STORE, FIRST),
            (&[0, 0, 0], STORE, SECOND),
            (&[0, 1, 0], STORE, SECOND),
            (&[1], LOAD, FIRST),
            (&[1], LOAD, SECOND),
        ],
        Some((1, 2)),
    ),
    (
        "the second entry that comes first",
        &[
            (&[0, 0, 0], STORE, FIRST),
            (&[0, 0, 0], STORE, SECOND),
            (&[0, 1, 0], STORE, SECOND),
            (&[0, 1, 0], STORE, FIRST),
        ],
        Some((1, 2)),
    ),
    (
        "the first entry that comes first",
        &[
            (&[0, 0, 0], LOAD, FIRST),
            (&[0, 0, 0], STORE, FIRST),
            (&[0, 1, 0], STORE, FIRST),
        ],
        Some((0, 2)),
    ),
    (
        "a branch of a fork within a branch",
        &[(&[0, 0, 0, 1, 0], STORE, FIRST), (&[0, 1, 0], LOAD, FIRST)],
        Some((0, 1)),
    ),
];

#[test]
fn tells_the_least_race(rt: HostRuntime) -> Result<(), Fail> {
    for (name, accesses, want) in RACES {
        assert_eq!(rt; race_in(rt.alloc(), accesses)?, want, "{name}");
    }
    Ok(())
}

/// Logs without a race.
const NO_RACES: [Case; 7] = [
    ("no entry", &[], None),
    (
        "each half for itself",
        &[
            (&[0, 0, 0], STORE, FIRST),
            (&[0, 1, 0], STORE, SECOND),
            (&[1], LOAD, FIRST),
            (&[1], LOAD, SECOND),
        ],
        None,
    ),
    (
        "two loads",
        &[(&[0, 0, 0], LOAD, FIRST), (&[0, 1, 0], LOAD, FIRST)],
        None,
    ),
    (
        "behind the fork",
        &[(&[0, 0, 0], STORE, FIRST), (&[1], STORE, FIRST)],
        None,
    ),
    (
        "a branch of a later fork",
        &[(&[0, 0, 0], STORE, FIRST), (&[1, 1, 0], STORE, FIRST)],
        None,
    ),
    (
        "behind a fork within the branch",
        &[(&[0, 0, 0, 1, 0], STORE, FIRST), (&[0, 0, 1], STORE, FIRST)],
        None,
    ),
    (
        "another field, another block",
        &[
            (&[0, 0, 0], STORE, FIRST),
            (&[0, 1, 0], STORE, OTHER_FIELD),
            (&[0, 2, 0], STORE, OTHER_BLOCK),
        ],
        None,
    ),
];

#[test]
fn tells_no_race(rt: HostRuntime) -> Result<(), Fail> {
    for (name, accesses, want) in NO_RACES {
        assert_eq!(rt; race_in(rt.alloc(), accesses)?, want, "{name}");
    }
    Ok(())
}

/// The log of a loop whose branches each store one element, and of loads of all of them behind it.
fn each_its_own(alloc: Global, count: u32) -> Result<Vec<Entry>, AllocError> {
    let mut log = Vec::new(alloc);
    for element in 0..count {
        let branch = [0, u64::from(element), 0];
        log.push(entry_of(alloc, &branch, STORE, (1, element, 0))?)?;
    }
    for element in 0..count {
        log.push(entry_of(alloc, &[1], LOAD, (1, element, 0))?)?;
    }
    Ok(log)
}

#[test]
fn answers_for_a_long_log(rt: HostRuntime) -> Result<(), Fail> {
    let mut log = each_its_own(rt.alloc(), 100_000)?;
    assert_eq!(rt; first_race(rt.alloc(), log.as_slice())?, None);
    log.push(entry_of(rt.alloc(), &[0, 100_000, 0], LOAD, (1, 99_999, 0))?)?;
    assert_eq!(rt;
        first_race(rt.alloc(), log.as_slice())?,
        Some((99_999, 200_000))
    );
    Ok(())
}
