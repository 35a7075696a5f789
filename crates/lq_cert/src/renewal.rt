//! Proofs of version 1 made proofs of version 2.

ghost use Rattle.std.specs.Prelude.{◌≡◌, ◌++◌, IfOk, OnOk};
ghost use Rattle.lq_cert.specs.Renewal.{behind_exacts, begins_with_goal, lacks_goal, with_goals, renewed};

use crate::copy::{Copied, copy_items};
use crate::line::{FileVersion, Line};
use crate::proof_file::Proof;
use sqlite_items::Items;
use std::alloc::{AllocError, Global};

/// The version 2 of a proof of version 1: its first line is changed, and each condition that has no
/// goal is taken out with its `exact` lines. A proof with another first line, or none, is given
/// back as it is (docs/PROOF-FILE.md, "Versions").
pub fn renew(alloc: Global, proof: &Proof) -> Result<Proof, AllocError>
    ensures { IfOk result (λ renewal. renewal ≡ renewed proof.now) }
{
    let lines = renewed_lines(alloc, proof.lines.as_slice())?;
    Ok(Proof { lines })
}

// The lines of the version 2 of a proof with these lines.
fn renewed_lines(alloc: Global, lines: &[Line]) -> Result<Items<Line>, AllocError>
    ensures { IfOk result (λ renewal. renewal ≡ renewed lines.now) }
{
    let Some((Line::Version(FileVersion::One), later)) = lines.split_first() else {
        return copy_items(alloc, lines);
    };
    let mut renewal = Items::new(alloc);
    renewal.push(Line::Version(FileVersion::Two))?;
    push_with_goals(alloc, &mut renewal, later)?;
    Ok(renewal)
}

// Appends the lines without the conditions that have no goal and their `exact` lines. Where memory
// runs out, some of them may stand behind what was there.
fn push_with_goals(alloc: Global, out: &mut Items<Line>, lines: &[Line]) -> Result<(), AllocError>
    ensures { OnOk result (out.new ≡ out.old ++ with_goals lines.now) }
{
    let mut rest = lines;
    while let Some((line, later)) = rest.split_first() {
        if lacks_goal(line, later) {
            rest = behind_exacts(later);
        } else {
            out.push(line.copy(alloc)?)?;
            rest = later;
        }
    }
    Ok(())
}

// Whether a line begins a condition that has no goal, where these stand behind it.
fn lacks_goal(line: &Line, later: &[Line]) -> bool
    ensures { result ≡ lacks_goal line.now later.now }
{
    match line {
        Line::Condition(_) => !begins_with_goal(behind_exacts(later)),
        _ => false,
    }
}

// What stands behind the `exact` lines at the front.
fn behind_exacts(lines: &[Line]) -> &[Line]
    ensures { result.now ≡ behind_exacts lines.now }
{
    let mut rest = lines;
    while let Some((Line::Exact { .. }, later)) = rest.split_first() {
        rest = later;
    }
    rest
}

// Whether a goal stands at the front.
fn begins_with_goal(lines: &[Line]) -> bool
    ensures { result ≡ begins_with_goal lines.now }
{
    match lines.first() {
        Some(Line::Goal { .. } | Line::Void { .. }) => true,
        _ => false,
    }
}
