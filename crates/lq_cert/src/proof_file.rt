//! Proof files read and written.

ghost use Rattle.std.specs.Prelude.{◌≡◌, ℕ, List, IfOk, IsErr, IsErrOf, IsOkUnless};
ghost use Rattle.lq_cert.specs.Line.{line_text};
ghost use Rattle.lq_text.specs.Reads.{Reads};
ghost use Rattle.lq_cert.specs.declared.line.Line.{Line as LineValue};
ghost use Rattle.lq_cert.specs.ProofFile.{most_facts, most_facts_by, IsLineOf, AreLines, IsProofText, IsFirstBadLine};

use crate::line::{FileVersion, Line, fact_count};
use crate::reading::read_line;
use crate::split::split_once;
use crate::writing::put_line;
use lq_linear::MOST_PARTS;
use sqlite_items::Items;
use std::alloc::{AllocError, Global};
use std::marker::Model;
use thiserror::Error;

// How many facts a line of a proof file of version 1 may combine.
const MOST_PARTS_OF_ONE: usize = 64;

/// The lines of a proof file, in whatever order. Contracts see their list.
#[derive(Debug, Drop)]
pub struct Proof {
    pub lines: Items<Line>,
}

impl Model for Proof {
    ghost use Rattle.std.specs.Prelude.{List};
    ghost use Rattle.lq_cert.specs.declared.line.Line.{Line};

    ghost Value = { List Line };

    ghost view = { λ p. p.lines };
}

/// Why a proof file was not read.
#[derive(Debug, Drop, Error)]
pub enum ProofFault {
    /// The number, from 1, of the first line that is ill-formed, or of the last line where its line
    /// feed is missing.
    #[error("bad proof entry {entry}")]
    BadProof { entry: u64 },
    /// Memory ran out.
    #[error("out of memory")]
    NoMemory,
}

impl From<AllocError> for ProofFault {
    ghost use Rattle.lq_cert.specs.declared.proof_file.ProofFault.TheVariants.{NoMemory};

    ghost from_gives = { λ _ fault. fault ≡ NoMemory };

    fn from(_failed: AllocError) -> ProofFault {
        ProofFault::NoMemory
    }
}

/// The lines of a proof file, each tested by itself within the bounds of the file's version, or its
/// first bad line (docs/PROOF-FILE.md, "Lines" and "Versions"). That they stand in the right order
/// isn't tested: so an empty text reads as no lines.
pub fn read_proof(alloc: Global, text: &[u8]) -> Result<Proof, ProofFault>
    ensures proof { IfOk result (IsProofText text.now) }
    ensures bad { (entry : ℕ) → IsErrOf result (ProofFault.BadProof entry) → IsFirstBadLine text.now entry }

    // A text of lines is refused only for want of memory, and one with a bad line never passes.
    ensures reads { (lines : List LineValue) → IsProofText text.now lines → IsOkUnless result ProofFault.NoMemory }
    ensures refuses { (entry : ℕ) → IsFirstBadLine text.now entry → IsErr result }
{
    let mut lines = Items::new(alloc);
    let mut rest = text;
    let mut entry = 0;
    while !rest.is_empty() {
        entry += 1;
        let Some((line, after)) = split_once(rest, b'\n') else {
            return Err(ProofFault::BadProof { entry });
        };
        let Some(line) = read_next(alloc, lines.as_slice(), line)? else {
            return Err(ProofFault::BadProof { entry });
        };
        lines.push(line)?;
        rest = after;
    }
    Ok(Proof { lines })
}

// The line that a text behind these lines spells.
fn read_next(alloc: Global, lines: &[Line], text: &[u8]) -> Result<Option<Line>, AllocError>
    ensures { IfOk result (Reads (IsLineOf lines.now) line_text text.now) }
{
    let Some(line) = read_line(alloc, text)? else {
        return Ok(None);
    };
    if fact_count(&line) > most_facts(lines) {
        return Ok(None);
    }
    Ok(Some(line))
}

// How many facts a line may combine in a file that these lines begin.
fn most_facts(lines: &[Line]) -> usize
    ensures { result ≡ most_facts lines.now }
{
    match lines.split_first() {
        None => MOST_PARTS,
        Some((first, _)) => most_facts_by(first),
    }
}

// How many facts a line may combine in a file that this line begins.
fn most_facts_by(first: &Line) -> usize
    ensures { result ≡ most_facts_by first.now }
{
    match first {
        Line::Version(FileVersion::One) => MOST_PARTS_OF_ONE,
        _ => MOST_PARTS,
    }
}

/// The text of a proof file (docs/PROOF-FILE.md, "Lines").
pub fn write_proof(alloc: Global, proof: &Proof) -> Result<Vec<u8>, AllocError>
    requires { AreLines proof.now }
    ensures { IfOk result (λ bytes. IsProofText bytes.items proof.now) }
{
    let mut out = Vec::new(alloc);
    for line in proof.lines.as_slice() {
        put_line(&mut out, line)?;
        out.push(b'\n')?;
    }
    Ok(out)
}
