//! Files of qualifiers read.

ghost use Rattle.std.specs.Prelude.{◌≡◌, ℕ, IfOk, IsErr, IsErrOf, IsOkUnless};
ghost use Rattle.lq_quals.specs.Reading.{Tells};
ghost use Rattle.lq_quals.specs.Quals.{ReadsLine, IsQualsText, IsFirstBadLine};
ghost use Rattle.lq_quals.specs.declared.quals.Quals.{Quals as QualsValue};

use crate::collect::number_atoms;
use crate::comparison::read_comparison;
use crate::qualifier::{Qualifier, qualifier_of};
use crate::spacing::{is_skipped, is_torn, without_blanks, without_return};
use lq_text::Atom;
use sqlite_items::Items;
use std::alloc::{AllocError, Global};
use thiserror::Error;

/// The qualifiers of a file, and the atoms that they speak of. Symbol k of a row is atom k, from 0.
#[derive(Debug, Drop)]
pub struct Quals {
    pub atoms: Items<Atom>,
    pub list: Items<Qualifier>,
}

/// Why a file of qualifiers was not read.
#[derive(Debug, Drop, Error)]
pub enum QualFault {
    /// The number, from 1, of the first line that is neither skipped nor a good comparison.
    #[error("bad qualifier line {line}")]
    BadQual { line: u64 },
    /// Memory ran out.
    #[error("out of memory")]
    NoMemory,
}

impl From<AllocError> for QualFault {
    ghost use Rattle.lq_quals.specs.declared.quals.QualFault.TheVariants.{NoMemory};

    ghost from_gives = { λ _ fault. fault ≡ NoMemory };

    fn from(_failed: AllocError) -> QualFault {
        QualFault::NoMemory
    }
}

/// The qualifiers of a file, or its first bad line (docs/CHECKING.md, "Qualifier text"). Line by line
/// the new atoms that stay once a line is collected get the next numbers, in the order in which they
/// come first in the line.
pub fn read_quals(alloc: Global, text: &[u8]) -> Result<Quals, QualFault>
    ensures quals { IfOk result (IsQualsText text.now) }
    ensures bad { (line : ℕ) → IsErrOf result (QualFault.BadQual line) → IsFirstBadLine text.now line }

    // A text of qualifiers is refused only for want of memory, and one with a bad line never passes.
    ensures reads { (quals : QualsValue) → IsQualsText text.now quals → IsOkUnless result QualFault.NoMemory }
    ensures refuses { (line : ℕ) → IsFirstBadLine text.now line → IsErr result }
{
    let mut quals = Quals {
        atoms: Items::new(alloc),
        list: Items::new(alloc),
    };
    let mut line = 0;
    for bytes in text.split(|byte| *byte == b'\n') {
        line += 1;
        match read_line(alloc, bytes, quals)? {
            None => return Err(QualFault::BadQual { line }),
            Some(more) => quals = more,
        }
    }
    Ok(quals)
}

// The qualifiers with those of one line more, or None where the line is bad.
fn read_line(alloc: Global, line: &[u8], quals: Quals) -> Result<Option<Quals>, AllocError>
    ensures { IfOk result (Tells (ReadsLine quals line.now)) }
{
    let line = without_return(line);
    let text = without_blanks(alloc, line)?;
    if is_skipped(&text) {
        return Ok(Some(quals));
    }
    if is_torn(line) {
        return Ok(None);
    }
    let Some(comparison) = read_comparison(alloc, &text)? else {
        return Ok(None);
    };
    let Quals {
        mut atoms,
        mut list,
    } = quals;
    number_atoms(alloc, comparison.addends.as_slice(), &mut atoms)?;
    let Some(qualifier) = qualifier_of(alloc, &comparison, atoms.as_slice())? else {
        return Ok(None);
    };
    list.push(qualifier)?;
    Ok(Some(Quals { atoms, list }))
}
