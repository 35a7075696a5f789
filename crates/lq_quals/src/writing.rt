//! Qualifiers written. Where memory runs out, some of a line may stand behind the bytes that were there.

ghost use Rattle.std.specs.Prelude.{◌≡◌, ◌++◌, List, ℕ, IfOk, OnOk};
ghost use Rattle.std.specs.Option.{option_copied};
ghost use Rattle.lq_linear.specs.Terms.{IsCoefficient};
ghost use Rattle.lq_quals.specs.Quals.{IsQualsText};
ghost use Rattle.lq_quals.specs.Writing.{sign_text, multiple_text, row_text, qualifier_text, quals_text};

use crate::qualifier::Qualifier;
use crate::quals::Quals;
use lq_linear::Row;
use lq_text::{Atom, put_atom, put_number};
use std::alloc::{AllocError, Global};

/// The text of qualifiers that some text reads as, with one line for each: its first row, as
/// `1*a - 2*off(p) <= 3`, with ` == ` where there are two rows.
pub fn write_quals(alloc: Global, quals: &Quals) -> Result<Vec<u8>, AllocError>
    requires { (text : List ℕ) × IsQualsText text quals.now }
    ensures text { IfOk result (λ bytes. bytes.items ≡ quals_text quals.now) }
    ensures back { IfOk result (λ bytes. IsQualsText bytes.items quals.now) }
{
    let mut out = Vec::new(alloc);
    for qualifier in quals.list.as_slice() {
        put_qualifier(&mut out, qualifier, quals.atoms.as_slice())?;
        out.push(b'\n')?;
    }
    Ok(out)
}

// Appends a qualifier.
fn put_qualifier(out: &mut Vec<u8>, qualifier: &Qualifier, atoms: &[Atom]) -> Result<(), AllocError>
    ensures { OnOk result (out.new.items ≡ out.old.items ++ qualifier_text atoms.now qualifier.now) }
{
    match qualifier {
        Qualifier::AtMost(row) => put_row(out, row, b" <= ", atoms),
        Qualifier::Equal(row, _) => put_row(out, row, b" == ", atoms),
    }
}

// Appends a row with this between its terms and what they are at most.
fn put_row(out: &mut Vec<u8>, row: &Row, between: &[u8], atoms: &[Atom]) -> Result<(), AllocError>
    ensures { OnOk result (out.new.items ≡ out.old.items ++ row_text atoms.now between.now row.now) }
{
    let mut at_front = true;
    for (symbol, coefficient) in row.form.terms() {
        put_sign(out, at_front, *coefficient < 0)?;
        put_multiple(out, *coefficient, atoms.get(*symbol as usize))?;
        at_front = false;
    }
    out.extend_from_slice(between)?;
    put_number(out, row.most)
}

// Appends what stands before a multiple.
fn put_sign(out: &mut Vec<u8>, at_front: bool, is_negative: bool) -> Result<(), AllocError>
    ensures { OnOk result (out.new.items ≡ out.old.items ++ sign_text at_front is_negative) }
{
    match (at_front, is_negative) {
        (true, false) => Ok(()),
        (true, true) => out.extend_from_slice(b"-"),
        (false, false) => out.extend_from_slice(b" + "),
        (false, true) => out.extend_from_slice(b" - "),
    }
}

// Appends a multiple of an atom without its sign.
fn put_multiple(out: &mut Vec<u8>, coefficient: i64, atom: Option<&Atom>) -> Result<(), AllocError>
    requires { IsCoefficient coefficient }
    ensures { OnOk result (out.new.items ≡ out.old.items ++ multiple_text coefficient (option_copied atom.entry)) }
{
    let count = if coefficient < 0 {
        -coefficient
    } else {
        coefficient
    };
    put_number(out, count)?;
    out.push(b'*')?;
    match atom {
        None => Ok(()),
        Some(atom) => put_atom(out, atom),
    }
}
