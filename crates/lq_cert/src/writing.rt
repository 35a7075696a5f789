//! Lines of proof files written. Where memory runs out, some of a line may stand behind the bytes
//! that were there.

ghost use Rattle.std.specs.Prelude.{◌≡◌, ◌∷◌, ◌++◌, map, OnOk};
ghost use Rattle.std.specs.List.{flat_map};
ghost use Rattle.lq_cert.specs.Numeral.{numeral};
ghost use Rattle.lq_cert.specs.Line.{term_words, part_word, line_text};
ghost use Rattle.lq_cert.specs.Reading.{consequence_words};
ghost use Rattle.lq_cert.specs.Writing.{spaced};
ghost use Rattle.lq_cert.specs.declared.line.Line.TheVariants.{Row};

use crate::line::{FileVersion, Line, Part};
use crate::numeral::Numeral;
use lq_text::{Term, put_atom, put_number};
use std::alloc::AllocError;

// Appends the text of a line, without its line feed (docs/PROOF-FILE.md, "Lines").
pub(crate) fn put_line(out: &mut Vec<u8>, line: &Line) -> Result<(), AllocError>
    ensures { OnOk result (out.new.items ≡ out.old.items ++ line_text line.now) }
{
    match line {
        Line::Version(FileVersion::One) => out.extend_from_slice(b"proof 1"),
        Line::Version(FileVersion::Two) => out.extend_from_slice(b"proof 2"),
        Line::Row {
            template,
            terms,
            most,
        } => put_row(out, template, terms.as_slice(), *most),
        Line::Condition(number) => put_numbered(out, b"cond", number),
        Line::Exact {
            item,
            divisor,
            parts,
        } => put_consequence(out, b"exact", item, *divisor, parts.as_slice()),
        Line::Goal {
            goal,
            divisor,
            parts,
        } => put_consequence(out, b"goal", goal, *divisor, parts.as_slice()),
        Line::Void { goal, parts } => {
            put_numbered(out, b"void", goal)?;
            put_parts(out, parts.as_slice())
        }
        Line::End => out.extend_from_slice(b"end"),
    }
}

// Appends the line of a row.
fn put_row(
    out: &mut Vec<u8>,
    template: &Numeral,
    terms: &[Term],
    most: i64,
) -> Result<(), AllocError>
    ensures { OnOk result (out.new.items ≡ out.old.items ++ line_text (Row template.now terms.now most)) }
{
    put_numbered(out, b"row", template)?;
    put_terms(out, terms)?;
    out.extend_from_slice(b" <= ")?;
    put_number(out, most)
}

// Appends terms.
fn put_terms(out: &mut Vec<u8>, terms: &[Term]) -> Result<(), AllocError>
    ensures { OnOk result (out.new.items ≡ out.old.items ++ spaced (flat_map term_words terms.now)) }
{
    for term in terms {
        put_term(out, term)?;
    }
    Ok(())
}

// Appends a term.
fn put_term(out: &mut Vec<u8>, term: &Term) -> Result<(), AllocError>
    ensures { OnOk result (out.new.items ≡ out.old.items ++ spaced (term_words term.now)) }
{
    out.push(b' ')?;
    put_number(out, term.coefficient)?;
    out.push(b' ')?;
    put_atom(out, &term.atom)
}

// Appends a keyword and what shows a consequence.
fn put_consequence(
    out: &mut Vec<u8>,
    keyword: &[u8],
    number: &Numeral,
    divisor: u32,
    parts: &[Part],
) -> Result<(), AllocError>
    ensures { OnOk result
        (out.new.items ≡ out.old.items ++ (keyword.now ++ spaced (consequence_words (number.now, divisor, parts.now)))) }
{
    put_numbered(out, keyword, number)?;
    out.push(b' ')?;
    put_multiplier(out, divisor)?;
    put_parts(out, parts)
}

// Appends a keyword and a number.
fn put_numbered(out: &mut Vec<u8>, keyword: &[u8], number: &Numeral) -> Result<(), AllocError>
    ensures { OnOk result (out.new.items ≡ out.old.items ++ (keyword.now ++ 32 ∷ numeral number.now)) }
{
    out.extend_from_slice(keyword)?;
    out.push(b' ')?;
    out.extend_from_slice(number.as_bytes())
}

// Appends parts.
fn put_parts(out: &mut Vec<u8>, parts: &[Part]) -> Result<(), AllocError>
    ensures { OnOk result (out.new.items ≡ out.old.items ++ spaced (map part_word parts.now)) }
{
    for part in parts {
        put_part(out, part)?;
    }
    Ok(())
}

// Appends a part.
fn put_part(out: &mut Vec<u8>, part: &Part) -> Result<(), AllocError>
    ensures { OnOk result (out.new.items ≡ out.old.items ++ 32 ∷ part_word part.now) }
{
    out.push(b' ')?;
    put_multiplier(out, part.multiplier)?;
    out.push(b':')?;
    out.extend_from_slice(part.fact.as_bytes())
}

// Appends a multiplier or divisor.
fn put_multiplier(out: &mut Vec<u8>, number: u32) -> Result<(), AllocError>
    ensures { OnOk result (out.new.items ≡ out.old.items ++ numeral number) }
{
    put_number(out, i64::from(number))
}
