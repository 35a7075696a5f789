//! Lines of proof files read.

ghost use Rattle.std.specs.Prelude.{◌≡◌, ◌↔◌, ◌≤◌, ◌∷◌, codes, length, map, IsTrue, IfOk};
ghost use Rattle.std.specs.List.{AllByRecursion, flat_map};
ghost use Rattle.lq_text.specs.Atom.{atom_text};
ghost use Rattle.lq_text.specs.Order.{AreInOrder};
ghost use Rattle.lq_cert.specs.Line.{IsRowAtom, IsTerm, AreRowTerms, IsPart, AreParts, IsLine, version_text, term_words, part_word, line_words, line_text};
ghost use Rattle.lq_text.specs.Reads.{Reads};
ghost use Rattle.lq_cert.specs.Reading.{texts_of, keyword_text, ReadsBehind, IsWritten, consequence_words};
ghost use Rattle.lq_cert.specs.declared.reading.Keyword.TheVariants as keyword;

use crate::line::{FileVersion, Line, Part};
use crate::numbers::{read_coefficient, read_constant, read_multiplier};
use crate::numeral::Numeral;
use crate::split::{split_once, words_of};
use lq_linear::{MOST_PARTS, MOST_SYMBOLS};
use lq_text::{Atom, Term, are_in_order, read_atom};
use sqlite_items::Items;
use std::alloc::{AllocError, Global};

// The first word of a line.
#[derive(Clone, Copy)]
enum Keyword {
    Proof,
    Row,
    Cond,
    Exact,
    Goal,
    Void,
    End,
}

// The line that a text spells (docs/PROOF-FILE.md, "Lines").
pub(crate) fn read_line(alloc: Global, text: &[u8]) -> Result<Option<Line>, AllocError>
    ensures { IfOk result (Reads IsLine line_text text.now) }
{
    let words = words_of(alloc, text)?;
    read_words(alloc, &words)
}

// The line with these words.
fn read_words(alloc: Global, words: &[&[u8]]) -> Result<Option<Line>, AllocError>
    ensures { IfOk result (Reads IsLine line_words (texts_of words.now)) }
{
    let Some((first, rest)) = words.split_first() else {
        return Ok(None);
    };
    match keyword_of(first) {
        None => Ok(None),
        Some(Keyword::Proof) => Ok(read_version(rest)),
        Some(Keyword::Row) => read_row(alloc, rest),
        Some(Keyword::Cond) => read_condition(alloc, rest),
        Some(Keyword::Exact) => read_exact(alloc, rest),
        Some(Keyword::Goal) => read_goal(alloc, rest),
        Some(Keyword::Void) => read_void(alloc, rest),
        Some(Keyword::End) => Ok(read_end(rest)),
    }
}

// The keyword that a word is.
fn keyword_of(word: &[u8]) -> Option<Keyword>
    ensures { Reads (λ _. Unit {0}) keyword_text word.now result }
{
    match word {
        b"proof" => Some(Keyword::Proof),
        b"row" => Some(Keyword::Row),
        b"cond" => Some(Keyword::Cond),
        b"exact" => Some(Keyword::Exact),
        b"goal" => Some(Keyword::Goal),
        b"void" => Some(Keyword::Void),
        b"end" => Some(Keyword::End),
        _ => None,
    }
}

// The line that tells the version.
fn read_version(words: &[&[u8]]) -> Option<Line>
    ensures { ReadsBehind keyword.Proof (texts_of words.now) result }
{
    let [version] = words else {
        return None;
    };
    version_of(version).map(Line::Version)
}

// The version that a word is.
fn version_of(word: &[u8]) -> Option<FileVersion>
    ensures { Reads (λ _. Unit {0}) version_text word.now result }
{
    match word {
        b"1" => Some(FileVersion::One),
        b"2" => Some(FileVersion::Two),
        _ => None,
    }
}

// The line that says that a template keeps a row.
fn read_row(alloc: Global, words: &[&[u8]]) -> Result<Option<Line>, AllocError>
    ensures { IfOk result (ReadsBehind keyword.Row (texts_of words.now)) }
{
    let [template, terms @ .., sign, most] = words else {
        return Ok(None);
    };
    if *sign != b"<=".as_slice() {
        return Ok(None);
    }
    let Some(most) = read_constant(most) else {
        return Ok(None);
    };
    let Some(template) = Numeral::read(alloc, template)? else {
        return Ok(None);
    };
    let Some(terms) = read_row_terms(alloc, terms)? else {
        return Ok(None);
    };
    Ok(Some(Line::Row {
        template,
        terms,
        most,
    }))
}

// The terms of a row.
fn read_row_terms(alloc: Global, words: &[&[u8]]) -> Result<Option<Items<Term>>, AllocError>
    ensures { IfOk result (Reads AreRowTerms (flat_map term_words) (texts_of words.now)) }
{
    let Some(terms) = read_terms(alloc, words)? else {
        return Ok(None);
    };
    if !may_be_row(terms.as_slice()) {
        return Ok(None);
    }
    Ok(Some(terms))
}

// Whether terms are as many as a row has, and in order.
fn may_be_row(terms: &[Term]) -> bool
    ensures { IsTrue result ↔ ((1 ≤ length terms.now) × (length terms.now ≤ 16)
        × AreInOrder (map (λ term. term.atom) terms.now)) }
{
    !terms.is_empty() && terms.len() <= MOST_SYMBOLS && are_in_order(terms)
}

// The terms that words are.
fn read_terms(alloc: Global, words: &[&[u8]]) -> Result<Option<Items<Term>>, AllocError>
    ensures { IfOk result (Reads (AllByRecursion IsTerm) (flat_map term_words) (texts_of words.now)) }
{
    let mut terms = Items::new(alloc);
    let mut rest = words;
    while let [coefficient, atom, more @ ..] = rest {
        let Some(coefficient) = read_coefficient(coefficient) else {
            return Ok(None);
        };
        let Some(atom) = read_row_atom(alloc, atom)? else {
            return Ok(None);
        };
        terms.push(Term { coefficient, atom })?;
        rest = more;
    }
    if rest.is_empty() {
        Ok(Some(terms))
    } else {
        Ok(None)
    }
}

// The atom of a row that a word is.
fn read_row_atom(alloc: Global, word: &[u8]) -> Result<Option<Atom>, AllocError>
    ensures { IfOk result (Reads IsRowAtom atom_text word.now) }
{
    let Some(atom) = read_atom(alloc, word)? else {
        return Ok(None);
    };
    if atom.has_placeholder() {
        return Ok(None);
    }
    Ok(Some(atom))
}

// The line that begins a condition.
fn read_condition(alloc: Global, words: &[&[u8]]) -> Result<Option<Line>, AllocError>
    ensures { IfOk result (ReadsBehind keyword.Cond (texts_of words.now)) }
{
    let [number] = words else {
        return Ok(None);
    };
    let number = Numeral::read(alloc, number)?;
    Ok(number.map(Line::Condition))
}

// The line that says that a dividend is not negative.
fn read_exact(alloc: Global, words: &[&[u8]]) -> Result<Option<Line>, AllocError>
    ensures { IfOk result (ReadsBehind keyword.Exact (texts_of words.now)) }
{
    let Some((item, divisor, parts)) = read_consequence(alloc, words)? else {
        return Ok(None);
    };
    Ok(Some(Line::Exact {
        item,
        divisor,
        parts,
    }))
}

// The line that says that a goal follows as a consequence.
fn read_goal(alloc: Global, words: &[&[u8]]) -> Result<Option<Line>, AllocError>
    ensures { IfOk result (ReadsBehind keyword.Goal (texts_of words.now)) }
{
    let Some((goal, divisor, parts)) = read_consequence(alloc, words)? else {
        return Ok(None);
    };
    Ok(Some(Line::Goal {
        goal,
        divisor,
        parts,
    }))
}

// The number, the divisor and the parts of a consequence.
fn read_consequence(
    alloc: Global,
    words: &[&[u8]],
) -> Result<Option<(Numeral, u32, Items<Part>)>, AllocError>
    ensures { IfOk result (Reads IsWritten consequence_words (texts_of words.now)) }
{
    let [number, divisor, parts @ ..] = words else {
        return Ok(None);
    };
    let Some(divisor) = read_multiplier(divisor) else {
        return Ok(None);
    };
    let Some(number) = Numeral::read(alloc, number)? else {
        return Ok(None);
    };
    let Some(parts) = read_parts(alloc, parts)? else {
        return Ok(None);
    };
    Ok(Some((number, divisor, parts)))
}

// The line that says that a goal follows from a contradiction.
fn read_void(alloc: Global, words: &[&[u8]]) -> Result<Option<Line>, AllocError>
    ensures { IfOk result (ReadsBehind keyword.Void (texts_of words.now)) }
{
    let [goal, parts @ ..] = words else {
        return Ok(None);
    };
    let Some(goal) = Numeral::read(alloc, goal)? else {
        return Ok(None);
    };
    let Some(parts) = read_parts(alloc, parts)? else {
        return Ok(None);
    };
    Ok(Some(Line::Void { goal, parts }))
}

// The parts that words are.
fn read_parts(alloc: Global, words: &[&[u8]]) -> Result<Option<Items<Part>>, AllocError>
    ensures { IfOk result (Reads AreParts (map part_word) (texts_of words.now)) }
{
    if words.len() > MOST_PARTS {
        return Ok(None);
    }
    let mut parts = Items::new(alloc);
    for word in words {
        let Some(part) = read_part(alloc, word)? else {
            return Ok(None);
        };
        parts.push(part)?;
    }
    Ok(Some(parts))
}

// The part that a word is.
fn read_part(alloc: Global, word: &[u8]) -> Result<Option<Part>, AllocError>
    ensures { IfOk result (Reads IsPart part_word word.now) }
{
    let Some((multiplier, fact)) = split_once(word, b':') else {
        return Ok(None);
    };
    let Some(multiplier) = read_multiplier(multiplier) else {
        return Ok(None);
    };
    let Some(fact) = Numeral::read(alloc, fact)? else {
        return Ok(None);
    };
    Ok(Some(Part { multiplier, fact }))
}

// The last line of a file.
fn read_end(words: &[&[u8]]) -> Option<Line>
    ensures { ReadsBehind keyword.End (texts_of words.now) result }
{
    if words.is_empty() {
        Some(Line::End)
    } else {
        None
    }
}
