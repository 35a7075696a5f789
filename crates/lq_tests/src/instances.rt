use lq_instances::{TemplateFault, instances};
use lq_linear::Row;
use lq_quals::read_quals;
use lq_templates::{NamePart, Named, ScopeRef, Template, TemplateKind};
use lq_tree::{Limit, Name, Place};
use sqlite_items::Items;
use std::alloc::Global;
use std::test::Fail;

// The terms of a row, and what they are at most.
type Told = (&'static [(u32, i64)], i64);

const RECORD: TemplateKind = TemplateKind::Rec { class: 1 };

const PRE: TemplateKind = TemplateKind::Pre { func: 0 };

const POST: TemplateKind = TemplateKind::Post { func: 0 };

const EFFECT: TemplateKind = TemplateKind::Effect {
    scope: ScopeRef {
        scope: 0,
        at: Place { line: 1, col: 1 },
    },
    class: 1,
    field: 0,
    write: true,
};

// The name of a word: `x`, `off(x)` or `len(x)`, with `!` before it where it is changed.
fn named(alloc: Global, word: &[u8]) -> Result<Named, Fail> {
    let (changed, word) = match word.strip_prefix(b"!") {
        Some(rest) => (true, rest),
        None => (false, word),
    };
    let (part, text) = match word.strip_prefix(b"off(") {
        Some(rest) => (NamePart::Off, inside(rest)),
        None => match word.strip_prefix(b"len(") {
            Some(rest) => (NamePart::Len, inside(rest)),
            None => (NamePart::Value, word),
        },
    };
    let text = Name::from_slice(alloc, text)?;
    Ok(Named {
        text,
        part,
        changed,
    })
}

// A text without the bracket at its end.
fn inside(text: &[u8]) -> &[u8] {
    text.strip_suffix(b")").unwrap_or(text)
}

// The template of this kind with the names of these words.
fn template(alloc: Global, kind: TemplateKind, words: &[u8]) -> Result<Template, Fail> {
    let mut names = Items::new(alloc);
    for word in words.split(|byte| *byte == b' ') {
        names.push(named(alloc, word)?)?;
    }
    Ok(Template { kind, names })
}

// The instances of a template for the qualifiers of a text.
fn found(alloc: Global, template: &Template, text: &[u8]) -> Result<Items<Row>, Fail> {
    let quals = read_quals(alloc, text)?;
    match instances(alloc, template, &quals) {
        Ok(rows) => Ok(rows),
        Err(TemplateFault::Limit(_)) => Err("too many rows")?,
        Err(TemplateFault::NoMemory) => Err("out of memory")?,
    }
}

// Whether these are the rows.
fn are(rows: &Items<Row>, wanted: &[Told]) -> bool {
    rows.len() == wanted.len()
        && rows.as_slice().iter().zip(wanted).all(|(row, told)| row.form.terms() == told.0
            && row.most == told.1)
}

const HALVES: &[u8] =
    b"0 <= lo\nlo <= i\noff(a) + hi <= len(a)\noff(a) + lo <= @\n@ < off(a) + hi\n@ < mid\nmid <= @\n";

const OF_HALVES: [(TemplateKind, &[u8], &[Told]); 6] = [
    (RECORD, b".word", &[]),
    (
        PRE,
        b"off(a) len(a) lo hi v",
        &[(&[(2, -1)], 0), (&[(0, 1), (1, -1), (3, 1)], 0)],
    ),
    (
        EFFECT,
        b"@ off(a) len(a) lo hi v",
        &[
            (&[(0, -1), (1, 1), (3, 1)], 0),
            (&[(0, 1), (1, -1), (4, -1)], -1),
        ],
    ),
    (
        TemplateKind::Loop,
        b"off(a) len(a) lo hi v !i",
        &[(&[(2, 1), (5, -1)], 0)],
    ),
    (EFFECT, b"@ off(in) len(in) n", &[]),
    (
        EFFECT,
        b"@ off(in) len(in) n mid",
        &[(&[(0, 1), (4, -1)], -1), (&[(0, -1), (4, 1)], 0)],
    ),
];

const CHOSEN: &[u8] =
    b"1 <= len(result)\n?x <= ?y\n@ == ?x\n0 <= .n\nlen(?p) <= ?x\noff(?p) + ?x + 1 <= len(?p)\n@ == 1\n.word == 0\n";

const OF_CHOSEN: [(TemplateKind, &[u8], &[Told]); 6] = [
    (RECORD, b".word", &[(&[(0, 1)], 0), (&[(0, -1)], 0)]),
    (
        PRE,
        b"n2 off(p3) len(p3)",
        &[(&[(0, -1), (2, 1)], 0), (&[(0, 1), (1, 1), (2, -1)], -1)],
    ),
    (
        POST,
        b"n2 off(p3) len(p3) off(result) len(result)",
        &[(&[(4, -1)], -1)],
    ),
    (
        EFFECT,
        b"@ n2 off(p3) len(p3)",
        &[
            (&[(0, 1), (1, -1)], 0),
            (&[(0, -1), (1, 1)], 0),
            (&[(0, 1)], 1),
            (&[(0, -1)], -1),
        ],
    ),
    (
        EFFECT,
        b"@ off(in) len(in) n",
        &[
            (&[(0, 1), (3, -1)], 0),
            (&[(0, -1), (3, 1)], 0),
            (&[(0, 1)], 1),
            (&[(0, -1)], -1),
        ],
    ),
    (
        EFFECT,
        b"@ off(in) len(in) n i4",
        &[
            (&[(0, 1), (3, -1)], 0),
            (&[(0, -1), (3, 1)], 0),
            (&[(0, 1), (4, -1)], 0),
            (&[(0, -1), (4, 1)], 0),
            (&[(0, 1)], 1),
            (&[(0, -1)], -1),
        ],
    ),
];

// The rows of a program that sorts halves, as a reading of the rules by another program gives them.
#[test]
fn gives_the_rows_of_named_locals(rt: HostRuntime) -> Result<(), Fail> {
    for (kind, words, rows) in OF_HALVES {
        let template = template(rt.alloc(), kind, words)?;
        assert!(rt; are(&found(rt.alloc(), &template, HALVES)?, rows));
    }
    Ok(())
}

// The rows of a program with placeholders, as a reading of the rules by another program gives them.
#[test]
fn gives_the_rows_of_chosen_locals(rt: HostRuntime) -> Result<(), Fail> {
    for (kind, words, rows) in OF_CHOSEN {
        let template = template(rt.alloc(), kind, words)?;
        assert!(rt; are(&found(rt.alloc(), &template, CHOSEN)?, rows));
    }
    Ok(())
}

// The last placeholder changes fastest, and of equal rows only the first is kept.
#[test]
fn gives_rows_in_order(rt: HostRuntime) -> Result<(), Fail> {
    let template = template(rt.alloc(), PRE, b"a b c")?;
    let rows = found(rt.alloc(), &template, b"?x <= ?y\na <= b\n?x + ?y <= 0\n")?;
    let wanted: [Told; 9] = [
        (&[(0, 1), (1, -1)], 0),
        (&[(0, 1), (2, -1)], 0),
        (&[(0, -1), (1, 1)], 0),
        (&[(1, 1), (2, -1)], 0),
        (&[(0, -1), (2, 1)], 0),
        (&[(1, -1), (2, 1)], 0),
        (&[(0, 1), (1, 1)], 0),
        (&[(0, 1), (2, 1)], 0),
        (&[(1, 1), (2, 1)], 0),
    ];
    assert!(rt; are(&rows, &wanted));
    Ok(())
}

// `?a + ?b + .. <= 0` with so many placeholders, the letters from `a` on.
fn sum(alloc: Global, placeholders: u8) -> Result<Vec<u8>, Fail> {
    let mut text = Vec::new(alloc);
    for k in 0..placeholders {
        if k > 0 {
            text.push(b'+')?;
        }
        text.extend_from_slice(b"?")?;
        text.push(b'a' + k % 26)?;
    }
    Ok(text)
}

// So many ints: one letter each, and then two.
fn ints(alloc: Global, count: u8) -> Result<Vec<u8>, Fail> {
    let mut words = Vec::new(alloc);
    for k in 0..count {
        if k > 0 {
            words.push(b' ')?;
        }
        words.push(b'a' + k % 26)?;
        if k >= 26 {
            words.push(b'b')?;
        }
    }
    Ok(words)
}

// Sixteen placeholders that are alike among seventeen ints: each row leaves one out.
#[test]
fn passes_over_equal_choices(rt: HostRuntime) -> Result<(), Fail> {
    let template = template(rt.alloc(), PRE, ints(rt.alloc(), 17)?.as_slice())?;
    let mut text = sum(rt.alloc(), 16)?;
    text.extend_from_slice(b" <= 0\n")?;
    let rows = found(rt.alloc(), &template, &text)?;
    assert_eq!(rt; rows.len(), 17);
    Ok(())
}

// Fifteen placeholders for ints, and one for a pointer where there is none.
#[test]
fn gives_up_without_a_pointer(rt: HostRuntime) -> Result<(), Fail> {
    let template = template(rt.alloc(), PRE, ints(rt.alloc(), 30)?.as_slice())?;
    let mut text = sum(rt.alloc(), 15)?;
    text.extend_from_slice(b" <= off(?z)\n")?;
    assert_eq!(rt; found(rt.alloc(), &template, &text)?.len(), 0);
    Ok(())
}

// Sixteen placeholders for ints, where a pointer alone is changed.
#[test]
fn gives_up_without_a_changed_local(rt: HostRuntime) -> Result<(), Fail> {
    let mut words = ints(rt.alloc(), 30)?;
    words.extend_from_slice(b" !off(changed) !len(changed)")?;
    let template = template(rt.alloc(), TemplateKind::Join, &words)?;
    let mut text = sum(rt.alloc(), 16)?;
    text.extend_from_slice(b" <= 0\n")?;
    assert_eq!(rt; found(rt.alloc(), &template, &text)?.len(), 0);
    Ok(())
}

// 256 rows are given, and more are told as 257.
#[test]
fn counts_rows(rt: HostRuntime) -> Result<(), Fail> {
    let template = template(rt.alloc(), RECORD, b".word")?;
    let mut text = Vec::new(rt.alloc());
    for most in 0..256u32 {
        let line = format!(in rt.alloc(); ".word <= {most}\n")?;
        text.extend_from_slice(line.as_bytes())?;
    }
    assert_eq!(rt; found(rt.alloc(), &template, &text)?.len(), 256);
    text.extend_from_slice(b".word <= 7\n.word <= 1000\n")?;
    let quals = read_quals(rt.alloc(), &text)?;
    let limit = Limit {
        which: 15,
        found: 257,
        allowed: 256,
    };
    let refused = instances(rt.alloc(), &template, &quals);
    assert!(rt; matches!(refused, Err(TemplateFault::Limit(told)) if told == limit));
    Ok(())
}
