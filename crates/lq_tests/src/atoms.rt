use lq_text::{
    Atom, Term, are_in_order, is_local_name, is_name, put_atom, read_atom, read_literal,
};
use std::alloc::Global;
use std::test::Fail;

#[test]
fn tells_names(rt: HostRuntime) {
    for name in "a _ Z9 _0 int2 Int fors off len result main NULL atomic_ commutativ".split(' ') {
        assert!(rt; is_name(name.as_bytes()), "{name}");
    }
    for other in [
        "",
        " a",
        "a ",
        "9a",
        "a-b",
        "a.b",
        "?a",
        "int",
        "struct",
        "foreach",
        "atomic",
        "commutative",
        "break",
        "extern",
        "\u{e9}",
    ] {
        assert!(rt; !is_name(other.as_bytes()), "{other}");
    }
    assert!(rt; is_local_name(b"offs"));
    assert!(rt; !is_local_name(b"off"));
    assert!(rt; !is_local_name(b"while"));
}

#[test]
fn reads_literals(rt: HostRuntime) {
    let cases: [(&[u8], Option<i64>); 11] = [
        (b"0", Some(0)),
        (b"7", Some(7)),
        (b"1048576", Some(1_048_576)),
        (b"9223372036854775807", Some(i64::MAX)),
        (b"9223372036854775808", None),
        (b"", None),
        (b"00", None),
        (b"01", None),
        (b"-1", None),
        (b"+1", None),
        (b"1a", None),
    ];
    for (text, want) in cases {
        assert_eq!(rt; read_literal(text), want, "at {text:?}");
    }
}

#[test]
fn writes_the_atoms_that_it_reads(rt: HostRuntime) -> Result<(), Fail> {
    for text in [
        "@",
        "x",
        "_off",
        ".f",
        ".off",
        ".result",
        "?x",
        "?len",
        "result",
        "off(x)",
        "off(.f)",
        "off(?off)",
        "off(result)",
        "len(x)",
        "len(.len)",
        "len(?x)",
        "len(result)",
    ] {
        let atom = read_atom(rt.alloc(), text.as_bytes())?.ok_or("no atom")?;
        let again = atom.copy(rt.alloc())?;
        let mut out = Vec::new(rt.alloc());
        put_atom(&mut out, &again)?;
        assert_eq!(rt; out.as_slice(), text.as_bytes(), "{text}");
        assert_eq!(rt; atom.has_placeholder(), text.contains('?'), "{text}");
    }
    Ok(())
}

#[test]
fn reads_no_other_atom(rt: HostRuntime) -> Result<(), Fail> {
    for text in [
        "",
        "off",
        "len",
        "off()",
        "off(x",
        "offx)",
        "off (x)",
        "off( x)",
        "off(@)",
        "off(off(x))",
        "len(off)",
        ".",
        "?",
        ".int",
        "?while",
        "..f",
        ".?f",
        "@@",
        "int",
        "1",
        "x.f",
        " x",
        "x ",
        "result()",
    ] {
        let atom = read_atom(rt.alloc(), text.as_bytes())?;
        assert!(rt; atom.is_none(), "{text}");
    }
    Ok(())
}

/// Terms of these atoms.
fn terms(alloc: Global, atoms: &str) -> Result<Vec<Term>, Fail> {
    let mut terms = Vec::new(alloc);
    for text in atoms.split(' ') {
        let atom: Atom = read_atom(alloc, text.as_bytes())?.ok_or("no atom")?;
        terms.push(Term {
            coefficient: 1,
            atom,
        })?;
    }
    Ok(terms)
}

#[test]
fn tells_the_order_of_rows(rt: HostRuntime) -> Result<(), Fail> {
    for (atoms, want) in [
        ("@ .f .g x off(y) len(y) z result", true),
        ("off(x) len(x) off(result) len(result)", true),
        ("len(x) y off(z)", true),
        ("off(x) y len(x)", false),
        ("len(x) off(x)", false),
        ("off(x) off(x)", false),
        ("x x", false),
        ("x .f", false),
        (".f @", false),
        ("result x", false),
        ("@ @", false),
        (".x x", true),
    ] {
        let terms = terms(rt.alloc(), atoms)?;
        assert_eq!(rt; are_in_order(&terms), want, "{atoms}");
    }
    Ok(())
}
