use lq_lexer::{LexFault, Token, TokenKind, check_shape, lex};
use lq_tree::Limit;
use std::test::Fail;

const KEYWORDS: &str =
    "int struct void if else while for return print calloc sizeof cobegin foreach";

const ANNOTATION_WORDS: &str = "commutative atomic";

const UNUSED_WORDS: &str =
    "break continue switch case default goto do union enum typedef char short \
    long unsigned signed float double const static extern";

const NAMES: &str = "a _ Z9 _0 int2 Int fors off result main NULL atomic_ commutativ";

const NUMBERS: &str = "0 7 10 9223372036854775807";

const SIGNS: &str = "( ) { } [ ] ; , . -> + - * / % < <= > >= == != = && || ! ++ -- += -= *=";

#[test]
fn each_list_has_its_kind(rt: HostRuntime) -> Result<(), Fail> {
    for (texts, kind) in [
        (NAMES, TokenKind::Name),
        (NUMBERS, TokenKind::Number),
        (SIGNS, TokenKind::Sign),
        (KEYWORDS, TokenKind::Keyword),
        (ANNOTATION_WORDS, TokenKind::Annotation),
        (UNUSED_WORDS, TokenKind::Unused),
    ] {
        for text in texts.split(' ') {
            let whole = Token {
                start: 0,
                end: text.len(),
                kind,
            };
            let tokens = lex(rt.alloc(), text.as_bytes())?;
            assert_eq!(rt; tokens.as_slice(), [whole].as_slice(), "{text}");
        }
    }
    Ok(())
}

// Each text, where its tokens start and where they end.
#[test]
fn texts_are_cut(rt: HostRuntime) -> Result<(), Fail> {
    for (text, starts, ends) in [
        ("a-->b", "0 1 3 4", "1 3 4 5"),
        ("x+++y", "0 1 3 4", "1 3 4 5"),
        ("p->f", "0 1 3", "1 3 4"),
        ("===", "0 2", "2 3"),
        ("1<=-2", "0 1 3 4", "1 3 4 5"),
        ("int a;", "0 4 5", "3 5 6"),
        ("a//b", "0", "1"),
        ("a//b\n", "0", "1"),
        ("a//b\nc", "0 5", "1 6"),
        ("a/**/b", "0 5", "1 6"),
        ("a/***/b", "0 6", "1 7"),
        ("a/*/*/b", "0 6", "1 7"),
        ("/*//*/a", "6", "7"),
        ("///*\na", "5", "6"),
        ("\r\n\ta\r//b\r\rc\nd\r", "3 12", "4 13"),
    ] {
        let mut found_starts = String::new(rt.alloc());
        let mut found_ends = String::new(rt.alloc());
        let mut gap = "";
        for token in &lex(rt.alloc(), text.as_bytes())? {
            write!(found_starts, "{gap}{}", token.start)?;
            write!(found_ends, "{gap}{}", token.end)?;
            gap = " ";
        }
        assert_eq!(rt; found_starts.as_str(), starts, "{text}");
        assert_eq!(rt; found_ends.as_str(), ends, "{text}");
    }
    Ok(())
}

fn fault_at(fault: LexFault) -> Option<usize> {
    match fault {
        LexFault::At { at } => Some(at),
        LexFault::NoMemory => None,
    }
}

#[test]
fn faults_stand_at_their_byte(rt: HostRuntime) {
    for (text, at) in [
        (b"a \x80".as_slice(), 2),
        (b"a\x7f", 1),
        (b"\x0c", 0),
        (b"// a\x00b\n", 4),
        (b"/* \x1f */ /*", 3),
        (b"a /* \x80", 2),
        (b"a /* b", 2),
        (b"/*/", 0),
        (b"012", 0),
        (b"a 00", 2),
        (b"a 12b", 2),
        (b"1_", 0),
        (b"9223372036854775808", 0),
        (b"10000000000000000000000000", 0),
        (b"a & b", 2),
        (b"a|", 1),
        (b"x = \"y\"", 4),
        (b"#", 0),
        (b"'", 0),
        (b"a?b:c", 1),
    ] {
        let found = lex(rt.alloc(), text).err().and_then(fault_at);
        assert_eq!(rt; found, Some(at), "{text:?}");
    }
}

#[test]
fn large_texts_are_read(rt: HostRuntime) -> Result<(), Fail> {
    let size = 1 << 20;
    let name = vec![in rt.alloc(); b'a'; size]?;
    let whole = Token {
        start: 0,
        end: size,
        kind: TokenKind::Name,
    };
    let tokens = lex(rt.alloc(), &name)?;
    assert_eq!(rt; tokens.as_slice(), [whole].as_slice());

    let spaces = vec![in rt.alloc(); b' '; size]?;
    assert!(rt; lex(rt.alloc(), &spaces)?.is_empty());
    Ok(())
}

#[test]
fn shapes_have_limits(rt: HostRuntime) -> Result<(), Fail> {
    let brackets = |found| Err(Limit {
        which: 6,
        found,
        allowed: 64,
    });
    let stretch = |found| Err(Limit {
        which: 7,
        found,
        allowed: 512,
    });
    for (front, byte, count, shape) in [
        ("", b'(', 64, Ok(())),
        ("", b'[', 65, brackets(65)),
        ("))]}", b'{', 64, Ok(())),
        ("([", b'{', 65, brackets(67)),
        ("(])", b'(', 64, Ok(())),
        ("", b',', 512, Ok(())),
        ("", b',', 513, stretch(513)),
        ("a b c;", b',', 512, Ok(())),
        ("a b c{", b',', 513, stretch(513)),
        ("a b c", b',', 512, stretch(515)),
        ("", b'(', 600, brackets(600)),
    ] {
        let text = vec![in rt.alloc(); byte; count]?;
        let mut all = front.as_bytes().to_vec(rt.alloc())?;
        all.extend_from_slice(&text)?;
        let tokens = lex(rt.alloc(), &all)?;
        assert_eq!(rt; check_shape(&all, &tokens), shape, "{front} {count}");
    }
    Ok(())
}
