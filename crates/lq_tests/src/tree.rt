use lq_tree::{Boxed, Expr, Limit, Name, Place, Quantity, is_step, place_of};
use std::test::Fail;

#[test]
fn finds_places(rt: HostRuntime) {
    let cases: [(&[u8], usize, u32, u32); 14] = [
        (b"", 0, 1, 1),
        (b"int", 0, 1, 1),
        (b"int", 2, 1, 3),
        (b"int", 3, 1, 4),
        (b"a\nbc", 1, 1, 2),
        (b"a\nbc", 2, 2, 1),
        (b"a\nbc", 4, 2, 3),
        (b"a\n", 2, 2, 1),
        (b"\n\n\n", 3, 4, 1),
        (b"a\r\nb", 2, 1, 3),
        (b"a\r\nb", 3, 2, 1),
        (b"a\rb", 2, 1, 3),
        (b"\t\tx", 2, 1, 3),
        (b"\xc3\xa9x", 2, 1, 3),
    ];
    for (text, at, line, col) in cases {
        assert!(rt; at <= text.len());
        assert!(rt; at < 100);
        assert_eq!(rt;
            place_of(text, at),
            Place { line, col },
            "at {at} of {text:?}"
        );
    }
}

#[test]
fn keeps_names(rt: HostRuntime) -> Result<(), Fail> {
    let cases: [&[u8]; 3] = [b"x", b"_next2", b"main"];
    for bytes in cases {
        let name = Name::from_slice(rt.alloc(), bytes)?;
        assert_eq!(rt; name.as_bytes(), bytes);
    }
    Ok(())
}

// -(5), whose operand stands in a box inside its own type.
#[test]
fn keeps_boxed_values(rt: HostRuntime) -> Result<(), Fail> {
    let five = Boxed::new(rt.alloc(), Expr::Num(5))?;
    let negated = Boxed::new(rt.alloc(), Expr::Neg(five))?;
    let found = match negated.get() {
        Expr::Neg(operand) => match operand.get() {
            Expr::Num(number) => Some(*number),
            _ => None,
        },
        _ => None,
    };
    assert_eq!(rt; found, Some(5));
    Ok(())
}

#[test]
fn tells_limits(rt: HostRuntime) -> Result<(), Fail> {
    assert_eq!(rt; Quantity::numbered(0), None);
    assert_eq!(rt; Quantity::numbered(1), Some(Quantity::SourceBytes));
    assert_eq!(rt; Quantity::numbered(18), Some(Quantity::Arms));
    assert_eq!(rt; Quantity::numbered(19), None);
    let branches = Quantity::numbered(14).ok_or("no quantity")?;
    assert_eq!(rt; branches.to_string(rt.alloc())?.as_str(), "branches");
    assert_eq!(rt; branches.check(16), Ok(()));
    let limit = Limit {
        which: 14,
        found: 17,
        allowed: 16,
    };
    assert_eq!(rt; branches.check(17), Err(limit));
    Ok(())
}

#[test]
fn tells_steps(rt: HostRuntime) {
    for (step, answer) in [
        (-1, false),
        (0, false),
        (1, true),
        (65_536, true),
        (65_537, false),
    ] {
        assert_eq!(rt; is_step(step), answer, "the step {step}");
    }
}
