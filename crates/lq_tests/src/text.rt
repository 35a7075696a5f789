use lq_text::{NumbersFault, put_number, read_number, read_numbers, read_numbers_from};
use std::test::Fail;

#[test]
fn reads_one_number(rt: HostRuntime) {
    let cases: [(&[u8], Option<i64>); 20] = [
        (b"0", Some(0)),
        (b"-0", Some(0)),
        (b"7", Some(7)),
        (b"-12", Some(-12)),
        (b"007", Some(7)),
        (b"-0010", Some(-10)),
        (b"9223372036854775807", Some(9223372036854775807)),
        (b"9223372036854775808", None),
        (b"-9223372036854775808", Some(-9223372036854775808)),
        (b"-9223372036854775809", None),
        (b"", None),
        (b"-", None),
        (b"+1", None),
        (b"--1", None),
        (b"-+1", None),
        (b"1-", None),
        (b" 1", None),
        (b"1\n", None),
        (b"0x1", None),
        (b"\xb2", None),
    ];
    for (text, want) in cases {
        assert_eq!(rt; read_number(text), want, "at {text:?}");
    }
    let mut zeros = [b'0'; 4096];
    zeros[4095] = b'5';
    assert_eq!(rt; read_number(&zeros), Some(5));
}

#[test]
fn puts_numbers(rt: HostRuntime) -> Result<(), Fail> {
    let cases: [(i64, &[u8]); 6] = [
        (0, b"0"),
        (-1, b"-1"),
        (10, b"10"),
        (-907, b"-907"),
        (9223372036854775807, b"9223372036854775807"),
        (-9223372036854775808, b"-9223372036854775808"),
    ];
    for (value, want) in cases {
        let mut out = b"at ".to_vec(rt.alloc())?;
        put_number(&mut out, value)?;
        assert_eq!(rt; out.as_slice().strip_prefix(b"at "), Some(want));
        assert_eq!(rt; read_number(want), Some(value));
    }
    Ok(())
}

#[test]
fn reads_files_of_numbers(rt: HostRuntime) -> Result<(), Fail> {
    let cases: [(&[u8], &[i64]); 10] = [
        (b"", &[]),
        (b"\n\n", &[]),
        (b"1\n2\n", &[1, 2]),
        (b"1\n2", &[1, 2]),
        (b"1\r\n-2\r\n", &[1, -2]),
        (b" \t3\t \r\n\t\r -4\t", &[3, -4]),
        (b"5\n \r \n\n\r6\r\n", &[5, 6]),
        (b"\r\r\n 7", &[7]),
        (b"-0\n-9223372036854775808\n", &[0, -9223372036854775808]),
        (b"000000000000000000000000000000008", &[8]),
    ];
    for (text, want) in cases {
        let numbers = read_numbers(rt.alloc(), text)?;
        assert_eq!(rt; numbers.as_slice(), want, "at {text:?}");
    }
    let picks = read_numbers_from(rt.alloc(), b"3\n-0\n\n2", 0)?;
    assert_eq!(rt; picks.as_slice(), [3, 0, 2].as_slice());
    Ok(())
}

#[test]
fn tells_the_first_bad_line(rt: HostRuntime) {
    let cases: [(&[u8], i64, u64); 12] = [
        (b"12\r\r", i64::MIN, 1),
        (b"\r\r12", i64::MIN, 1),
        (b"\r\r\r", i64::MIN, 1),
        (b"1 2", i64::MIN, 1),
        (b"1\n\nx\ny\n", i64::MIN, 3),
        (b"1\n+2\n", i64::MIN, 2),
        (b"1\n\n \n9223372036854775808", i64::MIN, 4),
        (b"1\x0c\n", i64::MIN, 1),
        (b"1\n\xff\n", i64::MIN, 2),
        (b"5\n-1\nx\n", 0, 2),
        (b"5\nx\n-1\n", 0, 2),
        (b"7\n6\n", 7, 2),
    ];
    for (text, least, want) in cases {
        let line = match read_numbers_from(rt.alloc(), text, least) {
            Err(NumbersFault::BadLine { line }) => line,
            _ => 0,
        };
        assert_eq!(rt; line, want, "at {text:?}");
    }
}

// As many numbers as the commands allow in one file.
#[test]
fn reads_a_million_numbers(rt: HostRuntime) -> Result<(), Fail> {
    let mut text = Vec::new(rt.alloc());
    for _ in 0..1_048_576 {
        text.extend_from_slice(b"-12\r\n")?;
    }
    let numbers = read_numbers(rt.alloc(), &text)?;
    assert_eq!(rt; numbers.len(), 1_048_576);
    assert_eq!(rt; numbers.iter().all(|number| *number == -12), true);
    Ok(())
}

#[test]
fn tells_faults_in_words(rt: HostRuntime) -> Result<(), Fail> {
    let bad = NumbersFault::BadLine { line: 12 };
    assert_eq!(rt; bad.to_string(rt.alloc())?.as_str(), "bad line 12");
    let none = NumbersFault::NoMemory;
    assert_eq!(rt; none.to_string(rt.alloc())?.as_str(), "out of memory");
    Ok(())
}
