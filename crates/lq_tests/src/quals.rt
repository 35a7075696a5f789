use lq_quals::{QualFault, Qualifier, read_quals, write_quals};
use std::alloc::Global;
use std::test::Fail;

// Texts, and how what they say is written.
const READS: [(&[u8], &[u8]); 66] = [
    (b"", b""),
    (b"\n \t\n\r\n", b""),
    (b"# a < < \xff\n \t#\r\r\n", b""),
    (b"0 <= k", b"-1*k <= 0\n"),
    (b"@ == i\n", b"1*@ - 1*i == 0\n"),
    (b"lo <= i", b"1*lo - 1*i <= 0\n"),
    (
        b"off(a) + hi <= len(a)",
        b"1*off(a) + 1*hi - 1*len(a) <= 0\n",
    ),
    (b"@ < off(a) + hi", b"1*@ - 1*off(a) - 1*hi <= -1\n"),
    (b"4*i <= @", b"4*i - 1*@ <= 0\n"),
    (b"@ < 4*i + 4", b"1*@ - 4*i <= 3\n"),
    (b"k > 3", b"-1*k <= -4\n"),
    (b"k >= 3", b"-1*k <= -3\n"),
    (b"3 > k", b"1*k <= 2\n"),
    (b"3 >= k", b"1*k <= 3\n"),
    (b"a - a + b <= 2*b - 7", b"-1*b <= -7\n"),
    (b" off ( . p ) <= . n\t\r\n", b"1*off(.p) - 1*.n <= 0\n"),
    (b"? x<=result", b"1*?x - 1*result <= 0\n"),
    (b"a<b\nb<a\n", b"1*a - 1*b <= -1\n-1*a + 1*b <= -1\n"),
    (b"-a <= -3", b"-1*a <= -3\n"),
    (b"- 2 * a==5", b"-2*a == 5\n"),
    (b"3 == a", b"-1*a == -3\n"),
    (
        b"9223372036854775807*a - 9223372036854775807*a + b <= 0",
        b"1*b <= 0\n",
    ),
    (b"65536*a <= 1099511627776", b"65536*a <= 1099511627776\n"),
    (
        b"-65536*a == -1099511627776",
        b"-65536*a == -1099511627776\n",
    ),
    (b"a < 1099511627777", b"1*a <= 1099511627776\n"),
    (
        b"a + 9223372036854775807 <= 9223372036854775807",
        b"1*a <= 0\n",
    ),
    (b".off <= .result", b"1*.off - 1*.result <= 0\n"),
    (b"?len <= ?off", b"1*?len - 1*?off <= 0\n"),
    (b"len(result) <= 5", b"1*len(result) <= 5\n"),
    (b"off(?p) <= len(?p)", b"1*off(?p) - 1*len(?p) <= 0\n"),
    (b"0*a + b <= 1", b"1*b <= 1\n"),
    (b"4 <= a + 4", b"-1*a <= 0\n"),
    (b"a - a + .n <= 3", b"1*.n <= 3\n"),
    (b"@ - @ + result <= 3", b"1*result <= 3\n"),
    (b"result - result <= @", b"-1*@ <= 0\n"),
    (b"a <= b - 2*a", b"3*a - 1*b <= 0\n"),
    (
        b"a+b+c+d+e+f+g+h+i+j+k+l+m+n+o+p-q<=p-q",
        b"1*a + 1*b + 1*c + 1*d + 1*e + 1*f + 1*g + 1*h + 1*i + 1*j + 1*k + 1*l + 1*m + 1*n + 1*o <= 0\n",
    ),
    (
        b"a >= b\n# then\n\nc > a\n",
        b"-1*a + 1*b <= 0\n1*a - 1*c <= -1\n",
    ),
    (b"a1 <= _b\r\n_b <= 0\r", b"1*a1 - 1*_b <= 0\n1*_b <= 0\n"),
    (b"10*a - 3 + 20*b < 7 + 5*b - 2*a", b"12*a + 15*b <= 9\n"),
    (b"a<=b", b"1*a - 1*b <= 0\n"),
    (b"a>=b", b"-1*a + 1*b <= 0\n"),
    (b"a>b", b"-1*a + 1*b <= -1\n"),
    (b"a - b == -7", b"1*a - 1*b == -7\n"),
    (b"1*a <= 2", b"1*a <= 2\n"),
    (b"a + a <= 2", b"2*a <= 2\n"),
    (b"2*a + 3*a - 4*a <= 1 + 2 - 4", b"1*a <= -1\n"),
    (
        b"off(result) <= len(result)",
        b"1*off(result) - 1*len(result) <= 0\n",
    ),
    (b".a + .b <= len(.c)", b"1*.a + 1*.b - 1*len(.c) <= 0\n"),
    (b"off(.p) < len(.p)", b"1*off(.p) - 1*len(.p) <= -1\n"),
    (b"@ <= len(a) - 1", b"1*@ - 1*len(a) <= -1\n"),
    (b"@ >= ?x", b"-1*@ + 1*?x <= 0\n"),
    (b"result == ?n + 1", b"1*result - 1*?n == 1\n"),
    (b"\t-\ta\t<=\t0\t", b"-1*a <= 0\n"),
    (b"0 == a", b"-1*a == 0\n"),
    (b"0 > a", b"1*a <= -1\n"),
    (b"a > -1099511627777", b"-1*a <= 1099511627776\n"),
    (b"1099511627776 <= a", b"-1*a <= -1099511627776\n"),
    (
        b"9223372036854775807 <= a + 9223372036854775807",
        b"-1*a <= 0\n",
    ),
    (b"a + 0*b <= 0 - 0", b"1*a <= 0\n"),
    (b"integer <= interval", b"1*integer - 1*interval <= 0\n"),
    (b"_ <= __", b"1*_ - 1*__ <= 0\n"),
    (b"len(?result) <= ?off", b"1*len(?result) - 1*?off <= 0\n"),
    (b"b <= a\na <= b\n", b"1*b - 1*a <= 0\n-1*b + 1*a <= 0\n"),
    (
        b"a<=b\r\n\r\nb<=a\r\n",
        b"1*a - 1*b <= 0\n-1*a + 1*b <= 0\n",
    ),
    (
        b"a+b+c+d+e+f+g+h+i+j+k+l+m+n+o+p>=0",
        b"-1*a - 1*b - 1*c - 1*d - 1*e - 1*f - 1*g - 1*h - 1*i - 1*j - 1*k - 1*l - 1*m - 1*n - 1*o - 1*p <= 0\n",
    ),
];

#[test]
fn reads_lines(rt: HostRuntime) -> Result<(), Fail> {
    for (text, want) in READS {
        let quals = read_quals(rt.alloc(), text)?;
        let written = write_again(rt.alloc(), text)?;
        assert_eq!(rt; written.as_slice(), want, "at {text:?}");
        let again = write_again(rt.alloc(), want)?;
        assert_eq!(rt; again.as_slice(), want, "again at {text:?}");
        assert!(rt; quals.list.len() < 3);
    }
    Ok(())
}

// Texts, and their first bad lines.
const BAD: [(&[u8], u64); 84] = [
    (b"k * k <= 3", 1),
    (b"x <= x", 1),
    (b"3 <= 4", 1),
    (b"0*x <= 1", 1),
    (b"a b <= 3", 1),
    (b"a < = 3", 1),
    (b"a = = 3", 1),
    (b"a > = 3", 1),
    (b"a = 3", 1),
    (b"a != 3", 1),
    (b"a === 3", 1),
    (b"a <== 3", 1),
    (b"a << 3", 1),
    (b"a => 3", 1),
    (b"a <= 03", 1),
    (b"a <= 3x", 1),
    (b"a <= 1 2", 1),
    (b"a <=", 1),
    (b"<= a", 1),
    (b"a", 1),
    (b"a <= b <= c", 1),
    (b"a <= - - b", 1),
    (b"+a <= 3", 1),
    (b"a + + b <= 3", 1),
    (b"a + - b <= 3", 1),
    (b"a + <= 3", 1),
    (b"2a <= 3", 1),
    (b"2 a <= 3", 1),
    (b"a*2 <= 3", 1),
    (b"2*3 <= a", 1),
    (b"2*2*a <= 3", 1),
    (b"2*-a <= 3", 1),
    (b"(a) <= 3", 1),
    (b"off(a <= 3", 1),
    (b"off a <= 3", 1),
    (b"off(3) <= 3", 1),
    (b"off(off) <= 3", 1),
    (b"off(@) <= 3", 1),
    (b"off <= 3", 1),
    (b"len <= 3", 1),
    (b"size(a) <= 3", 1),
    (b".int <= 3", 1),
    (b"int <= 3", 1),
    (b"?while <= 3", 1),
    (b"atomic <= 3", 1),
    (b"off(goto) <= 3", 1),
    (b".n <= a", 1),
    (b".n <= @", 1),
    (b"len(.n) <= result", 1),
    (b"@ <= result", 1),
    (b"@ <= off(result)", 1),
    (b"a <= 9223372036854775808", 1),
    (b"65537*a <= 0", 1),
    (b"65536*a + a <= 0", 1),
    (b"a <= 1099511627777", 1),
    (b"a < -1099511627776", 1),
    (b"a <= 3\r\r", 1),
    (b"a\r <= 3", 1),
    (b"a <= 3 # three", 1),
    (b"\xb2 <= a", 1),
    (b"\x0ba <= 3", 1),
    (b"a & 3", 1),
    (b"a <= 3\nb\n", 2),
    (b"a <= 3\n\n#\nb <\nc <=\n", 4),
    (b"a+b+c+d+e+f+g+h+i+j+k+l+m+n+o+p+q<=0", 1),
    (b"\n\n\n;", 4),
    (b"o f f(a) <= 3", 1),
    (b"1 0 <= a", 1),
    (b"a <= b c", 1),
    (b"a >\t= 3", 1),
    (b".n + .m <= result", 1),
    (b"@ + off(result) <= 0", 1),
    (b"len(len) <= 3", 1),
    (b"result() <= 3", 1),
    (b"? <= 3", 1),
    (b". <= 3", 1),
    (b"?1 <= 3", 1),
    (b"a <= -03", 1),
    (b"a <= 18446744073709551616", 1),
    (b"off(off(a)) <= 3", 1),
    (b"a <= 3\nfor <= 3", 2),
    (b"# fine\na <= 0\n\nb <= 65537*c", 4),
    (b"a - a == 0", 1),
    (b"a <= 3\x0c", 1),
];

#[test]
fn tells_the_first_bad_line(rt: HostRuntime) -> Result<(), Fail> {
    for (text, want) in BAD {
        assert_eq!(rt; bad_line_of(rt.alloc(), text)?, want, "at {text:?}");
    }
    Ok(())
}

// Atoms are numbered line by line, in the order in which they come first and stay.
#[test]
fn numbers_atoms(rt: HostRuntime) -> Result<(), Fail> {
    let quals = read_quals(rt.alloc(), b"a - a + b > c\nd == a - b\n")?;
    assert_eq!(rt; quals.atoms.len(), 4);
    let [Qualifier::AtMost(row), Qualifier::Equal(equal, opposite)] = quals.list.as_slice() else {
        return Err("other qualifiers")?;
    };
    assert_eq!(rt; row.form.terms(), [(0, -1), (1, 1)].as_slice());
    assert_eq!(rt; row.most, -1);
    assert_eq!(rt; equal.form.terms(), [(0, 1), (2, 1), (3, -1)].as_slice());
    assert_eq!(rt;
        opposite.form.terms(),
        [(0, -1), (2, -1), (3, 1)].as_slice()
    );
    Ok(())
}

// The largest texts: one long line, and many lines.
#[test]
fn reads_large_texts(rt: HostRuntime) -> Result<(), Fail> {
    let mut sum = Vec::new(rt.alloc());
    for _ in 0..32_766 {
        sum.extend_from_slice(b"a+")?;
    }
    sum.extend_from_slice(b"a<=0")?;
    assert_eq!(rt; sum.len(), 65_536);
    assert_eq!(rt;
        write_again(rt.alloc(), &sum)?.as_slice(),
        b"32767*a <= 0\n".as_slice()
    );
    let brackets = [b'('; 65_536];
    assert_eq!(rt; bad_line_of(rt.alloc(), &brackets)?, 1);
    let spaces = [b' '; 65_536];
    assert_eq!(rt; bad_line_of(rt.alloc(), &spaces)?, 0);
    let mut lines = Vec::new(rt.alloc());
    for _ in 0..65_535 {
        lines.push(b'\n')?;
    }
    assert_eq!(rt; bad_line_of(rt.alloc(), &lines)?, 0);
    lines.push(b'x')?;
    assert_eq!(rt; bad_line_of(rt.alloc(), &lines)?, 65_536);
    Ok(())
}

// The longest name and the longest number, and as many qualifiers as a text of this size has.
#[test]
fn reads_long_words(rt: HostRuntime) -> Result<(), Fail> {
    let mut name = Vec::new(rt.alloc());
    for _ in 0..65_533 {
        name.push(b'n')?;
    }
    name.extend_from_slice(b">=0")?;
    let written = write_again(rt.alloc(), &name)?;
    assert_eq!(rt; written.len(), 65_542);
    assert!(rt; written.starts_with(b"-1*nnn") && written.ends_with(b"n <= 0\n"));
    let digits = [b'1'; 65_536];
    assert_eq!(rt; bad_line_of(rt.alloc(), &digits)?, 1);
    let mut lines = Vec::new(rt.alloc());
    for _ in 0..13_107 {
        lines.extend_from_slice(b"a<=1\n")?;
    }
    let quals = read_quals(rt.alloc(), &lines)?;
    assert_eq!(rt; (quals.atoms.len(), quals.list.len()), (1, 13_107));
    lines.push(b'a')?;
    assert_eq!(rt; bad_line_of(rt.alloc(), &lines)?, 13_108);
    Ok(())
}

// What the qualifiers of a text are written as.
fn write_again(alloc: Global, text: &[u8]) -> Result<Vec<u8>, Fail> {
    let quals = read_quals(alloc, text)?;
    Ok(write_quals(alloc, &quals)?)
}

// The first bad line of a text, or 0 where it has none.
fn bad_line_of(alloc: Global, text: &[u8]) -> Result<u64, Fail> {
    match read_quals(alloc, text) {
        Ok(_) => Ok(0),
        Err(QualFault::BadQual { line }) => Ok(line),
        Err(QualFault::NoMemory) => Err("out of memory")?,
    }
}
