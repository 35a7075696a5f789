use super::call;
use lq_shelf::MemSink;
use std::alloc::{AllocError, Global};
use std::process::Abort;
use std::test::Fail;

const UNGUARDED_READ: &[u8] = b"int main(int *in, int n) {\n  print(in[0]);\n  return 0;\n}\n";

const GUARDED_READ: &[u8] =
    b"int main(int *in, int n) {\n  if (n > 0) { print(in[0]); }\n  return 0;\n}\n";

const SQUARES: &[u8] =
    b"int main(int *in, int n) {\n  int *a = calloc(5, sizeof(int));\n  foreach (i, 0, 5) { a[i] = i * i; }\n  int k = 0;\n  while (k < 5) { print(a[k]); k = k + 1; }\n  return 0;\n}\n";

const LEAST_WORD: &[u8] = b"int main(void) {\n  print(0 - 9223372036854775807 - 1);\n}\n";

const ENDLESS_FIRST: &[u8] =
    b"int main(int *in, int n) {\n  int *a = calloc(1, sizeof(int));\n  cobegin {\n    { while (0 == 0) { a[0] = 1; } }\n    { a[0] = 2; }\n  }\n  return 0;\n}\n";

const HALVES: &[u8] =
    b"void fill(int *a, int lo, int hi, int v) {\n  int i = lo;\n  while (i < hi) { a[i] = v; i = i + 1; }\n}\nint main(int *in, int n) {\n  if (n < 2) { return 0; }\n  int mid = n / 2;\n  cobegin {\n    { fill(in, 0, mid, 1); }\n    { fill(in, mid, n, 2); }\n  }\n  print(in[0]);\n  print(in[n - 1]);\n  return 0;\n}\n";

const MIDDLE_OVERFLOW: &[u8] =
    b"int main(int *in, int n) {\n  int *a = calloc(3, sizeof(int));\n  cobegin {\n    { a[0] = 1; }\n    { a[1] = 9223372036854775807 + 1; }\n    { a[2] = 3; }\n  }\n  print(a[0]);\n  return 0;\n}\n";

const ZERO_FIRST: &[u8] =
    b"int main(int *in, int n) {\n  int *a = calloc(3, sizeof(int));\n  cobegin {\n    { a[0] = 1 / 0; }\n    { a[1] = 2; }\n    { a[2] = 0 - 9223372036854775807 - 2; }\n  }\n  print(a[0]);\n  return 0;\n}\n";

const VECTOR: &[u8] =
    b"struct Vec { int n; int *data; };\nint main(int *in, int n) {\n  struct Vec *v = calloc(1, sizeof(struct Vec));\n  v->n = 8;\n  v->data = calloc(8, sizeof(int));\n  int i = 0;\n  while (i < v->n) { v->data[i] = 10 * i; i = i + 1; }\n  if (v->n > 7) { print(v->data[7]); }\n  return 0;\n}\n";

const INDIRECT: &[u8] =
    b"int main(int *in, int n) {\n  int *a = calloc(4, sizeof(int));\n  int *b = calloc(3, sizeof(int));\n  b[0] = 3;\n  b[1] = 1;\n  int i = 0;\n  while (i < 3) { a[b[i]] = 5; i = i + 1; }\n  print(a[3]);\n  return 0;\n}\n";

const NESTED: &[u8] =
    b"int main(void) {\n  int *a = calloc(2, sizeof(int));\n  cobegin {\n    { a[0] = 1; }\n    { a[1] = 2; if (a[1] == 2) { cobegin { { a[1] = 3; } { ; } } } }\n  }\n  print(a[0]);\n  print(a[1]);\n  return 0;\n}\n";

const EMPTY_RANGES: &[u8] =
    b"int main(void) {\n  int *a = calloc(1, sizeof(int));\n  foreach (i, 3, 3) { a[i] = 1; }\n  foreach (i, 5, 2) { a[i] = 1; }\n  print(7);\n  return 0;\n}\n";

const DEPTH: &[u8] = b"void f(void) { f(); }\nint main(void) { f(); return 0; }\n";

const TRAP_BEHIND_STORES: &[u8] =
    b"int main(void) {\n  int *a = calloc(2, sizeof(int));\n  print(5);\n  cobegin {\n    { a[0] = 1; a[0] = 2; a[0] = 1 / 0; a[0] = 3; }\n    { a[1] = 4; }\n  }\n  print(6);\n}\n";

const EVERY_SECOND: &[u8] =
    b"int main(int *in, int n) {\n  foreach (i, 0, 5, 2) { in[i] = 1; }\n  print(in[0]);\n  print(in[1]);\n  print(in[2]);\n  print(in[3]);\n  print(in[4]);\n}\n";

const LARGE_RANGE: &[u8] =
    b"int main(int *in, int n) {\n  foreach (i, 0, 2097154, 2) { in[0] = 1; }\n  print(in[0]);\n  print(in[1]);\n  print(in[2]);\n  print(in[3]);\n  print(in[4]);\n}\n";

const NO_INPUT: &[u8] = b"int main(void) {\n  print(3);\n  return 0;\n}\n";

const LEAST_BY_MINUS_ONE: &[u8] =
    b"int main(void) {\n  int m = 0 - 9223372036854775807 - 1;\n  print(m / -1);\n  return 0;\n}\n";

const LARGE_LITERAL: &[u8] =
    b"int main(void) {\n  int m = 0 - 9223372036854775808 - 1;\n  print(m / -1);\n  return 0;\n}\n";

const TWO_STORES: &[u8] =
    b"int main(void) {\n  int *a = calloc(2, sizeof(int));\n  cobegin {\n    { a[0] = 1; }\n    { a[1] = 2; }\n  }\n  print(a[0]);\n  print(a[1]);\n  return 0;\n}\n";

const PRINTS_INPUT: &[u8] =
    b"int main(int *in, int n) {\n  print(n);\n  int k = 0;\n  while (k < n) { print(in[k]); k = k + 1; }\n  return 0;\n}\n";

// Sources, each with its input, the fuel and the words, and the status and the bytes that are due.
const RUNS: [(&[u8], &[u8], &str, &str, u8, &[u8]); 24] = [
    (UNGUARDED_READ, b"", "1000", "100", 13, b"stray at 2:3\n"),
    (GUARDED_READ, b"", "1000", "100", 0, b""),
    (UNGUARDED_READ, b"-4\n", "1000", "100", 0, b"-4\n"),
    (SQUARES, b"", "27", "100", 0, b"0\n1\n4\n9\n16\n"),
    (
        SQUARES,
        b"",
        "26",
        "100",
        8,
        b"0\n1\n4\n9\n16\nout of fuel\n",
    ),
    (LEAST_WORD, b"", "1000", "100", 0, b"-9223372036854775808\n"),
    (
        LEAST_BY_MINUS_ONE,
        b"",
        "1000",
        "100",
        1,
        b"trap overflow at 3:3\n",
    ),
    (
        LARGE_LITERAL,
        b"",
        "1000",
        "100",
        3,
        b"lexical fault at 2:15\n",
    ),
    (ENDLESS_FIRST, b"", "1000", "100", 8, b"out of fuel\n"),
    (HALVES, b"9\n9\n9\n9\n9\n", "1000", "100", 0, b"1\n2\n"),
    (
        MIDDLE_OVERFLOW,
        b"",
        "1000",
        "100",
        1,
        b"trap overflow at 5:7\n",
    ),
    (MIDDLE_OVERFLOW, b"", "2", "100", 8, b"out of fuel\n"),
    (ZERO_FIRST, b"", "1000", "100", 1, b"trap zero at 4:7\n"),
    (VECTOR, b"", "1000", "100", 0, b"70\n"),
    (INDIRECT, b"", "1000", "100", 0, b"5\n"),
    (NESTED, b"", "1000", "100", 0, b"1\n3\n"),
    (EMPTY_RANGES, b"", "2", "100", 0, b"7\n"),
    (DEPTH, b"", "1024", "100", 1, b"trap depth at 1:16\n"),
    (DEPTH, b"", "1023", "100", 8, b"out of fuel\n"),
    (
        TRAP_BEHIND_STORES,
        b"",
        "1000",
        "100",
        1,
        b"5\ntrap zero at 5:27\n",
    ),
    (
        EVERY_SECOND,
        b"0\n0\n0\n0\n0\n",
        "1000",
        "100",
        0,
        b"1\n0\n1\n0\n1\n",
    ),
    (
        LARGE_RANGE,
        b"0\n0\n0\n0\n0\n",
        "1000",
        "100",
        1,
        b"trap range at 2:3\n",
    ),
    (NO_INPUT, b"x\n", "1000", "100", 6, b"bad input line 1\n"),
    (NO_INPUT, b"1\n2\n", "1000", "1", 0, b"3\n"),
];

// The second line of a source, and the kind of its trap on an input of one number with nine words.
const TRAPS: [(&str, &str); 6] = [
    ("  int x = 1 / (n - 1);", "zero"),
    ("  int x = 9223372036854775807 + n;", "overflow"),
    ("  int *p = in + 2147483648;", "offset"),
    ("  int *p = calloc(n - 1, sizeof(int));", "count"),
    ("  int *p = calloc(9, sizeof(int));", "words"),
    ("  foreach (i, 0, 1048577) { in[0] = 1; }", "range"),
];

// The fuel and the words of a run of the two stores, and the status and the bytes that are due.
const ROOMS: [(&str, &str, u8, &str); 18] = [
    ("1000", "100", 0, "1\n2\n"),
    ("0", "100", 12, "bad words\n"),
    ("1099511627777", "100", 12, "bad words\n"),
    ("", "100", 12, "bad words\n"),
    ("-1", "100", 12, "bad words\n"),
    ("+7", "100", 12, "bad words\n"),
    ("7x", "100", 12, "bad words\n"),
    ("18446744073709551623", "100", 12, "bad words\n"),
    ("1000", "0", 12, "bad words\n"),
    ("1000", "1048577", 12, "bad words\n"),
    ("1000", "", 12, "bad words\n"),
    ("1000", "-1", 12, "bad words\n"),
    ("1000", "+7", 12, "bad words\n"),
    ("1000", "7x", 12, "bad words\n"),
    ("1000", "18446744073709551623", 12, "bad words\n"),
    ("1099511627776", "1048576", 0, "1\n2\n"),
    ("4194305", "100", 0, "1\n2\n"),
    ("1", "1", 1, "trap words at 2:3\n"),
];

// Inputs, each with the status and the bytes where a source prints how many numbers there are, and then each of them.
const INPUTS: [(&[u8], u8, &str); 36] = [
    (b"", 0, "0\n"),
    (b"\n\n0\n\n\n1\n\n", 0, "2\n0\n1\n"),
    (b"\n\n\n", 0, "0\n"),
    (b"  \n\t\n \t \n0\n", 0, "1\n0\n"),
    (b"  1\n\t0\n1 \n0\t\n \t1\t \n", 0, "5\n1\n0\n1\n0\n1\n"),
    (b"0\r\n1\r\n\r\n0\r\n", 0, "3\n0\n1\n0\n"),
    (b"0\n1\n0", 0, "3\n0\n1\n0\n"),
    (b"9223372036854775807\n", 0, "1\n9223372036854775807\n"),
    (
        b"0000009223372036854775807\n",
        0,
        "1\n9223372036854775807\n",
    ),
    (b"x\n", 6, "bad input line 1\n"),
    (b"12\nx\n", 6, "bad input line 2\n"),
    (b"1\n2x\n", 6, "bad input line 2\n"),
    (b"\n\n1\n \nx\n", 6, "bad input line 5\n"),
    (b"1 2\n", 6, "bad input line 1\n"),
    (b"1\t2\n", 6, "bad input line 1\n"),
    (b"1,\n", 6, "bad input line 1\n"),
    (b"+1\n", 6, "bad input line 1\n"),
    (b"0\n-\n", 6, "bad input line 2\n"),
    (b"--1\n", 6, "bad input line 1\n"),
    (b"- 1\n", 6, "bad input line 1\n"),
    (b"1.0\n", 6, "bad input line 1\n"),
    (b"0x1\n", 6, "bad input line 1\n"),
    (b"1_0\n", 6, "bad input line 1\n"),
    (b"9223372036854775808\n", 6, "bad input line 1\n"),
    (b"18446744073709551617\n", 6, "bad input line 1\n"),
    (
        b"0\n0\n999999999999999999999999999999999999999999999999999999999999\n",
        6,
        "bad input line 3\n",
    ),
    (b"1\r2\n", 6, "bad input line 1\n"),
    (b"0\n\x0c1\n", 6, "bad input line 2\n"),
    (b"1\x0b\n", 6, "bad input line 1\n"),
    (b"0\n1\0\n", 6, "bad input line 2\n"),
    (b"0\n\xc2\xa01\n", 6, "bad input line 2\n"),
    (b"# 1\n", 6, "bad input line 1\n"),
    (b"1\nx\ny\n", 6, "bad input line 2\n"),
    (b"1\nx", 6, "bad input line 2\n"),
    (
        b"-1\n-0\n  -9223372036854775808\t\r\n",
        0,
        "3\n-1\n0\n-9223372036854775808\n",
    ),
    (b"1\n-9223372036854775809\n", 6, "bad input line 2\n"),
];

// Whether a call on a source and its input tells what is due.
fn tells(
    rt: &impl Abort,
    alloc: Global,
    files: (&[u8], &[u8]),
    room: (&str, &str),
    due: (u8, &[u8]),
) -> Result<(), AllocError> {
    let mut out = MemSink::new(alloc, Vec::new(alloc));
    let words = ["seq", "s", "i", room.0, room.1];
    let status = call(
        alloc,
        &words,
        &[("s", files.0), ("i", files.1)],
        &[],
        &mut out,
    )?;
    assert_eq!(rt; out.written(), due.1);
    assert_eq!(rt; status, due.0);
    Ok(())
}

#[test]
fn runs_in_order(rt: HostRuntime) -> Result<(), Fail> {
    for (source, input, fuel, words, status, written) in RUNS {
        let files = (source, input);
        tells(&rt, rt.alloc(), files, (fuel, words), (status, written))?;
    }
    Ok(())
}

#[test]
fn tells_each_kind_of_trap(rt: HostRuntime) -> Result<(), Fail> {
    let alloc = rt.alloc();
    for (line, kind) in TRAPS {
        let source = format!(in alloc; "int main(int *in, int n) {{\n{line}\n  return 0;\n}}\n")?;
        let told = format!(in alloc; "trap {kind} at 2:3\n")?;
        let files = (source.as_bytes(), b"5\n".as_slice());
        tells(&rt, alloc, files, ("1000", "9"), (1, told.as_bytes()))?;
        // An input that is longer than the words traps first.
        let files = (source.as_bytes(), b"5\n6\n".as_slice());
        tells(
            &rt,
            alloc,
            files,
            ("1000", "1"),
            (1, b"trap words at 1:1\n"),
        )?;
    }
    Ok(())
}

#[test]
fn reads_the_fuel_and_the_words(rt: HostRuntime) -> Result<(), Fail> {
    for (fuel, words, status, written) in ROOMS {
        let files = (TWO_STORES, b"".as_slice());
        tells(
            &rt,
            rt.alloc(),
            files,
            (fuel, words),
            (status, written.as_bytes()),
        )?;
    }
    Ok(())
}

#[test]
fn reads_the_input(rt: HostRuntime) -> Result<(), Fail> {
    for (input, status, written) in INPUTS {
        let files = (PRINTS_INPUT, input);
        tells(
            &rt,
            rt.alloc(),
            files,
            ("1000", "100"),
            (status, written.as_bytes()),
        )?;
    }
    Ok(())
}

#[test]
fn wants_four_words_behind_its_name(rt: HostRuntime) -> Result<(), Fail> {
    let alloc = rt.alloc();
    let all = ["seq", "s", "i", "1000", "100", "1"];
    for count in [1, 4, 6] {
        let mut out = MemSink::new(alloc, Vec::new(alloc));
        let status = call(
            alloc,
            &all[..count],
            &[("s", TWO_STORES), ("i", b"")],
            &[],
            &mut out,
        )?;
        assert_eq!(rt; status, 12);
        assert_eq!(rt; out.written(), b"bad words\n".as_slice());
    }
    Ok(())
}

#[test]
fn tells_what_it_cannot_read(rt: HostRuntime) -> Result<(), Fail> {
    let alloc = rt.alloc();
    let words = ["seq", "s", "i", "1000", "100"];
    let both = [("s", NO_INPUT), ("i", b"".as_slice())];
    // The source is fetched first, and the input also where `main` takes none.
    for (files, failing, written) in [
        (&both[..0], 0, "read fault s\n"),
        (&both[..1], 0, "read fault i\n"),
        (&both[1..], 0, "read fault s\n"),
        (&both[..], 1, "read fault s\n"),
        (&both[..], 2, "read fault i\n"),
    ] {
        let mut out = MemSink::new(alloc, Vec::new(alloc));
        let status = call(alloc, &words, files, &[failing], &mut out)?;
        assert_eq!(rt; status, 9);
        assert_eq!(rt; out.written(), written.as_bytes());
    }
    Ok(())
}

#[test]
fn breaks_off_where_a_piece_does(rt: HostRuntime) -> Result<(), Fail> {
    let alloc = rt.alloc();
    let words = ["seq", "s", "i", "1000", "100"];
    let files = [("s", SQUARES), ("i", b"".as_slice())];
    // Each printed number is one piece.
    let mut out = MemSink::new(alloc, vec![in alloc; (5, 1)]?);
    let status = call(alloc, &words, &files, &[], &mut out)?;
    assert_eq!(rt; status, 10);
    assert_eq!(rt; out.written(), b"0\n1\n4\n9\n1".as_slice());
    Ok(())
}
