use super::{Asked, ample, status_of};
use lq_shelf::MemSink;
use std::test::Fail;

const TWO_STORES: &str =
    "int main(void) {\n  int *a = calloc(2, sizeof(int));\n  cobegin {\n    { a[0] = 1; }\n    { a[1] = 2; }\n  }\n  print(a[0]);\n  print(a[1]);\n  return 0;\n}\n";

const SAME_ELEMENT: &str =
    "int main(void) {\n  int *a = calloc(2, sizeof(int));\n  cobegin {\n    { a[0] = 1; }\n    { a[0] = 2; }\n  }\n  print(a[0]);\n  print(a[1]);\n  return 0;\n}\n";

const PAST_END: &str =
    "int main(void) {\n  int *a = calloc(2, sizeof(int));\n  cobegin {\n    { a[0] = 1; }\n    { a[2] = 2; }\n  }\n  print(a[0]);\n  print(a[1]);\n  return 0;\n}\n";

const NO_LITERAL: &str =
    "int main(void) {\n  int *a = calloc(2, sizeof(int));\n  cobegin {\n    { a[0] = 1; }\n    { a[i] = 2; }\n  }\n  print(a[0]);\n  print(a[1]);\n  return 0;\n}\n";

const ANNOTATED: &str =
    "int main(void) {\n  int *a = calloc(2, sizeof(int));\n  cobegin {\n    { commutative { a[0] = 1; } }\n    { a[1] = 2; }\n  }\n  return 0;\n}\n";

const NO_STORE: &str =
    "int main(void) {\n  int *a = calloc(2, sizeof(int));\n  cobegin {\n    { a[0] + 1; }\n    { a[1] = 2; }\n  }\n  return 0;\n}\n";

const UNCLOSED: &str =
    "int main(void) {\n  int *a = calloc(2, sizeof(int));\n  cobegin {\n    { a[0] = 1; }\n    { a[1] = 2; }\n  }\n  print(a[0]);\n  print(a[1]);\n  return 0;\n";

const NO_TOKEN: &str = "int main(void) { return 0 $ 0; }";

const ENDS_AT_ONCE: &str = "int main(void) { return 0; }";

const ECHO: &str =
    "int main(int *in, int n) {\n  print(n);\n  int k = 0;\n  while (k < n) { print(in[k]); k = k + 1; }\n  return 0;\n}\n";

const OVERLAPPING_HALVES: &str =
    "void fill(int *a, int lo, int hi, int v) {\n  int i = lo;\n  while (i < hi) { a[i] = v; i = i + 1; }\n}\nint main(int *in, int n) {\n  if (n < 2) { return 0; }\n  int mid = n / 2;\n  cobegin {\n    { fill(in, 0, mid + 1, 1); }\n    { fill(in, mid, n, 2); }\n  }\n  print(in[0]);\n  print(in[n - 1]);\n  return 0;\n}\n";

const ENDLESS: &str =
    "int main(int *in, int n) {\n  int *a = calloc(1, sizeof(int));\n  cobegin {\n    { while (0 == 0) { a[0] = 1; } }\n    { a[0] = 2; }\n  }\n  return 0;\n}\n";

const READ_AND_WRITE: &str =
    "int main(void) {\n  int *a = calloc(2, sizeof(int));\n  cobegin {\n    { int x = a[0]; }\n    { a[0] = 1; }\n  }\n  print(a[0]);\n}\n";

const TWO_FIELDS: &str =
    "struct P { int n; int m; };\nint main(void) {\n  struct P *v = calloc(1, sizeof(struct P));\n  cobegin {\n    { v->n = 1; }\n    { v->m = 2; }\n  }\n  return 0;\n}\n";

const THREE_STORES: &str =
    "int main(void) {\n  int *a = calloc(2, sizeof(int));\n  cobegin {\n    { a[0] = 1; }\n    { a[0] = 2; }\n    { a[0] = 3; }\n  }\n  print(a[0]);\n}\n";

const ITERATIONS: &str =
    "int main(void) {\n  int *a = calloc(1, sizeof(int));\n  foreach (i, 0, 2) { a[0] = i; }\n  print(a[0]);\n}\n";

const INNER_BRANCH: &str =
    "int main(void) {\n  int *a = calloc(2, sizeof(int));\n  cobegin {\n    { cobegin { { a[0] = 1; } { a[1] = 1; } } }\n    { a[1] = 2; }\n  }\n  print(a[1]);\n}\n";

const BEHIND_JOIN: &str =
    "int main(void) {\n  int *a = calloc(2, sizeof(int));\n  cobegin {\n    { cobegin { { a[0] = 1; } { a[1] = 1; } } a[1] = 3; }\n    { ; }\n  }\n  print(a[1]);\n}\n";

const STRAY_BEHIND_RACE: &str =
    "int main(void) {\n  int *a = calloc(2, sizeof(int));\n  cobegin {\n    { a[0] = 1; }\n    { a[0] = 2; }\n  }\n  a[2] = 1;\n}\n";

const RACE_BEFORE_TRAP: &str =
    "int main(void) {\n  int *a = calloc(2, sizeof(int));\n  cobegin {\n    { a[0] = 1; int x = 1 / 0; }\n    { a[0] = 2; }\n  }\n  print(a[0]);\n}\n";

const LEAST_FIRST: &str =
    "int main(void) {\n  int *a = calloc(2, sizeof(int));\n  cobegin {\n    { int x = a[0]; }\n    { int y = a[0]; }\n    { a[0] = 1; }\n  }\n  print(a[0]);\n}\n";

// Sources, each with the status and the bytes of its replay without picks.
const ANSWERS: [(&str, u8, &str); 9] = [
    (TWO_STORES, 0, "1\n2\n"),
    (PAST_END, 13, "stray at 5:7\n"),
    (NO_LITERAL, 4, "names N3 at 5:7\n"),
    (NO_TOKEN, 3, "lexical fault at 1:27\n"),
    (ANNOTATED, 4, "annotation at 4:7\n"),
    (UNCLOSED, 3, "syntax fault near 10:1\n"),
    (NO_STORE, 3, "syntax fault near 4:12\n"),
    (ENDS_AT_ONCE, 0, ""),
    (ECHO, 0, "0\n"),
];

// Picks, fuel and words of replays of the two stores, each with its status and its bytes.
const RUNS: [(&str, &str, &str, u8, &str); 9] = [
    ("0\n1\n0\n", "7", "100", 0, "1\n2\n"),
    ("0\n0\n1\n", "7", "100", 0, "1\n2\n"),
    ("0\n1\n0\n", "2", "100", 8, "out of fuel\n"),
    ("", "6", "100", 8, "1\nout of fuel\n"),
    ("", "7", "1", 1, "trap words at 2:3\n"),
    ("0\n-1\n", "7", "100", 6, "bad pick line 2\n"),
    ("", "0", "100", 12, "bad words\n"),
    ("", "4194305", "100", 12, "bad words\n"),
    ("", "7", "1048577", 12, "bad words\n"),
];

// Sources, inputs, picks and fuel, each with the status and the bytes of the replay: which entries race, and that a stray is
// told before a race and a race before any other end.
const RACES: [(&str, &str, &str, &str, u8, &str); 16] = [
    (
        OVERLAPPING_HALVES,
        "9\n9\n",
        "0\n1\n0\n1\n",
        "1000",
        14,
        "1\n2\nrace 2 3 at 3:20 and 3:20\n",
    ),
    (
        OVERLAPPING_HALVES,
        "9\n9\n",
        "0\n1\n0\n1\n",
        "13",
        14,
        "1\nrace 2 3 at 3:20 and 3:20\n",
    ),
    (
        ENDLESS,
        "",
        "0\n0\n0\n1\n",
        "10",
        14,
        "race 1 2 at 4:24 and 5:7\n",
    ),
    (ENDLESS, "", "", "10", 8, "out of fuel\n"),
    (
        SAME_ELEMENT,
        "",
        "0\n1\n",
        "1000",
        14,
        "1\n0\nrace 1 2 at 5:7 and 4:7\n",
    ),
    (
        READ_AND_WRITE,
        "",
        "",
        "1000",
        14,
        "1\nrace 1 2 at 4:7 and 5:7\n",
    ),
    (TWO_FIELDS, "", "", "1000", 0, ""),
    (
        THREE_STORES,
        "",
        "0\n2\n1\n0\n",
        "1000",
        14,
        "1\nrace 1 2 at 6:7 and 5:7\n",
    ),
    (
        THREE_STORES,
        "",
        "7\n5\n9\n3\n",
        "1000",
        14,
        "1\nrace 1 2 at 6:7 and 5:7\n",
    ),
    (
        ITERATIONS,
        "",
        "0\n1\n1\n",
        "1000",
        14,
        "0\nrace 1 2 at 3:23 and 3:23\n",
    ),
    (
        INNER_BRANCH,
        "",
        "",
        "1000",
        14,
        "2\nrace 2 3 at 4:33 and 5:7\n",
    ),
    (BEHIND_JOIN, "", "", "1000", 0, "3\n"),
    (STRAY_BEHIND_RACE, "", "", "1000", 13, "stray at 7:3\n"),
    (
        RACE_BEFORE_TRAP,
        "",
        "",
        "1000",
        14,
        "race 1 2 at 4:7 and 5:7\n",
    ),
    (
        LEAST_FIRST,
        "",
        "",
        "1000",
        14,
        "1\nrace 1 3 at 4:7 and 6:7\n",
    ),
    (ECHO, "-5\n6\n", "", "1000", 0, "2\n-5\n6\n"),
];

// Sources and picks, with fuel and words, each with the status and the bytes where the second piece that is written
// breaks off behind its first byte: a line of each kind is one piece.
const PIECES: [(&str, &str, &str, &str, u8, &str); 8] = [
    (TWO_STORES, "", "7", "100", 10, "1\n2"),
    (TWO_STORES, "", "6", "100", 10, "1\no"),
    (TWO_STORES, "", "2", "100", 8, "out of fuel\n"),
    (TWO_STORES, "", "7", "1", 1, "trap words at 2:3\n"),
    (TWO_STORES, "x", "7", "100", 6, "bad pick line 1\n"),
    (TWO_STORES, "", "7", "0", 12, "bad words\n"),
    (READ_AND_WRITE, "", "7", "100", 10, "1\nr"),
    (PAST_END, "", "7", "100", 13, "stray at 5:7\n"),
];

#[test]
fn answers_by_the_source(rt: HostRuntime) -> Result<(), Fail> {
    let alloc = rt.alloc();
    for (source, status, written) in ANSWERS {
        let mut out = MemSink::new(alloc, Vec::new(alloc));
        let told = status_of(alloc, &ample(source.as_bytes()), &mut out)?;
        assert_eq!(rt; told, status, "{source}");
        assert_eq!(rt; out.written(), written.as_bytes(), "{source}");
    }
    Ok(())
}

#[test]
fn runs_by_the_words(rt: HostRuntime) -> Result<(), Fail> {
    let alloc = rt.alloc();
    for (picks, fuel, words, status, written) in RUNS {
        let asked = Asked {
            picks: picks.as_bytes(),
            fuel,
            words,
            ..ample(TWO_STORES.as_bytes())
        };
        let mut out = MemSink::new(alloc, Vec::new(alloc));
        let told = status_of(alloc, &asked, &mut out)?;
        assert_eq!(rt; told, status, "{written}");
        assert_eq!(rt; out.written(), written.as_bytes());
    }
    Ok(())
}

#[test]
fn tells_strays_and_races(rt: HostRuntime) -> Result<(), Fail> {
    let alloc = rt.alloc();
    for (source, input, picks, fuel, status, written) in RACES {
        let asked = Asked {
            input: input.as_bytes(),
            picks: picks.as_bytes(),
            fuel,
            ..ample(source.as_bytes())
        };
        let mut out = MemSink::new(alloc, Vec::new(alloc));
        let told = status_of(alloc, &asked, &mut out)?;
        assert_eq!(rt; told, status, "{source}");
        assert_eq!(rt; out.written(), written.as_bytes(), "{source}");
    }
    Ok(())
}

#[test]
fn writes_each_line_as_one_piece(rt: HostRuntime) -> Result<(), Fail> {
    let alloc = rt.alloc();
    for (source, picks, fuel, words, status, written) in PIECES {
        let asked = Asked {
            picks: picks.as_bytes(),
            fuel,
            words,
            ..ample(source.as_bytes())
        };
        let mut out = MemSink::new(alloc, vec![in alloc; (2, 1)]?);
        let told = status_of(alloc, &asked, &mut out)?;
        assert_eq!(rt; told, status, "{written}");
        assert_eq!(rt; out.written(), written.as_bytes());
    }
    Ok(())
}

#[test]
fn tells_read_faults(rt: HostRuntime) -> Result<(), Fail> {
    let alloc = rt.alloc();
    // The input is fetched before the picks, and its lines are read before these are fetched.
    for (call, input, picks, status, written) in [
        (1, "x", "x", 9, "read fault s.c\n"),
        (2, "x", "x", 9, "read fault s.input\n"),
        (3, "x", "x", 6, "bad input line 1\n"),
        (3, "", "x", 9, "read fault s.picks\n"),
    ] {
        let asked = Asked {
            input: input.as_bytes(),
            picks: picks.as_bytes(),
            failing: &[call],
            ..ample(PAST_END.as_bytes())
        };
        let mut out = MemSink::new(alloc, vec![in alloc; (2, 1)]?);
        let told = status_of(alloc, &asked, &mut out)?;
        assert_eq!(rt; told, status);
        assert_eq!(rt; out.written(), written.as_bytes());
    }
    Ok(())
}

#[test]
fn ends_where_the_first_piece_breaks_off(rt: HostRuntime) -> Result<(), Fail> {
    let alloc = rt.alloc();
    let mut out = MemSink::new(alloc, vec![in alloc; (1, 3)]?);
    let told = status_of(alloc, &ample(NO_TOKEN.as_bytes()), &mut out)?;
    assert_eq!(rt; told, 10);
    assert_eq!(rt; out.written(), b"lex".as_slice());
    Ok(())
}
