use lq_cert::{Numeral, ProofFault, read_proof, renew, write_proof};
use std::alloc::Global;
use std::test::Fail;

// The bad entry of a text, or 0 where it has none.
fn entry_of(alloc: Global, text: &[u8]) -> Result<u64, Fail> {
    match read_proof(alloc, text) {
        Ok(_) => Ok(0),
        Err(ProofFault::BadProof { entry }) => Ok(entry),
        Err(ProofFault::NoMemory) => Err("out of memory")?,
    }
}

// The proof files that docs/PROOF-FILE.md begins with, and others.
#[test]
fn writes_what_it_reads(rt: HostRuntime) -> Result<(), Fail> {
    let texts: [&[u8]; 6] = [
        b"proof 1\ncond 1\ncond 2\ngoal 1 1\ncond 3\ngoal 1 1 1:3\ncond 4\ncond 5\nend\n",
        b"proof 2\ncond 2\ngoal 1 1\ncond 3\ngoal 1 1 1:3\nend\n",
        b"row 2 -1 @ -65536 len(.data) 1 off(a) 65536 len(a) 3 result <= -1099511627776\n",
        b"row 1 1 @ 2 .off 3 .len 4 off(.n) 5 _a 6 len(b) 7 off(result) 8 len(result) <= 0\n",
        b"exact 3 1048576 1048576:1 2:18446744073709551616\nvoid 99999999999999999999999\n",
        b"",
    ];
    for text in texts {
        let proof = read_proof(rt.alloc(), text)?;
        let written = write_proof(rt.alloc(), &proof)?;
        assert_eq!(rt; written.as_slice(), text);
    }
    Ok(())
}

// Texts, and their first bad lines.
const ILL_FORMED: [(&[u8], u64); 40] = [
    (b"\n", 1),
    (b"proof 1\n\nend\n", 2),
    (b"proof 1\nend", 2),
    (b"proof 1\r\n", 1),
    (b"proof 3\n", 1),
    (b"Proof 1\n", 1),
    (b"end \n", 1),
    (b" end\n", 1),
    (b"cond 1\ncond  2\n", 2),
    (b"cond 01\n", 1),
    (b"cond 0\n", 1),
    (b"cond +1\n", 1),
    (b"cond -1\n", 1),
    (b"cond 1 2\n", 1),
    (b"cond\n", 1),
    (b"goal 1 0\n", 1),
    (b"goal 1 1048577\n", 1),
    (b"goal 1 1 0:1\n", 1),
    (b"goal 1 1 1048577:1\n", 1),
    (b"goal 1 1 1:0\n", 1),
    (b"goal 1 1 1:\n", 1),
    (b"goal 1 1 1:2:3\n", 1),
    (b"goal 1 1 2\n", 1),
    (b"exact 1 1 1:1\nexact 1 1:1\n", 2),
    (b"void 1 1:1\nvoid 1 1\n", 2),
    (b"row 1 <= 0\n", 1),
    (b"row 1 1 @ <= -0\n", 1),
    (b"row 1 1 @ <= 1099511627777\n", 1),
    (b"row 1 1 @ < 0\n", 1),
    (b"row 1 0 @ <= 0\n", 1),
    (b"row 1 65537 @ <= 0\n", 1),
    (b"row 1 01 @ <= 0\n", 1),
    (b"row 1 1 @ 1 @ <= 0\n", 1),
    (b"row 1 1 a 1 @ <= 0\n", 1),
    (b"row 1 1 result 1 .f <= 0\n", 1),
    (b"row 1 1 len(a) 1 off(a) <= 0\n", 1),
    (b"row 1 1 off(a) 1 b 1 len(a) <= 0\n", 1),
    (b"row 1 1 a 1 a <= 0\n", 1),
    (b"row 1 1 len <= 0\n", 1),
    (b"row 1 1 while <= 0\n", 1),
];

#[test]
fn tells_ill_formed_lines(rt: HostRuntime) -> Result<(), Fail> {
    for (text, entry) in ILL_FORMED {
        assert_eq!(rt; entry_of(rt.alloc(), text)?, entry, "at {text:?}");
    }
    Ok(())
}

// A row with so many atoms.
fn row_of(alloc: Global, count: u8) -> Result<Vec<u8>, Fail> {
    let mut line = Vec::from_slice(alloc, b"row 1")?;
    for number in 0..count {
        line.extend_from_slice(b" 1 ")?;
        line.push(b'a' + number % 26)?;
    }
    line.extend_from_slice(b" <= 0\n")?;
    Ok(line)
}

#[test]
fn counts_atoms(rt: HostRuntime) -> Result<(), Fail> {
    assert_eq!(rt; entry_of(rt.alloc(), &row_of(rt.alloc(), 16)?)?, 0);
    assert_eq!(rt; entry_of(rt.alloc(), &row_of(rt.alloc(), 17)?)?, 1);
    Ok(())
}

// These lines and one with so many facts.
fn void_behind(alloc: Global, lines: &[u8], count: u16) -> Result<Vec<u8>, Fail> {
    let mut text = Vec::from_slice(alloc, lines)?;
    text.extend_from_slice(b"void 1")?;
    for _ in 0..count {
        text.extend_from_slice(b" 1:1")?;
    }
    text.push(b'\n')?;
    Ok(text)
}

// At most 64 facts stand in a line of version 1, and at most 256 in any other.
#[test]
fn counts_facts(rt: HostRuntime) -> Result<(), Fail> {
    let cases: [(&[u8], u16, u64); 8] = [
        (b"proof 1\n", 64, 0),
        (b"proof 1\n", 65, 2),
        (b"proof 1\nproof 2\n", 65, 3),
        (b"proof 2\n", 256, 0),
        (b"proof 2\n", 257, 2),
        (b"proof 2\nproof 1\n", 256, 0),
        (b"", 256, 0),
        (b"", 257, 1),
    ];
    for (lines, count, entry) in cases {
        let text = void_behind(rt.alloc(), lines, count)?;
        assert_eq!(rt;
            entry_of(rt.alloc(), &text)?,
            entry,
            "{count} behind {lines:?}"
        );
    }
    Ok(())
}

// Proofs, and their renewals.
const RENEWALS: [(&[u8], &[u8]); 6] = [
    (
        b"proof 1\ncond 1\ncond 2\ngoal 1 1\ncond 3\ngoal 1 1 1:3\ncond 4\ncond 5\nend\n",
        b"proof 2\ncond 2\ngoal 1 1\ncond 3\ngoal 1 1 1:3\nend\n",
    ),
    (
        b"proof 1\nrow 2 1 @ <= 0\ncond 1\nexact 1 1\nexact 2 1\ncond 2\nexact 1 1\nvoid 1\nend\n",
        b"proof 2\nrow 2 1 @ <= 0\ncond 2\nexact 1 1\nvoid 1\nend\n",
    ),
    (
        b"proof 1\nexact 1 1\ncond 1\nend\ngoal 1 1\n",
        b"proof 2\nexact 1 1\nend\ngoal 1 1\n",
    ),
    (b"proof 2\ncond 1\nend\n", b"proof 2\ncond 1\nend\n"),
    (b"cond 1\nproof 1\n", b"cond 1\nproof 1\n"),
    (b"", b""),
];

// The text of the renewal of the proof that a text is.
fn renewed_text(alloc: Global, text: &[u8]) -> Result<Vec<u8>, Fail> {
    let proof = read_proof(alloc, text)?;
    let renewal = renew(alloc, &proof)?;
    Ok(write_proof(alloc, &renewal)?)
}

#[test]
fn renews_proofs(rt: HostRuntime) -> Result<(), Fail> {
    for (text, wanted) in RENEWALS {
        assert_eq!(rt; renewed_text(rt.alloc(), text)?.as_slice(), wanted);
    }
    Ok(())
}

#[test]
fn numerals_have_values(rt: HostRuntime) -> Result<(), Fail> {
    let most = Numeral::of(rt.alloc(), u32::MAX)?;
    assert_eq!(rt; most.as_bytes(), b"4294967295".as_slice());
    assert_eq!(rt; most.to_u32(), Some(u32::MAX));
    let more = Numeral::read(rt.alloc(), b"4294967296")?.ok_or("no numeral")?;
    assert_eq!(rt; more.to_u32(), None);
    Ok(())
}
