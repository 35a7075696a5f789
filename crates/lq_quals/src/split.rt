//! Bytes cut before the first of a kind.

ghost use Rattle.std.specs.Prelude.{◌≡◌};
ghost use Rattle.std.specs.List.{position};
ghost use Rattle.lq_quals.specs.Split.{IsCut, is_times, is_sign, is_relation_byte};

// The bytes before the first `*`, and the rest.
pub(crate) fn before_times(text: &[u8]) -> (&[u8], &[u8])
    ensures { IsCut is_times text.now result.0.now result.1.now }
{
    let at = place_of_times(text).unwrap_or(text.len());
    text.split_at(at)
}

// The bytes before the first sign, and the rest.
pub(crate) fn before_sign(text: &[u8]) -> (&[u8], &[u8])
    ensures { IsCut is_sign text.now result.0.now result.1.now }
{
    let at = place_of_sign(text).unwrap_or(text.len());
    text.split_at(at)
}

// The bytes before the first that begins a relation, and the rest.
pub(crate) fn before_relation(text: &[u8]) -> (&[u8], &[u8])
    ensures { IsCut is_relation_byte text.now result.0.now result.1.now }
{
    let at = place_of_relation(text).unwrap_or(text.len());
    text.split_at(at)
}

// The place of the first `*`.
fn place_of_times(text: &[u8]) -> Option<usize>
    ensures { result ≡ position is_times text.now }
{
    text.iter().position(|byte| *byte == b'*')
}

// The place of the first sign.
fn place_of_sign(text: &[u8]) -> Option<usize>
    ensures { result ≡ position is_sign text.now }
{
    text.iter().position(|byte| is_sign(*byte))
}

// The place of the first byte that begins a relation.
fn place_of_relation(text: &[u8]) -> Option<usize>
    ensures { result ≡ position is_relation_byte text.now }
{
    text.iter().position(|byte| is_relation_byte(*byte))
}

// Whether a byte is `+` or `-`.
fn is_sign(byte: u8) -> bool
    ensures { result ≡ is_sign byte }
{
    byte == b'+' || byte == b'-'
}

// Whether a byte begins a relation.
pub(crate) fn is_relation_byte(byte: u8) -> bool
    ensures { result ≡ is_relation_byte byte }
{
    byte == b'<' || byte == b'>' || byte == b'='
}
