//! The bytes of a source.

ghost use Rattle.std.specs.Prelude.{◌≡◌};
ghost use Rattle.lq_lexer.specs.Bytes.{is_space, is_source_byte};

/// Whether the byte is a tab, line feed, carriage return or blank.
pub fn is_space(b: u8) -> bool
    ensures { result ≡ is_space b }
{
    matches!(b, b'\t' | b'\n' | b'\r' | b' ')
}

/// Whether a source may hold this byte.
pub fn is_source_byte(b: u8) -> bool
    ensures { result ≡ is_source_byte b }
{
    matches!(b, b'\t' | b'\n' | b'\r' | b' '..=b'~')
}
