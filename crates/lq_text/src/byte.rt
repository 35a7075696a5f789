//! The bytes of words.

ghost use Rattle.std.specs.Prelude.{◌≡◌};
ghost use Rattle.lq_text.specs.Byte.{is_letter, is_name_byte};

/// Whether a name may begin with this byte: a letter or `_` (docs/LANGUAGE.md, "Tokens").
pub fn is_letter(byte: u8) -> bool
    ensures { result ≡ is_letter byte }
{
    byte.is_ascii_alphabetic() || byte == b'_'
}

/// Whether a name may go on with this byte: a letter, `_` or a digit (docs/LANGUAGE.md, "Tokens").
pub fn is_name_byte(byte: u8) -> bool
    ensures { result ≡ is_name_byte byte }
{
    is_letter(byte) || byte.is_ascii_digit()
}
