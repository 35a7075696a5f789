//! The signs of the language.

ghost use Rattle.std.specs.Prelude.{◌≡◌};
ghost use Rattle.lq_text.specs.Word.{is_among};
ghost use Rattle.lq_lexer.specs.Sign.{signs};

use lq_text::is_among;

const SIGNS: [&[u8]; 30] = [
    b"(", b")", b"{", b"}", b"[", b"]", b";", b",", b".", b"->", b"+", b"-", b"*", b"/", b"%",
    b"<", b"<=", b">", b">=", b"==", b"!=", b"=", b"&&", b"||", b"!", b"++", b"--", b"+=", b"-=",
    b"*=",
];

/// Whether a text is a sign.
pub fn is_sign(text: &[u8]) -> bool
    ensures { result ≡ is_among signs text.now }
{
    is_among(&SIGNS, text)
}
