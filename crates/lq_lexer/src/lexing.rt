//! The tokens of a text, or its first fault.

ghost use Rattle.std.specs.Prelude.{◌≡◌, ℕ, ◌<◌, ◌≤◌, List, [], length, not, IfOk, IfErr, IsErr, All};
ghost use Rattle.std.specs.List.{AllPairs, prefix_len};
ghost use Rattle.lq_lexer.specs.declared.token.Token.{Token};
ghost use Rattle.lq_lexer.specs.declared.lexing.LexFault.TheVariants.{NoMemory};
ghost use Rattle.lq_lexer.specs.Bytes.{is_source_byte};
ghost use Rattle.lq_lexer.specs.Tokens.{Spells, Reads, Tokens, text_of};
ghost use Rattle.lq_lexer.specs.Faults.{IsStuckAt, IsFirstFault, IfAt};

use crate::bytes::is_source_byte;
use crate::scan::{Piece, first_piece};
use crate::token::Token;
use std::alloc::{AllocFailed, Global};
use thiserror::Error;

/// Why a text has no tokens.
#[derive(Debug, Drop, Error)]
pub enum LexFault {
    /// The first fault of the text stands at this byte.
    #[error("a lexical fault at byte {at}")]
    At { at: usize },
    /// Memory ran out.
    #[error("out of memory")]
    NoMemory,
}

impl<T: Drop> From<AllocFailed<T>> for LexFault {
    ghost from_gives = { λ _ fault. fault ≡ NoMemory };

    fn from(_failed: AllocFailed<T>) -> Self {
        LexFault::NoMemory
    }
}

// How many bytes at the front a source may hold.
fn source_len(text: &[u8]) -> usize
    ensures { result ≡ prefix_len is_source_byte text.now }
{
    text.iter().take_while(|b| is_source_byte(**b)).count()
}

// The tokens, where bytes that no source holds may stand in comments.
fn pieces(alloc: Global, text: &[u8]) -> Result<Vec<Token>, LexFault>
    ensures read { IfOk result (λ tokens. Reads 0 text.now tokens.items []) }
    ensures stuck { IfErr result (λ fault. IfAt fault (IsStuckAt text.now)) }
{
    let mut tokens = Vec::new(alloc);
    let mut at = 0;
    while at < text.len() {
        match first_piece(&text[at..]) {
            Piece::Blank(len) => at += len,
            Piece::Spelled(kind, len) => {
                let end = at + len;
                tokens.push(Token {
                    start: at,
                    end,
                    kind,
                })?;
                at = end;
            }
            Piece::Nothing => return Err(LexFault::At { at }),
        }
    }
    Ok(tokens)
}

/// The tokens of a text, or its first fault: the first byte that no source holds, or at which no
/// token, space or comment begins.
pub fn lex(alloc: Global, text: &[u8]) -> Result<Vec<Token>, LexFault>
    ensures tokens { IfOk result (λ tokens. Tokens text.now tokens.items) }
    ensures fault { IfErr result (λ fault. IfAt fault (IsFirstFault text.now)) }
    ensures inside { IfErr result (λ fault. IfAt fault (λ at. at < length text.now)) }

    // A text that has tokens is refused only for want of memory, and one that has a fault never passes.
    ensures read { (tokens : List Token) → Tokens text.now tokens → IfErr result (λ fault. fault ≡ LexFault.NoMemory) }
    ensures refused { (at : ℕ) → IsFirstFault text.now at → IsErr result }

    // Each token lies in the text, and they stand there in order and apart.
    ensures spans { IfOk result
        (λ tokens. All (λ token. (token.start < token.end) × (token.end ≤ length text.now)) tokens.items) }
    ensures apart { IfOk result (λ tokens. AllPairs (λ token next. token.end ≤ next.start) tokens.items) }
    ensures spelled { IfOk result
        (λ tokens. All (λ token. Spells token.kind (text_of text.now token)) tokens.items) }
{
    let source_len = source_len(text);
    match pieces(alloc, text) {
        Ok(tokens) => {
            if source_len < text.len() {
                Err(LexFault::At { at: source_len })
            } else {
                Ok(tokens)
            }
        }
        Err(LexFault::At { at }) => Err(LexFault::At {
            at: at.min(source_len),
        }),
        Err(LexFault::NoMemory) => Err(LexFault::NoMemory),
    }
}
