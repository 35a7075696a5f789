ghost use Rattle.std.specs.Prelude.{◌≡◌, ℕ, ◌<◌, ◌≤◌, List, length, drop, IfOk, IfErr, IfSome, IfNone};
ghost use Rattle.lq_tree.specs.declared.program.Program.{Program};
ghost use Rattle.lq_lexer.specs.declared.token.Token.{Token};
ghost use Rattle.lq_lexer.specs.Tokens.{Tokens};
ghost use Rattle.lq_lexer.specs.Shape.{IsShapely};
ghost use Rattle.lq_parser.specs.Spelling.{Spells, IsFirstAnnotation, HasNoAnnotation, IsFaultPlace, byte_of, IfAnnotation, IfSyntax};
ghost use Rattle.lq_parser.specs.declared.spelling.ParseFault.TheVariants.{NoMemory};

use crate::programs::program;
use crate::source::lexemes;
use crate::stop::Stop;
use lq_lexer::{Token, TokenKind};
use lq_tree::Program;
use std::alloc::{AllocError, Global};

/// Why tokens have no tree.
#[derive(Debug, Drop)]
pub enum ParseFault {
    /// The first word of an annotation stands at this byte.
    Annotation { at: usize },
    /// No tree is spelled: at this byte stands the first token that no continuation mends, or it is the end of the text.
    Syntax { at: usize },
    NoMemory,
}

impl From<AllocError> for ParseFault {
    ghost from_gives = { λ _ fault. fault ≡ NoMemory };

    fn from(_error: AllocError) -> Self {
        ParseFault::NoMemory
    }
}

// The first word of an annotation.
fn first_annotation(tokens: &[Token]) -> Option<usize>
    ensures some { IfSome result (IsFirstAnnotation tokens.now) }
    ensures none { IfNone result (HasNoAnnotation tokens.now) }
{
    let found = tokens
        .iter()
        .find(|token| token.kind == TokenKind::Annotation)?;
    Some(found.start)
}

// The first byte of the token with this number, or the length of the text where there are not so many.
fn byte_at(text: &[u8], tokens: &[Token], index: usize) -> usize
    ensures { result ≡ byte_of text.now (drop index tokens.now) }
{
    match tokens.get(index) {
        Some(token) => token.start,
        None => text.len(),
    }
}

/// The tree that the tokens of a text spell (docs/LANGUAGE.md, "Grammar"), or why there is none: the first word of an
/// annotation; without one, the first byte of the first token such that no tree is spelled by any tokens that begin
/// with those up to and including it, and the length of the text where there is no such token.
pub fn parse(alloc: Global, text: &[u8], tokens: &[Token]) -> Result<Program, ParseFault>
    requires short { length text.now ≤ 262144 }
    requires tokens { Tokens text.now tokens.now }
    requires shape { IsShapely text.now tokens.now }
    ensures tree { IfOk result (λ p. Spells text.now tokens.now p) }
    ensures spelled { (p : Program) → Spells text.now tokens.now p → IfErr result (λ fault. fault ≡ ParseFault.NoMemory) }
    ensures annotation { IfErr result (IfAnnotation (IsFirstAnnotation tokens.now)) }
    ensures syntax { IfErr result (IfSyntax (λ at. HasNoAnnotation tokens.now × IsFaultPlace text.now tokens.now at)) }
{
    if let Some(at) = first_annotation(tokens) {
        return Err(ParseFault::Annotation { at });
    }
    let lexemes = lexemes(alloc, text, tokens)?;
    match program(alloc, lexemes.as_slice()) {
        Ok(program) => Ok(program),
        Err(Stop::Syntax(rest)) => {
            let index = tokens.len() - rest.len();
            let at = byte_at(text, tokens, index);
            Err(ParseFault::Syntax { at })
        }
        Err(Stop::NoMemory) => Err(ParseFault::NoMemory),
    }
}
