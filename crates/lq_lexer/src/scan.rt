//! What a text begins with.

ghost use Rattle.std.specs.Prelude.{◌≡◌, ◌==◌, ◌<◌, length, drop, not};
ghost use Rattle.std.specs.List.{prefix_len};
ghost use Rattle.lq_text.specs.Byte.{is_name_byte};
ghost use Rattle.lq_lexer.specs.Scan.{close_from, kind_of_word, is_literal, run_piece, sign_piece, piece_of};

use crate::bytes::is_space;
use crate::sign::is_sign;
use crate::token::TokenKind;
use lq_text::{
    is_annotation_word, is_keyword, is_letter, is_name_byte, is_unused_word, read_literal,
};

/// What a text begins with.
#[derive(Clone, Copy)]
pub enum Piece {
    /// A space or a comment, of so many bytes.
    Blank(usize),
    /// A token of this kind, of so many bytes.
    Spelled(TokenKind, usize),
    /// Neither.
    Nothing,
}

// The length of a comment to the end of its line.
fn line_len(text: &[u8]) -> usize
    ensures { result ≡ prefix_len (λ b. not (b == 10)) text.now }
{
    text.iter().take_while(|b| **b != b'\n').count()
}

// Where the first `*/` from byte 2 on ends.
fn comment_len(text: &[u8]) -> Option<usize>
    ensures { result ≡ close_from 2 (drop 2 text.now) }
{
    for at in 2..text.len() {
        if text[at..].starts_with(b"*/") {
            return Some(at + 2);
        }
    }
    None
}

// How many letters, digits and `_` there are at the front.
fn run_len(text: &[u8]) -> usize
    ensures { result ≡ prefix_len is_name_byte text.now }
{
    text.iter().take_while(|b| is_name_byte(**b)).count()
}

// The kind of a word, by the lists.
fn kind_of_word(word: &[u8]) -> TokenKind
    ensures { result ≡ kind_of_word word.now }
{
    if is_keyword(word) {
        TokenKind::Keyword
    } else if is_annotation_word(word) {
        TokenKind::Annotation
    } else if is_unused_word(word) {
        TokenKind::Unused
    } else {
        TokenKind::Name
    }
}

// Whether the run is a number.
fn is_literal(run: &[u8]) -> bool
    requires { 0 < length run.now }
    ensures { result ≡ is_literal run.now }
{
    read_literal(run).is_some()
}

// The token that a run of letters, digits and `_` is: a word, a number or none.
fn run_piece(run: &[u8]) -> Piece
    requires { 0 < length run.now }
    ensures { result ≡ run_piece run.now }
{
    if is_letter(run[0]) {
        Piece::Spelled(kind_of_word(run), run.len())
    } else if is_literal(run) {
        Piece::Spelled(TokenKind::Number, run.len())
    } else {
        Piece::Nothing
    }
}

// The longest sign at the front.
fn sign_piece(text: &[u8]) -> Piece
    requires { 0 < length text.now }
    ensures { result ≡ sign_piece text.now }
{
    let two = text.len().min(2);
    if is_sign(&text[..two]) {
        Piece::Spelled(TokenKind::Sign, two)
    } else if is_sign(&text[..1]) {
        Piece::Spelled(TokenKind::Sign, 1)
    } else {
        Piece::Nothing
    }
}

/// What the text begins with.
pub fn first_piece(text: &[u8]) -> Piece
    requires { 0 < length text.now }
    ensures { result ≡ piece_of text.now }
{
    if text.starts_with(b"//") {
        Piece::Blank(line_len(text))
    } else if text.starts_with(b"/*") {
        match comment_len(text) {
            Some(len) => Piece::Blank(len),
            None => Piece::Nothing,
        }
    } else if is_space(text[0]) {
        Piece::Blank(1)
    } else if is_name_byte(text[0]) {
        run_piece(&text[..run_len(text)])
    } else {
        sign_piece(text)
    }
}
