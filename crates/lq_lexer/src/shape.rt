//! How many brackets a source has open at once, and how long its stretches are.

ghost use Rattle.std.specs.Prelude.{◌≡◌, ◌+◌, ◌^◌, ◌<◌, ◌≤◌, ◌↔◌, IsOk, Err};
ghost use Rattle.lq_lexer.specs.Tokens.{Tokens};
ghost use Rattle.lq_lexer.specs.Shape.{texts_of, open_after, stretch_after, is_in_stretch, largest_count, most_open, longest_stretch, IsShapely, too_many_brackets, too_long_stretch};
ghost use Rattle.lq_lexer.specs.Counts.{count_after};

use crate::token::Token;
use lq_text::is_among;
use lq_tree::{Limit, Quantity};

const OPENERS: [&[u8]; 3] = [b"(", b"{", b"["];

const CLOSERS: [&[u8]; 3] = [b")", b"}", b"]"];

const STRETCH_ENDS: [&[u8]; 3] = [b";", b"{", b"}"];

/// What is counted from token to token.
#[derive(Clone, Copy)]
pub enum Count {
    /// The brackets that are open.
    Brackets,
    /// The tokens of the stretch so far.
    Stretch,
}

// How many brackets are open behind one more token.
fn open_after(count: usize, token: &[u8]) -> usize
    requires { count + 1 < 2 ^ 64 }
    ensures { result ≡ open_after count token.now }
{
    if is_among(&OPENERS, token) {
        count + 1
    } else if is_among(&CLOSERS, token) {
        count.saturating_sub(1)
    } else {
        count
    }
}

// Whether the token ends no stretch.
fn is_in_stretch(token: &[u8]) -> bool
    ensures { result ≡ is_in_stretch token.now }
{
    !is_among(&STRETCH_ENDS, token)
}

// The length of a stretch, one token on.
fn stretch_after(count: usize, token: &[u8]) -> usize
    requires { count + 1 < 2 ^ 64 }
    ensures { result ≡ stretch_after count token.now }
{
    if is_in_stretch(token) { count + 1 } else { 0 }
}

// A count, one token on.
fn count_after(what: Count, count: usize, token: &[u8]) -> usize
    requires { count + 1 < 2 ^ 64 }
    ensures { result ≡ count_after what count token.now }
{
    match what {
        Count::Brackets => open_after(count, token),
        Count::Stretch => stretch_after(count, token),
    }
}

// The largest that a count is behind any of the tokens.
fn largest_count(what: Count, text: &[u8], tokens: &[Token]) -> usize
    requires { Tokens text.now tokens.now }
    ensures { result ≡ largest_count (count_after what) (texts_of text.now tokens.now) }
{
    let mut count = 0;
    let mut most = 0usize;
    for token in tokens {
        count = count_after(what, count, token.text(text));
        most = most.max(count);
    }
    most
}

// The most brackets that are open at once.
#[tactic(auto, unfolding(crate::specs::Shape::most_open))]
fn most_open(text: &[u8], tokens: &[Token]) -> usize
    requires { Tokens text.now tokens.now }
    ensures { result ≡ most_open (texts_of text.now tokens.now) }
{
    largest_count(Count::Brackets, text, tokens)
}

// The length of the longest stretch.
#[tactic(auto, unfolding(crate::specs::Shape::longest_stretch))]
fn longest_stretch(text: &[u8], tokens: &[Token]) -> usize
    requires { Tokens text.now tokens.now }
    ensures { result ≡ longest_stretch (texts_of text.now tokens.now) }
{
    largest_count(Count::Stretch, text, tokens)
}

/// Tests the tokens of a text against two limits, brackets first: how many may be open at once, and
/// how many tokens in a row may be none of `;`, `{` and `}` (docs/COMMANDS.md, "Limits").
pub fn check_shape(text: &[u8], tokens: &[Token]) -> Result<(), Limit>
    requires { Tokens text.now tokens.now }
    ensures ok { IsOk result ↔ IsShapely text.now tokens.now }
    ensures brackets { let found = most_open (texts_of text.now tokens.now) in
        64 < found → result ≡ Err (too_many_brackets found) }
    ensures stretch { let found = longest_stretch (texts_of text.now tokens.now) in
        most_open (texts_of text.now tokens.now) ≤ 64 → 512 < found → result ≡ Err (too_long_stretch found) }
{
    Quantity::Brackets.check(most_open(text, tokens) as u64)?;
    Quantity::Stretch.check(longest_stretch(text, tokens) as u64)
}
