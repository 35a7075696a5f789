ghost use Rattle.std.specs.Prelude.{◌≡◌, ◌≤◌, ⊤, length, IfOk, MatchResult};
ghost use Rattle.lq_lexer.specs.Tokens.{Tokens};
ghost use Rattle.lq_tree.specs.declared.limit.Quantity.TheVariants.{SourceBytes};
ghost use Rattle.lq_cli.specs.Lines.{most};
ghost use Rattle.lq_cli.specs.Readers.{TellsText, IsRead};
ghost use Rattle.lq_cli.specs.Seen.{shelf_state};
ghost use Rattle.lq_cli.specs.Stop.{OnTold, Reading};
ghost use Rattle.lq_cli.specs.Text.{Shaped, HasTree, IsCounted, IsNamed, Reads, SourceAnswers};

use crate::answer::Answer;
use crate::files::fetch;
use crate::stop::Stop;
use lq_lexer::laws::tokens_lie_in_text;
use lq_lexer::{LexFault, Token, check_shape, lex};
use lq_names::{NamesFault, check_counts, check_names};
use lq_parser::{ParseFault, parse};
use lq_shelf::Shelf;
use lq_tree::{Program, Quantity, place_of};
use std::alloc::Global;

// The tokens of a text.
fn tokens_of<'a>(alloc: Global, text: &[u8]) -> Result<Vec<Token>, Stop<'a>>
    requires { length text.now ≤ most SourceBytes }
    ensures tokens { IfOk result (λ tokens. Tokens text.now tokens.items) }
    ensures told { MatchResult result (λ _. ⊤) (λ stop. OnTold stop (TellsText text.now)) }
{
    match lex(alloc, text) {
        Ok(tokens) => Ok(tokens),
        Err(LexFault::At { at }) => Err(Stop::Told(Answer::Lexical(place_of(text, at)))),
        Err(LexFault::NoMemory) => Err(Stop::NoMemory),
    }
}

// Tests the shape of the tokens of a text.
fn test_shape<'a>(text: &[u8], tokens: &[Token]) -> Result<(), Stop<'a>>
    requires { Tokens text.now tokens.now }
    ensures shaped { IfOk result (λ _. Shaped text.now tokens.now) }
    ensures told { MatchResult result (λ _. ⊤) (λ stop. OnTold stop (TellsText text.now)) }
{
    Ok(check_shape(text, tokens)?)
}

// The tree that the tokens of a text spell.
fn tree_of<'a>(alloc: Global, text: &[u8], tokens: &[Token]) -> Result<Program, Stop<'a>>
    requires short { length text.now ≤ most SourceBytes }
    requires shaped { Shaped text.now tokens.now }
    ensures tree { IfOk result (HasTree text.now) }
    ensures told { MatchResult result (λ _. ⊤) (λ stop. OnTold stop (TellsText text.now)) }
{
    // A fault lies in the text, since the tokens do.
    tokens_lie_in_text();
    match parse(alloc, text, tokens) {
        Ok(tree) => Ok(tree),
        Err(ParseFault::Annotation { at }) => {
            Err(Stop::Told(Answer::Annotation(place_of(text, at))))
        }
        Err(ParseFault::Syntax { at }) => Err(Stop::Told(Answer::Syntax(place_of(text, at)))),
        Err(ParseFault::NoMemory) => Err(Stop::NoMemory),
    }
}

// Tests the counts of a tree.
fn test_counts<'a>(text: &[u8], tree: &Program) -> Result<(), Stop<'a>>
    requires { HasTree text.now tree.now }
    ensures counted { IfOk result (λ _. IsCounted tree.now) }
    ensures told { MatchResult result (λ _. ⊤) (λ stop. OnTold stop (TellsText text.now)) }
{
    Ok(check_counts(tree)?)
}

// Tests the name rules of a tree.
fn test_names<'a>(alloc: Global, text: &[u8], tree: &Program) -> Result<(), Stop<'a>>
    requires tree { HasTree text.now tree.now }
    requires counted { IsCounted tree.now }
    ensures named { IfOk result (λ _. IsNamed tree.now) }
    ensures told { MatchResult result (λ _. ⊤) (λ stop. OnTold stop (TellsText text.now)) }
{
    match check_names(alloc, tree) {
        Ok(()) => Ok(()),
        Err(NamesFault::Rule { rule, at }) => Err(Stop::Told(Answer::Names(rule, at))),
        Err(NamesFault::NoMemory) => Err(Stop::NoMemory),
    }
}

// Tests a tree.
fn test_tree<'a>(alloc: Global, text: &[u8], tree: &Program) -> Result<(), Stop<'a>>
    requires { HasTree text.now tree.now }
    ensures reads { IfOk result (λ _. Reads text.now tree.now) }
    ensures told { MatchResult result (λ _. ⊤) (λ stop. OnTold stop (TellsText text.now)) }
{
    test_counts(text, tree)?;
    test_names(alloc, text, tree)
}

// The tokens of a text, where they keep the limits of their shape, or why there are none.
fn read_tokens<'a>(alloc: Global, text: &[u8]) -> Result<Vec<Token>, Stop<'a>>
    requires { length text.now ≤ most SourceBytes }
    ensures shaped { IfOk result (λ tokens. Shaped text.now tokens.items) }
    ensures told { MatchResult result (λ _. ⊤) (λ stop. OnTold stop (TellsText text.now)) }
{
    let tokens = tokens_of(alloc, text)?;
    test_shape(text, &tokens)?;
    Ok(tokens)
}

// The tree that the tokens of a text spell, where it keeps the limits of counts and the name rules, or why there is
// none.
fn read_tree<'a>(alloc: Global, text: &[u8], tokens: &[Token]) -> Result<Program, Stop<'a>>
    requires short { length text.now ≤ most SourceBytes }
    requires shaped { Shaped text.now tokens.now }
    ensures tree { IfOk result (Reads text.now) }
    ensures told { MatchResult result (λ _. ⊤) (λ stop. OnTold stop (TellsText text.now)) }
{
    let tree = tree_of(alloc, text, tokens)?;
    match test_tree(alloc, text, &tree) {
        Ok(()) => Ok(tree),
        Err(stop) => {
            drop(tree);
            Err(stop)
        }
    }
}

// The tokens of a text and the tree that they spell, or why there are none.
fn read_text<'a>(alloc: Global, text: &[u8]) -> Result<(Vec<Token>, Program), Stop<'a>>
    requires { length text.now ≤ most SourceBytes }
    ensures tokens { IfOk result (λ read. Tokens text.now read.0.items) }
    ensures tree { IfOk result (λ read. Reads text.now read.1) }
    ensures told { MatchResult result (λ _. ⊤) (λ stop. OnTold stop (TellsText text.now)) }
{
    let tokens = read_tokens(alloc, text)?;
    let tree = read_tree(alloc, text, &tokens)?;
    Ok((tokens, tree))
}

/// A source that was read: its text, the tokens of this, and the tree that they spell.
#[derive(Drop)]
pub struct Source {
    pub text: Vec<u8>,
    pub tokens: Vec<Token>,
    pub tree: Program,
}

/// The source of this name, within its limits and with its names in order (docs/COMMANDS.md, "The source").
pub fn fetch_source<'a, H: Shelf>(
    alloc: Global,
    shelf: &mut H,
    name: &'a str,
) -> Result<Source, Stop<'a>>
    ensures { Reading (IsRead (H.holding shelf.old) name.now) (SourceAnswers name.now)
        (shelf_state H.holding H.faults H.failed_name shelf.old) (shelf_state H.holding H.faults H.failed_name shelf.new) result }
{
    let text = fetch(shelf, name, Quantity::SourceBytes)?;
    let (tokens, tree) = read_text(alloc, &text)?;
    Ok(Source { text, tokens, tree })
}
