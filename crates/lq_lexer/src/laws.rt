//! What follows from the definitions alone: each law is the contract of a function that does nothing.

ghost use Rattle.std.specs.Prelude.{◌≡◌, ℕ, ◌<◌, ◌≤◌, ◌⊎◌, List, length, All};
ghost use Rattle.std.specs.List.{AllPairs};
ghost use Rattle.lq_lexer.specs.declared.token.Token.{Token};
ghost use Rattle.lq_lexer.specs.declared.token.TokenKind.{TokenKind};
ghost use Rattle.lq_lexer.specs.Tokens.{Spells, Tokens, text_of};
ghost use Rattle.lq_lexer.specs.Faults.{IsFirstFault};
ghost use Rattle.lq_lexer.specs.Shape.{most_open, longest_stretch, IsMostOpen, IsLongestStretch};

/// A text has at most one list of tokens.
pub fn tokens_are_one()
    ensures { (text : List ℕ) (tokens others : List Token) → Tokens text tokens → Tokens text others → tokens ≡ others }
{}

/// A text has at most one first fault.
pub fn fault_is_one()
    ensures { (text : List ℕ) (at other : ℕ) → IsFirstFault text at → IsFirstFault text other → at ≡ other }
{}

/// No text has both tokens and a fault.
pub fn tokens_or_fault_alone()
    ensures { (text : List ℕ) (tokens : List Token) (at : ℕ) → Tokens text tokens → IsFirstFault text at → ⊥ }
{}

/// Each text has tokens or a fault.
pub fn tokens_or_fault()
    ensures { (text : List ℕ) → ((tokens : List Token) × Tokens text tokens) ⊎ ((at : ℕ) × IsFirstFault text at) }
{}

/// Each token of a text lies in it and is spelled there, and the tokens stand in order and apart.
pub fn tokens_lie_in_text()
    ensures spans { (text : List ℕ) (tokens : List Token) → Tokens text tokens
        → All (λ token. (token.start < token.end) × (token.end ≤ length text)) tokens }
    ensures apart { (text : List ℕ) (tokens : List Token) → Tokens text tokens
        → AllPairs (λ token next. token.end ≤ next.start) tokens }
    ensures spelled { (text : List ℕ) (tokens : List Token) → Tokens text tokens
        → All (λ token. Spells token.kind (text_of text token)) tokens }
{}

/// No text is spelled as two kinds of token.
pub fn kind_is_one()
    ensures { (kind other : TokenKind) (text : List ℕ) → Spells kind text → Spells other text → kind ≡ other }
{}

/// The counts of a shape are the largest that its tokens give.
pub fn counts_are_largest()
    ensures brackets { (tokens : List (List ℕ)) → IsMostOpen tokens (most_open tokens) }
    ensures stretch { (tokens : List (List ℕ)) → IsLongestStretch tokens (longest_stretch tokens) }
{}
