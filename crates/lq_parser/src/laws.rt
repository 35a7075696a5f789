ghost use Rattle.std.specs.Prelude.{◌≡◌, ℕ, List};
ghost use Rattle.lq_tree.specs.declared.program.Program.{Program};
ghost use Rattle.lq_lexer.specs.declared.token.Token.{Token};
ghost use Rattle.lq_parser.specs.Spelling.{Spells, IsFaultPlace};

/// Tokens spell at most one tree.
pub fn tree_is_one()
    ensures { (text : List ℕ) (tokens : List Token) (tree other : Program) → Spells text tokens tree → Spells text tokens other → tree ≡ other }
{}

/// Tokens that spell a tree have no fault place, and no tokens have two.
pub fn fault_is_one()
    ensures none { (text : List ℕ) (tokens : List Token) (tree : Program) (at : ℕ) → Spells text tokens tree → ¬ IsFaultPlace text tokens at }
    ensures one { (text : List ℕ) (tokens : List Token) (at other : ℕ) → IsFaultPlace text tokens at → IsFaultPlace text tokens other → at ≡ other }
{}

/// No tokens have neither a tree nor a fault place.
pub fn tree_or_fault_place()
    ensures { (text : List ℕ) (tokens : List Token) → ¬ (((tree : Program) → ¬ Spells text tokens tree) × ((at : ℕ) → ¬ IsFaultPlace text tokens at)) }
{}
