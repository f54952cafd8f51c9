//! What the definitions of this crate say together. Each function is a law: its contract is what it
//! is for, and it does nothing when it runs.

ghost use Rattle.std.specs.Prelude.{◌≡◌, ◌⊎◌, ℕ, List};
ghost use Rattle.es_lexer.specs.Tokens.{Tokens, IsBadAt, StandInOrder};
ghost use Rattle.es_lexer.specs.declared.token_types.Token.{Token};

/// A text has one list of tokens, or one place at which nothing stands, and not both.
pub fn law_of_tokens()
    ensures one { (text : List ℕ) (tokens others : List Token)
        → Tokens text tokens → Tokens text others → tokens ≡ others }
    ensures one_place { (text : List ℕ) (place other : ℕ)
        → IsBadAt text place → IsBadAt text other → place ≡ other }
    ensures either { (text : List ℕ)
        → ((tokens : List Token) × Tokens text tokens) ⊎ ((place : ℕ) × IsBadAt text place) }
    ensures not_both { (text : List ℕ) (tokens : List Token) (place : ℕ)
        → Tokens text tokens → IsBadAt text place → ⊥ }
{}

/// Tokens stand one behind the other, and each is what is spelled from its start to its end.
pub fn law_of_spans()
    ensures { (text : List ℕ) (tokens : List Token)
        → Tokens text tokens → StandInOrder text 0 tokens }
{}
