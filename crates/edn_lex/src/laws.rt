//! Laws of the definition of tokens: the contracts of functions that do nothing.

ghost use Rattle.std.specs.Prelude.{◌≡◌, ℕ, List, Option, Result};
ghost use Rattle.std.specs.Iterator.{Drains};
ghost use Rattle.hist_types.specs.declared.types.Fault.{Fault};
ghost use Rattle.hist_types.specs.Tokens.{Item, HasTokens};
ghost use Rattle.edn_lex.specs.declared.types.Token.{Token};
ghost use Rattle.edn_lex.specs.State.{state_at_start, Gives, AreTokensOf};

/// Each text has one list of tokens and one ending at most.
pub fn tokens_are_unique()
    ensures { (text : List ℕ) (ts us : List Item) (e f : Option Fault)
        → HasTokens text ts e → HasTokens text us f → (ts ≡ us) × (e ≡ f) }
{}

/// Each text has a list of tokens and an ending.
pub fn tokens_exist()
    ensures { (text : List ℕ) → (ts : List Item) × (e : Option Fault) × HasTokens text ts e }
{}

/// What all calls of a lexer give, up to the first that gives nothing, are the text's tokens and
/// its ending.
pub fn collected_are_the_tokens()
    ensures { (text : List ℕ) (given : List (Result Token Fault))
        → Drains Gives (state_at_start text) given → AreTokensOf text given }
{}
