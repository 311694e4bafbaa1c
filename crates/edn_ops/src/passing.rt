//! Forms that are passed over in one pass over their bytes.

ghost use Rattle.std.specs.Prelude.{◌≡◌, ◌∷◌, [], ◌+◌, ◌≤◌, ℕ, length, true};
ghost use Rattle.hist_types.specs.Tokens.{closer_of};
ghost use Rattle.edn_lex.specs.Ahead.{GivesAhead};
ghost use Rattle.edn_lex.specs.Kinds.{item_of};
ghost use Rattle.edn_lex.specs.declared.types.TokenKind.TheVariants.{Open};
ghost use Rattle.edn_ops.specs.Flat.{PassesAhead};

use crate::marks::closes;
use edn_lex::ahead::next_token;
use edn_lex::types::{Token, TokenKind};

/// Whether the closer closes what the opener opens.
fn is_closed_by(text: &[u8], opener: Token, closer: Token) -> bool
    requires opener { (opener.start ≤ opener.end) × (opener.end ≤ length text.now) }
    requires closer { (closer.start ≤ closer.end) × (closer.end ≤ length text.now) }
    ensures { result ≡ true → (item_of text.now closer).bytes
        ≡ closer_of (item_of text.now opener).bytes ∷ [] }
{
    let closer = &text[closer.start..closer.end];
    match &text[opener.start..opener.end] {
        [b'('] => closer == b")".as_slice(),
        [b'['] => closer == b"]".as_slice(),
        _ => closer == b"}".as_slice(),
    }
}

/// The end of the form that begins with this token, if all of it can be read in one pass: without
/// tags, `#_` and comments, and with no more than `levels` collections within one another.
#[cycle(passing)]
pub(crate) fn form_end(text: &[u8], token: Token, levels: usize) -> Option<usize>
    ensures { (offset : ℕ) → GivesAhead text.now offset token
        → PassesAhead text.now levels offset result }
{
    match token.kind {
        TokenKind::Open => {
            if levels == 0 {
                return None;
            }
            collection_end(text, token, levels - 1)
        }
        TokenKind::Close | TokenKind::Drop | TokenKind::Tag => None,
        _ => Some(token.end),
    }
}

/// The end of the collection with this opener, if all of it can be read in one pass.
#[cycle(passing)]
fn collection_end(text: &[u8], opener: Token, levels: usize) -> Option<usize>
    requires { opener.kind ≡ Open }
    ensures { (offset : ℕ) → GivesAhead text.now offset opener
        → PassesAhead text.now (levels + 1) offset result }
{
    if opener.start > opener.end || opener.end > text.len() {
        return None;
    }
    let mut at = opener.end;
    while let Some(token) = next_token(text, at) {
        if closes(token) {
            return if is_closed_by(text, opener, token) {
                Some(token.end)
            } else {
                None
            };
        }
        at = form_end(text, token, levels)?;
    }
    None
}
