//! The item at the front of a text.

ghost use Rattle.std.specs.Prelude.{◌≡◌, ◌<◌, ◌≤◌, length, drop, take, false, IsTrue, Some, IfSome};
ghost use Rattle.std.specs.Str.{IsAscii};
ghost use Rattle.hist_types.specs.Bytes.{is_blank, hash};
ghost use Rattle.hist_types.specs.Tokens.{first_byte, run_len, hash_front, front};
ghost use Rattle.edn_lex.specs.Kinds.{kind_of};
ghost use Rattle.edn_lex.specs.Pieces.{IsTokenBetween, front_of_piece, front_of_found, run_front};

use crate::runs::run_kind;
use crate::scan::{character_len, comment_len, content_len, first_run};
use crate::types::{Token, TokenKind};

/// What an item other than a blank is: a comment, which the lexer passes over, or a token.
#[derive(Clone, Copy)]
pub(crate) enum PieceKind {
    Comment,
    Token(TokenKind),
}

/// An item at the front of a text.
#[derive(Clone, Copy)]
pub(crate) struct Piece {
    pub(crate) kind: PieceKind,
    /// How many bytes the item has.
    pub(crate) len: usize,
    /// Whether the bytes of the item are known to be below 128.
    pub(crate) ascii: bool,
}

impl PieceKind {
    /// The token with this span, if the item is one.
    pub(crate) fn token(self, start: usize, end: usize) -> Option<Token>
        ensures { IsTokenBetween self start end result }
    {
        match self {
            PieceKind::Token(kind) => Some(Token { kind, start, end }),
            PieceKind::Comment => None,
        }
    }
}

const fn token(kind: TokenKind, len: usize, ascii: bool) -> Piece
    ensures front { front_of_piece result ≡ (kind_of kind, Some len) }
    ensures len { result.len ≡ len }
    ensures ascii { result.ascii ≡ ascii }
{
    Piece {
        kind: PieceKind::Token(kind),
        len,
        ascii,
    }
}

/// The run at the front of a text that begins with a byte of a run.
#[tactic(auto, using(crate::proofs::Flags::IsAscii_from_low))]
pub(crate) fn run_piece(text: &[u8]) -> Piece
    requires { 0 < run_len text.now }
    ensures front { front_of_piece result ≡ run_front text.now }
    ensures len { result.len ≡ run_len text.now }
    ensures some { 0 < result.len }
    ensures ascii { IsTrue result.ascii → IsAscii (take result.len text.now) }
{
    let found = first_run(text);
    token(
        run_kind(&text[..found.len], found.ascii, found.digits),
        found.len,
        found.ascii,
    )
}

/// The item at the front of a text that begins with `#`.
#[tactic(auto, using(crate::proofs::Flags::IsAscii_from_low))]
fn hash_piece(text: &[u8]) -> Piece
    requires nonempty { 0 < length text.now }
    requires hash { first_byte text.now ≡ hash }
    ensures front { front_of_piece result ≡ hash_front (drop 1 text.now) }
    ensures fits { result.len ≤ length text.now }
    ensures ascii { IsTrue result.ascii → IsAscii (take result.len text.now) }
{
    match text.get(1) {
        Some(b'{') => token(TokenKind::Open, 2, true),
        Some(b'_') => token(TokenKind::Drop, 2, true),
        Some(b'#') => run_piece(text),
        _ => {
            let tag = first_run(text);
            token(TokenKind::Tag, tag.len, tag.ascii)
        }
    }
}

/// The item at the front of the text, which begins with no blank; none where it is a string that
/// nothing closes.
pub(crate) fn first_piece(text: &[u8]) -> Option<Piece>
    requires nonempty { 0 < length text.now }
    requires unblank { is_blank (first_byte text.now) ≡ false }
    ensures front { front (first_byte text.now) (drop 1 text.now) ≡ front_of_found result }
    ensures some { IfSome result (λ p. 0 < p.len) }
    ensures fits { IfSome result (λ p. p.len ≤ length text.now) }
    ensures ascii { IfSome result (λ p. IsTrue p.ascii → IsAscii (take p.len text.now)) }
{
    let found = match text[0] {
        b';' => Piece {
            kind: PieceKind::Comment,
            len: 1 + comment_len(&text[1..]),
            ascii: false,
        },
        b'"' => token(TokenKind::Str, content_len(&text[1..])? + 2, false),
        b'\\' => token(TokenKind::Char, 1 + character_len(&text[1..]), false),
        b'(' | b'[' | b'{' => token(TokenKind::Open, 1, true),
        b')' | b']' | b'}' => token(TokenKind::Close, 1, true),
        b'#' => hash_piece(text),
        _ => run_piece(text),
    };
    Some(found)
}
