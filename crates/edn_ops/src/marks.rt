//! Tags and `#_` that wait for a form in one level of a text.

ghost use Rattle.std.specs.Prelude.{◌≡◌, ◌≢◌, ℕ, ◌+◌, ◌<◌, ◌≤◌, List, [], ◌∷◌, true, false};
ghost use Rattle.hist_types.specs.Tokens.{Item, byte_fault};
ghost use Rattle.hist_types.specs.declared.types.Refusal.TheVariants.{DanglingTag};
ghost use Rattle.edn_lex.specs.declared.types.TokenKind.TheVariants.{Open, Close};
ghost use Rattle.edn_lex.specs.Kinds.{kind_of, item_of};
ghost use Rattle.edn_ops.specs.Leads.{is_mark_kind};
ghost use Rattle.edn_ops.specs.LevelEnds.{WaitAtEnd};
ghost use Rattle.edn_ops.specs.Marks.{Waits, any_mark, drops_among, IsLastOf, IsOneMore, IsSettled};

use edn_lex::lexer::Lexer;
use edn_lex::types::{Token, TokenKind};
use hist_types::types::{At, Fault, Refusal};

/// What is kept of the marks that wait. A form takes the tags after the last `#_`, and that `#_`.
#[derive(Clone, Copy)]
pub(crate) struct Waiting {
    /// How many `#_` wait.
    pub(crate) drops: usize,
    /// The offset of the first of the tags that wait before the first `#_`.
    pub(crate) tag: Option<usize>,
}

impl Waiting {
    /// Only this mark waits.
    pub(crate) fn by(mark: Token) -> Waiting
        requires { is_mark_kind (kind_of mark.kind) ≡ true }
        ensures waits { (text : List ℕ) → Waits result.drops result.tag (item_of text mark ∷ []) }
        ensures few { result.drops ≤ 1 }
    {
        match mark.kind {
            TokenKind::Drop => Waiting {
                drops: 1,
                tag: None,
            },
            _ => Waiting {
                drops: 0,
                tag: Some(mark.start),
            },
        }
    }

    /// One more mark waits after the others.
    pub(crate) fn and(self, mark: Token) -> Waiting
        requires room { self.drops < mark.end }
        requires mark { is_mark_kind (kind_of mark.kind) ≡ true }
        ensures waits { (text : List ℕ) (marks : List Item) → Waits self.drops self.tag marks
            → Waits result.drops result.tag (item_of text mark ∷ marks) }
        ensures few { result.drops ≤ self.drops + 1 }
    {
        match mark.kind {
            TokenKind::Drop => Waiting {
                drops: self.drops + 1,
                tag: self.tag,
            },
            _ if self.drops == 0 => Waiting {
                drops: 0,
                tag: self.tag.or(Some(mark.start)),
            },
            _ => self,
        }
    }

    pub(crate) fn is_some(self) -> bool
        ensures { (marks : List Item) → Waits self.drops self.tag marks → result ≡ any_mark marks }
    {
        self.drops > 0 || self.tag.is_some()
    }
}

/// Whether the token is a tag or a `#_`.
pub(crate) fn is_mark(token: Token) -> bool
    ensures { result ≡ is_mark_kind (kind_of token.kind) }
{
    matches!(token.kind, TokenKind::Tag | TokenKind::Drop)
}

pub(crate) fn opens(token: Token) -> bool
    ensures yes { result ≡ true → token.kind ≡ Open }
    ensures no { result ≡ false → token.kind ≢ Open }
{
    matches!(token.kind, TokenKind::Open)
}

pub(crate) fn closes(token: Token) -> bool
    ensures yes { result ≡ true → token.kind ≡ Close }
    ensures no { result ≡ false → token.kind ≢ Close }
{
    matches!(token.kind, TokenKind::Close)
}

/// The fault of the last mark that waits when this level ends, if `drops` discards are pending
/// then. The lexer is after the first mark of the level.
pub(crate) fn dangling(lexer: Lexer, first: Token, drops: usize) -> Fault
    requires mark { is_mark_kind (kind_of first.kind) ≡ true }
    requires behind { first.start < lexer.offset }
    ensures { (mark : Item) (marks : List Item) → drops_among (mark ∷ marks) ≡ drops
        → WaitAtEnd lexer.entry (item_of lexer.entry.text first ∷ []) (mark ∷ marks)
        → result ≡ byte_fault DanglingTag mark.start }
{
    Fault {
        refusal: Refusal::DanglingTag,
        at: At::Byte(last_waiting(lexer, first, drops)),
    }
}

/// The offset of the last mark after which `drops` discards are still pending when this level ends.
fn last_waiting(mut lexer: Lexer, first: Token, drops: usize) -> usize
    requires mark { is_mark_kind (kind_of first.kind) ≡ true }
    requires behind { first.start < lexer.offset }
    ensures { (mark : Item) (marks : List Item) → drops_among (mark ∷ marks) ≡ drops
        → WaitAtEnd lexer.entry (item_of lexer.entry.text first ∷ []) (mark ∷ marks)
        → result ≡ mark.start }
{
    let mut last = LastMark::by(first, drops);
    let mut depth: usize = 0;
    while let Some(given) = lexer.next() {
        let Ok(token) = given else {
            break;
        };
        match token.kind {
            TokenKind::Open => depth += 1,
            TokenKind::Close => {
                if depth == 0 {
                    break;
                }
                depth -= 1;
                if depth == 0 {
                    last = last.settled();
                }
            }
            _ => {
                if depth == 0 {
                    last = last.and(token);
                }
            }
        }
    }
    last.place
}

/// The last mark so far after which `drops` discards are pending.
#[derive(Clone, Copy)]
struct LastMark {
    drops: usize,
    /// How many `#_` wait now.
    waiting: usize,
    place: usize,
}

impl LastMark {
    /// The first mark of the level.
    fn by(mark: Token, drops: usize) -> LastMark
        requires { is_mark_kind (kind_of mark.kind) ≡ true }
        ensures drops { result.drops ≡ drops }
        ensures waits { (text : List ℕ) → IsLastOf result (item_of text mark ∷ []) }
        ensures few { result.waiting ≤ 1 }
    {
        LastMark {
            drops,
            waiting: if mark.kind == TokenKind::Drop { 1 } else { 0 },
            place: mark.start,
        }
    }

    /// The marks once a form has used up the last `#_`, if one waits.
    fn settled(self) -> LastMark
        ensures drops { result.drops ≡ self.drops }
        ensures waits { IsSettled self result }
        ensures few { result.waiting ≤ self.waiting }
    {
        LastMark {
            waiting: self.waiting.saturating_sub(1),
            ..self
        }
    }

    /// One more token that opens and closes nothing.
    fn and(self, token: Token) -> LastMark
        requires { self.waiting < token.end }
        ensures drops { result.drops ≡ self.drops }
        ensures mark { is_mark_kind (kind_of token.kind) ≡ true → IsOneMore self token result }
        ensures form { is_mark_kind (kind_of token.kind) ≡ false → IsSettled self result }
        ensures few { result.waiting ≤ self.waiting + 1 }
    {
        if !is_mark(token) {
            return self.settled();
        }
        let waiting = if token.kind == TokenKind::Drop {
            self.waiting + 1
        } else {
            self.waiting
        };
        LastMark {
            drops: self.drops,
            waiting,
            place: if waiting == self.drops {
                token.start
            } else {
                self.place
            },
        }
    }
}
