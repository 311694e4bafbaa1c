//! Members of an operation's map and of its transaction, as far as its checks look at them.

ghost use Rattle.std.specs.Prelude.{◌≡◌, ◌≤◌, List, true, ℕ, length, slice_range, option_map, IfSome, IsNone, None};
ghost use Rattle.hist_types.specs.Entries.{elements_of, is_named, is_nil as is_nil_form, atom_of, value_of};
ghost use Rattle.hist_types.specs.Forms.{Form, Forms, plain, collection, place_of};
ghost use Rattle.hist_types.specs.Tokens.{Item, Opener};
ghost use Rattle.edn_lex.specs.Kinds.{kind_of};
ghost use Rattle.edn_ops.specs.Leads.{is_plain_kind, IsBehind};
ghost use Rattle.edn_ops.specs.Outlines.{outline_of, outline_for, IsPlainOutline, IsCollectionOutline, IsTokenIn, IsOutlineIn, IsIntIn, begins_sequence, IsItsInteger, IsAtItsPlace};
ghost use Rattle.edn_ops.specs.Shapes.{span_of};

use crate::atoms;
use crate::forms::Member;
use crate::types::Span;
use edn_lex::types::{Token, TokenKind};

/// A form, as far as an operation's checks look at it without looking into it.
#[derive(Clone, Copy)]
pub(crate) enum Outline {
    /// A token that is a form.
    Plain(Token),
    /// A collection, by its opener.
    Collection(Token),
    /// A tagged form, by the offset of its first tag.
    Tagged(usize),
}

/// The bytes of a token.
pub(crate) fn bytes_of(text: &[u8], token: Token) -> &[u8]
    requires { IsTokenIn text.now token }
    ensures { result.now ≡ slice_range text.now token.start token.end }
{
    &text[token.start..token.end]
}

/// Whether the token is the opener of a vector or a list.
fn opens_sequence(text: &[u8], opener: Token) -> bool
    requires { IsTokenIn text.now opener }
    ensures { result ≡ begins_sequence text.now opener }
{
    matches!(bytes_of(text, opener), [b'['] | [b'('])
}

pub(crate) fn span(token: Token) -> Span
    ensures { result ≡ record { start = token.start; end = token.end } }
{
    Span {
        start: token.start,
        end: token.end,
    }
}

/// What fills lists of outlines at first.
impl Default for Outline {
    fn default() -> Outline {
        Outline::Tagged(0)
    }
}

impl Outline {
    /// The outline of the form that begins with this member's token.
    #[inline(always)]
    pub(crate) fn of(member: Member) -> Outline
        ensures plain { IsPlainOutline member result }
        ensures collection { IsCollectionOutline member result }
        ensures within { (text : List ℕ) → IsTokenIn text member.token → IsOutlineIn text result }
        ensures is { result ≡ outline_for member }
    {
        match member.tag {
            Some(place) => Outline::Tagged(place),
            None => match member.token.kind {
                TokenKind::Open => Outline::Collection(member.token),
                _ => Outline::Plain(member.token),
            },
        }
    }

    /// The form's opener, if it is a vector or a list.
    #[inline(always)]
    pub(crate) fn sequence(self, text: &[u8]) -> Option<Token>
        requires { IsOutlineIn text.now self }
        ensures opens { IfSome result (λ opener. self ≡ Outline.Collection opener) }
        ensures sequence { IfSome result (λ opener. begins_sequence text.now opener ≡ true) }
        ensures none { IsNone result → elements_of (outline_of text.now self) ≡ None }
    {
        match self {
            Outline::Collection(opener) if opens_sequence(text, opener) => { Some(opener) }
            _ => None,
        }
    }

    /// The offset at which the form begins.
    #[inline(always)]
    pub(crate) fn place(self) -> usize
        ensures { (text : List ℕ) → result ≡ place_of (outline_of text self) }
    {
        match self {
            Outline::Plain(token) | Outline::Collection(token) => token.start,
            Outline::Tagged(place) => place,
        }
    }

    /// Whether the form is the keyword with this spelling.
    #[inline(always)]
    pub(crate) fn is_named(self, text: &[u8], name: &[u8]) -> bool
        requires { IsOutlineIn text.now self }
        ensures { result ≡ is_named name.now (outline_of text.now self) }
    {
        match self {
            Outline::Plain(token) => {
                matches!(token.kind, TokenKind::Keyword) && name == bytes_of(text, token)
            }
            Outline::Collection(_) | Outline::Tagged(_) => false,
        }
    }

    #[inline(always)]
    pub(crate) fn is_nil(self) -> bool
        ensures { (text : List ℕ) → result ≡ is_nil_form (outline_of text self) }
    {
        match self {
            Outline::Plain(token) => matches!(token.kind, TokenKind::Nil),
            Outline::Collection(_) | Outline::Tagged(_) => false,
        }
    }

    /// Where the form is, if it is an atom.
    #[inline(always)]
    pub(crate) fn atom(self, text: &[u8]) -> Option<Span>
        requires { IsOutlineIn text.now self }
        ensures { result ≡ option_map (λ a. span_of a.0) (atom_of (outline_of text.now self)) }
    {
        match self {
            Outline::Plain(token) if atoms::is_atom(token.kind, bytes_of(text, token)) => {
                Some(span(token))
            }
            _ => None,
        }
    }

    /// Where the form is, if it is an atom or nil.
    #[inline(always)]
    pub(crate) fn value(self, text: &[u8]) -> Option<Span>
        requires { IsOutlineIn text.now self }
        ensures { result ≡ option_map (λ a. span_of a.0) (value_of (outline_of text.now self)) }
    {
        match self {
            Outline::Plain(token) if matches!(token.kind, TokenKind::Nil) => { Some(span(token)) }
            _ => self.atom(text),
        }
    }

    /// The form's token, if it is an integer.
    #[inline(always)]
    pub(crate) fn integer(self) -> Option<Token>
        ensures number { IsItsInteger self result }
        ensures within { (text : List ℕ) → IsOutlineIn text self → IfSome result (IsIntIn text) }
        ensures place { IsAtItsPlace self result }
    {
        match self {
            Outline::Plain(token) if matches!(token.kind, TokenKind::Int) => { Some(token) }
            _ => None,
        }
    }
}
