//! How an atom's text spells it.

ghost use Rattle.std.specs.Prelude.{◌≡◌, ℕ, pos, List, MatchOption, IfSome};
ghost use Rattle.hist_types.specs.Atoms.{Atom as AnAtom, rank as rank_of_atom};
ghost use Rattle.hist_types.specs.Tokens.{Str};
ghost use Rattle.edn_lex.specs.Kinds.{kind_of};
ghost use Rattle.reading_laws.specs.Placed.{IsTokenAlone};
ghost use Rattle.edn_ops.specs.SourceTexts.{IsAtomText, IsNumberOf};
ghost use Rattle.op_view.specs.Spellings.{atom_spelled, HasNoContent, IsDigit, IsSpelled, IsSpellingOf, IsKnownSpelling};

use edn_lex::types::TokenKind;
use edn_ops::atoms::{between_quotes, has_known_escapes, integer_of, number_of_digits, token_kind};
use memchr::memchr;

/// How a text spells an atom, without the text.
#[derive(Clone, Copy, Debug)]
pub(crate) enum Spelling {
    /// An integer. Its number is parsed once, when the atom is made.
    Integer(i64),
    Keyword,
    /// A string whose content is what is between the quotes.
    PlainString,
    /// A string in whose content some bytes are escaped.
    EscapedString,
    Symbol,
}

impl Spelling {
    /// Where the kind of atom comes in the order of kinds.
    pub(crate) fn rank(self) -> u8
        ensures { (text : List ℕ) → result ≡ rank_of_atom (atom_spelled self text) }
    {
        match self {
            Spelling::Integer(_) => 0,
            Spelling::Keyword => 1,
            Spelling::PlainString | Spelling::EscapedString => 2,
            Spelling::Symbol => 3,
        }
    }
}

/// How the text of a string spells it, if all its escapes are known.
fn string_spelling(text: &[u8]) -> Option<Spelling>
    ensures { MatchOption result (HasNoContent text.now) (IsSpelled Str text.now) }
{
    let between = between_quotes(text);
    match memchr(b'\\', between) {
        None => Some(Spelling::PlainString),
        Some(_) if has_known_escapes(between) => Some(Spelling::EscapedString),
        Some(_) => None,
    }
}

/// How a text that is one token of this kind spells an atom, if it does.
pub(crate) fn spelling_of(kind: TokenKind, text: &[u8]) -> Option<Spelling>
    requires { IsTokenAlone (kind_of kind) text.now }
    ensures { IsSpellingOf (kind_of kind) text.now result }
{
    match kind {
        TokenKind::Int => Some(Spelling::Integer(integer_of(text)?)),
        TokenKind::Keyword => Some(Spelling::Keyword),
        TokenKind::Symbol => Some(Spelling::Symbol),
        TokenKind::Str => string_spelling(text),
        _ => None,
    }
}

/// The number that a digit spells; none of any other byte.
#[inline(always)]
fn digit_of(byte: u8) -> Option<u32>
    ensures { IfSome result (IsDigit byte) }
{
    if byte.is_ascii_digit() {
        Some(u32::from(byte - b'0'))
    } else {
        None
    }
}

/// The number that at most four digits spell, as most integers do.
#[inline(always)]
fn short_number(text: &[u8]) -> Option<u32>
    ensures { IfSome result (λ number. IsNumberOf text.now (pos number)) }
{
    match text {
        [a] => digit_of(*a),
        [a, b] => Some(digit_of(*a)? * 10 + digit_of(*b)?),
        [a, b, c] => Some((digit_of(*a)? * 10 + digit_of(*b)?) * 10 + digit_of(*c)?),
        [a, b, c, d] => {
            Some(((digit_of(*a)? * 10 + digit_of(*b)?) * 10 + digit_of(*c)?) * 10 + digit_of(*d)?)
        }
        _ => None,
    }
}

/// How a text that is known to be an atom spells it. Most are integers of a few digits.
#[inline(always)]
pub(crate) fn known_spelling(text: &[u8]) -> Spelling
    requires { (atom : AnAtom) × IsAtomText text.now atom }
    ensures { IsKnownSpelling text.now result }
{
    match short_number(text) {
        Some(number) => Spelling::Integer(i64::from(number)),
        None => longer_spelling(text),
    }
}

/// How a text that is known to be an atom spells it, where that isn't an integer of a few digits.
#[inline(never)]
fn longer_spelling(text: &[u8]) -> Spelling
    requires { (atom : AnAtom) × IsAtomText text.now atom }
    ensures { IsKnownSpelling text.now result }
{
    match number_of_digits(text) {
        Some(number) => Spelling::Integer(number),
        None => any_known_spelling(text),
    }
}

/// How a text that is known to be an atom spells it, by its first bytes.
#[inline(never)]
fn any_known_spelling(text: &[u8]) -> Spelling
    requires { (atom : AnAtom) × IsAtomText text.now atom }
    ensures { IsKnownSpelling text.now result }
{
    spelling_of(token_kind(text), text).unwrap()
}
