//! What the tokens of atoms mean, and the numbers of processes.

ghost use Rattle.std.specs.Prelude.{◌≡◌, ◌≤◌, pos, take, length, true, false, Some, IfSome};
ghost use Rattle.std.specs.Char.{is_ascii_digit};
ghost use Rattle.std.specs.List.{list_all};
ghost use Rattle.std.specs.Bool.{then_some};
ghost use Rattle.std.specs.Option.{is_some};
ghost use Rattle.hist_types.specs.AtomTokens.{int_value, is_64_bit, escape_value as value_of_escape, between_quotes as bytes_between_quotes, decoded, atom_of_token, process_of as process_of_number};
ghost use Rattle.hist_types.specs.Tokens.{is_int, begins_with_number};
ghost use Rattle.edn_lex.specs.Kinds.{kind_of};
ghost use Rattle.edn_ops.specs.declared.atoms.TheConstants.{FEW_DIGITS};
ghost use Rattle.edn_ops.specs.Outlines.{IsSpelled};
ghost use Rattle.edn_ops.specs.SourceTexts.{IsNumberOf, kind_by_front};

use edn_lex::runs::without_n;
use edn_lex::types::TokenKind;
use hist_types::types::Process;
use std::str;

/// An integer with fewer bytes than this fits into 64 bits.
pub(crate) const LONG_INTEGER: usize = 19;

/// How many digits `process_ahead` takes at most.
pub(crate) const FEW_DIGITS: usize = 9;

/// The number that digits alone spell, if they are so few that it fits into 64 bits.
pub fn number_of_digits(text: &[u8]) -> Option<i64>
    ensures { IfSome result (IsNumberOf text.now) }
{
    if text.len() >= LONG_INTEGER {
        return None;
    }
    let mut number: u64 = 0;
    for byte in text {
        if !byte.is_ascii_digit() {
            return None;
        }
        number = number * 10 + u64::from(byte - b'0');
    }
    Some(number as i64)
}

/// The number that an integer's spelling means, if it fits into 64 bits.
pub fn integer_of(spelling: &[u8]) -> Option<i64>
    requires { is_int spelling.now ≡ true }
    ensures { result ≡ then_some (is_64_bit (int_value spelling.now)) (int_value spelling.now) }
{
    // Most integers are short and have no sign.
    if let Some(number) = number_of_digits(spelling) {
        return Some(number);
    }
    let Ok(text) = str::from_utf8(without_n(spelling)) else {
        return None;
    };
    text.parse::<i64>().ok()
}

/// The process whose number has this spelling.
pub(crate) fn process_of(spelling: &[u8]) -> Option<Process>
    requires { is_int spelling.now ≡ true }
    ensures { result ≡ process_of_number (int_value spelling.now) }
{
    let number = u64::try_from(integer_of(spelling)?).ok()?;
    Process::new(number)
}

/// How many decimal digits are at the front of the text, at most nine, and the number that they
/// spell.
#[inline(always)]
fn few_digits(text: &[u8]) -> (usize, u64)
    requires { FEW_DIGITS ≤ length text.now }
    ensures number { IsNumberOf (take result.0 text.now) (pos result.1) }
    ensures few { result.0 ≤ FEW_DIGITS }
{
    let mut len = 0;
    let mut number: u64 = 0;
    while len < FEW_DIGITS && text[len].is_ascii_digit() {
        number = number * 10 + u64::from(text[len] - b'0');
        len += 1;
    }
    (len, number)
}

/// How many decimal digits are at the front of the text, of which at most nine are taken, and the
/// process whose number they spell.
#[inline(always)]
pub(crate) fn process_ahead(text: &[u8]) -> Option<(usize, Process)>
    requires { FEW_DIGITS ≤ length text.now }
    ensures digits { IfSome result (λ found.
        list_all is_ascii_digit (take found.0 text.now) ≡ true) }
    ensures few { IfSome result (λ found. found.0 ≤ FEW_DIGITS) }
    ensures process { IfSome result (λ found.
        process_of_number (int_value (take found.0 text.now)) ≡ Some found.1) }
{
    let (len, number) = few_digits(text);
    let process = Process::new(number)?;
    Some((len, process))
}

/// What is between the quotes of a string.
pub fn between_quotes(text: &[u8]) -> &[u8]
    ensures { result.now ≡ bytes_between_quotes text.now }
{
    match text {
        [_, between @ .., _] => between,
        _ => &[],
    }
}

/// The byte that an escape means, by the byte after its backslash.
pub fn escape_value(escape: u8) -> Option<u8>
    ensures { result ≡ value_of_escape escape }
{
    match escape {
        b't' => Some(b'\t'),
        b'r' => Some(b'\r'),
        b'n' => Some(b'\n'),
        b'\\' => Some(b'\\'),
        b'"' => Some(b'"'),
        b'b' => Some(8),
        b'f' => Some(12),
        _ => None,
    }
}

/// Whether each backslash in the content of a string begins an escape that is known.
pub fn has_known_escapes(content: &[u8]) -> bool
    ensures { result ≡ is_some (decoded false content.now) }
{
    let mut taken = false;
    for byte in content {
        if taken && escape_value(*byte).is_none() {
            return false;
        }
        taken = *byte == b'\\' && !taken;
    }
    !taken
}

/// Whether a token is an atom: a key, or a value that is not nil.
#[inline(always)]
pub(crate) fn is_atom(kind: TokenKind, bytes: &[u8]) -> bool
    requires { IsSpelled (kind_of kind) bytes.now }
    ensures { result ≡ is_some (atom_of_token (kind_of kind) bytes.now) }
{
    match kind {
        TokenKind::Int => bytes.len() < LONG_INTEGER || integer_of(bytes).is_some(),
        TokenKind::Keyword | TokenKind::Symbol => true,
        TokenKind::Str => has_known_escapes(between_quotes(bytes)),
        _ => false,
    }
}

/// Whether a text begins with a digit, or with a sign and a digit.
fn begins_as_int(text: &[u8]) -> bool
    ensures { result ≡ begins_with_number text.now }
{
    match text {
        [b'+' | b'-', second, ..] => second.is_ascii_digit(),
        [first, ..] => first.is_ascii_digit(),
        [] => false,
    }
}

/// The kind of token that an atom's text is, by its first bytes. The text of nil counts as a
/// symbol.
pub fn token_kind(text: &[u8]) -> TokenKind
    ensures { kind_of result ≡ kind_by_front text.now }
{
    match text.first() {
        Some(b'"') => TokenKind::Str,
        Some(b':') => TokenKind::Keyword,
        _ if begins_as_int(text) => TokenKind::Int,
        _ => TokenKind::Symbol,
    }
}
