//! Tokens by looking ahead, as printers write them: after blanks alone.

ghost use Rattle.std.specs.Prelude.{◌≡◌, ◌≤◌, ◌<◌, ◌+◌, ◌-◌, ℕ, length, take, drop, get_or, true, false, IfSome};
ghost use Rattle.std.specs.Char.{is_ascii_digit};
ghost use Rattle.std.specs.Int.{w32, w64, to_le_bytes};
ghost use Rattle.std.specs.List.{list_all};
ghost use Rattle.hist_types.specs.Bytes.{open_square, close_square, open_brace, close_brace, is_run_byte};
ghost use Rattle.edn_lex.specs.declared.ahead.TheConstants.{NUMBER_LOOK};
ghost use Rattle.edn_lex.specs.Ahead.{is_lone, IsGap, IsWord, IsTokenAt, IsLoneAt, GivesAhead, GivesLone, GivesOpener, GivesCloser};
ghost use Rattle.edn_lex.specs.Kinds.{kind_of, item_of};
ghost use Rattle.edn_lex.specs.declared.types.TokenKind.TheVariants.{Int, Keyword, Tag};

use crate::pieces::first_piece;
use crate::runs::has_no_leading_zero;
use crate::scan::{
    DIGIT_LANES, digit_ends_of_16, digits_alone, digits_of_16, ends_run, is_blank, plain_of_16,
    utf8_end,
};
use crate::types::{Token, TokenKind};

/// How many collections may be opened one within another in what is looked at ahead.
pub const LEVELS_AHEAD: usize = 16;

/// How many bytes `number_before` and `keyword_before` may look at, from `start` on.
pub const NUMBER_LOOK: usize = DIGIT_LANES;

/// A vector of three tokens that are forms, with its brackets.
#[derive(Clone, Copy)]
pub struct Triple {
    pub opener: Token,
    pub first: Token,
    pub second: Token,
    pub third: Token,
    pub closer: Token,
}

/// The first offset from this one on where no blank is, or the text's end.
#[inline(always)]
pub fn behind_blanks(text: &[u8], offset: usize) -> usize
    requires { offset ≤ length text.now }
    ensures { IsGap text.now offset result }
{
    let mut at = offset;
    while at < text.len() && is_blank(text[at]) {
        at += 1;
    }
    at
}

/// The first offset from this one on where no blank is, or the text's end. Often one space comes
/// first.
#[inline(always)]
pub fn behind_word(text: &[u8], offset: usize) -> usize
    requires { offset ≤ length text.now }
    ensures { IsGap text.now offset result }
{
    match &text[offset..] {
        [b' ', next, ..] if *next > b',' => offset + 1,
        _ => behind_blanks(text, offset),
    }
}

/// The first offset from this one on where no blank is, or the text's end. Often a comma and one
/// blank come first.
#[inline(always)]
pub fn behind_comma(text: &[u8], offset: usize) -> usize
    requires { offset ≤ length text.now }
    ensures { IsGap text.now offset result }
{
    match &text[offset..] {
        [b',', b' ', ..] => behind_blanks(text, offset + 2),
        _ => behind_blanks(text, offset),
    }
}

/// The first offset from this one on where no blank is, or the text's end. Often one line feed
/// comes first.
#[inline(always)]
pub fn behind_line(text: &[u8], offset: usize) -> usize
    requires { offset ≤ length text.now }
    ensures { IsGap text.now offset result }
{
    match &text[offset..] {
        [b'\n', next, ..] if !is_blank(*next) => offset + 1,
        _ => behind_blanks(text, offset),
    }
}

/// Whether the text begins with a word. This is inlined, so that a word that is known costs a
/// compare or two.
#[inline(always)]
fn begins_with(text: &[u8], word: &[u8]) -> bool
    ensures { result ≡ true → word.now ≡ take (length word.now) text.now }
{
    if text.len() < word.len() {
        return false;
    }
    let mut same = true;
    for i in 0..word.len() {
        same &= text[i] == word[i];
    }
    same
}

/// The token that begins here, if it is this word.
#[inline(always)]
pub fn word_at(text: &[u8], start: usize, word: &[u8], kind: TokenKind) -> Option<Token>
    requires start { start ≤ length text.now }
    requires word { IsWord word.now (kind_of kind) }
    ensures lone { IfSome result (IsLoneAt text.now start) }
    ensures is { IfSome result (λ token. (item_of text.now token).bytes ≡ word.now) }
    ensures kind { IfSome result (λ token. token.kind ≡ kind) }
    ensures fits { IfSome result (λ token. token.end ≤ length text.now) }
{
    let rest = &text[start..];
    if !begins_with(rest, word) || !ends_run(&rest[word.len()..]) {
        return None;
    }
    Some(Token {
        kind,
        start,
        end: start + word.len(),
    })
}

/// The token that begins here, if it is this word with a space after it.
#[inline(always)]
pub fn spaced_word_at(text: &[u8], start: usize, word: &[u8], kind: TokenKind) -> Option<Token>
    requires start { start ≤ length text.now }
    requires word { IsWord word.now (kind_of kind) }
    ensures lone { IfSome result (IsLoneAt text.now start) }
    ensures is { IfSome result (λ token. (item_of text.now token).bytes ≡ word.now) }
    ensures kind { IfSome result (λ token. token.kind ≡ kind) }
    ensures space { IfSome result (λ token. IsGap text.now token.end (token.end + 1)) }
{
    let rest = &text[start..];
    if !begins_with(rest, word) || !begins_with(&rest[word.len()..], b" ") {
        return None;
    }
    Some(Token {
        kind,
        start,
        end: start + word.len(),
    })
}

/// The token that begins here, if it is an integer without sign and `N`.
#[inline(always)]
pub fn number_at(text: &[u8], start: usize) -> Option<Token>
    requires { start ≤ length text.now }
    ensures lone { IfSome result (IsLoneAt text.now start) }
    ensures kind { IfSome result (λ token. token.kind ≡ Int) }
    ensures fits { IfSome result (λ token. token.end ≤ length text.now) }
{
    let rest = &text[start..];
    let len = digits_alone(rest)?;
    if len == 0 || !has_no_leading_zero(&rest[..len]) {
        return None;
    }
    Some(Token {
        kind: TokenKind::Int,
        start,
        end: start + len,
    })
}

/// The offset after one blank, if a space is here, or this offset.
#[inline(always)]
pub fn behind_space(text: &[u8], offset: usize) -> usize
    requires { offset < length text.now }
    ensures gap { IsGap text.now offset result }
    ensures near { result ≤ offset + 1 }
{
    if text[offset] == b' ' {
        offset + 1
    } else {
        offset
    }
}

/// Four bytes as one number, the first as its lowest byte.
#[inline(always)]
pub fn four_at(text: &[u8], start: usize) -> u32
    requires { start + 4 ≤ length text.now }
    ensures { to_le_bytes w32 result ≡ take 4 (drop start text.now) }
{
    u32::from_le_bytes([
        text[start],
        text[start + 1],
        text[start + 2],
        text[start + 3],
    ])
}

/// Eight bytes as one number, the first as its lowest byte.
#[inline(always)]
fn eight_at(text: &[u8], start: usize) -> u64
    requires { start + 8 ≤ length text.now }
    ensures { to_le_bytes w64 result ≡ take 8 (drop start text.now) }
{
    u64::from_le_bytes([
        text[start],
        text[start + 1],
        text[start + 2],
        text[start + 3],
        text[start + 4],
        text[start + 5],
        text[start + 6],
        text[start + 7],
    ])
}

/// Whether the text has these bytes here. This is inlined, so that bytes that are known cost one
/// compare for eight of them.
#[inline(always)]
pub fn has_here(text: &[u8], start: usize, bytes: &[u8]) -> bool
    requires { start + length bytes.now ≤ length text.now }
    ensures { result ≡ true → bytes.now ≡ take (length bytes.now) (drop start text.now) }
{
    let mut same = true;
    let mut i = 0;
    while bytes.len() - i >= 8 {
        same &= eight_at(text, start + i) == eight_at(bytes, i);
        i += 8;
    }
    while i < bytes.len() {
        same &= text[start + i] == bytes[i];
        i += 1;
    }
    same
}

/// The token that begins here, if it is this word with this byte after it.
#[inline(always)]
pub fn word_before(
    text: &[u8],
    start: usize,
    word: &[u8],
    kind: TokenKind,
    after: u8,
) -> Option<Token>
    requires room { start + length word.now < length text.now }
    requires word { IsWord word.now (kind_of kind) }
    requires after { is_run_byte after ≡ false }
    ensures lone { IfSome result (IsLoneAt text.now start) }
    ensures is { IfSome result (λ token. (item_of text.now token).bytes ≡ word.now) }
    ensures kind { IfSome result (λ token. token.kind ≡ kind) }
    ensures end { IfSome result (λ token. token.end ≡ start + length word.now) }
    ensures after { IfSome result (λ token. get_or text.now token.end 0 ≡ after) }
{
    let end = start + word.len();
    if has_here(text, start, word) & (text[end] == after) {
        Some(Token { kind, start, end })
    } else {
        None
    }
}

/// The token of `len` decimal digits that begins here with the byte `first`, if it is an integer
/// with the byte `after` after it.
#[inline(always)]
pub fn digits_from(text: &[u8], start: usize, first: u8, len: usize, after: u8) -> Option<Token>
    requires room { start + len < length text.now }
    requires first { get_or text.now start 0 ≡ first }
    requires digits { list_all is_ascii_digit (take len (drop start text.now)) ≡ true }
    requires after { is_run_byte after ≡ false }
    ensures lone { IfSome result (IsLoneAt text.now start) }
    ensures kind { IfSome result (λ token. token.kind ≡ Int) }
    ensures start { IfSome result (λ token. token.start ≡ start) }
    ensures end { IfSome result (λ token. token.end ≡ start + len) }
    ensures after { IfSome result (λ token. get_or text.now token.end 0 ≡ after) }
{
    if len == 0 || text[start + len] != after {
        return None;
    }
    if first == b'0' && len != 1 {
        return None;
    }
    Some(Token {
        kind: TokenKind::Int,
        start,
        end: start + len,
    })
}

/// The token of `len` decimal digits that begins here, if it is an integer with the byte `after`
/// after it.
#[inline(always)]
pub fn digits_before(text: &[u8], start: usize, len: usize, after: u8) -> Option<Token>
    requires room { start + len < length text.now }
    requires digits { list_all is_ascii_digit (take len (drop start text.now)) ≡ true }
    requires after { is_run_byte after ≡ false }
    ensures lone { IfSome result (IsLoneAt text.now start) }
    ensures kind { IfSome result (λ token. token.kind ≡ Int) }
    ensures start { IfSome result (λ token. token.start ≡ start) }
    ensures end { IfSome result (λ token. token.end ≡ start + len) }
    ensures after { IfSome result (λ token. get_or text.now token.end 0 ≡ after) }
{
    digits_from(text, start, text[start], len, after)
}

/// How many of the next 16 bytes come before the first that is no decimal digit, and how many
/// before the second such byte, if two of them are none.
#[inline(always)]
pub fn digit_ends(text: &[u8], start: usize) -> Option<(usize, usize)>
    requires { start + NUMBER_LOOK ≤ length text.now }
    ensures first { IfSome result (λ ends.
        list_all is_ascii_digit (take ends.0 (drop start text.now)) ≡ true) }
    ensures second { IfSome result (λ ends.
        list_all is_ascii_digit (take (ends.1 - ends.0 - 1) (drop (start + ends.0 + 1) text.now)) ≡ true) }
    ensures order { IfSome result (λ ends. ends.0 < ends.1) }
    ensures few { IfSome result (λ ends. ends.1 < NUMBER_LOOK) }
{
    digit_ends_of_16(text, start)
}

/// The token that begins here, if it is an integer of fewer than 16 digits alone with this byte
/// after it.
#[inline(always)]
pub fn number_before(text: &[u8], start: usize, after: u8) -> Option<Token>
    requires room { start + NUMBER_LOOK ≤ length text.now }
    requires after { is_run_byte after ≡ false }
    ensures lone { IfSome result (IsLoneAt text.now start) }
    ensures kind { IfSome result (λ token. token.kind ≡ Int) }
    ensures start { IfSome result (λ token. token.start ≡ start) }
    ensures few { IfSome result (λ token. token.end < start + NUMBER_LOOK) }
    ensures after { IfSome result (λ token. get_or text.now token.end 0 ≡ after) }
{
    let len = digits_of_16(text, start);
    if len == DIGIT_LANES {
        return None;
    }
    digits_before(text, start, len, after)
}

/// The token that begins here, if it is a keyword of fewer than 16 bytes, all of them decimal
/// digits, colons and lower-case letters, with this byte after it.
#[inline(always)]
pub fn keyword_before(text: &[u8], start: usize, after: u8) -> Option<Token>
    requires room { start + NUMBER_LOOK ≤ length text.now }
    requires after { is_run_byte after ≡ false }
    ensures lone { IfSome result (IsLoneAt text.now start) }
    ensures kind { IfSome result (λ token. token.kind ≡ Keyword) }
    ensures start { IfSome result (λ token. token.start ≡ start) }
    ensures few { IfSome result (λ token. token.end < start + NUMBER_LOOK) }
    ensures after { IfSome result (λ token. get_or text.now token.end 0 ≡ after) }
{
    let len = plain_of_16(text, start);
    if len < 2 || len == DIGIT_LANES {
        return None;
    }
    if text[start] != b':' || text[start + len] != after {
        return None;
    }
    Some(Token {
        kind: TokenKind::Keyword,
        start,
        end: start + len,
    })
}

/// The token that begins here, if it is UTF-8. Whether a token may come here is not looked at.
pub fn token_at(text: &[u8], start: usize) -> Option<Token>
    requires { start ≤ length text.now }
    ensures gives { IfSome result (IsTokenAt text.now start) }
    ensures fits { IfSome result (λ token. token.end ≤ length text.now) }
{
    let rest = &text[start..];
    if rest.is_empty() || is_blank(rest[0]) {
        return None;
    }
    let piece = first_piece(rest)?;
    if utf8_end(&rest[..piece.len], piece.ascii).is_some() {
        return None;
    }
    piece.kind.token(start, start + piece.len)
}

/// Whether a token of this kind is a form by itself.
fn is_form(kind: TokenKind) -> bool
    ensures { result ≡ is_lone (kind_of kind) }
{
    !matches!(
        kind,
        TokenKind::Open | TokenKind::Close | TokenKind::Drop | TokenKind::Tag
    )
}

/// The token that begins here, if it is a form by itself.
pub fn form_at(text: &[u8], start: usize) -> Option<Token>
    requires { start ≤ length text.now }
    ensures lone { IfSome result (IsLoneAt text.now start) }
    ensures fits { IfSome result (λ token. token.end ≤ length text.now) }
{
    let token = token_at(text, start)?;
    if is_form(token.kind) {
        Some(token)
    } else {
        None
    }
}

/// The token that begins here, if it is a form by itself; often it is a number.
#[inline(always)]
pub fn lone_at(text: &[u8], start: usize) -> Option<Token>
    requires { start ≤ length text.now }
    ensures lone { IfSome result (IsLoneAt text.now start) }
    ensures fits { IfSome result (λ token. token.end ≤ length text.now) }
{
    match number_at(text, start) {
        Some(token) => Some(token),
        None => form_at(text, start),
    }
}

/// The next token, if it is a form by itself.
#[inline(always)]
pub fn lone_token(text: &[u8], offset: usize) -> Option<Token>
    requires { offset ≤ length text.now }
    ensures gives { IfSome result (GivesLone text.now offset) }
    ensures fits { IfSome result (λ token. token.end ≤ length text.now) }
{
    lone_at(text, behind_word(text, offset))
}

/// The next token, if no comment is before it and it is UTF-8; often it is a number.
#[inline(always)]
pub fn next_token(text: &[u8], offset: usize) -> Option<Token>
    requires { offset ≤ length text.now }
    ensures gives { IfSome result (GivesAhead text.now offset) }
{
    let start = behind_blanks(text, offset);
    match number_at(text, start) {
        Some(token) => Some(token),
        None => token_at(text, start),
    }
}

/// The token that begins here, if it is the tag of a record as Jepsen prints operations.
#[inline(always)]
fn record_tag(text: &[u8], start: usize) -> Option<Token>
    requires { start ≤ length text.now }
    ensures gives { IfSome result (IsTokenAt text.now start) }
    ensures tag { IfSome result (λ token. token.kind ≡ Tag) }
    ensures fits { IfSome result (λ token. token.end ≤ length text.now) }
{
    let tag: &[u8] = b"#jepsen.history.Op";
    let rest = &text[start..];
    if !begins_with(rest, tag) || !ends_run(&rest[tag.len()..]) {
        return None;
    }
    Some(Token {
        kind: TokenKind::Tag,
        start,
        end: start + tag.len(),
    })
}

/// The next token, if it is a tag; often it is that of a record.
#[inline(always)]
pub fn tag_token(text: &[u8], offset: usize) -> Option<Token>
    requires { offset ≤ length text.now }
    ensures gives { IfSome result (GivesAhead text.now offset) }
    ensures tag { IfSome result (λ token. token.kind ≡ Tag) }
    ensures fits { IfSome result (λ token. token.end ≤ length text.now) }
{
    let start = behind_line(text, offset);
    if let Some(token) = record_tag(text, start) {
        return Some(token);
    }
    let token = token_at(text, start)?;
    match token.kind {
        TokenKind::Tag => Some(token),
        _ => None,
    }
}

/// The next token, if it opens a vector.
#[inline(always)]
pub fn vector_opener(text: &[u8], offset: usize) -> Option<Token>
    requires { offset ≤ length text.now }
    ensures gives { IfSome result (GivesOpener text.now offset open_square close_square) }
    ensures fits { IfSome result (λ token. token.end ≤ length text.now) }
{
    let start = behind_word(text, offset);
    if start < text.len() && text[start] == b'[' {
        Some(Token {
            kind: TokenKind::Open,
            start,
            end: start + 1,
        })
    } else {
        None
    }
}

/// The token that begins here, if it closes a vector.
#[inline(always)]
pub fn vector_closer_at(text: &[u8], start: usize) -> Option<Token>
    requires { start < length text.now }
    ensures gives { IfSome result (GivesCloser text.now start close_square) }
    ensures end { IfSome result (λ token. token.end ≡ start + 1) }
{
    if text[start] != b']' {
        return None;
    }
    Some(Token {
        kind: TokenKind::Close,
        start,
        end: start + 1,
    })
}

/// The next token, if it opens a map.
#[inline(always)]
pub fn map_opener(text: &[u8], offset: usize) -> Option<Token>
    requires { offset ≤ length text.now }
    ensures gives { IfSome result (GivesOpener text.now offset open_brace close_brace) }
    ensures fits { IfSome result (λ token. token.end ≤ length text.now) }
{
    let start = behind_line(text, offset);
    if start < text.len() && text[start] == b'{' {
        Some(Token {
            kind: TokenKind::Open,
            start,
            end: start + 1,
        })
    } else {
        None
    }
}

/// The next token, if it closes a vector.
#[inline(always)]
pub fn vector_closer(text: &[u8], offset: usize) -> Option<Token>
    requires { offset ≤ length text.now }
    ensures gives { IfSome result (GivesCloser text.now offset close_square) }
    ensures fits { IfSome result (λ token. token.end ≤ length text.now) }
{
    let start = behind_blanks(text, offset);
    if start < text.len() && text[start] == b']' {
        Some(Token {
            kind: TokenKind::Close,
            start,
            end: start + 1,
        })
    } else {
        None
    }
}

/// The token that begins here, if it closes a map or a set.
#[inline(always)]
pub fn map_closer(text: &[u8], start: usize) -> Option<Token>
    ensures gives { IfSome result (λ token. (offset : ℕ) → IsGap text.now offset start
        → GivesCloser text.now offset close_brace token) }
    ensures fits { IfSome result (λ token. token.end ≤ length text.now) }
{
    if start < text.len() && text[start] == b'}' {
        Some(Token {
            kind: TokenKind::Close,
            start,
            end: start + 1,
        })
    } else {
        None
    }
}
