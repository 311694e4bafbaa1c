//! Micro-operations as printers write them, read in one pass over their bytes: keys and values are
//! forms by themselves.

ghost use Rattle.std.specs.Prelude.{◌≡◌, ◌≤◌, ◌<◌, ◌+◌, ◌*◌, [], List, length, take, drop, get_or, true, false, Some, IfSome, IfOk, ℕ};
ghost use Rattle.std.specs.Char.{is_ascii_digit};
ghost use Rattle.std.specs.Int.{w32, to_le_bytes};
ghost use Rattle.std.specs.List.{list_all};
ghost use Rattle.hist_types.specs.Entries.{is_write_of};
ghost use Rattle.hist_types.specs.Bytes.{is_run_byte, open_square, close_square};
ghost use Rattle.hist_types.specs.Forms.{plain};
ghost use Rattle.edn_lex.specs.declared.ahead.TheConstants.{NUMBER_LOOK};
ghost use Rattle.edn_lex.specs.Ahead.{IsGap, IsLoneAt, GivesOpener};
ghost use Rattle.edn_lex.specs.Kinds.{item_of};
ghost use Rattle.edn_ops.specs.Flat.{front_bytes, IsMopValue, IsMopPair, GivesMop, shape_of, ReadsFlatMop, ReadsFlatMops, ReadsFlatMembers, ReadsFlatTransaction};

use crate::atoms::{self, LONG_INTEGER};
use crate::outline::{bytes_of, span};
use crate::types::{MopShape, Span};
use edn_lex::ahead::{
    NUMBER_LOOK, behind_blanks, behind_word, digit_ends, digits_from, form_at, four_at,
    keyword_before, number_at, number_before, spaced_word_at, vector_closer, vector_closer_at,
    vector_opener, word_at, word_before,
};
use edn_lex::types::{Token, TokenKind};
use hist_types::limits::MAX_MICRO_OPS;
use hist_types::types::Fault;

pub(crate) type Mops = Vec<MopShape>;

/// How many bytes `plain_mop` may look at, from `start` on: `[:r `, a key, a space and a value, and
/// one after it.
const PLAIN_MOP_LOOK: usize = 5 + 2 * NUMBER_LOOK;

/// The token that begins here, if it is `:w` or `:r` with a space after it, and whether it is `:w`.
#[inline(always)]
fn mop_name(text: &[u8], start: usize) -> Option<(bool, Token)>
    requires { start ≤ length text.now }
    ensures lone { IfSome result (λ name. IsLoneAt text.now start name.1) }
    ensures is_write { IfSome result (λ name.
        is_write_of (plain (item_of text.now name.1)) ≡ Some name.0) }
    ensures space { IfSome result (λ name. IsGap text.now name.1.end (name.1.end + 1)) }
{
    if let Some(token) = spaced_word_at(text, start, b":w", TokenKind::Keyword) {
        return Some((true, token));
    }
    let token = spaced_word_at(text, start, b":r", TokenKind::Keyword)?;
    Some((false, token))
}

/// The token that begins here, if it is an integer of so few digits that it is an atom.
#[inline(always)]
fn short_number_at(text: &[u8], start: usize) -> Option<Token>
    requires { start ≤ length text.now }
    ensures lone { IfSome result (IsLoneAt text.now start) }
    ensures atom { IfSome result (λ token. IsMopValue true (plain (item_of text.now token))) }
    ensures fits { IfSome result (λ token. token.end ≤ length text.now) }
{
    let number = number_at(text, start)?;
    if bytes_of(text, number).len() < LONG_INTEGER {
        Some(number)
    } else {
        None
    }
}

/// The token that begins here, if it is an atom; often it is an integer of few digits.
#[inline(always)]
fn atom_at(text: &[u8], start: usize) -> Option<Token>
    requires { start ≤ length text.now }
    ensures lone { IfSome result (IsLoneAt text.now start) }
    ensures atom { IfSome result (λ token. IsMopValue true (plain (item_of text.now token))) }
    ensures fits { IfSome result (λ token. token.end ≤ length text.now) }
{
    if let Some(number) = short_number_at(text, start) {
        return Some(number);
    }
    any_atom_at(text, start)
}

/// The token that begins here, if it is an atom, however it is spelled.
#[inline(never)]
fn any_atom_at(text: &[u8], start: usize) -> Option<Token>
    requires { start ≤ length text.now }
    ensures lone { IfSome result (IsLoneAt text.now start) }
    ensures atom { IfSome result (λ token. IsMopValue true (plain (item_of text.now token))) }
    ensures fits { IfSome result (λ token. token.end ≤ length text.now) }
{
    let token = form_at(text, start)?;
    if atoms::is_atom(token.kind, bytes_of(text, token)) {
        Some(token)
    } else {
        None
    }
}

/// The token that begins here, if it is an atom, or `nil` that was read.
#[inline(always)]
fn value_at(text: &[u8], start: usize, is_write: bool) -> Option<Token>
    requires { start ≤ length text.now }
    ensures lone { IfSome result (IsLoneAt text.now start) }
    ensures value { IfSome result (λ token. IsMopValue is_write (plain (item_of text.now token))) }
    ensures fits { IfSome result (λ token. token.end ≤ length text.now) }
{
    if let Some(number) = short_number_at(text, start) {
        return Some(number);
    }
    if !is_write {
        if let Some(token) = word_at(text, start, b"nil", TokenKind::Nil) {
            return Some(token);
        }
    }
    any_atom_at(text, start)
}

/// The micro-operation at the offset, if it is a vector of `:w` or `:r` and two forms by themselves
/// without a fault: whether it is a write, where its key and its value are, and where it ends.
#[inline(always)]
fn next_mop(text: &[u8], offset: usize) -> Option<(bool, Span, Span, usize)>
    requires { offset ≤ length text.now }
    ensures { IfSome result (λ mop. GivesMop text.now offset (shape_of mop.0 mop.1 mop.2) mop.3) }
{
    let opener = vector_opener(text, offset)?;
    let (is_write, name) = mop_name(text, opener.end)?;
    let key = atom_at(text, behind_blanks(text, name.end + 1))?;
    let value = value_at(text, behind_word(text, key.end), is_write)?;
    let closer = vector_closer(text, value.end)?;
    Some((is_write, span(key), span(value), closer.end))
}

/// The first four bytes of a write, or of a read, as it is printed, in the form of `four_at`.
#[inline(always)]
fn mop_front(is_write: bool) -> u32
    ensures { to_le_bytes w32 result ≡ front_bytes is_write }
{
    if is_write {
        u32::from_le_bytes(*b"[:w ")
    } else {
        u32::from_le_bytes(*b"[:r ")
    }
}

/// Whether a write begins here, if the front of a micro-operation is printed here, up to its key.
/// No branch tells writes from reads, since nobody can predict it: a write's front is greater than
/// a read's.
#[inline(always)]
fn printed_front(text: &[u8], start: usize) -> Option<bool>
    requires { start + 4 ≤ length text.now }
    ensures { IfSome result (λ is_write. take 4 (drop start text.now) ≡ front_bytes is_write) }
{
    let front = four_at(text, start);
    let is_write = front > mop_front(false);
    if front == mop_front(is_write) {
        Some(is_write)
    } else {
        None
    }
}

/// The token that begins here, if it is an integer of few digits with this byte after it.
#[inline(always)]
fn plain_number(text: &[u8], start: usize, after: u8) -> Option<Token>
    requires room { start + NUMBER_LOOK ≤ length text.now }
    requires after { is_run_byte after ≡ false }
    ensures lone { IfSome result (IsLoneAt text.now start) }
    ensures atom { IfSome result (λ token. IsMopValue true (plain (item_of text.now token))) }
    ensures few { IfSome result (λ token. token.end < start + NUMBER_LOOK) }
    ensures after { IfSome result (λ token. get_or text.now token.end 0 ≡ after) }
{
    let number = number_before(text, start, after)?;
    Some(number)
}

/// The token that begins here, if it is an integer of few digits, or a keyword of few plain bytes,
/// with a space after it.
#[inline(always)]
fn plain_key(text: &[u8], start: usize) -> Option<Token>
    requires { start + NUMBER_LOOK ≤ length text.now }
    ensures lone { IfSome result (IsLoneAt text.now start) }
    ensures atom { IfSome result (λ token. IsMopValue true (plain (item_of text.now token))) }
    ensures few { IfSome result (λ token. token.end < start + NUMBER_LOOK) }
    ensures space { IfSome result (λ token. get_or text.now token.end 0 ≡ 32) }
{
    if text[start] != b':' {
        return plain_number(text, start, b' ');
    }
    let keyword = keyword_before(text, start, b' ')?;
    Some(keyword)
}

/// The token that begins here, if it is an integer of few digits, or `nil` that was read, with a
/// vector's closer after it.
#[inline(always)]
fn plain_value(text: &[u8], start: usize, is_write: bool) -> Option<Token>
    requires { start + NUMBER_LOOK ≤ length text.now }
    ensures lone { IfSome result (IsLoneAt text.now start) }
    ensures value { IfSome result (λ token. IsMopValue is_write (plain (item_of text.now token))) }
    ensures few { IfSome result (λ token. token.end < start + NUMBER_LOOK) }
    ensures after { IfSome result (λ token. get_or text.now token.end 0 ≡ close_square) }
{
    if let Some(number) = plain_number(text, start, b']') {
        return Some(number);
    }
    if is_write {
        return None;
    }
    word_before(text, start, b"nil", TokenKind::Nil, b']')
}

/// A key that begins here and a value, each looked for by itself, with a space between them and a
/// vector's closer after them.
#[inline(never)]
fn pair_apart(text: &[u8], start: usize, is_write: bool) -> Option<(Token, Token)>
    requires { start + 2 * NUMBER_LOOK ≤ length text.now }
    ensures { IfSome result (IsMopPair text.now start is_write) }
{
    let key = plain_key(text, start)?;
    let value = plain_value(text, key.end + 1, is_write)?;
    Some((key, value))
}

/// The token of `len` decimal digits that begins here with the byte `first`, if it is an integer
/// with the byte `after` after it. So short an integer always fits into 64 bits.
#[inline(always)]
fn few_digits(text: &[u8], start: usize, first: u8, len: usize, after: u8) -> Option<Token>
    requires room { start + NUMBER_LOOK ≤ length text.now }
    requires first { get_or text.now start 0 ≡ first }
    requires few { len < NUMBER_LOOK }
    requires digits { list_all is_ascii_digit (take len (drop start text.now)) ≡ true }
    requires after { is_run_byte after ≡ false }
    ensures lone { IfSome result (IsLoneAt text.now start) }
    ensures atom { IfSome result (λ token. IsMopValue true (plain (item_of text.now token))) }
    ensures end { IfSome result (λ token. token.end ≡ start + len) }
    ensures after { IfSome result (λ token. get_or text.now token.end 0 ≡ after) }
{
    let number = digits_from(text, start, first, len, after)?;
    Some(number)
}

/// The token of `len` decimal digits that begins here, if it is an integer, or the `nil` of a read
/// where there are no digits, with a vector's closer after it.
#[inline(always)]
fn value_of_digits(text: &[u8], start: usize, len: usize, is_write: bool) -> Option<Token>
    requires room { start + NUMBER_LOOK ≤ length text.now }
    requires few { len < NUMBER_LOOK }
    requires digits { list_all is_ascii_digit (take len (drop start text.now)) ≡ true }
    ensures lone { IfSome result (IsLoneAt text.now start) }
    ensures value { IfSome result (λ token. IsMopValue is_write (plain (item_of text.now token))) }
    ensures few { IfSome result (λ token. token.end < start + NUMBER_LOOK) }
    ensures after { IfSome result (λ token. get_or text.now token.end 0 ≡ close_square) }
{
    if len != 0 {
        let number = few_digits(text, start, text[start], len, b']')?;
        return Some(number);
    }
    if is_write {
        return None;
    }
    word_before(text, start, b"nil", TokenKind::Nil, b']')
}

/// A key that begins here and a value, with a space between them and a vector's closer after them,
/// if the key is an integer of few digits or a keyword of few plain bytes, and the value an integer
/// of few digits, or `nil` that was read. Two integers are found by one look.
#[inline(always)]
fn plain_pair(text: &[u8], start: usize, is_write: bool) -> Option<(Token, Token)>
    requires { start + 2 * NUMBER_LOOK ≤ length text.now }
    ensures { IfSome result (IsMopPair text.now start is_write) }
{
    let first = text[start];
    if first == b':' {
        return pair_apart(text, start, is_write);
    }
    let Some((key_len, value_end)) = digit_ends(text, start) else {
        return pair_apart(text, start, is_write);
    };
    let key = few_digits(text, start, first, key_len, b' ')?;
    let value = value_of_digits(text, key.end + 1, value_end - key_len - 1, is_write)?;
    Some((key, value))
}

/// What `next_mop` gives, if the micro-operation begins here and is spelled as it is printed, with
/// a space between two tokens, and bytes enough come after it.
#[inline(always)]
fn plain_mop(text: &[u8], start: usize) -> Option<(bool, Span, Span, usize)>
    requires { start ≤ length text.now }
    ensures gives { IfSome result (λ mop. (offset : ℕ) → IsGap text.now offset start
        → GivesMop text.now offset (shape_of mop.0 mop.1 mop.2) mop.3) }
    ensures within { IfSome result (λ mop. mop.3 < length text.now) }
{
    if text.len() - start < PLAIN_MOP_LOOK {
        return None;
    }
    let is_write = printed_front(text, start)?;
    let (key, value) = plain_pair(text, start + 4, is_write)?;
    Some((is_write, span(key), span(value), value.end + 1))
}

/// Adds a micro-operation, if there is room for one more, and returns where it ends.
#[inline(always)]
fn push_mop(mop: Option<(bool, Span, Span, usize)>, mops: &mut Mops) -> Result<Option<usize>, Fault>
    ensures reads { (text : List ℕ) (offset : ℕ) →
        IfSome mop (λ m. GivesMop text offset (shape_of m.0 m.1 m.2) m.3) →
        ReadsFlatMop text offset mops.old.items result mops.new.items }
    ensures within { (text : List ℕ) → IfSome mop (λ m. m.3 < length text)
        → IfOk result (λ found. IfSome found (λ end. end < length text)) }
{
    let Some((is_write, key, value, end)) = mop else {
        return Ok(None);
    };
    if mops.len() >= MAX_MICRO_OPS {
        return Ok(None);
    }
    if mops.len() == mops.capacity() {
        mops.reserve(1)?;
    }
    mops.push_reserved(MopShape {
        is_write,
        key,
        value,
    });
    Ok(Some(end))
}

/// Reads one more micro-operation, and returns where it ends, if it is a vector of three forms by
/// themselves without a fault.
#[inline(always)]
fn flat_mop(text: &[u8], offset: usize, mops: &mut Mops) -> Result<Option<usize>, Fault>
    requires { offset ≤ length text.now }
    ensures { ReadsFlatMop text.now offset mops.old.items result mops.new.items }
{
    push_mop(next_mop(text, offset), mops)
}

/// Reads one more micro-operation that begins here, and returns where it ends, if it is spelled as
/// it is printed.
#[inline(always)]
fn printed_mop(text: &[u8], start: usize, mops: &mut Mops) -> Result<Option<usize>, Fault>
    requires { start ≤ length text.now }
    ensures reads { (offset : ℕ) → IsGap text.now offset start
        → ReadsFlatMop text.now offset mops.old.items result mops.new.items }
    ensures within { IfOk result (λ found. IfSome found (λ end. end < length text.now)) }
{
    push_mop(plain_mop(text, start), mops)
}

/// Reads micro-operations as long as they are spelled as they are printed, with a space between
/// two, and returns where the last of them ends.
#[inline(always)]
fn printed_mops(text: &[u8], offset: usize, mops: &mut Mops) -> Result<usize, Fault>
    requires { offset ≤ length text.now }
    ensures further { IfOk result (λ end. offset ≤ end) }
    ensures within { IfOk result (λ end. end ≤ length text.now) }
    ensures reads { ReadsFlatMops text.now offset mops.old.items result mops.new.items }
{
    let mut end = offset;
    let mut start = offset;
    while let Some(next) = printed_mop(text, start, mops)? {
        end = next;
        if text[end] != b' ' {
            return Ok(end);
        }
        start = end + 1;
    }
    Ok(end)
}

/// Reads the rest of a transaction from the offset on, and returns where it ends, if all its
/// members can be read in this way.
#[inline(never)]
fn other_members(text: &[u8], offset: usize, mops: &mut Mops) -> Result<Option<usize>, Fault>
    requires { offset ≤ length text.now }
    ensures reads { ReadsFlatMembers text.now offset mops.old.items result mops.new.items }
    ensures further { IfOk result (λ found. IfSome found (λ end. offset ≤ end)) }
    ensures within { IfOk result (λ found. IfSome found (λ end. end ≤ length text.now)) }
{
    let mut at = offset;
    loop {
        if let Some(closer) = vector_closer(text, at) {
            return Ok(Some(closer.end));
        }
        match flat_mop(text, at, mops)? {
            Some(end) => at = end,
            None => return Ok(None),
        }
    }
}

/// Reads a transaction after its opener into the empty list, and returns where it ends, if all its
/// members can be read in this way.
#[inline(always)]
pub(crate) fn flat_members(
    text: &[u8],
    offset: usize,
    mops: &mut Mops,
) -> Result<Option<usize>, Fault>
    requires { offset ≤ length text.now }
    ensures reads { mops.old.items ≡ [] → (at : ℕ) (opener : Token) → opener.end ≡ offset
        → GivesOpener text.now at open_square close_square opener
        → ReadsFlatTransaction text.now at result mops.new.items }
    ensures further { IfOk result (λ found. IfSome found (λ end. offset ≤ end)) }
    ensures within { IfOk result (λ found. IfSome found (λ end. end ≤ length text.now)) }
{
    let at = printed_mops(text, offset, mops)?;
    if at < text.len() {
        if let Some(closer) = vector_closer_at(text, at) {
            return Ok(Some(closer.end));
        }
    }
    other_members(text, at, mops)
}
