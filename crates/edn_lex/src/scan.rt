//! Where items end. The scans of what is seldom found are not inlined, so that those of the
//! frequent items stay short.

ghost use Rattle.std.specs.Prelude.{◌≡◌, ◌<◌, ◌≤◌, ◌==◌, ◌+◌, ◌-◌, ℕ, Bool, List, length, take, drop, map, true, false, IsTrue, not, IfSome};
ghost use Rattle.std.specs.Char.{is_ascii_digit};
ghost use Rattle.std.specs.List.{prefix_len, list_all};
ghost use Rattle.std.specs.Simd.Lanes.{mask_l};
ghost use Rattle.std.specs.Str.{IsAscii};
ghost use Rattle.hist_types.specs.Bytes.{is_blank as is_blank_byte, is_run_byte, line_feed};
ghost use Rattle.edn_lex.specs.declared.scan.TheConstants.{NOT_DIGIT, PAST_ASCII, BLANK, ENDS_RUN, DIGIT_LANES};
ghost use Rattle.edn_lex.specs.Ends.{StopsBeingUtf8};
ghost use Rattle.edn_lex.specs.Flags.{has_flag, is_no_digit, is_plain, is_no_plain};
ghost use Rattle.edn_lex.specs.Kinds.{is_low};
ghost use Rattle.hist_types.specs.Tokens.{run_len as longest_run, content_len as len_of_content, character_len as len_of_character};

use memchr::{memchr, memchr2};
use std::simd::prelude::*;

/// A byte that is no decimal digit.
const NOT_DIGIT: u8 = 1;

/// A byte of 128 or more.
const PAST_ASCII: u8 = 2;

/// A bracket, a quote or a semicolon.
const MARK: u8 = 4;

/// A byte from 9 to 13, a space or a comma.
const BLANK: u8 = 8;

const ENDS_RUN: u8 = MARK | BLANK;

// For each byte a digit, whose low four bits are the flags above.
static FLAGS: [u8; 256] = *b"\
    11111111199999111111111111111111\
    91511111551191110000000000151111\
    11111111111111111111111111151511\
    11111111111111111111111111151511\
    33333333333333333333333333333333\
    33333333333333333333333333333333\
    33333333333333333333333333333333\
    33333333333333333333333333333333";

/// How many bytes are looked at together for digits.
pub(crate) const DIGIT_LANES: usize = 16;

/// How many bytes a run has, and of what kind all of them are.
#[derive(Clone, Copy)]
pub(crate) struct Run {
    pub(crate) len: usize,
    /// Whether all of the bytes are below 128.
    pub(crate) ascii: bool,
    /// Whether all of the bytes are decimal digits.
    pub(crate) digits: bool,
}

/// The flags of a byte.
fn flags_of(b: u8) -> u8
    ensures run { has_flag result ENDS_RUN ≡ not (is_run_byte b) }
    ensures blank { has_flag result BLANK ≡ is_blank_byte b }
    ensures ascii { has_flag result PAST_ASCII ≡ not (is_low b) }
    ensures digit { has_flag result NOT_DIGIT ≡ not (is_ascii_digit b) }
{
    FLAGS[b as usize]
}

/// Whether the byte is a blank. Most bytes come after the last blank, the comma.
#[inline(always)]
pub(crate) fn is_blank(b: u8) -> bool
    ensures { result ≡ is_blank_byte b }
{
    b <= b',' && flags_of(b) & BLANK != 0
}

/// Whether no run goes on here: a blank, a bracket, a quote or a semicolon comes first, or the
/// text's end.
#[inline(always)]
pub(crate) fn ends_run(text: &[u8]) -> bool
    ensures { result ≡ true → longest_run text.now ≡ 0 }
{
    match text {
        [] => true,
        [b, ..] => flags_of(*b) & ENDS_RUN != 0,
    }
}

/// How many decimal digits are at the front of the text, if no run goes on after them.
#[inline(always)]
pub(crate) fn digits_alone(text: &[u8]) -> Option<usize>
    ensures fits { IfSome result (λ len. len ≤ length text.now) }
    ensures digits { IfSome result (λ len. list_all is_ascii_digit (take len text.now) ≡ true) }
    ensures alone { IfSome result (λ len. longest_run (drop len text.now) ≡ 0) }
{
    // Few numbers have more than 16 digits.
    let mut len = if text.len() < DIGIT_LANES {
        0
    } else {
        digits_of_16(text, 0)
    };
    while len < text.len() {
        let byte = text[len];
        if !byte.is_ascii_digit() {
            return if flags_of(byte) & ENDS_RUN != 0 {
                Some(len)
            } else {
                None
            };
        }
        len += 1;
    }
    Some(len)
}

/// How many of 16 bytes come before the first one whose bit is set. The lowest bit is that of the
/// first byte.
#[inline(always)]
fn bytes_before(bits: u64) -> usize
    ensures { (has_bit : ℕ → Bool) (bytes : List ℕ) → length bytes ≡ DIGIT_LANES
        → bits ≡ mask_l (map has_bit bytes)
        → result ≡ prefix_len (λ b. not (has_bit b)) bytes }
{
    if bits == 0 {
        DIGIT_LANES
    } else {
        bits.trailing_zeros() as usize
    }
}

/// A bit for each byte that is no decimal digit, the lowest for the first.
#[inline(always)]
fn other_than_digits(bytes: u8x16) -> u64
    ensures { result ≡ mask_l (map is_no_digit bytes) }
{
    (bytes - u8x16::splat(b'0'))
        .simd_ge(u8x16::splat(10))
        .to_bitmask()
}

/// How many of the next 16 bytes, from the first, are decimal digits.
#[inline(always)]
pub(crate) fn digits_of_16(text: &[u8], at: usize) -> usize
    requires { at + DIGIT_LANES ≤ length text.now }
    ensures len { result ≡ prefix_len is_ascii_digit (take DIGIT_LANES (drop at text.now)) }
    ensures few { result ≤ DIGIT_LANES }
{
    bytes_before(other_than_digits(u8x16::from_slice(&text[at..])))
}

/// How many of the next 16 bytes come before the first that is no decimal digit, and how many
/// before the second such byte, if two of them are none.
#[inline(always)]
pub(crate) fn digit_ends_of_16(text: &[u8], at: usize) -> Option<(usize, usize)>
    requires { at + DIGIT_LANES ≤ length text.now }
    ensures first { IfSome result (λ ends.
        list_all is_ascii_digit (take ends.0 (drop at text.now)) ≡ true) }
    ensures second { IfSome result (λ ends.
        list_all is_ascii_digit (take (ends.1 - ends.0 - 1) (drop (at + ends.0 + 1) text.now)) ≡ true) }
    ensures order { IfSome result (λ ends. ends.0 < ends.1) }
    ensures few { IfSome result (λ ends. ends.1 < DIGIT_LANES) }
{
    let bits = other_than_digits(u8x16::from_slice(&text[at..]));
    // The bits without the lowest one that is set.
    let rest = bits & bits.wrapping_sub(1);
    if rest == 0 {
        return None;
    }
    Some((
        bits.trailing_zeros() as usize,
        rest.trailing_zeros() as usize,
    ))
}

/// A bit for each byte that is no plain one, the lowest for the first.
#[inline(always)]
fn other_than_plain(bytes: u8x16) -> u64
    ensures { result ≡ mask_l (map is_no_plain bytes) }
{
    let no_digit = (bytes - u8x16::splat(b'0')).simd_ge(u8x16::splat(11));
    let no_letter = (bytes - u8x16::splat(b'a')).simd_ge(u8x16::splat(26));
    (no_digit & no_letter).to_bitmask()
}

/// How many of the next 16 bytes, from the first, are plain: decimal digits, colons and lower-case
/// letters.
#[inline(always)]
pub(crate) fn plain_of_16(text: &[u8], at: usize) -> usize
    requires { at + DIGIT_LANES ≤ length text.now }
    ensures len { result ≡ prefix_len is_plain (take DIGIT_LANES (drop at text.now)) }
    ensures few { result ≤ DIGIT_LANES }
{
    bytes_before(other_than_plain(u8x16::from_slice(&text[at..])))
}

/// The longest run at the front of the text.
pub(crate) fn first_run(text: &[u8]) -> Run
    ensures len { result.len ≡ longest_run text.now }
    ensures fits { result.len ≤ length text.now }
    ensures ascii { result.ascii ≡ list_all is_low (take result.len text.now) }
    ensures digits { result.digits ≡ list_all is_ascii_digit (take result.len text.now) }
{
    let mut len = 0;
    let mut seen = 0;
    while len < text.len() {
        let flags = flags_of(text[len]);
        if flags & ENDS_RUN != 0 {
            break;
        }
        seen |= flags;
        len += 1;
    }
    Run {
        len,
        ascii: seen & PAST_ASCII == 0,
        digits: seen & NOT_DIGIT == 0,
    }
}

/// How many bytes of a comment come before the byte 10 that ends it, or before the text's end.
#[inline(never)]
pub(crate) fn comment_len(text: &[u8]) -> usize
    ensures len { result ≡ prefix_len (λ c. not (c == line_feed)) text.now }
    ensures fits { result ≤ length text.now }
{
    match memchr(b'\n', text) {
        Some(at) => at,
        None => text.len(),
    }
}

/// How many bytes come before the quote that closes a string, if one does.
#[inline(never)]
pub(crate) fn content_len(text: &[u8]) -> Option<usize>
    ensures len { result ≡ len_of_content false text.now }
    ensures fits { IfSome result (λ n. n < length text.now) }
{
    let mut at = 0;
    while at < text.len() {
        let rest = &text[at..];
        let found = memchr2(b'"', b'\\', rest)?;
        if rest[found] == b'"' {
            return Some(at + found);
        }
        if rest.len() - found < 2 {
            return None;
        }
        at += found + 2;
    }
    None
}

/// How many bytes a character has after its backslash.
pub(crate) fn character_len(text: &[u8]) -> usize
    ensures len { result ≡ len_of_character text.now }
    ensures fits { result ≤ length text.now }
{
    if text.is_empty() {
        0
    } else {
        1 + first_run(&text[1..]).len
    }
}

/// Where the bytes stop being UTF-8, if they do. Bytes that are known to be below 128 are not
/// looked at.
pub(crate) fn utf8_end(bytes: &[u8], ascii: bool) -> Option<usize>
    requires { IsTrue ascii → IsAscii bytes.now }
    ensures { StopsBeingUtf8 bytes.now result }
{
    if ascii { None } else { wide_utf8_end(bytes) }
}

/// Where bytes of which nothing is known stop being UTF-8, if they do.
#[inline(never)]
fn wide_utf8_end(bytes: &[u8]) -> Option<usize>
    ensures { StopsBeingUtf8 bytes.now result }
{
    match std::str::from_utf8(bytes) {
        Ok(_) => None,
        Err(error) => Some(error.valid_up_to()),
    }
}
