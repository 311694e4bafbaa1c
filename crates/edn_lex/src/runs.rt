//! The kinds of runs.

ghost use Rattle.std.specs.Prelude.{◌≡◌, ◌<◌, ◌==◌, ◌||◌, length, not, false};
ghost use Rattle.std.specs.List.{list_all};
ghost use Rattle.std.specs.Char.{is_ascii_digit};
ghost use Rattle.hist_types.specs.Bytes.{zero_digit};
ghost use Rattle.hist_types.specs.Tokens.{first_byte, is_sign as is_sign_byte, without_sign as behind_sign, without_n as before_n, is_whole as is_whole_number, is_int as is_integer, is_keyword as is_key, is_symbol as is_name, run_kind as kind_of_run};
ghost use Rattle.edn_lex.specs.Kinds.{is_low, kind_of};

use crate::types::TokenKind;

fn without_sign(run: &[u8]) -> &[u8]
    ensures { result.now ≡ behind_sign run.now }
{
    match run.first() {
        Some(b'+' | b'-') => &run[1..],
        _ => run,
    }
}

/// A run without the `N` at its end, with which an integer may end.
pub fn without_n(run: &[u8]) -> &[u8]
    ensures { result.now ≡ before_n run.now }
{
    run.strip_suffix(b"N").unwrap_or(run)
}

fn all_digits(bytes: &[u8]) -> bool
    ensures { result ≡ list_all is_ascii_digit bytes.now }
{
    bytes.iter().all(|b| b.is_ascii_digit())
}

/// Whether no digit follows a leading 0.
pub(crate) fn has_no_leading_zero(digits: &[u8]) -> bool
    requires { 0 < length digits.now }
    ensures { result ≡ (not (first_byte digits.now == zero_digit) || (length digits.now == 1)) }
{
    digits[0] != b'0' || digits.len() == 1
}

/// Whether a run is `0`, or digits that don't begin with 0.
fn is_whole(digits: &[u8]) -> bool
    ensures { result ≡ is_whole_number digits.now }
{
    !digits.is_empty() && has_no_leading_zero(digits) && all_digits(digits)
}

fn is_int(run: &[u8]) -> bool
    ensures { result ≡ is_integer run.now }
{
    is_whole(without_n(without_sign(run)))
}

fn is_keyword(run: &[u8]) -> bool
    ensures { result ≡ is_key run.now }
{
    run.len() > 1 && run[0] == b':'
}

fn is_symbol(run: &[u8]) -> bool
    requires { 0 < length run.now }
    ensures { result ≡ is_name run.now }
{
    let second_is_digit = run.len() > 1 && run[1].is_ascii_digit();
    match run[0] {
        b':' | b'#' => false,
        b'+' | b'-' | b'.' => !second_is_digit,
        first => !first.is_ascii_digit(),
    }
}

/// The kind of a run that is no keyword. A run with a byte of 128 or more is not looked through for
/// digits. It is not inlined, since most runs are keywords or digits.
#[inline(never)]
#[tactic(auto, using(crate::proofs::RunKinds::wide_no_int, crate::proofs::RunKinds::int_is))]
fn other_run_kind(run: &[u8], ascii: bool) -> TokenKind
    requires nonempty { 0 < length run.now }
    requires ascii { ascii ≡ list_all is_low run.now }
    requires no_keyword { is_key run.now ≡ false }
    ensures { kind_of result ≡ kind_of_run run.now }
{
    if ascii && is_int(run) {
        TokenKind::Int
    } else if run == b"nil".as_slice() {
        TokenKind::Nil
    } else if run == b"true".as_slice() {
        TokenKind::True
    } else if run == b"false".as_slice() {
        TokenKind::False
    } else if is_symbol(run) {
        TokenKind::Symbol
    } else {
        TokenKind::Other
    }
}

/// The kind of a run, the frequent ones first.
#[tactic(auto, using(crate::proofs::RunKinds::keyword_is, crate::proofs::RunKinds::digits_are))]
pub(crate) fn run_kind(run: &[u8], ascii: bool, digits: bool) -> TokenKind
    requires nonempty { 0 < length run.now }
    requires ascii { ascii ≡ list_all is_low run.now }
    requires digits { digits ≡ list_all is_ascii_digit run.now }
    ensures { kind_of result ≡ kind_of_run run.now }
{
    if is_keyword(run) {
        TokenKind::Keyword
    } else if digits && has_no_leading_zero(run) {
        TokenKind::Int
    } else {
        other_run_kind(run, ascii)
    }
}
