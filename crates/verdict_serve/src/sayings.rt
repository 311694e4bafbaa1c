//! What a line says.

ghost use Rattle.std.specs.Char.{is_ascii_digit};
ghost use Rattle.std.specs.List.{list_all};
ghost use Rattle.std.specs.Prelude.{◌≡◌, ◌∷◌, ◌≤◌, ◌<◌, ◌^◌, [], length, true, MatchOption};
ghost use Rattle.std.specs.Str.Parse.{digits_value};
ghost use Rattle.hist_types.specs.Sessions.{without_return, words_of, index_of, range_of, saying_of};
ghost use Rattle.hist_types.specs.declared.limits.TheConstants.{INDEX_DIGITS, MAX_LINE_BYTES};
ghost use Rattle.verdict_serve.specs.Sayings.{said, IsOneWord, IsWordEnd, SplitsWord, range_by};

use hist_types::limits::INDEX_DIGITS;
use memchr::memchr;

/// What a line says.
#[derive(Clone, Copy, Debug)]
pub enum Saying<'l> {
    /// It is longer than a line may be, and what it says is not looked at.
    Overlong,
    Quit,
    Verdict,
    Read { from: u64, to: u64 },
    /// Anything else: the line is a text to be imported.
    Import(&'l [u8]),
}

/// A line without the byte 13 at its end, if it has one.
fn without_return(line: &[u8]) -> &[u8]
    ensures { result.now ≡ without_return line.now }
{
    line.strip_suffix(b"\r").unwrap_or(line)
}

/// Where the first space is.
fn space_in(text: &[u8]) -> Option<usize>
    ensures { MatchOption result (IsOneWord text.now) (IsWordEnd text.now) }
{
    memchr(b' ', text)
}

/// What is before the first space, and what is after it.
fn split_word(text: &[u8]) -> Option<(&[u8], &[u8])>
    ensures { MatchOption result (words_of text.now ≡ text.now ∷ [])
        (λ parts. SplitsWord text.now parts.0.now parts.1.now) }
{
    let space = space_in(text)?;
    Some((&text[..space], &text[space + 1..]))
}

fn all_digits(word: &[u8]) -> bool
    ensures { result ≡ list_all is_ascii_digit word.now }
{
    word.iter().all(|b| b.is_ascii_digit())
}

/// The number that a few digits spell.
fn number_of(digits: &[u8]) -> u64
    requires digits { list_all is_ascii_digit digits.now ≡ true }
    requires few { length digits.now ≤ INDEX_DIGITS }
    ensures { result ≡ digits_value 10 digits.now }
{
    let mut number = 0;
    for digit in digits {
        number = number * 10 + u64::from(digit - b'0');
    }
    number
}

/// The index that a word spells in digits.
fn index_in(word: &[u8]) -> Option<u64>
    ensures { result ≡ index_of word.now }
{
    if all_digits(word) && !word.is_empty() && word.len() <= INDEX_DIGITS {
        Some(number_of(word))
    } else {
        None
    }
}

/// Both indexes of three words of which the first is `read`.
fn range_by(word: &[u8], from: &[u8], to: &[u8]) -> Option<(u64, u64)>
    ensures { result ≡ range_by word.now from.now to.now }
{
    if word != b"read".as_slice() {
        return None;
    }
    Some((index_in(from)?, index_in(to)?))
}

/// Both indexes of a line that says `read`.
fn range_in(text: &[u8]) -> Option<(u64, u64)>
    ensures { result ≡ range_of (words_of text.now) }
{
    let (word, rest) = split_word(text)?;
    let (from, to) = split_word(rest)?;
    range_by(word, from, to)
}

/// What a line says that is not overlong.
pub fn saying_of(line: &[u8]) -> Saying<'_>
    requires { length line.now ≤ MAX_LINE_BYTES }
    ensures { said result ≡ saying_of line.now }
{
    let text = without_return(line);
    if text == b"quit".as_slice() {
        return Saying::Quit;
    }
    if text == b"verdict".as_slice() {
        return Saying::Verdict;
    }
    match range_in(text) {
        Some((from, to)) => Saying::Read { from, to },
        None => Saying::Import(text),
    }
}
