//! The content of a string, decoded byte by byte, so that it is never written into a buffer.

ghost use Rattle.std.specs.Prelude.{◌≡◌, true, List, MatchOption, fold};
ghost use Rattle.std.specs.Cmp.Lexicographic.{slice_cmp};
ghost use Rattle.std.specs.Ordering.{nat_cmp};
ghost use Rattle.op_view.specs.Decoding.{has_content, content_of, BeginsWithByte, HasNoByte};
ghost use Rattle.op_view.specs.Hashing.{content_writes};

use edn_ops::atoms::escape_value;
use std::cmp::Ordering;
use std::hash::Hasher;

/// The first decoded byte of the content, and what comes after its spelling. None at the end, and
/// where the escape is unknown.
fn split_first(left: &[u8]) -> Option<(u8, &[u8])>
    ensures { MatchOption result (HasNoByte left.now) (λ x. BeginsWithByte left.now x.0 x.1.now) }
{
    match left {
        [b'\\', escape, behind @ ..] => Some((escape_value(*escape)?, behind)),
        [b'\\'] | [] => None,
        [byte, behind @ ..] => Some((*byte, behind)),
    }
}

/// Compares two contents by their decoded bytes.
pub(crate) fn compare(a: &[u8], b: &[u8]) -> Ordering
    requires first { has_content a.now ≡ true }
    requires second { has_content b.now ≡ true }
    ensures { result ≡ slice_cmp nat_cmp (content_of a.now) (content_of b.now) }
{
    let mut left = a;
    let mut right = b;
    loop {
        match (split_first(left), split_first(right)) {
            (None, None) => return Ordering::Equal,
            (None, Some(_)) => return Ordering::Less,
            (Some(_), None) => return Ordering::Greater,
            (Some((x, behind_x)), Some((y, behind_y))) => {
                if x != y {
                    return x.cmp(&y);
                }
                left = behind_x;
                right = behind_y;
            }
        }
    }
}

/// Feeds the decoded bytes of a content to a hasher.
pub(crate) fn feed<H: Hasher>(between: &[u8], state: &mut H)
    requires { has_content between.now ≡ true }
    ensures { state.new ≡ fold H.write state.old (content_writes (content_of between.now)) }
{
    let mut left = between;
    while let Some((byte, behind)) = split_first(left) {
        state.write_u8(byte);
        left = behind;
    }
    state.write_u8(0xff);
}
