//! Short lines, which take no memory: those of refusals, and of a word and a number.

ghost use Rattle.std.specs.Prelude.{◌≡◌, ◌≤◌, ◌+◌, ◌++◌, length, decimal};
ghost use Rattle.arrayvec.specs.ArrayVec.{array_vec_len};
ghost use Rattle.hist_types.specs.Texts.{number_line, place_text, refusal_line};

use arrayvec::ArrayVec;
use hist_types::types::{At, Fault};
use itoa::Buffer;

/// A line that takes no memory.
pub type ShortLine = ArrayVec<u8, 96>;

/// Appends a text, for which there is room.
fn put(line: &mut ShortLine, text: &[u8])
    requires { array_vec_len line.old + length text.now ≤ 96 }
    ensures text { line.new.items ≡ line.old.items ++ text.now }
    ensures len { array_vec_len line.new ≡ array_vec_len line.old + length text.now }
{
    let Ok(()) = line.try_extend_from_slice(text) else {
        unreachable!()
    };
}

/// Appends a word and a number.
fn put_numbered(line: &mut ShortLine, word: &[u8], number: u64)
    requires { array_vec_len line.old + length word.now ≤ 76 }
    ensures text { line.new.items ≡ line.old.items ++ (word.now ++ decimal number) }
    ensures len { array_vec_len line.new ≤ array_vec_len line.old + length word.now + 20 }
{
    put(line, word);
    put(line, Buffer::new().format(number).as_bytes());
}

/// The line of a word and a number.
pub fn number_line(word: &[u8], number: u64) -> ShortLine
    requires { length word.now ≤ 74 }
    ensures { result.items ≡ number_line word.now number }
{
    let mut line = ShortLine::new();
    put(&mut line, word);
    put_numbered(&mut line, b" ", number);
    put(&mut line, b"\n");
    line
}

/// Appends the place of a fault.
fn put_place(line: &mut ShortLine, at: At)
    requires { array_vec_len line.old ≤ 69 }
    ensures text { line.new.items ≡ line.old.items ++ place_text at }
    ensures len { array_vec_len line.new ≤ array_vec_len line.old + 27 }
{
    match at {
        At::Byte(offset) => put_numbered(line, b" byte ", offset as u64),
        At::Event(index) => put_numbered(line, b" event ", index),
        At::Nowhere => {}
    }
}

/// The line of a refusal.
pub fn refusal_line(fault: Fault) -> ShortLine
    ensures { result.items ≡ refusal_line fault }
{
    let mut line = ShortLine::new();
    put_numbered(&mut line, b"refused ", u64::from(fault.refusal.number()));
    put(&mut line, b" ");
    put(&mut line, fault.refusal.name().as_bytes());
    put_place(&mut line, fault.at);
    put(&mut line, b"\n");
    line
}
