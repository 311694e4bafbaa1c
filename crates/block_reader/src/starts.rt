//! Where the parts of a text begin.

ghost use Rattle.std.specs.Prelude.{◌≡◌, ◌≤◌, ◌+◌, ◌-◌, length, get_or, IfOk, IfSome};
ghost use Rattle.hist_types.specs.Bytes.{backslash, line_feed};
ghost use Rattle.reading_laws.specs.Parts.{EndsLine};
ghost use Rattle.block_reader.specs.Parts.{AreStarts};
ghost use Rattle.block_reader.specs.Starts.{IsBehindLine};

use memchr::{memchr, memrchr};
use std::alloc::{AllocError, Global};
use std::thread::{Threads, available_parallelism};

/// How many bytes a part has, up to the end of a line.
const PART_BYTES: usize = 1 << 16;

/// How many threads read beside the caller's: no more than there are other workers and other
/// processors.
pub(crate) fn helpers_of<R: Threads>(rt: &R, workers: usize) -> usize {
    match available_parallelism(rt) {
        Ok(processors) => processors.get().min(workers).saturating_sub(1),
        Err(_) => 0,
    }
}

/// The end of the first line behind the offset that ends with a map.
fn line_behind(text: &[u8], offset: usize) -> Option<usize>
    ensures { IfSome result (IsBehindLine text.now offset) }
{
    let mut at = offset.checked_add(1)?;
    while at < text.len() {
        let line = at + memchr(b'\n', &text[at..])?;
        if text[line - 1] == b'}' {
            return Some(line + 1);
        }
        at = line + 1;
    }
    None
}

/// The end of the last line that ends with a map.
fn last_map(text: &[u8]) -> Option<usize>
    ensures { IfSome result (IsBehindLine text.now 0) }
{
    let mut end = text.len().saturating_sub(1);
    while end > 0 {
        let brace = memrchr(b'}', &text[..end])?;
        if text[brace + 1] == b'\n' {
            return Some(brace + 2);
        }
        end = brace;
    }
    None
}

/// The end of the last line, whatever it ends with but a `\`, which may take the end of the line.
fn last_end(text: &[u8]) -> Option<usize>
    ensures { IfSome result (IsBehindLine text.now 0) }
{
    let mut end = text.len();
    while end > 1 {
        let line = memrchr(b'\n', &text[1..end])? + 1;
        if text[line - 1] != b'\\' {
            return Some(line + 1);
        }
        end = line;
    }
    None
}

/// The end of the last line that ends with a map, or of the last line if none does.
pub(crate) fn last_line(text: &[u8]) -> Option<usize>
    ensures { IfSome result (IsBehindLine text.now 0) }
{
    match last_map(text) {
        Some(end) => Some(end),
        None => last_end(text),
    }
}

/// Where the parts of a text begin, in order: at its start alone if one thread reads it, else also
/// behind lines that end with a map, as Jepsen prints them.
pub(crate) fn starts_of(
    alloc: Global,
    helpers: usize,
    text: &[u8],
) -> Result<Vec<usize>, AllocError>
    requires { EndsLine text.now }
    ensures { IfOk result (λ starts. AreStarts text.now starts.items) }
{
    let mut starts = Vec::new(alloc);
    starts.push(0)?;
    if helpers == 0 {
        return Ok(starts);
    }
    let mut last = 0;
    for part in 1..text.len() / PART_BYTES {
        let offset = part * PART_BYTES;
        // Where lines are longer than a part, none is looked at twice.
        if offset > last {
            if let Some(start) = line_behind(text, offset) {
                if text.len() - start >= 2 {
                    starts.push(start)?;
                    last = start;
                }
            }
        }
    }
    Ok(starts)
}
