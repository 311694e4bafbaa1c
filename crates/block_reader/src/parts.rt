//! Parts of a text that are read side by side, each by itself.

ghost use Rattle.std.specs.Prelude.{◌≡◌, ◌≤◌, ◌<◌, ◌+◌, length, All, IfSome};
ghost use Rattle.block_reader.specs.Blocks.{operations_in};
ghost use Rattle.block_reader.specs.Parts.{AreStarts, IsPartOf, ReadsThrough, front_of, part_at};

use crate::alone::blocks_of;
use op_block::block::Block;
use reading_laws::parts_read_alone;
use std::alloc::Global;
use std::sync::atomic::{AtomicUsize, Ordering};

/// The operations of a part, with its index.
#[derive(Drop)]
pub struct Part {
    pub index: usize,
    pub blocks: Vec<Block>,
}

/// The part with this index: from its start to the next one, or to the text's end.
fn part_at<'a>(text: &'a [u8], starts: &[usize], index: usize) -> &'a [u8]
    requires starts { AreStarts text.now starts.now }
    requires index { index < length starts.now }
    ensures { result.now ≡ part_at text.now starts.now index }
{
    let end = match starts.get(index + 1) {
        Some(next) => *next,
        None => text.len(),
    };
    &text[starts[index]..end]
}

/// The part with this index, if it reads by itself and memory doesn't run out.
fn read_part(alloc: Global, text: &[u8], starts: &[usize], index: usize) -> Option<Part>
    requires starts { AreStarts text.now starts.now }
    requires index { index < length starts.now }
    ensures { IfSome result (IsPartOf text.now starts.now) }
{
    let blocks = blocks_of(alloc, part_at(text, starts, index)).ok()?;
    Some(Part { index, blocks })
}

/// Reads one part after the other, each the next that no thread has taken yet. One that doesn't
/// read by itself is left out.
pub fn take_parts(alloc: Global, text: &[u8], starts: &[usize], next: &AtomicUsize) -> Vec<Part>
    requires { AreStarts text.now starts.now }
    ensures { All (IsPartOf text.now starts.now) result.items }
{
    let mut parts = Vec::new(alloc);
    for _ in 0..starts.len() {
        let index = next.fetch_add(1, Ordering::SeqCst);
        if index >= starts.len() {
            break;
        }
        if let Some(part) = read_part(alloc, text, starts, index) {
            if parts.push(part).is_err() {
                break;
            }
        }
    }
    parts
}

/// Puts the blocks of a part behind those of the parts before it, if it is the one with this index
/// and memory doesn't run out.
fn put_behind(
    text: &[u8],
    starts: &[usize],
    index: usize,
    part: Part,
    blocks: &mut Vec<Block>,
) -> Option<()>
    requires starts { AreStarts text.now starts.now }
    requires part { IsPartOf text.now starts.now part }
    ensures within { IfSome result (λ _. index < length starts.now) }
    ensures through { ReadsThrough (front_of text.now starts.now index)
        (operations_in blocks.old.items) → IfSome result (λ _. ReadsThrough
        (front_of text.now starts.now (index + 1)) (operations_in blocks.new.items)) }
{
    // A law, called for its clause: behind a part that reads by itself, the text is read on.
    parts_read_alone();
    if part.index != index {
        return None;
    }
    let mut more = part.blocks;
    match blocks.append(&mut more) {
        Ok(()) => Some(()),
        Err(_) => None,
    }
}

/// The blocks of all parts of the text, which are in order, if none is left out.
pub fn joined(alloc: Global, text: &[u8], starts: &[usize], parts: Vec<Part>) -> Option<Vec<Block>>
    requires starts { AreStarts text.now starts.now }
    requires parts { All (IsPartOf text.now starts.now) parts.items }
    ensures { IfSome result (λ blocks. ReadsThrough text.now (operations_in blocks.items)) }
{
    let mut blocks = Vec::new(alloc);
    let mut next = 0;
    for part in parts {
        put_behind(text, starts, next, part, &mut blocks)?;
        next += 1;
    }
    if next == starts.len() {
        Some(blocks)
    } else {
        None
    }
}
