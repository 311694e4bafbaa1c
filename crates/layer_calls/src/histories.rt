//! The history of standard input.

use crate::stopped::Stopped;
use block_reader::one_block::block_of_text;
use op_block::block::Block;
use op_block::stamp::Stamp;
use std::alloc::Global;

/// The block of all operations of standard input.
pub fn block_of_input<R: Input>(rt: &R, alloc: Global) -> Result<Block, Stopped> {
    let mut text = String::new(alloc);
    for line in rt.lines(alloc) {
        text.push_str(&line?)?;
        text.push('\n')?;
    }
    let stamp = Stamp { seat: 0, call: 0 };
    Ok(block_of_text(alloc, text.as_bytes(), stamp)?)
}
