//! Texts that are read by themselves.

ghost use Rattle.std.specs.Prelude.{◌≡◌, ◌⊎◌, IfOk, IfErr};
ghost use Rattle.hist_types.specs.Refusals.{memory_fault};
ghost use Rattle.hist_types.specs.Reading.{GivesOperations, GivesFault};
ghost use Rattle.block_reader.specs.Blocks.{operations_in};
ghost use Rattle.block_reader.specs.Reading.{ReadsOn};

use crate::blocks::Blocks;
use edn_ops::reader::OpReader;
use edn_ops::types::OpShape;
use hist_types::types::Fault;
use op_block::block::Block;
use reading_laws::operations_read_alone;
use std::alloc::Global;

/// Reads the next operation into the blocks, by way of a shape that may have been used before:
/// false at the text's end.
fn read_op(
    text: &[u8],
    reader: &mut OpReader<'_>,
    shape: &mut OpShape,
    blocks: &mut Blocks,
) -> Result<bool, Fault>
    requires { reader.old.state.text ≡ text.now }
    ensures on { ReadsOn text.now result reader.old reader.new blocks.old blocks.new }
    ensures text { reader.new.state.text ≡ text.now }
{
    // A law, called for its clause: each operation's map reads alone.
    operations_read_alone();
    if !reader.next_into(shape)? {
        return Ok(false);
    }
    blocks.push(text, shape)?;
    Ok(true)
}

/// The operations of a text, in blocks.
pub fn blocks_of(alloc: Global, text: &[u8]) -> Result<Vec<Block>, Fault>
    ensures ok { IfOk result (λ blocks. GivesOperations text.now (operations_in blocks.items)) }
    ensures err { IfErr result (λ fault. (fault ≡ memory_fault) ⊎ GivesFault text.now fault) }
{
    let mut reader = OpReader::new(alloc, text);
    let mut blocks = Blocks::new(alloc)?;
    let mut shape = OpShape::new(alloc);
    for _ in 0..u64::MAX {
        if !read_op(text, &mut reader, &mut shape, &mut blocks)? {
            return blocks.finish();
        }
    }
    // No memory holds so many operations.
    Err(Fault::memory())
}
