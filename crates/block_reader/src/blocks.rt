//! Blocks that are filled with operations of texts.

ghost use Rattle.std.specs.Prelude.{◌≡◌, [], ◌∷◌, ◌++◌, OnOk, OnErr, IfOk, IfErr};
ghost use Rattle.hist_types.specs.Entries.{PlacedOperation, operation_of};
ghost use Rattle.reading_laws.specs.Placed.{IsIn};
ghost use Rattle.hist_types.specs.Refusals.{memory_fault};
ghost use Rattle.edn_ops.specs.Shapes.{IsShapeOf, IsShapeIn};
ghost use Rattle.block_reader.specs.Blocks.{operations_in, HaveAlso};

use edn_ops::types::OpShape;
use hist_types::types::Fault;
use op_block::block::Block;
use op_block::builder::BlockBuilder;
use op_block::stamp::Stamp;
use std::alloc::{AllocError, Global};
use std::marker::Model;

/// Operations in blocks, each of which is filled until the next operation doesn't fit.
#[derive(Drop)]
pub struct Blocks {
    full: Vec<Block>,
    last: BlockBuilder,
}

impl Model for Blocks {
    ghost use Rattle.std.specs.Prelude.{List, ◌++◌};
    ghost use Rattle.hist_types.specs.Operations.{Operation};
    ghost use Rattle.block_reader.specs.Blocks.{operations_in, operations_pushed};

    ghost Value = { List Operation };

    ghost view = { λ b. operations_in b.full.items ++ operations_pushed b.last.operations };
}

/// Puts the last block after the full ones, unless it is empty. Out of memory leaves both as they
/// were.
#[inline(never)]
fn close(full: &mut Vec<Block>, last: &mut BlockBuilder) -> Result<(), AllocError>
    ensures full { OnOk result (HaveAlso full.old.items last.old.operations full.new.items) }
    ensures last { OnOk result (last.new.operations ≡ []) }
    ensures err { OnErr result ((full.new.items ≡ full.old.items) × (last.new ≡ last.old)) }
{
    if last.is_empty() {
        return Ok(());
    }
    full.try_reserve(1)?;
    let stamp = Stamp {
        seat: 0,
        call: full.len() as u64,
    };
    full.push_reserved(last.take_block(stamp)?);
    Ok(())
}

impl Blocks {
    /// None yet, and room for one of them.
    pub fn new(alloc: Global) -> Result<Self, AllocError>
        ensures { IfOk result (λ blocks. blocks ≡ []) }
    {
        Ok(Blocks {
            full: Vec::new(alloc),
            last: BlockBuilder::with_room(alloc)?,
        })
    }

    /// Appends the operation that has this shape in the text. The only error is out of memory, and
    /// nothing changes then.
    #[inline(always)]
    pub fn push(&mut self, text: &[u8], shape: &OpShape) -> Result<(), Fault>
        requires { IsShapeIn text.now shape.now }
        ensures ok { (o : PlacedOperation) → IsIn text.now o → IsShapeOf shape.now o
            → OnOk result (self.new ≡ self.old ++ operation_of o ∷ []) }
        ensures unchanged { OnErr result (self.new ≡ self.old) }
        ensures err { IfErr result (λ fault. fault ≡ memory_fault) }
    {
        if !self.last.has_room_for(shape.span.end - shape.span.start) {
            close(&mut self.full, &mut self.last)?;
        }
        self.last.push(text, shape)
    }

    /// The blocks. The only error is out of memory.
    pub fn finish(mut self) -> Result<Vec<Block>, Fault>
        ensures ok { IfOk result (λ blocks. operations_in blocks.items ≡ self) }
        ensures err { IfErr result (λ fault. fault ≡ memory_fault) }
    {
        close(&mut self.full, &mut self.last)?;
        Ok(self.full)
    }
}
