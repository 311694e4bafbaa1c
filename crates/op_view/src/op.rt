//! Views of a block's operations.

ghost use Rattle.std.specs.Prelude.{◌≡◌, ◌<◌, length, slice_get, IfSome};
ghost use Rattle.op_block.specs.Contents.{operation_meant};
ghost use Rattle.op_view.specs.Operations.{IsPlaceOf};

use crate::mops::Mops;
use hist_types::types::{OpKind, Process};
use op_block::block::Block;
use std::marker::Model;

/// An operation of a block. It borrows the block, and takes no memory.
#[derive(Drop)]
pub struct OpView<'a> {
    block: &'a Block,
    index: usize,
}

impl<'a> Model for OpView<'a> {
    ghost use Rattle.std.specs.Prelude.{◌<◌, length};
    ghost use Rattle.hist_types.specs.Operations.{Operation};
    ghost use Rattle.hist_types.specs.Stored.{coded_operation};

    ghost Value = { Operation };

    ghost coded = { coded_operation };

    ghost use Rattle.op_view.specs.Operations.{operation_in};

    ghost view = { λ v. operation_in v.block.now.operations v.index };

    ghost invariant = { λ v. v.index < length v.block.now.operations };
}

impl<'a> OpView<'a> {
    /// The block's operation at an index.
    pub fn of(block: &'a Block, index: usize) -> Self
        requires { index < length block.now.operations }
        ensures { IfSome (slice_get block.now.operations index)
            (λ o. result ≡ operation_meant o) }
    {
        OpView { block, index }
    }

    /// A copy of the view.
    pub fn copy(&self) -> OpView<'a>
        ensures { result ≡ self.now }
    {
        OpView {
            block: self.block,
            index: self.index,
        }
    }

    /// The operation's block and its index there, from which `of` makes the same view. A block has
    /// at most 1,024 operations.
    pub fn place(&self) -> (&'a Block, u16)
        ensures { IsPlaceOf result.0.now.operations result.1 self.now }
    {
        // The length of a block tells how few operations it has.
        prove!(self.index < self.block.len());
        (self.block, self.index as u16)
    }

    pub fn kind(&self) -> OpKind
        ensures { result ≡ self.now.kind }
    {
        self.block.shape(self.index).kind
    }

    pub fn process(&self) -> Process
        ensures { result ≡ self.now.process }
    {
        self.block.shape(self.index).process
    }

    /// The micro-operations in their order. A fail and an info have none.
    pub fn mops(&self) -> Mops<'a>
        ensures { result ≡ self.now.mops }
    {
        let text = self.block.text(self.index);
        let shape = self.block.shape(self.index);
        Mops::new(text, shape.mops)
    }
}
