//! Where an operation and its parts are in a text.

ghost use Rattle.std.specs.Prelude.{◌≡◌, []};

use hist_types::types::{OpKind, Process};
use std::alloc::Global;

/// Where a part of a text begins and ends, in bytes from the text's start.
#[derive(Clone, Copy, Debug, Default, PartialEq, Eq)]
pub struct Span {
    pub start: usize,
    pub end: usize,
}

/// Where a micro-operation's key and value are. A read of nil has the span of its `nil`.
#[derive(Clone, Copy, Debug, Default, PartialEq, Eq)]
pub struct MopShape {
    pub is_write: bool,
    pub key: Span,
    pub value: Span,
}

/// What an operation of a text says, and where its parts are. It borrows nothing. A fail and an
/// info have no micro-operations.
#[derive(Debug, Drop)]
pub struct OpShape {
    /// From the map's `{` to after its `}`.
    pub span: Span,
    pub kind: OpKind,
    pub process: Process,
    pub mops: Vec<MopShape>,
}

impl OpShape {
    /// A shape that operations can be read into. It has no micro-operations.
    pub fn new(alloc: Global) -> OpShape
        ensures { result.mops.items ≡ [] }
    {
        OpShape {
            span: Span::default(),
            kind: OpKind::Invoke,
            process: Process::new(0).unwrap(),
            mops: Vec::new(alloc),
        }
    }
}
