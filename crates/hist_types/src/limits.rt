//! The limits of a journal and of what is read into it.

/// The greatest number that a process may bear.
pub const MAX_PROCESS: u64 = 2_147_483_647;

/// The most micro-operations that a transaction may have.
pub const MAX_MICRO_OPS: usize = 256;

/// The most bytes of one operation's text, from its `{` to its `}`.
pub const MAX_OPERATION_BYTES: usize = 65_536;

/// The most collections that may be open at one place of a text.
pub const MAX_OPEN_COLLECTIONS: usize = 64;

/// The most operations in a block.
pub const MAX_BLOCK_OPERATIONS: usize = 1_024;

/// The most bytes of the texts of a block's operations together.
pub const MAX_BLOCK_BYTES: usize = 1_048_576;

/// The most cells in a row, which has one at least.
pub const MAX_CELLS: usize = 1_048_576;

/// The most events in a journal.
pub const MAX_EVENTS: u64 = 1_048_576;

/// The most digits in which a session may name an event: as many as `MAX_EVENTS` has.
pub const INDEX_DIGITS: usize = 7;

/// The most bytes of a session's line, without the byte 10 that ends it.
pub const MAX_LINE_BYTES: usize = 1_048_576;

/// The most workers of one analysis, which has one at least.
pub const MAX_WORKERS: u32 = 64;
