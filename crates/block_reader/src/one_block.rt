//! The block that one write hands over to a journal: all operations of a text, or the invocation or
//! completion of a transaction.

ghost use Rattle.std.specs.Prelude.{◌≡◌, ◌⊎◌, ℕ, [], Ok, Err, IfOk, IfErr, OnOk};
ghost use Rattle.hist_types.specs.Handed.{HandsOver, operation_of_call, transaction_handed};
ghost use Rattle.hist_types.specs.Refusals.{without_place, memory_fault};
ghost use Rattle.edn_ops.specs.Reader.{reader_at_start};
ghost use Rattle.edn_ops.specs.SourceTexts.{operation, AreMopTexts};
ghost use Rattle.op_block.specs.Contents.{operations_of};
ghost use Rattle.block_reader.specs.OneBlock.{HasFilled, HasReadTooMany, IsTextOfCall};

use edn_ops::laws::{canonical_text_reads_back, what_is_spelled_can_be_read};
use edn_ops::reader::OpReader;
use edn_ops::write::{MopText, write_op};
use hist_types::limits::{MAX_MICRO_OPS, MAX_OPERATION_BYTES};
use hist_types::types::{At, Fault, OpKind, Process, Refusal};
use op_block::block::Block;
use op_block::builder::BlockBuilder;
use op_block::stamp::Stamp;
use op_view::mops::Mop;
use reading_laws::operations_read_alone;
use std::alloc::{AllocError, Global};

/// A fault that has no place.
fn nowhere(refusal: Refusal) -> Fault
    ensures { result ≡ without_place refusal }
{
    Fault {
        refusal,
        at: At::Nowhere,
    }
}

/// Reads operations into an empty block, up to the text's end, or up to the first one that doesn't
/// fit, and then returns false.
fn fill(text: &[u8], reader: &mut OpReader<'_>, builder: &mut BlockBuilder) -> Result<bool, Fault>
    requires start { reader.old ≡ reader_at_start text.now }
    requires empty { builder.old ≡ record { operations = []; bytes = 0 } }
    ensures { HasFilled text.now result reader.new builder.new }
{
    // A law, called for its clause: each operation's map reads alone.
    operations_read_alone();
    for _ in 0..u64::MAX {
        let Some(shape) = reader.next_op()? else {
            return Ok(true);
        };
        if !builder.has_room_for(shape.span.end - shape.span.start) {
            return Ok(false);
        }
        builder.push(text, &shape)?;
    }
    // No block holds so many operations.
    Err(Fault::memory())
}

/// Reads the rest of a text that has too much for one block, since a fault of its reading comes
/// before `BlockFull`.
fn read_rest(reader: &mut OpReader<'_>) -> Result<(), Fault>
    requires { HasReadTooMany reader.old.state.text reader.old }
    ensures ok { OnOk result
        (HandsOver reader.old.state.text (Err (without_place Refusal.BlockFull))) }
    ensures err { IfErr result
        (λ fault. (fault ≡ memory_fault) ⊎ HandsOver reader.old.state.text (Err fault)) }
{
    for _ in 0..u64::MAX {
        let Some(_) = reader.next_op()? else {
            return Ok(());
        };
    }
    // No memory holds a text with so many operations.
    Err(Fault::memory())
}

/// The block of all operations of a text. Operations whose process is no integer are skipped.
///
/// The whole text is read, so a fault of its reading comes first, wherever it is in the text. Next
/// comes `BlockFull`, if there are more than 1,024 operations or their maps have more than
/// 1,048,576 bytes together, and then `EmptyImport`, if there is none. These two have no place. Out
/// of memory (`Memory`) may come before any of them.
///
/// It takes linear time, and memory for one block however long the text is.
pub fn block_of_text(alloc: Global, text: &[u8], stamp: Stamp) -> Result<Block, Fault>
    ensures stamp { IfOk result (λ block. block.stamp ≡ stamp) }
    ensures ok { IfOk result (λ block. HandsOver text.now (Ok (operations_of block))) }
    ensures err { IfErr result (λ fault. (fault ≡ memory_fault) ⊎ HandsOver text.now (Err fault)) }
{
    let mut reader = OpReader::new(alloc, text);
    let mut builder = BlockBuilder::new(alloc);
    if !fill(text, &mut reader, &mut builder)? {
        read_rest(&mut reader)?;
        return Err(nowhere(Refusal::BlockFull));
    }
    if builder.is_empty() {
        return Err(nowhere(Refusal::EmptyImport));
    }
    builder.freeze(stamp)
}

/// The micro-operations that count for an operation of this kind: none for a fail and an info.
fn mops_of<'a, 'm>(kind: OpKind, mops: &'m [Mop<'a>]) -> &'m [Mop<'a>]
    ensures { (process : ℕ) → operation_of_call kind process mops.now
        ≡ operation kind process result.now }
{
    match kind {
        OpKind::Invoke | OpKind::Ok => mops,
        OpKind::Fail | OpKind::Info => &[],
    }
}

/// The texts of the keys and values.
fn texts_of<'a>(alloc: Global, mops: &[Mop<'a>]) -> Result<Vec<MopText<'a>>, AllocError>
    ensures { IfOk result (λ texts. AreMopTexts texts.items mops.now) }
{
    let mut texts = Vec::with_capacity(alloc, mops.len())?;
    for mop in mops {
        texts.push(mop.text())?;
    }
    Ok(texts)
}

/// The canonical text of a call's operation.
fn text_of_call(
    alloc: Global,
    kind: OpKind,
    process: Process,
    mops: &[Mop<'_>],
) -> Result<Vec<u8>, Fault>
    ensures ok { IfOk result (λ text. IsTextOfCall kind process mops.now text.items) }
    ensures err { IfErr result (λ fault. (fault ≡ memory_fault)
        ⊎ (transaction_handed kind process mops.now ≡ Err fault)) }
{
    // A law, called for its clause: what is written of source texts can be read.
    what_is_spelled_can_be_read();
    // Called for its clause that the number is in range.
    let _number = process.number();
    let mops = mops_of(kind, mops);
    if mops.len() > MAX_MICRO_OPS {
        return Err(nowhere(Refusal::TooManyMicroOps));
    }
    let texts = texts_of(alloc, mops)?;
    let mut text = Vec::new(alloc);
    write_op(&mut text, kind, process, &texts)?;
    if text.len() > MAX_OPERATION_BYTES {
        return Err(nowhere(Refusal::TooLong));
    }
    Ok(text)
}

/// The block of one operation, which invokes or completes a transaction. A fail and an info have no
/// micro-operations: the list is ignored then.
///
/// `TooManyMicroOps` comes first, if there are more than 256 of them, and then `TooLong`, if the
/// operation's canonical text has more than 65,536 bytes. Neither has a place. Out of memory
/// (`Memory`) may come before `TooLong`.
///
/// The block has a copy of the canonical text, and takes time and memory for its length.
pub fn block_of_call(
    alloc: Global,
    kind: OpKind,
    process: Process,
    mops: &[Mop<'_>],
    stamp: Stamp,
) -> Result<Block, Fault>
    ensures stamp { IfOk result (λ block. block.stamp ≡ stamp) }
    ensures ok { IfOk result (λ block.
        transaction_handed kind process mops.now ≡ Ok (operations_of block)) }
    ensures err { IfErr result (λ fault. (fault ≡ memory_fault)
        ⊎ (transaction_handed kind process mops.now ≡ Err fault)) }
{
    // Laws, called for their clauses: canonical text reads as its operation and nothing else, and
    // an operation is in its text.
    canonical_text_reads_back();
    operations_read_alone();
    let text = text_of_call(alloc, kind, process, mops)?;
    block_of_text(alloc, &text, stamp)
}
