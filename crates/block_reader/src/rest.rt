//! What is left of a text, behind a front that was read before.

ghost use Rattle.std.specs.Prelude.{◌≡◌, ◌⊎◌, ℕ, List, ◌++◌, length, None, IfOk, IfErr};
ghost use Rattle.hist_types.specs.Refusals.{memory_fault};
ghost use Rattle.hist_types.specs.Reading.{GivesFrom, FailsFrom};
ghost use Rattle.reading_laws.specs.Parts.{fault_behind};
ghost use Rattle.block_reader.specs.Blocks.{operations_in};

use crate::alone::blocks_of;
use hist_types::types::{At, Fault};
use op_block::block::Block;
use reading_laws::parts_read_alone;
use std::alloc::Global;

/// The fault, with its place counted from so many bytes earlier.
pub(crate) fn fault_from(offset: usize, fault: Fault) -> Fault
    ensures { (result ≡ memory_fault) ⊎ (result ≡ fault_behind offset fault) }
{
    let At::Byte(place) = fault.at else {
        return fault;
    };
    let Some(place) = offset.checked_add(place) else {
        // No memory holds so many bytes.
        return Fault::memory();
    };
    Fault {
        refusal: fault.refusal,
        at: At::Byte(place),
    }
}

/// The operations of the rest of a text, whose front has so many bytes and leaves nothing open.
/// Places of faults are those of the whole text.
pub(crate) fn blocks_of_rest(alloc: Global, rest: &[u8], offset: usize) -> Result<Vec<Block>, Fault>
    ensures ok { (front : List ℕ) → length front ≡ offset → IfOk result
        (λ blocks. GivesFrom (front ++ rest.now) offset (operations_in blocks.items) None) }
    ensures err { (front : List ℕ) → length front ≡ offset → IfErr result
        (λ fault. (fault ≡ memory_fault) ⊎ FailsFrom (front ++ rest.now) offset fault) }
{
    // A law, called for its clause: what is left of a text reads as it does by itself.
    parts_read_alone();
    match blocks_of(alloc, rest) {
        Ok(blocks) => Ok(blocks),
        Err(fault) => Err(fault_from(offset, fault)),
    }
}
