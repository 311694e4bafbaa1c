//! Whole inputs and outputs.

ghost use Rattle.std.specs.Prelude.{OnOk, OnErr};
ghost use Rattle.hist_types.specs.Pieces.{HasTaken, HasTakenInPart};

use crate::device::{Failed, Sink};

/// Writes all bytes to a sink, or a beginning of them if the sink fails. It takes no memory.
pub fn write_all<T: Sink>(sink: &mut T, bytes: &[u8]) -> Result<(), Failed>
    ensures ok { OnOk result (HasTaken T.Sink sink.old sink.new bytes.now) }
    ensures err { OnErr result (HasTakenInPart T.Sink sink.old sink.new bytes.now) }
{
    let mut done = 0;
    while done < bytes.len() {
        done += sink.write(&bytes[done..])?;
    }
    Ok(())
}
