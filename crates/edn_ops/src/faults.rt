//! Faults at a place of the text.

ghost use Rattle.std.specs.Prelude.{◌≡◌};
ghost use Rattle.hist_types.specs.Tokens.{byte_fault};

use hist_types::types::{At, Fault, Refusal};

/// A fault at an offset of the text.
pub(crate) const fn fault_at(refusal: Refusal, offset: usize) -> Fault
    ensures { result ≡ byte_fault refusal offset }
{
    Fault {
        refusal,
        at: At::Byte(offset),
    }
}
