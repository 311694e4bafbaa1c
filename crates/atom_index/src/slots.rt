//! A table for small integers.

ghost use Rattle.std.specs.Prelude.{◌≡◌, ◌≤◌, length, IfOk};
ghost use Rattle.atom_index.specs.declared.table.TheConstants.{MAX_NUMBERS};
ghost use Rattle.atom_index.specs.Slots.{HoldsNumbers, slot_of as slot_of_atom};

use crate::table::Table;
use op_view::atom::Atom;
use std::alloc::{AllocError, Global};

/// The place of an atom in a table with n slots: that of an integer from 0 up to the number of
/// slots.
pub(crate) fn slot_of(atom: &Atom, slots: usize) -> Option<usize>
    ensures { result ≡ slot_of_atom atom.now slots }
{
    let number = usize::try_from(atom.as_integer()?).ok()?;
    if number < slots { Some(number) } else { None }
}

/// The table of the small integers among the atoms, with their places there.
pub(crate) fn table_of(alloc: Global, atoms: &[Atom], slots: usize) -> Result<Table, AllocError>
    requires { length atoms.now ≤ MAX_NUMBERS }
    ensures len { IfOk result (λ table. length table ≡ slots) }
    ensures places { IfOk result (λ table. HoldsNumbers table atoms.now) }
{
    let mut table = Table::with_slots(alloc, slots)?;
    let mut number: u32 = 0;
    for atom in atoms {
        if let Some(slot) = slot_of(atom, slots) {
            if table.get(slot).is_none() {
                table.set(slot, number);
            }
        }
        number += 1;
    }
    Ok(table)
}
