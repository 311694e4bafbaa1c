//! Tables of numbers.

ghost use Rattle.std.specs.Prelude.{◌≡◌, ◌≤◌, ◌<◌, [], length, get_or, replicate, None, Some, IfOk, OnOk, OnErr};
ghost use Rattle.std.proofs.Math.ListN.{set};
ghost use Rattle.atom_index.specs.Slots.{IsLengthened};

use std::alloc::{AllocError, Global};
use std::marker::Model;

/// How many numbers there can be in a table: those from 0 up to this one.
pub(crate) const MAX_NUMBERS: usize = 4_294_967_295;

/// The number in each of some slots, where there is one. A slot takes 4 bytes.
#[derive(Drop)]
pub(crate) struct Table {
    /// One more than the number, or 0 for none.
    entries: Vec<u32>,
}

impl Model for Table {
    ghost use Rattle.std.specs.Prelude.{ℕ, List, Option, map};
    ghost use Rattle.std.specs.Coded.{coded_list, coded_option, coded_ℕ};
    ghost use Rattle.atom_index.specs.Slots.{number_of_entry};

    ghost Value = { List (Option ℕ) };

    ghost coded = { coded_list (coded_option coded_ℕ) };

    ghost view = { λ t. map number_of_entry t.entries.items };
}

impl Table {
    /// A table without slots.
    pub fn new(alloc: Global) -> Self
        ensures { result ≡ [] }
    {
        Table {
            entries: Vec::new(alloc),
        }
    }

    /// A table with n slots, and no number in them.
    pub fn with_slots(alloc: Global, slots: usize) -> Result<Self, AllocError>
        ensures { IfOk result (λ table. table ≡ replicate slots None) }
    {
        let entries = vec![in alloc; 0; slots]?;
        Ok(Table { entries })
    }

    /// Makes the table longer, by slots without a number. Out of memory leaves it as it is.
    pub fn lengthen(&mut self, slots: usize) -> Result<(), AllocError>
        requires { length self.old ≤ slots }
        ensures ok { OnOk result (IsLengthened slots self.old self.new) }
        ensures err { OnErr result (self.new ≡ self.old) }
    {
        self.entries.resize(slots, 0)
    }

    /// How many slots there are.
    pub fn len(&self) -> usize
        ensures { result ≡ length self.now }
    {
        self.entries.len()
    }

    /// The number in a slot.
    pub fn get(&self, slot: usize) -> Option<u32>
        requires { slot < length self.now }
        ensures { result ≡ get_or self.now slot None }
    {
        self.entries[slot].checked_sub(1)
    }

    /// Puts a number in a slot.
    pub fn set(&mut self, slot: usize, number: u32)
        requires slot { slot < length self.old }
        requires number { number < MAX_NUMBERS }
        ensures { self.new ≡ set self.old slot (Some number) }
    {
        self.entries[slot] = number + 1;
    }
}
