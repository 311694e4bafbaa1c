//! A table for pairs of a key and one of its first values.

ghost use Rattle.std.specs.Prelude.{◌≡◌, ◌≤◌, ◌<◌, [], length, true, IfOk, OnOk, OnErr};
ghost use Rattle.atom_index.specs.declared.table.TheConstants.{MAX_NUMBERS};
ghost use Rattle.atom_index.specs.Slots.{HoldsPairs, HaveSlots, IsLengthened, slot_of_pair};

use crate::table::{MAX_NUMBERS, Table};
use std::alloc::{AllocError, Global};

/// How many values of a key have slots while keys are few: those with the smallest numbers.
const FIRST_VALUES: usize = 64;

/// How many keys are few.
const FEW_KEYS: usize = 64;

/// How many pairs there is room for at least.
const LEAST_PAIRS: usize = 128;

/// The numbers of pairs. Each key has a row, with a slot for nil and for each of its first values.
/// How wide the rows are is chosen when the table is made, by how many pairs a key has.
#[derive(Drop)]
pub(crate) struct PairTable {
    pub numbers: Table,
    /// How many slots a row has.
    pub width: u32,
    /// How many pairs there are outside of it before a new one is worth making.
    pub outside: usize,
}

/// How many values of a key have slots where n keys have these pairs, and may come to have as many
/// as are wanted: half as many again as a key has pairs, and no fewer than the first ones while
/// keys are few. Where keys have more pairs, each has its share of all.
fn values_of_key(keys: usize, pairs: usize, wanted: usize) -> usize
    ensures { result < MAX_NUMBERS }
{
    if keys == 0 {
        return FIRST_VALUES;
    }
    let average = pairs.div_ceil(keys);
    let with_half = average.saturating_add(average / 2);
    if average > FIRST_VALUES {
        with_half.max(wanted / keys).min(MAX_NUMBERS - 1)
    } else if keys > FEW_KEYS {
        with_half.min(FIRST_VALUES)
    } else {
        FIRST_VALUES
    }
}

/// How many keys need rows of this width where n keys have these pairs: no more than there are
/// pairs, and no fewer than whose rows the pairs fill.
fn rows_for(keys: usize, pairs: usize, width: usize) -> usize
    requires { 0 < width }
{
    keys.min(pairs).max(pairs.max(LEAST_PAIRS) / width)
}

/// How large a table is made.
#[derive(Clone, Copy)]
pub(crate) struct TableSize {
    /// How many slots a row has.
    width: usize,
    /// How many slots all rows have.
    slots: usize,
    /// How many pairs there are outside of the table before a new one is worth making.
    outside: usize,
}

impl TableSize {
    /// For `wanted` pairs, where n keys have these pairs now, and others of them were outside of
    /// the table before. Twice as many keys have rows as need them.
    pub fn of(keys: usize, pairs: usize, wanted: usize, others: usize) -> Self
        ensures wide { 0 < result.width }
        ensures fits { result.width ≤ MAX_NUMBERS }
    {
        let width = values_of_key(keys, pairs, wanted) + 1;
        let rows = rows_for(keys, wanted, width).saturating_mul(2);
        let more = (pairs / 2).max(wanted / 32);
        TableSize {
            width,
            slots: rows.saturating_mul(width),
            outside: others.saturating_add(more),
        }
    }
}

impl PairTable {
    /// A table without slots.
    pub fn new(alloc: Global) -> Self
        ensures numbers { result.numbers ≡ [] }
        ensures width { 0 < result.width }
    {
        PairTable {
            numbers: Table::new(alloc),
            width: 1,
            outside: 0,
        }
    }

    /// A table of this size with the numbers of these pairs.
    pub fn with_pairs(
        alloc: Global,
        pairs: &[(u32, Option<u32>)],
        size: TableSize,
    ) -> Result<Self, AllocError>
        requires len { length pairs.now ≤ MAX_NUMBERS }
        requires wide { 0 < size.width }
        requires fits { size.width ≤ MAX_NUMBERS }
        ensures width { IfOk result (λ table. 0 < table.width) }
        ensures places { IfOk result (λ table. HoldsPairs table.width table.numbers pairs.now) }
    {
        let mut table = PairTable {
            numbers: Table::with_slots(alloc, size.slots)?,
            width: size.width as u32,
            outside: size.outside,
        };
        table.fill(pairs);
        Ok(table)
    }

    /// Whether each of these pairs has a slot.
    pub fn has_all(&self, pairs: &[(u32, Option<u32>)]) -> bool
        ensures { result ≡ true → HaveSlots self.now.width (length self.now.numbers) pairs.now }
    {
        for pair in pairs {
            if self.slot_of(*pair).is_none() {
                return false;
            }
        }
        true
    }

    /// Whether a table of this size has all slots of this one, for the same pairs.
    pub fn is_begun_by(&self, size: TableSize) -> bool
        ensures { result ≡ true → length self.now.numbers ≤ size.slots }
    {
        self.width as usize == size.width && self.numbers.len() <= size.slots
    }

    /// Makes the table longer, up to this size. Rows stay as wide. Out of memory leaves it as it
    /// is.
    pub fn lengthen(&mut self, size: TableSize) -> Result<(), AllocError>
        requires { length self.old.numbers ≤ size.slots }
        ensures width { self.new.width ≡ self.old.width }
        ensures ok { OnOk result (IsLengthened size.slots self.old.numbers self.new.numbers) }
        ensures err { OnErr result (self.new.numbers ≡ self.old.numbers) }
    {
        self.numbers.lengthen(size.slots)?;
        self.outside = size.outside;
        Ok(())
    }

    /// Gives each of these pairs its number, in a table that has none.
    fn fill(&mut self, pairs: &[(u32, Option<u32>)])
        requires width { 0 < self.old.width }
        requires len { length pairs.now ≤ MAX_NUMBERS }
        requires empty { HoldsPairs self.old.width self.old.numbers [] }
        ensures width { self.new.width ≡ self.old.width }
        ensures places { HoldsPairs self.new.width self.new.numbers pairs.now }
    {
        let mut number: u32 = 0;
        for pair in pairs {
            if let Some(slot) = self.slot_of(*pair) {
                if self.numbers.get(slot).is_none() {
                    self.numbers.set(slot, number);
                }
            }
            number += 1;
        }
    }

    /// The slot of a pair, if it has one.
    pub fn slot_of(&self, pair: (u32, Option<u32>)) -> Option<usize>
        ensures { result ≡ slot_of_pair self.now.width pair (length self.now.numbers) }
    {
        let (key, value) = pair;
        let width = self.width as usize;
        let place = match value {
            None => 0,
            Some(value) => value as usize + 1,
        };
        let slot = key as usize * width + place;
        if place < width && slot < self.numbers.len() {
            Some(slot)
        } else {
            None
        }
    }

    /// Whether a new table is worth making where n keys have these pairs, and others of them are
    /// outside of the table: keys that need rows have none, or too many pairs are outside.
    pub fn is_outgrown(&self, keys: usize, pairs: usize, others: usize) -> bool
        requires { 0 < self.now.width }
    {
        let width = self.width as usize;
        let slots = rows_for(keys, pairs, width).saturating_mul(width);
        self.numbers.len() < slots || others > self.outside
    }
}
