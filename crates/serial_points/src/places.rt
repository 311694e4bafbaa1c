//! Numbers, such as places of transactions, listed by number.

ghost use Rattle.std.specs.Prelude.{◌≡◌, ◌≤◌, [], length, OnOk};
ghost use Rattle.serial_points.specs.Users.{places_at, IsListed, StayListed, ListOnly};

use smallvec::SmallVec;
use std::alloc::{AllocError, Global};
use std::marker::Model;

/// A list of places for each number. A number that has no list yet has an empty one. Up to four
/// places take no memory of their own.
#[derive(Drop)]
pub(crate) struct Places {
    alloc: Global,
    lists: Vec<SmallVec<u32, 4>>,
}

impl Model for Places {
    ghost use Rattle.std.specs.Prelude.{ℕ, List, map};

    ghost Value = { List (List ℕ) };

    ghost view = { λ p. map (λ (list : _). list.items) p.lists.items };
}

impl Places {
    pub fn new(alloc: Global) -> Self
        ensures { result ≡ [] }
    {
        Places {
            alloc,
            lists: Vec::new(alloc),
        }
    }

    pub fn at(&self, number: u32) -> &[u32]
        ensures { result.now ≡ places_at self.now number }
    {
        match self.lists.get(number as usize) {
            Some(places) => places.as_slice(),
            None => &[],
        }
    }

    /// Makes empty lists, so that there is one for each of n numbers.
    fn grow(&mut self, numbers: usize) -> Result<(), AllocError>
        ensures enough { OnOk result (numbers ≤ length self.new) }
        ensures stay { OnOk result (StayListed self.old self.new) }
        ensures only { OnOk result (StayListed self.new self.old) }
    {
        while self.lists.len() < numbers {
            self.lists.push(SmallVec::new(self.alloc))?;
        }
        Ok(())
    }

    /// Lists the place under the number.
    pub fn add(&mut self, number: u32, place: u32) -> Result<(), AllocError>
        ensures added { OnOk result (IsListed self.new number place) }
        ensures stay { OnOk result (StayListed self.old self.new) }
        ensures only { OnOk result (ListOnly self.old self.new number place) }
    {
        self.grow(number as usize + 1)?;
        self.lists[number as usize].push(place)?;
        Ok(())
    }
}
