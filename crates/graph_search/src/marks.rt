//! Marks on vertices.

ghost use Rattle.std.specs.Prelude.{◌≡◌, ◌<◌, length, replicate, slice_index_or, slice_set, true, false, not, IfOk};

use std::alloc::{AllocError, Global};
use std::marker::Model;

/// Marks on vertices. It takes constant time to take off all of them.
#[derive(Drop)]
pub(crate) struct Marks {
    /// The round in which a vertex was last marked.
    rounds: Vec<u32>,
    /// The round that counts: a vertex is marked if it was marked in this round.
    round: u32,
}

impl Model for Marks {
    ghost use Rattle.std.specs.Prelude.{◌≤◌, ◌==◌, List, Bool, All, map};

    ghost Value = { List Bool };

    ghost view = { λ marks. map (λ round. round == marks.round) marks.rounds.items };

    ghost invariant = { λ marks. All (λ round. round ≤ marks.round) marks.rounds.items };
}

impl Marks {
    /// Marks on this many vertices, none of which is marked.
    pub fn new(alloc: Global, vertices: usize) -> Result<Marks, AllocError>
        ensures { IfOk result (λ marks. marks ≡ replicate vertices false) }
    {
        let rounds = vec![in alloc; 0; vertices]?;
        Ok(Marks { rounds, round: 1 })
    }

    /// Takes all marks off.
    pub fn clear(&mut self)
        ensures { self.new ≡ replicate (length self.old) false }
    {
        match self.round.checked_add(1) {
            Some(round) => self.round = round,
            None => {
                self.rounds.fill(0);
                self.round = 1;
            }
        }
    }

    /// Marks a vertex, and returns whether it wasn't marked.
    pub fn mark(&mut self, vertex: usize) -> bool
        requires { vertex < length self.old }
        ensures unmarked { result ≡ not (slice_index_or self.old vertex false) }
        ensures marked { self.new ≡ slice_set self.old vertex true }
    {
        let unmarked = self.rounds[vertex] != self.round;
        self.rounds[vertex] = self.round;
        unmarked
    }
}
