//! What is known of one phenomenon that cycles show.

ghost use Rattle.std.specs.Prelude.{◌≡◌, ◌≤◌, ◌+◌, ◌<◌, List, IfOk, OnOk, IsSomeAnd};
ghost use Rattle.std.specs.Bool.{OnFalse, OnTrue};
ghost use Rattle.cycle_find.specs.Found.{NeedsAtLeast, NeedsMoreThan, ShowsByFewest};
ghost use Rattle.dep_edges.specs.Histories.{AreOfHistory};
ghost use Rattle.hist_types.specs.Edges.{edges_at};
ghost use Rattle.hist_types.specs.Phenomena.{height};
ghost use Rattle.hist_types.specs.Transactions.{Transaction};
ghost use Rattle.hist_types.specs.Witness.{IsFinding};
ghost use Rattle.hist_types.specs.declared.types.KeyOrder.{KeyOrder};
ghost use Rattle.hist_types.specs.declared.types.Level.TheVariants.{Plain};
ghost use Rattle.hist_types.specs.declared.types.Phenomenon.{Phenomenon};
ghost use Rattle.hist_types.specs.declared.types.Phenomenon.TheVariants.{GSingle, G2Item};
ghost use Rattle.verdict.specs.Board.{IsKnown, IsNotBelow, IsSettled, IsSettledBelow, IsStillSettled};

use cycle_find::types::Walk;
use cycle_show::types::Witness;
use dep_edges::edge::{Edge, Label};
use hist_types::types::Level;
use report_text::report::Finding;
use std::alloc::{AllocError, Global};

/// How many levels there are.
const LEVELS: usize = 3;

/// How many levels are lower.
pub fn height(level: Level) -> usize
    ensures { result ≡ height level }
{
    match level {
        Level::Plain => 0,
        Level::Process => 1,
        Level::Realtime => 2,
    }
}

/// A walk that shows a phenomenon at a level with the fewest dependency edges of all that show it
/// there.
#[derive(Drop)]
struct Seen<'a> {
    level: Level,
    walk: Walk<'a>,
}

/// What is known of a phenomenon.
#[derive(Drop)]
pub struct Known<'a> {
    /// It is there at no level lower than this height: 0 is plain, 1 process, 2 realtime, and with
    /// 3 it is nowhere.
    none_below: usize,
    /// Each walk that shows it at this height has so many dependency edges at least.
    needs: usize,
    /// A level at which it is there, if one is known.
    seen: Option<Seen<'a>>,
}

/// The same walk once more.
fn copied<'a>(alloc: Global, walk: &Walk<'a>) -> Result<Walk<'a>, AllocError>
    ensures { IfOk result (λ copy. copy ≡ walk.now) }
{
    let mut edges = Vec::with_capacity(alloc, walk.edges().len())?;
    for edge in walk.edges() {
        edges.push(edge.copy())?;
    }
    Ok(Walk::new(edges))
}

/// Whether all of the edges are rw edges.
fn has_rw_alone(edges: &[Edge<'_>]) -> bool {
    for edge in edges {
        if !matches!(edge.label(), Label::Rw { .. }) {
            return false;
        }
    }
    true
}

impl<'a> Known<'a> {
    /// Nothing yet. No edge leads from a transaction to itself, so at plain each closed walk has
    /// two dependency edges at least.
    pub fn nothing() -> Self
        ensures { (keys : KeyOrder) (phenomenon : Phenomenon) (ts : List Transaction)
            → IsKnown keys phenomenon ts result }
    {
        Known {
            none_below: 0,
            needs: 2,
            seen: None,
        }
    }

    pub fn none_below(&self) -> usize
        ensures { result ≡ self.now.none_below }
    {
        self.none_below
    }

    pub fn is_seen(&self) -> bool {
        self.seen.is_some()
    }

    /// Whether it is seen by rw edges alone.
    pub fn is_seen_by_rw(&self) -> bool {
        match &self.seen {
            Some(seen) => has_rw_alone(seen.walk.edges()),
            None => false,
        }
    }

    /// How many dependency edges each walk has at least that shows it at the level, as far as is
    /// known.
    pub fn needs_at(&self, level: Level) -> usize
        ensures { (keys : KeyOrder) (phenomenon : Phenomenon) (ts : List Transaction)
            → IsKnown keys phenomenon ts self.now
            → NeedsAtLeast result phenomenon (edges_at keys level ts) }
    {
        if self.none_below == height(level) {
            self.needs
        } else {
            0
        }
    }

    /// Whether it is seen at the lowest level at which it may be.
    fn is_seen_lowest(&self) -> bool
        ensures yes { OnTrue result
            (IsSomeAnd self.now.seen (λ seen. height seen.level ≡ self.now.none_below)) }
        ensures no { OnFalse result
            (¬ IsSomeAnd self.now.seen (λ seen. height seen.level ≡ self.now.none_below)) }
    {
        match &self.seen {
            Some(seen) => height(seen.level) == self.none_below,
            None => false,
        }
    }

    /// Whether its lowest level is known, or that it has none.
    pub fn is_settled(&self) -> bool
        ensures yes { OnTrue result (IsSettled self.now) }
        ensures no { OnFalse result (¬ IsSettled self.now) }
    {
        self.none_below >= LEVELS || self.is_seen_lowest()
    }

    /// Whether it isn't settled, and may be at this level.
    pub fn is_open_at(&self, level: Level) -> bool
        ensures { OnFalse result (IsSettledBelow (height level + 1) self.now) }
    {
        !self.is_settled() && self.none_below <= height(level)
    }

    /// Notes that it is there at no level lower than this height.
    pub fn rise_to(&mut self, top: usize)
        ensures right { (keys : KeyOrder) (phenomenon : Phenomenon) (ts : List Transaction)
            → IsKnown keys phenomenon ts self.old → IsNotBelow top keys phenomenon ts
            → IsKnown keys phenomenon ts self.new }
        ensures settles { top ≤ 3 → IsSettledBelow top self.new }
        ensures still { IsStillSettled self.old self.new }
    {
        if self.is_settled() || top <= self.none_below {
            return;
        }
        self.none_below = top;
        // Above plain one dependency edge may do, as order edges close its walk.
        self.needs = 1;
    }

    /// Notes a walk that shows it at the level with the fewest dependency edges.
    pub fn show(&mut self, level: Level, walk: Walk<'a>)
        ensures right { (keys : KeyOrder) (phenomenon : Phenomenon) (ts : List Transaction)
            → IsKnown keys phenomenon ts self.old
            → ShowsByFewest phenomenon (edges_at keys level ts) walk.entry
            → IsKnown keys phenomenon ts self.new }
        ensures settles { IsSettledBelow (height level) self.old
            → IsSettledBelow (height level + 1) self.new }
        ensures still { IsStillSettled self.old self.new }
    {
        if self.is_settled() {
            return;
        }
        self.seen = Some(Seen { level, walk });
    }

    /// Notes that no walk shows it at plain with fewer than three dependency edges.
    pub fn raise_needs(&mut self)
        ensures right { (keys : KeyOrder) (phenomenon : Phenomenon) (ts : List Transaction)
            → IsKnown keys phenomenon ts self.old
            → NeedsMoreThan 2 phenomenon (edges_at keys Plain ts)
            → IsKnown keys phenomenon ts self.new }
        ensures still { IsStillSettled self.old self.new }
    {
        if self.none_below == 0 {
            self.needs = 3;
        }
    }

    /// Notes, of G2-item, what is seen of G-single, if it is at the lowest level at which G2-item
    /// may be, and if no walk can show G2-item there with fewer dependency edges.
    pub fn show_single(&mut self, alloc: Global, single: &Known<'a>) -> Result<(), AllocError>
        ensures right { (keys : KeyOrder) (ts : List Transaction)
            → IsKnown keys G2Item ts self.old → IsKnown keys GSingle ts single.now
            → OnOk result (IsKnown keys G2Item ts self.new) }
        ensures below { OnOk result (self.new.none_below ≡ self.old.none_below) }
        ensures still { OnOk result (IsStillSettled self.old self.new) }
    {
        if self.is_settled() {
            return Ok(());
        }
        if let Some(seen) = &single.seen {
            if height(seen.level) == self.none_below && seen.walk.dependency_edges() <= self.needs {
                let walk = copied(alloc, &seen.walk)?;
                self.seen = Some(Seen {
                    level: seen.level,
                    walk,
                });
            }
        }
        Ok(())
    }

    /// What is reported of it, once it is settled.
    pub fn into_finding(self, alloc: Global) -> Result<Option<Finding<'a>>, AllocError>
        ensures { (keys : KeyOrder) (phenomenon : Phenomenon) (ts : List Transaction)
            → AreOfHistory ts → IsKnown keys phenomenon ts self.entry → IsSettled self.entry
            → IfOk result (IsFinding keys phenomenon ts) }
    {
        let Known {
            none_below,
            needs: _,
            seen,
        } = self;
        if none_below >= LEVELS {
            return Ok(None);
        }
        match seen {
            Some(seen) => Ok(Some(Finding {
                level: seen.level,
                witness: Witness::of(alloc, &seen.walk)?,
            })),
            None => Ok(None),
        }
    }
}
