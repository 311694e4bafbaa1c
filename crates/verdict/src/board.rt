//! What is known of the phenomena that cycles show, while a verdict is made, and what follows from
//! what.

ghost use Rattle.std.specs.Prelude.{◌≡◌, ◌≤◌, ◌+◌, List, IfOk, OnOk};
ghost use Rattle.std.specs.Bool.{OnFalse, OnTrue};
ghost use Rattle.cycle_find.specs.Found.{NeedsAtLeast, NeedsMoreThan, ShowsByFewest};
ghost use Rattle.dep_edges.specs.Histories.{AreOfHistory};
ghost use Rattle.hist_types.specs.Edges.{edges_at};
ghost use Rattle.hist_types.specs.Phenomena.{height, IsThere};
ghost use Rattle.hist_types.specs.Reports.{AreFindings};
ghost use Rattle.hist_types.specs.Transactions.{Transaction};
ghost use Rattle.hist_types.specs.declared.types.KeyOrder.{KeyOrder};
ghost use Rattle.hist_types.specs.declared.types.Level.TheVariants.{Plain};
ghost use Rattle.verdict.specs.Board.{AreSettled, AreStillSettled, IsNotBelow, IsRight, IsSettled, IsSettledBelow, known};

use crate::known::{Known, height};
use cycle_find::types::Walk;
use hist_types::types::{Level, Phenomenon};
use report_text::report::Findings;
use std::alloc::{AllocError, Global};

/// What is known of each phenomenon that cycles show. Looks add to it.
pub struct Board<'a> {
    alloc: Global,
    g0: Known<'a>,
    g1c: Known<'a>,
    single: Known<'a>,
    item: Known<'a>,
}

// Written out, as what is derived is repeated wherever one is dropped.
impl Drop for Board<'_> {
    fn drop(self) {
        let Board {
            alloc: _,
            g0: _,
            g1c: _,
            single: _,
            item: _,
        } = self;
    }
}

impl<'a> Board<'a> {
    /// Nothing is known yet.
    pub fn new(alloc: Global) -> Self
        ensures { (keys : KeyOrder) (ts : List Transaction) → IsRight keys ts result }
    {
        Board {
            alloc,
            g0: Known::nothing(),
            g1c: Known::nothing(),
            single: Known::nothing(),
            item: Known::nothing(),
        }
    }

    pub fn alloc(&self) -> Global {
        self.alloc
    }

    fn known(&self, phenomenon: Phenomenon) -> &Known<'a>
        ensures { result.now ≡ known self.now phenomenon }
    {
        match phenomenon {
            Phenomenon::G0 => &self.g0,
            Phenomenon::G1c => &self.g1c,
            Phenomenon::GSingle => &self.single,
            Phenomenon::G2Item => &self.item,
        }
    }

    /// Whether a walk is known that shows the phenomenon.
    pub fn is_seen(&self, phenomenon: Phenomenon) -> bool {
        self.known(phenomenon).is_seen()
    }

    /// Whether G2-item is seen by rw edges alone, and so not by what shows G-single.
    pub fn is_skew_seen(&self) -> bool {
        self.item.is_seen_by_rw()
    }

    /// How many dependency edges each walk has at least that shows the phenomenon at the level, as
    /// far as is known.
    pub fn needs_at(&self, phenomenon: Phenomenon, level: Level) -> usize
        ensures { (keys : KeyOrder) (ts : List Transaction)
            → IsRight keys ts self.now
            → NeedsAtLeast result phenomenon (edges_at keys level ts) }
    {
        self.known(phenomenon).needs_at(level)
    }

    /// Whether the phenomenon's lowest level is known, or that it has none.
    pub fn is_settled(&self, phenomenon: Phenomenon) -> bool
        ensures { OnTrue result (IsSettled (known self.now phenomenon)) }
    {
        self.known(phenomenon).is_settled()
    }

    /// Whether the phenomenon isn't settled, and may be at this level.
    pub fn is_open_at(&self, phenomenon: Phenomenon, level: Level) -> bool
        ensures { OnFalse result (IsSettledBelow (height level + 1) (known self.now phenomenon)) }
    {
        self.known(phenomenon).is_open_at(level)
    }

    /// Whether all four are settled.
    pub fn are_settled(&self) -> bool
        ensures { OnTrue result (AreSettled self.now) }
    {
        self.g0.is_settled()
            && self.g1c.is_settled()
            && self.single.is_settled()
            && self.item.is_settled()
    }

    /// Notes that the phenomenon is there at no level lower than this height.
    fn raise(&mut self, phenomenon: Phenomenon, top: usize)
        ensures right { (keys : KeyOrder) (ts : List Transaction)
            → IsRight keys ts self.old → IsNotBelow top keys phenomenon ts
            → IsRight keys ts self.new }
        ensures settles { top ≤ 3 → IsSettledBelow top (known self.new phenomenon) }
        ensures still { AreStillSettled self.old self.new }
    {
        match phenomenon {
            Phenomenon::G0 => self.g0.rise_to(top),
            Phenomenon::G1c => self.g1c.rise_to(top),
            Phenomenon::GSingle => self.single.rise_to(top),
            Phenomenon::G2Item => self.item.rise_to(top),
        }
    }

    /// Notes a walk that shows the phenomenon at the level with the fewest dependency edges.
    fn note(&mut self, phenomenon: Phenomenon, level: Level, walk: Walk<'a>)
        ensures right { (keys : KeyOrder) (ts : List Transaction)
            → IsRight keys ts self.old
            → ShowsByFewest phenomenon (edges_at keys level ts) walk.entry
            → IsRight keys ts self.new }
        ensures settles { IsSettledBelow (height level) (known self.old phenomenon)
            → IsSettledBelow (height level + 1) (known self.new phenomenon) }
        ensures still { AreStillSettled self.old self.new }
    {
        match phenomenon {
            Phenomenon::G0 => self.g0.show(level, walk),
            Phenomenon::G1c => self.g1c.show(level, walk),
            Phenomenon::GSingle => self.single.show(level, walk),
            Phenomenon::G2Item => self.item.show(level, walk),
        }
    }

    /// What follows for G-single and G2-item from each other: what shows G-single shows G2-item
    /// too.
    fn conclude(&mut self) -> Result<(), AllocError>
        ensures right { (keys : KeyOrder) (ts : List Transaction)
            → IsRight keys ts self.old → OnOk result (IsRight keys ts self.new) }
        ensures still { OnOk result (AreStillSettled self.old self.new) }
    {
        let top = self.item.none_below();
        self.single.rise_to(top);
        self.item.show_single(self.alloc, &self.single)
    }

    /// Notes that the phenomenon isn't there at the level, and so at no lower one.
    pub fn rule_out(&mut self, phenomenon: Phenomenon, level: Level) -> Result<(), AllocError>
        ensures right { (keys : KeyOrder) (ts : List Transaction)
            → IsRight keys ts self.old → ¬ IsThere keys phenomenon level ts
            → OnOk result (IsRight keys ts self.new) }
        ensures settles { OnOk result
            (IsSettledBelow (height level + 1) (known self.new phenomenon)) }
        ensures still { OnOk result (AreStillSettled self.old self.new) }
    {
        self.raise(phenomenon, height(level) + 1);
        self.conclude()
    }

    /// Notes a walk that shows the phenomenon at the level, where none shows it with fewer
    /// dependency edges.
    pub fn show(
        &mut self,
        phenomenon: Phenomenon,
        level: Level,
        walk: Walk<'a>,
    ) -> Result<(), AllocError>
        ensures right { (keys : KeyOrder) (ts : List Transaction)
            → IsRight keys ts self.old
            → ShowsByFewest phenomenon (edges_at keys level ts) walk.entry
            → OnOk result (IsRight keys ts self.new) }
        ensures settles { IsSettledBelow (height level) (known self.old phenomenon)
            → OnOk result (IsSettledBelow (height level + 1) (known self.new phenomenon)) }
        ensures still { OnOk result (AreStillSettled self.old self.new) }
    {
        self.note(phenomenon, level, walk);
        self.conclude()
    }

    /// Notes that no walk shows the phenomenon at plain with fewer than three dependency edges.
    pub fn rule_out_two(&mut self, phenomenon: Phenomenon)
        ensures right { (keys : KeyOrder) (ts : List Transaction)
            → IsRight keys ts self.old
            → NeedsMoreThan 2 phenomenon (edges_at keys Plain ts)
            → IsRight keys ts self.new }
        ensures still { AreStillSettled self.old self.new }
    {
        match phenomenon {
            Phenomenon::G0 => self.g0.raise_needs(),
            Phenomenon::G1c => self.g1c.raise_needs(),
            Phenomenon::GSingle => self.single.raise_needs(),
            // What shows G-single shows G2-item.
            Phenomenon::G2Item => {
                self.item.raise_needs();
                self.single.raise_needs();
            }
        }
    }

    /// What is reported, once all four are settled.
    pub fn into_findings(self) -> Result<Findings<'a>, AllocError>
        ensures { (keys : KeyOrder) (ts : List Transaction)
            → AreOfHistory ts → IsRight keys ts self.entry → AreSettled self.entry
            → IfOk result (AreFindings keys ts) }
    {
        let Board {
            alloc,
            g0,
            g1c,
            single,
            item,
        } = self;
        Ok(Findings {
            g0: g0.into_finding(alloc)?,
            g1c: g1c.into_finding(alloc)?,
            single: single.into_finding(alloc)?,
            item: item.into_finding(alloc)?,
        })
    }
}
