//! An analysis that is extended by one block after the other.

use crate::hashers::Counting;
use crate::stopped::Stopped;
use block_reader::one_block::block_of_text;
use hist_types::types::{Fault, KeyOrder};
use journal_core::journal::Core;
use op_block::block::Block;
use op_block::stamp::Stamp;
use std::alloc::Global;
use std::marker::Model;
use std::sync::atomic::{AtomicU64, Ordering};
use std::{io, str};
use verdict::analysis::Analysis;

/// A journal, and an analysis that is kept of its events.
#[derive(Drop)]
struct Kept<'a, 'c> {
    core: Core<'a>,
    analysis: Analysis<'a, Counting<'c>>,
}

impl<'a, 'c> Model for Kept<'a, 'c> {
    ghost use Rattle.std.specs.Prelude.{◌≡◌, List};
    ghost use Rattle.hist_types.specs.Operations.{Operation};

    ghost Value = { List Operation };

    ghost view = { λ kept. kept.core.events };

    ghost invariant = { λ kept. kept.analysis.events ≡ kept.core.events };
}

impl<'a, 'c> Kept<'a, 'c> {
    fn new(alloc: Global, hasher: Counting<'c>, keys: KeyOrder) -> Self {
        Kept {
            core: Core::new(alloc),
            analysis: Analysis::new(alloc, hasher, keys),
        }
    }

    /// Extends both by the block, unless it breaks a rule.
    fn extend(self, block: &'a Block) -> Result<Self, Fault> {
        let Kept { core, analysis } = self;
        Ok(Kept {
            core: core.append(block)?,
            analysis: analysis.extend(block)?,
        })
    }

    /// Prints whether the analysis has points, and its verdict.
    fn print<R: Print>(&self, rt: &R) -> Result<(), Stopped> {
        let verdict = self.analysis.verdict()?;
        println!(rt; "points {}", self.analysis.has_points())?;
        print!(rt;
            "{}",
            str::from_utf8(verdict.text()).unwrap_or("not UTF-8\n")
        )?;
        Ok(())
    }
}

/// The blocks of standard input, one for each line.
fn blocks_of<R: Input>(rt: &R, alloc: Global) -> Result<Vec<Block>, Stopped> {
    let stamp = Stamp { seat: 0, call: 0 };
    let mut blocks = Vec::new(alloc);
    for line in rt.lines(alloc) {
        blocks.push(block_of_text(alloc, line?.as_bytes(), stamp)?)?;
    }
    Ok(blocks)
}

/// Extends an analysis by a block for each line of standard input, and prints its verdict after
/// each, and at last how many hashers were built.
pub fn run<R: Input + Print>(
    rt: &R,
    alloc: Global,
    built: &AtomicU64,
    keys: KeyOrder,
) -> Result<(), Stopped> {
    let blocks = blocks_of(rt, alloc)?;
    let mut kept = Kept::new(alloc, Counting::new(built), keys);
    for block in &blocks {
        kept = kept.extend(block)?;
        kept.print(rt)?;
    }
    Ok(println!(rt; "hashers {}", built.load(Ordering::SeqCst))?)
}
