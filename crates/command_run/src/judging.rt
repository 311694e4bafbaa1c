//! Judging the operations of a text, while the rest of it is read.

ghost use Rattle.std.specs.Prelude.{List, ◌++◌, IfOk, IfErr};
ghost use Rattle.hist_types.specs.Operations.{Operation};
ghost use Rattle.block_reader.specs.Blocks.{operations_in};
ghost use Rattle.command_run.specs.Answers.{GivesEvents};
ghost use Rattle.command_run.specs.Judged.{HasJudged};
ghost use Rattle.command_run.specs.Sources.{HasGiven, HasNoReport};

use crate::judged::Judged;
use block_reader::round::Consumer;
use block_reader::rounds::{InputFault, read_source};
use hist_types::device::Source;
use hist_types::types::Fault;
use op_block::block::Block;
use std::alloc::Global;
use std::sync::OnceLock;
use std::thread::Threads;

/// Judges the blocks of a text, one round after the other. Blocks after a broken rule are passed
/// over.
#[derive(Drop)]
struct Judging<'a> {
    judged: Result<Judged<'a>, Fault>,
}

/// Judges these blocks after the others, unless one of those broke a rule.
fn also<'a>(judged: Result<Judged<'a>, Fault>, blocks: &'a [Block]) -> Result<Judged<'a>, Fault>
    ensures { (before : List Operation) → HasJudged judged.entry before
        → HasJudged result (before ++ operations_in blocks.now) }
{
    judged?.extended(blocks)
}

impl<'a> Consumer<'a> for Judging<'a> {
    ghost use Rattle.command_run.specs.Judged.{HasJudged};

    ghost has_taken = { λ j operations. HasJudged j.judged operations };

    fn take(self, blocks: &'a [Block]) -> Self {
        let Judging { judged } = self;
        Judging {
            judged: also(judged, blocks),
        }
    }
}

/// What is made of a source's operations or, where its text is refused, the first refusal.
pub fn judged_of<'a, R: Threads + Sync, S: Source>(
    rt: &R,
    alloc: Global,
    workers: usize,
    source: &mut S,
    cells: &'a [OnceLock<Vec<Block>>],
) -> Result<Judged<'a>, InputFault>
    ensures ok { IfOk result (λ judged.
        HasGiven S.Source source.old source.new (λ text. GivesEvents text judged.core.events)) }
    ensures err { IfErr result (HasNoReport S.Source source.old source.new) }
{
    let judging = Judging {
        judged: Ok(Judged::new(alloc)),
    };
    let Judging { judged } = read_source(rt, alloc, workers, source, cells, judging)?;
    Ok(judged?)
}
