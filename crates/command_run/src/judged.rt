//! What is made of operations while they are judged.

ghost use Rattle.std.specs.Prelude.{◌≡◌, ◌⊎◌, ◌≤◌, ◌+◌, List, length, [], ◌++◌, Some, IfOk, IfErr, OnOk};
ghost use Rattle.hist_types.specs.Journal.{KeepsRules};
ghost use Rattle.hist_types.specs.Operations.{Operation};
ghost use Rattle.hist_types.specs.Refusals.{memory_fault};
ghost use Rattle.hist_types.specs.Transactions.{transactions_of};
ghost use Rattle.hist_types.specs.declared.limits.TheConstants.{MAX_EVENTS};
ghost use Rattle.op_block.specs.Contents.{operations_of};
ghost use Rattle.block_reader.specs.Blocks.{operations_in};
ghost use Rattle.command_run.specs.Answers.{journal_fault};

use hist_types::types::Fault;
use journal_core::journal::Core;
use op_block::block::Block;
use op_view::op::OpView;
use std::alloc::{AllocError, Global};
use txn_pairs::pairing::Pairing;

/// A journal of operations, which keep its rules, and their transactions.
#[derive(Drop)]
pub struct Judged<'a> {
    pub core: Core<'a>,
    pub pairing: Pairing<'a>,
    ghost kept: { KeepsRules core.events },
    ghost paired: { pairing ≡ transactions_of core.events },
}

/// Takes a block's operations, the first of which is the event with this index.
fn pair_block<'a>(pairing: &mut Pairing<'a>, start: u64, block: &'a Block) -> Result<(), AllocError>
    requires { start + length (operations_of block.now) ≤ MAX_EVENTS }
    ensures { (events : List Operation)
        → length events ≡ start → pairing.old ≡ transactions_of events
        → OnOk result (pairing.new ≡ transactions_of (events ++ operations_of block.now)) }
{
    for index in 0..block.len() {
        pairing.take(start + index as u64, OpView::of(block, index))?;
    }
    Ok(())
}

impl<'a> Judged<'a> {
    /// What is made of no operations.
    pub fn new(alloc: Global) -> Self
        ensures { result.core.events ≡ [] }
    {
        Judged {
            core: Core::new(alloc),
            pairing: Pairing::new(alloc),
        }
    }

    /// Adds the operations of these blocks or, where one breaks a rule, returns the first such
    /// rule.
    pub fn extended(self, blocks: &'a [Block]) -> Result<Self, Fault>
        ensures ok { IfOk result
            (λ judged. judged.core.events ≡ self.entry.core.events ++ operations_in blocks.now) }
        ensures err { IfErr result (λ fault. (fault ≡ memory_fault)
            ⊎ (journal_fault (self.entry.core.events ++ operations_in blocks.now) ≡ Some fault)) }
    {
        let Judged {
            mut core,
            mut pairing,
        } = self;
        for block in blocks {
            let start = core.events();
            core = core.append(block)?;
            pair_block(&mut pairing, start, block)?;
        }
        Ok(Judged { core, pairing })
    }
}
