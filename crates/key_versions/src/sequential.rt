//! Followers by steps of processes, once all transactions are taken.

ghost use Rattle.std.specs.Prelude.{◌≡◌, List, length, OnOk};
ghost use Rattle.hist_types.specs.Transactions.{Transaction, Version};
ghost use Rattle.hist_types.specs.declared.types.KeyOrder.TheVariants.{Sequential};
ghost use Rattle.key_versions.specs.Given.{AreNamed, IsTableBeside};
ghost use Rattle.key_versions.specs.LastSeen.{last_seen};
ghost use Rattle.key_versions.specs.Stepped.{AreStepsOf};
ghost use Rattle.key_versions.specs.Tables.{IsTableOf};
ghost use Rattle.key_versions.specs.Views.{table_by};

use crate::rows::Rows;
use crate::steps::Steps;
use std::alloc::{AllocError, Global};

/// Adds the followers by steps to the rows of n versions, once all transactions are taken: a step
/// may lead to a version that was installed long before or is installed later.
pub(crate) fn follow_steps(
    alloc: Global,
    rows: &mut Rows,
    steps: Steps,
    versions: usize,
) -> Result<(), AllocError>
    requires { (given : List Version) × (vs : List Version) × (ts : List Transaction)
        × IsTableBeside given ts (table_by vs rows.old.rows rows.old.accesses)
        × AreStepsOf vs ts (last_seen steps.last) steps.taken.items
        × (versions ≡ length vs) }
    ensures { (given vs : List Version) (ts : List Transaction)
        → IsTableBeside given ts (table_by vs rows.old.rows rows.old.accesses)
        → AreNamed ts given
        → AreStepsOf vs ts (last_seen steps.last) steps.taken.items → versions ≡ length vs
        → OnOk result (IsTableOf Sequential ts (table_by vs rows.new.rows rows.new.accesses)) }
{
    let count = steps.taken.len();
    let earlier = steps.earlier(alloc, versions)?;
    rows.rows
        .follow_steps(alloc, &rows.accesses, &earlier, count)?;
    Ok(())
}
