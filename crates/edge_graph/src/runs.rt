//! Lists that share one list of numbers.

ghost use Rattle.std.specs.Prelude.{IfOk};
ghost use Rattle.edge_graph.specs.Runs.{IsRunIn, EndsWith, IsExtended};

use crate::rows::number;
use std::alloc::AllocError;

/// A range of a list.
#[derive(Clone, Copy, Default)]
pub(crate) struct Run {
    pub start: u32,
    pub end: u32,
}

/// Copies the run's items to the end of the list, and adds the item.
fn copied(run: Run, item: u32, items: &mut Vec<u32>) -> Result<Run, AllocError>
    requires { IsRunIn items.old.items run }
    ensures { IfOk result (λ more. IsExtended item run more items.old.items items.new.items) }
{
    let start = number(items.len())?;
    items.extend_from_within(run.start as usize..run.end as usize)?;
    items.push(item)?;
    let end = number(items.len())?;
    Ok(Run { start, end })
}

/// The run's items and then the item, which is the list's last one. Only a run that ends elsewhere
/// is copied.
pub(crate) fn extended(run: Run, item: u32, items: &mut Vec<u32>) -> Result<Run, AllocError>
    requires run { IsRunIn items.old.items run }
    requires last { EndsWith item items.old.items }
    ensures { IfOk result (λ more. IsExtended item run more items.old.items items.new.items) }
{
    let end = number(items.len())?;
    let last = end - 1;
    if run.start == run.end {
        Ok(Run { start: last, end })
    } else if run.end == last {
        Ok(Run { end, ..run })
    } else {
        copied(run, item, items)
    }
}
