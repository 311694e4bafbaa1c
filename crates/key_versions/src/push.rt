//! How the lists of a table grow.

ghost use Rattle.std.specs.Prelude.{◌≡◌, ◌≤◌, ◌++◌, ◌∷◌, [], length, is_ok, if◌then◌else◌, OnOk};

use std::alloc::AllocError;

/// Adds an item. Mostly there is room, so what makes the list grow is left out of line.
#[inline(always)]
pub(crate) fn push<T: Copy>(items: &mut Vec<T>, item: T) -> Result<(), AllocError>
    ensures items { items.new.items
        ≡ (if is_ok result then items.old.items ++ item ∷ [] else items.old.items) }
{
    items.reserve(1)?;
    items.push_reserved(item);
    Ok(())
}

/// Adds a few items, one by one.
#[inline(always)]
pub(crate) fn push_all<T: Copy>(items: &mut Vec<T>, more: &[T]) -> Result<(), AllocError>
    ensures ok { OnOk result (items.new.items ≡ items.old.items ++ more.now) }
    ensures kept { length items.old.items ≤ length items.new.items }
{
    for item in more {
        push(items, *item)?;
    }
    Ok(())
}
