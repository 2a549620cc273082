//! Values of lists, one list after another.
ghost use Rattle.std.specs.Prelude.{◌≡◌, ◌+◌, ◌-◌, ◌≤◌, ◌++◌, drop, length, IfOk};

use seq_turns::{Gathered, ProperList};
use seq_vector::NoMemory;
use std::alloc::Global;

/// Lets a value go.
pub(crate) fn let_go<T: Drop>(_value: T) {}

/// The values gathered so far, and then those of a list from a place on.
pub(crate) fn and_from(
    values: Gathered,
    others: &ProperList,
    from: usize,
) -> Result<Gathered, NoMemory>
    requires there { from ≤ length others.now.items }
    requires few { length values.items.items + (length others.now.items - from) ≤ 4294967295 }
    ensures { IfOk result (λ all. all.items.items ≡ values.items.items ++ drop from others.now.items) }
{
    let mut all = values;
    for at in from..others.len() {
        let value = others.at(at)?;
        all = all.and(value)?;
    }
    Ok(all)
}

/// All values of a list, where they are not more than may be gathered.
pub(crate) fn gathered(alloc: Global, values: &ProperList) -> Result<Gathered, NoMemory>
    ensures { IfOk result (λ all. all.items.items ≡ values.now.items) }
{
    if values.len() > 4294967295 {
        return Err(NoMemory);
    }
    let none = Gathered::with_room(alloc, values.len())?;
    let all = and_from(none, values, 0)?;
    Ok(all)
}
