//! The values of names.
ghost use Rattle.std.specs.Prelude.{◌≡◌, [], ◌∷◌, ◌++◌, pred, IfOk};
ghost use Rattle.seq_plan.specs.Nodes.{value_at};
ghost use Rattle.seq_values.specs.Plain.{plain, plains};

use crate::state::Code;
use seq_turns::{Proper, ProperList};
use seq_values::Value;
use seq_vector::{NoMemory, PVec};
use std::alloc::Global;

/// The value at a place, or nil.
pub(crate) fn value_in(values: &ProperList, at: usize) -> Result<Proper, NoMemory>
    ensures { IfOk result (λ v. plain v.value ≡ value_at (plains values.now.items) at) }
{
    match values.get(at)? {
        Some(value) => Ok(value),
        None => Ok(Proper::nil()),
    }
}

/// The value of a `def` form by its number, from 1.
pub(crate) fn defined(code: &Code, form: u32) -> Result<Proper, NoMemory>
    ensures { IfOk result (λ v. plain v.value ≡ value_at (plains code.now.values.items) (pred form)) }
{
    let at = if form == 0 { 0 } else { form - 1 };
    value_in(&code.values, at as usize)
}

/// The values with one more.
fn with_last(alloc: Global, values: &PVec<Value>, last: Value) -> Result<PVec<Value>, NoMemory>
    ensures { IfOk result (λ all. all ≡ values.now ++ last ∷ []) }
{
    if values.len() >= 4294967295 {
        return Err(NoMemory);
    }
    match values.push(alloc, last) {
        Ok(all) => Ok(all),
        Err((_, why)) => Err(why),
    }
}

/// The locals with one more, the innermost.
pub(crate) fn with_local(
    alloc: Global,
    locals: ProperList,
    value: Proper,
) -> Result<ProperList, NoMemory>
    ensures { IfOk result (λ all. plains all.items ≡ plains locals.items ++ plain value.value ∷ []) }
{
    let items = with_last(alloc, &locals.items, value.value)?;
    Ok(ProperList { items })
}
