//! Calls of compositions: the last function is called with the arguments, and each earlier one with the answer.
ghost use Rattle.std.specs.Prelude.{◌≡◌, ◌<◌, [], ◌∷◌, length, IfOk};
ghost use Rattle.core_rows.specs.Table.{composed, core_function};
ghost use Rattle.core_rules.specs.Left.{called_back, left_value, Takes};
ghost use Rattle.core_rules.specs.declared.state.AtValue.TheVariants as V;
ghost use Rattle.seq_plan.specs.Nodes.{value_at};
ghost use Rattle.seq_plan.specs.Plan.{call, give};
ghost use Rattle.seq_values.specs.Plain.{plain, plains};
ghost use Rattle.seq_values.specs.declared.words.Target.TheVariants as T;

use crate::joining::let_go;
use crate::opening::has_stages;
use crate::state::{AtValue, Earlier, State};
use crate::ways::{asks_call, ends, refuses};
use seq_base::Thrown;
use seq_turns::{Next, Proper, ProperList};
use seq_vector::NoMemory;
use std::alloc::Global;

/// The last function is called with the arguments.
fn last_called(functions: ProperList, args: ProperList) -> Result<Next<State>, NoMemory>
    requires { 0 < length functions.items }
    ensures { IfOk result (λ r. Takes (composed (plains functions.items) (plains args.items) give) r) }
{
    let left = functions.len() - 1;
    let last = functions.at(left)?;
    Ok(asks_call(AtValue::Compose(Earlier { functions, left }), last, args))
}

/// `comp`. A composition that is a transducer with a stage is no function for a call.
/// https://clojure.org/reference/transducers
pub(crate) fn comp_called(
    alloc: Global,
    functions: ProperList,
    args: ProperList,
) -> Result<Next<State>, NoMemory>
    ensures { IfOk result (λ r. Takes (core_function T.Comp (plains functions.items) (plains args.items)) r) }
{
    let staged = has_stages(alloc, &functions)?;
    if staged || functions.len() == 0 {
        return Ok(refuses(functions, args, Thrown::BadType));
    }
    last_called(functions, args)
}

/// A function before the one that answered is called with the answer.
fn earlier_called(
    alloc: Global,
    functions: ProperList,
    left: usize,
    answer: Proper,
) -> Result<Next<State>, NoMemory>
    requires { left < length functions.items }
    ensures { IfOk result (λ r. Takes (call (value_at (plains functions.items) left) (plain answer.value ∷ []) (λ y. called_back (plains functions.items) left y)) r) }
{
    let function = functions.at(left)?;
    let args = ProperList::one(alloc, answer)?;
    Ok(asks_call(
        AtValue::Compose(Earlier { functions, left }),
        function,
        args,
    ))
}

/// The functions that were called have all answered.
fn all_answered(functions: ProperList, answer: Proper) -> Next<State>
    ensures { Takes (give (plain answer.value)) result }
{
    let_go(functions);
    ends(answer)
}

/// A function of a composition has answered.
pub(crate) fn compose_answer(
    alloc: Global,
    earlier: Earlier,
    answer: Proper,
) -> Result<Next<State>, NoMemory>
    ensures { IfOk result (λ r. Takes (left_value (V.Compose earlier) (plain answer.value)) r) }
{
    let Earlier { functions, left } = earlier;
    if left == 0 {
        return Ok(all_answered(functions, answer));
    }
    let next = earlier_called(alloc, functions, left - 1, answer)?;
    Ok(next)
}
