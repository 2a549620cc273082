//! The ways in which these rules end a turn.
ghost use Rattle.std.specs.Prelude.{◌≡◌};
ghost use Rattle.core_rules.specs.Left.{left_value, Takes};
ghost use Rattle.seq_plan.specs.Plan.{call, give, throw};
ghost use Rattle.seq_values.specs.Model as M;
ghost use Rattle.seq_values.specs.Plain.{plain, plains};

use crate::joining::let_go;
use crate::state::{AtValue, State};
use seq_base::Thrown;
use seq_turns::{Next, Proper, ProperList, calls, gives, gives_truth, throws};

/// Calls a function.
pub(crate) fn asks_call(next: AtValue, function: Proper, args: ProperList) -> Next<State>
    ensures { Takes (call (plain function.value) (plains args.items) (λ y. left_value next y)) result }
{
    calls(State::Value(next), function, args)
}

/// Ends with a value.
pub(crate) fn ends(value: Proper) -> Next<State>
    ensures { Takes (give (plain value.value)) result }
{
    gives(State::Over, value)
}

/// Ends with a truth value.
pub(crate) fn ends_truth(holds: bool) -> Next<State>
    ensures { Takes (give (M.bool holds)) result }
{
    gives_truth(State::Over, holds)
}

/// Ends with an error, and lets what was given go.
pub(crate) fn refuses(bound: ProperList, args: ProperList, why: Thrown) -> Next<State>
    ensures { Takes (throw why) result }
{
    let_go(bound);
    let_go(args);
    throws(State::Over, why)
}

/// The turn, and what was given is let go.
pub(crate) fn without(next: Next<State>, bound: ProperList, args: ProperList) -> Next<State>
    ensures { result ≡ next }
{
    let_go(bound);
    let_go(args);
    next
}
