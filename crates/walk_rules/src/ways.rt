//! The ways in which these rules end a turn.
ghost use Rattle.seq_plan.specs.Plan.{visit, seq, call, give, throw};
ghost use Rattle.seq_turns.specs.Making.{made};
ghost use Rattle.seq_turns.specs.Seen.{NotNow};
ghost use Rattle.seq_values.specs.Model as M;
ghost use Rattle.seq_values.specs.Plain.{plain, plains};
ghost use Rattle.walk_rules.specs.Left.{left_seq, left_step, left_value, Takes};

use crate::state::{AtSeq, AtStep, AtValue, State};
use seq_base::Thrown;
use seq_turns::{
    Made, Next, Proper, ProperList, calls, gives, gives_made, gives_nil, gives_truth, seeks,
    throws, visits,
};

/// One own step.
pub(crate) fn steps(next: AtStep) -> Next<State>
    ensures { Takes (visit (left_step next)) result }
{
    visits(State::Step(next))
}

/// Asks for the `seq` of a value that isn't there at once.
pub(crate) fn asks_seq(next: AtSeq, value: Proper) -> Next<State>
    requires { NotNow (plain value.value) }
    ensures { Takes (seq (plain value.value) (λ s. left_seq next s)) result }
{
    seeks(State::Seq(next), value)
}

/// Calls a function.
pub(crate) fn asks_call(next: AtValue, function: Proper, args: ProperList) -> Next<State>
    ensures { Takes (call (plain function.value) (plains args.items) (λ y. left_value next y)) result }
{
    calls(State::Value(next), function, args)
}

/// Ends with a value.
pub(crate) fn ends(value: Proper) -> Next<State>
    ensures { Takes (give (plain value.value)) result }
{
    gives(State::Over, value)
}

/// Ends with nil.
pub(crate) fn ends_nil() -> Next<State>
    ensures { Takes (give M.nil) result }
{
    gives_nil(State::Over)
}

/// Ends with a truth value.
pub(crate) fn ends_truth(holds: bool) -> Next<State>
    ensures { Takes (give (M.bool holds)) result }
{
    gives_truth(State::Over, holds)
}

/// Ends with an error.
pub(crate) fn fails(why: Thrown) -> Next<State>
    ensures { Takes (throw why) result }
{
    throws(State::Over, why)
}

/// Ends with what was made, or with why it wasn't.
pub(crate) fn ends_made(what: Made) -> Next<State>
    ensures { Takes (made what give) result }
{
    gives_made(State::Over, what)
}
