//! The ways to end a turn, for the states of this crate.
ghost use Rattle.pull_rules.specs.Left.{left_step, left_seq, left_value, left_part, pulling, Takes};
ghost use Rattle.seq_plan.specs.Plan.{visit, seq, call, make, give, throw};
ghost use Rattle.seq_turns.specs.Making.{made};
ghost use Rattle.seq_turns.specs.Seen.{NotNow};
ghost use Rattle.seq_values.specs.Model as M;
ghost use Rattle.seq_values.specs.Plain.{plain, plains, plain_term};
ghost use Rattle.seq_values.specs.declared.words.Kind.TheVariants as K;

use crate::state::{AtPart, AtSeq, AtStep, AtValue, ProperTerm, State};
use seq_base::Thrown;
use seq_turns::{Made, Next, Proper, ProperList, Rule};
use seq_values::Kind;

impl Rule for State {
    ghost use Rattle.pull_rules.specs.Left.{pulling};

    ghost running = { pulling };
}

/// Lets a value go.
pub(crate) fn let_go<T: Drop>(_value: T) {}

/// One own step.
pub(crate) fn visits(next: AtStep) -> Next<State>
    ensures { Takes (visit (left_step next)) result }
{
    seq_turns::visits(State::Step(next))
}

/// Asks for the `seq` of a value that isn't there at once.
pub(crate) fn seeks(next: AtSeq, value: Proper) -> Next<State>
    requires { NotNow (plain value.value) }
    ensures { Takes (seq (plain value.value) (λ s. left_seq next s)) result }
{
    seq_turns::seeks(State::Seq(next), value)
}

/// Calls a function.
pub(crate) fn calls(next: AtValue, function: Proper, args: ProperList) -> Next<State>
    ensures { Takes (call (plain function.value) (plains args.items) (λ y. left_value next y)) result }
{
    seq_turns::calls(State::Value(next), function, args)
}

/// Makes a lazy part.
pub(crate) fn makes(next: AtPart, term: ProperTerm) -> Next<State>
    ensures { Takes (make K.Lazy (plain_term term.term) (λ m. left_part next m)) result }
{
    seq_turns::makes(State::Part(next), Kind::Lazy, term.term)
}

/// Ends with a value.
pub(crate) fn gives(value: Proper) -> Next<State>
    ensures { Takes (give (plain value.value)) result }
{
    seq_turns::gives(State::Over, value)
}

/// Ends with nil.
pub(crate) fn gives_nil() -> Next<State>
    ensures { Takes (give M.nil) result }
{
    seq_turns::gives_nil(State::Over)
}

/// Ends with what was made, or with why it wasn't.
pub(crate) fn gives_made(what: Made) -> Next<State>
    ensures { Takes (made what give) result }
{
    seq_turns::gives_made(State::Over, what)
}

/// Ends with an error.
pub(crate) fn throws(why: Thrown) -> Next<State>
    ensures { Takes (throw why) result }
{
    seq_turns::throws(State::Over, why)
}
