//! The ways to end a turn. Each is given where the rule stands after it.
ghost use Rattle.std.specs.Prelude.{◌≡◌, [], ◌∷◌, IfOk, IsTrue, map};
ghost use Rattle.seq_plan.specs.Lists.{list_of};
ghost use Rattle.seq_plan.specs.Nodes.{give_value, with_items};
ghost use Rattle.seq_plan.specs.Plan.{visit, ask, seq, call, make, give, throw, done, got, told_made};
ghost use Rattle.seq_turns.specs.Making.{made};
ghost use Rattle.seq_turns.specs.Seen.{NotNow};
ghost use Rattle.seq_turns.specs.Turning.{Takes, a_step, a_seq, a_value, a_part, nothing};
ghost use Rattle.seq_values.specs.Model as M;
ghost use Rattle.seq_values.specs.Plain.{plain, plains, plain_term};
ghost use Rattle.seq_values.specs.WellFormed.{binds, sight_of};
ghost use Rattle.seq_values.specs.WellFormedTerms.{is_well_formed_term};

use crate::made::Made;
use crate::making::{first_before, function_made, items_before, list_before, vector_made};
use crate::next::Next;
use crate::proper::{Gathered, Proper, ProperList};
use crate::rule::Rule;
use seq_base::Thrown;
use seq_values::{CellId, Kind, Target, Term, Turn, Value};
use seq_vector::NoMemory;
use std::alloc::Global;

/// One own step.
pub fn visits<S: Rule>(state: S) -> Next<S>
    requires { S.running.wait_of state ≡ a_step }
    ensures { Takes S.running (visit (S.running.left state done)) result }
{
    Next {
        state,
        turn: Turn::Visit,
    }
}

/// Asks for the `seq` of a value that isn't there at once.
pub fn seeks<S: Rule>(state: S, value: Proper) -> Next<S>
    requires waits { S.running.wait_of state ≡ a_seq }
    requires asks { NotNow (plain value.value) }
    ensures { Takes S.running (seq (plain value.value) (λ s. S.running.left state (got s))) result }
{
    Next {
        state,
        turn: Turn::Seq(value.value),
    }
}

/// Calls a function.
pub fn calls<S: Rule>(state: S, function: Proper, args: ProperList) -> Next<S>
    requires { S.running.wait_of state ≡ a_value }
    ensures { Takes S.running (call (plain function.value) (plains args.items) (λ y. S.running.left state (got y))) result }
{
    Next {
        state,
        turn: Turn::Apply {
            function: function.value,
            args: args.items,
        },
    }
}

/// Makes a part.
pub fn makes<S: Rule>(state: S, kind: Kind, term: Term) -> Next<S>
    requires waits { S.running.wait_of state ≡ a_part }
    requires well { IsTrue (is_well_formed_term term) }
    ensures { Takes S.running (make kind (plain_term term) (λ m. S.running.left state (told_made m))) result }
{
    Next {
        state,
        turn: Turn::Make { kind, term },
    }
}

/// Asks a part.
pub fn needs<S: Rule>(state: S, id: CellId) -> Next<S>
    requires { S.running.wait_of state ≡ a_value }
    ensures { Takes S.running (ask id (λ y. S.running.left state (got y))) result }
{
    Next {
        state,
        turn: Turn::Need(id),
    }
}

/// Ends with a value.
pub fn gives<S: Rule>(over: S, value: Proper) -> Next<S>
    requires { S.running.wait_of over ≡ nothing }
    ensures { Takes S.running (give (plain value.value)) result }
{
    Next {
        state: over,
        turn: Turn::Give(value.value),
    }
}

/// Ends with nil.
pub fn gives_nil<S: Rule>(over: S) -> Next<S>
    requires { S.running.wait_of over ≡ nothing }
    ensures { Takes S.running (give M.nil) result }
{
    gives(over, Proper { value: Value::Nil })
}

/// Ends with a truth value.
pub fn gives_truth<S: Rule>(over: S, holds: bool) -> Next<S>
    requires { S.running.wait_of over ≡ nothing }
    ensures { Takes S.running (give (M.bool holds)) result }
{
    gives(
        over,
        Proper {
            value: Value::Bool(holds),
        },
    )
}

/// Ends with an error.
pub fn throws<S: Rule>(over: S, why: Thrown) -> Next<S>
    requires { S.running.wait_of over ≡ nothing }
    ensures { Takes S.running (throw why) result }
{
    Next {
        state: over,
        turn: Turn::Throw(why),
    }
}

/// Ends with what was made, or with why it wasn't.
pub fn gives_made<S: Rule>(over: S, what: Made) -> Next<S>
    requires { S.running.wait_of over ≡ nothing }
    ensures { Takes S.running (made what give) result }
{
    match what {
        Made::Value(value) => gives(over, value),
        Made::Thrown(why) => throws(over, why),
    }
}

/// Ends with the element before the part, where that isn't too deep.
pub fn gives_first_before<S: Rule>(
    alloc: Global,
    over: S,
    first: Proper,
    id: CellId,
) -> Result<Next<S>, NoMemory>
    requires { S.running.wait_of over ≡ nothing }
    ensures { IfOk result (λ r. Takes S.running (give_value (M.cons (M.values (plain first.value ∷ [])) (M.cell id))) r) }
{
    let what = first_before(alloc, first, id)?;
    Ok(gives_made(over, what))
}

/// Ends with the elements as a chunk before the part, or with the part itself where there are none.
pub fn gives_items_before<S: Rule>(
    alloc: Global,
    over: S,
    items: ProperList,
    id: CellId,
) -> Result<Next<S>, NoMemory>
    requires { S.running.wait_of over ≡ nothing }
    ensures { IfOk result (λ r. Takes S.running (give_value (with_items (M.values (plains items.items)) (M.cell id))) r) }
{
    let what = items_before(alloc, items, id)?;
    Ok(gives_made(over, what))
}

/// Ends with the list of the members, as one element before the part.
pub fn gives_list_before<S: Rule>(
    alloc: Global,
    over: S,
    members: Gathered,
    id: CellId,
) -> Result<Next<S>, NoMemory>
    requires { S.running.wait_of over ≡ nothing }
    ensures { IfOk result (λ r. Takes S.running (give_value (M.cons (M.values (list_of (plains members.items.items) ∷ [])) (M.cell id))) r) }
{
    let what = list_before(alloc, members, id)?;
    Ok(gives_made(over, what))
}

/// Ends with the items as a vector.
pub fn gives_vector<S: Rule>(over: S, items: ProperList) -> Next<S>
    requires { S.running.wait_of over ≡ nothing }
    ensures { Takes S.running (give_value (M.vector (M.values (plains items.items)))) result }
{
    let what = vector_made(items);
    gives_made(over, what)
}

/// Ends with a function with the arguments that are bound to it.
pub fn gives_function<S: Rule>(over: S, target: Target, bound: ProperList) -> Next<S>
    requires waits { S.running.wait_of over ≡ nothing }
    requires binds { IsTrue (binds target (map sight_of bound.items)) }
    ensures { Takes S.running (give_value (M.function target (M.values (plains bound.items)))) result }
{
    let what = function_made(target, bound);
    gives_made(over, what)
}
