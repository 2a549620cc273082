//! Calls of words.
ghost use Rattle.std.specs.Prelude.{◌≡◌, IfOk};
ghost use Rattle.core_rows.specs.Table.{core_call};
ghost use Rattle.core_rules.specs.Left.{Takes};
ghost use Rattle.seq_values.specs.Plain.{plain, plains};

use crate::joining::{gathered, let_go};
use crate::state::State;
use core_fns::call_builtin;
use seq_turns::{Gathered, Next, Proper, ProperList, gives, throws};
use seq_values::{Builtin, CallStop};
use seq_vector::NoMemory;
use std::alloc::Global;

/// A rule that ends at once, as a word of its arguments does.
fn ended(alloc: Global, word: Builtin, args: &Gathered) -> Result<Next<State>, NoMemory>
    ensures { IfOk result (λ r. Takes (core_call word (plains args.now.items.items)) r) }
{
    match call_builtin(alloc, word, args.items.as_slice()) {
        Ok(value) => Ok(gives(State::Over, Proper { value })),
        Err(CallStop::Thrown(why)) => Ok(throws(State::Over, why)),
        Err(CallStop::Memory) => Err(NoMemory),
    }
}

/// The turn, and the arguments are let go.
fn without(next: Next<State>, all: Gathered, args: ProperList) -> Next<State>
    ensures { result ≡ next }
{
    let_go(all);
    let_go(args);
    next
}

/// A call of a word.
pub(crate) fn word_called(
    alloc: Global,
    word: Builtin,
    args: ProperList,
) -> Result<Next<State>, NoMemory>
    ensures { IfOk result (λ r. Takes (core_call word (plains args.items)) r) }
{
    let all = gathered(alloc, &args)?;
    let next = ended(alloc, word, &all)?;
    Ok(without(next, all, args))
}
