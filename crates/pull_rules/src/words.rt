//! The words that run the stages of a transducer: how a call begins.
ghost use Rattle.std.specs.Prelude.{◌≡◌, length, IfOk, IsTrue};
ghost use Rattle.pull_rules.specs.Left.{Takes};
ghost use Rattle.pull_rules.specs.Words.{is_stage_word};
ghost use Rattle.seq_base.specs.declared.thrown.Thrown.TheVariants.{Arity};
ghost use Rattle.seq_plan.specs.Plan.{throw};
ghost use Rattle.seq_values.specs.Plain.{plains};
ghost use Rattle.seq_values.specs.declared.words.Builtin.TheVariants as B;
ghost use Rattle.stage_rows.specs.Table.{stage_call};

use crate::arguments::{Four, Three, four_of, three_of};
use crate::pulling::sequenced;
use crate::state::{Call, State};
use crate::transducing::{first_called, transduce};
use crate::ways::throws;
use seq_base::Thrown;
use seq_turns::{Next, Proper, ProperList};
use seq_values::{Builtin, word_value};
use seq_vector::NoMemory;
use std::alloc::Global;

/// Whether a word runs the stages of a transducer. `into` does so where it has three arguments.
pub fn is_stage_word(word: Builtin) -> bool
    ensures { result ≡ is_stage_word word }
{
    match word {
        Builtin::Transduce => true,
        Builtin::Into => true,
        Builtin::Sequence => true,
        _ => false,
    }
}

/// A call of a word begins.
pub(crate) fn call_begins(alloc: Global, call: Call) -> Result<Next<State>, NoMemory>
    ensures { IfOk result (λ r. Takes (stage_call call.word (plains call.args)) r) }
{
    let Call { word, args } = call;
    let args = ProperList { items: args };
    let next = word_begins(alloc, word, &args)?;
    Ok(without(next, args))
}

/// The same, and the arguments are let go.
fn without(next: Next<State>, args: ProperList) -> Next<State>
    ensures { result ≡ next }
{
    next
}

fn word_begins(alloc: Global, word: Builtin, args: &ProperList) -> Result<Next<State>, NoMemory>
    requires { IsTrue (is_stage_word word) }
    ensures { IfOk result (λ r. Takes (stage_call word (plains args.now.items)) r) }
{
    match word {
        Builtin::Transduce => transduce_call(alloc, args),
        Builtin::Into => into_call(alloc, args),
        Builtin::Sequence => sequence_call(alloc, args),
        _ => unreachable!(),
    }
}

/// `transduce`
#[tactic(auto, using(crate::proofs::WordTurns::transduce_arity))]
fn transduce_call(alloc: Global, args: &ProperList) -> Result<Next<State>, NoMemory>
    ensures { IfOk result (λ r. Takes (stage_call B.Transduce (plains args.now.items)) r) }
{
    match args.len() {
        3 => transduce_without(alloc, args),
        4 => transduce_with(alloc, args),
        _ => Ok(throws(Thrown::Arity)),
    }
}

/// `transduce` without a first answer, for which the function is called.
#[tactic(auto, using(crate::proofs::WordTurns::transduce_three))]
fn transduce_without(alloc: Global, args: &ProperList) -> Result<Next<State>, NoMemory>
    requires { length args.now.items ≡ 3 }
    ensures { IfOk result (λ r. Takes (stage_call B.Transduce (plains args.now.items)) r) }
{
    let all = three_of(args)?;
    let Three {
        first: xf,
        second: function,
        third: source,
    } = all;
    let next = first_called(alloc, xf, function, source)?;
    Ok(next)
}

/// `transduce` with a first answer.
#[tactic(auto, using(crate::proofs::WordTurns::transduce_four))]
fn transduce_with(alloc: Global, args: &ProperList) -> Result<Next<State>, NoMemory>
    requires { length args.now.items ≡ 4 }
    ensures { IfOk result (λ r. Takes (stage_call B.Transduce (plains args.now.items)) r) }
{
    let all = four_of(args)?;
    let Four {
        first: xf,
        second: function,
        third: answer,
        fourth: source,
    } = all;
    let next = transduce(alloc, xf, function, answer, source)?;
    Ok(next)
}

/// `into` with a transducer, which is `transduce` by `conj`.
#[tactic(auto, using(crate::proofs::WordTurns::into_three, crate::proofs::WordTurns::into_arity))]
fn into_call(alloc: Global, args: &ProperList) -> Result<Next<State>, NoMemory>
    ensures { IfOk result (λ r. Takes (stage_call B.Into (plains args.now.items)) r) }
{
    if args.len() != 3 {
        return Ok(throws(Thrown::Arity));
    }
    let all = three_of(args)?;
    let Three {
        first: answer,
        second: xf,
        third: source,
    } = all;
    let conj = Proper {
        value: word_value(Builtin::Conj),
    };
    let next = transduce(alloc, xf, conj, answer, source)?;
    Ok(next)
}

/// `sequence` with a transducer.
#[tactic(auto, using(crate::proofs::WordTurns::sequence_two, crate::proofs::WordTurns::sequence_arity))]
fn sequence_call(alloc: Global, args: &ProperList) -> Result<Next<State>, NoMemory>
    ensures { IfOk result (λ r. Takes (stage_call B.Sequence (plains args.now.items)) r) }
{
    match args.pair()? {
        None => Ok(throws(Thrown::Arity)),
        Some(both) => {
            let next = sequenced(alloc, both.0, both.1)?;
            Ok(next)
        }
    }
}
