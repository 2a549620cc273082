//! `map` over several collections.
ghost use Rattle.std.specs.Prelude.{◌≡◌, ◌<◌, ◌≤◌, ◌+◌, [], ◌∷◌, ◌++◌, true, length, map, drop, IfOk};
ghost use Rattle.lazy_rules.specs.Left.{left_seq, map_all_on, seens, Takes};
ghost use Rattle.lazy_rules.specs.Arguments.{is_any_nil};
ghost use Rattle.seq_plan.specs.Plan.{call};
ghost use Rattle.seq_plan.specs.Lists.{first_and};
ghost use Rattle.lazy_rules.specs.declared.state.AtSeq.TheVariants as Q;
ghost use Rattle.lazy_rows.specs.Terms.{seq_each};
ghost use Rattle.seq_plan.specs.Nodes.{first_of, rest_of, is_nil};
ghost use Rattle.seq_turns.specs.Seen.{seen};
ghost use Rattle.seq_values.specs.Model as M;
ghost use Rattle.seq_values.specs.Plain.{plain, plains};
ghost use Rattle.seq_values.specs.WellFormed.{sight_of};
ghost use Rattle.seq_values.specs.WellFormedTerms.{takes};
ghost use Rattle.seq_values.specs.declared.words.Op.TheVariants as O;

use crate::made_terms::term_of;
use crate::state::{AtSeq, AtValue, Gathering, State};
use crate::ways::{calls, gives_nil, let_go, seeks};
use seq_turns::{
    Gathered, Next, Proper, ProperList, Seen, Sought, first_of_cursor, rest_value, seek,
    step_cursor,
};
use seq_values::Op;
use seq_vector::NoMemory;
use std::alloc::Global;

/// One more seq.
fn and_seen(seqs: Vec<Seen>, what: Seen) -> Result<Vec<Seen>, NoMemory>
    ensures { IfOk result (λ all. all.items ≡ seqs.items ++ what ∷ []) }
{
    let mut seqs = seqs;
    match seqs.push(what) {
        Ok(()) => Ok(seqs),
        Err(_) => Err(NoMemory),
    }
}

/// The collections from a place on are asked for their seqs; those before were.
#[cycle(gathering)]
pub(crate) fn gather(
    alloc: Global,
    function: Proper,
    seqs: Vec<Seen>,
    args: ProperList,
    at: usize,
) -> Result<Next<State>, NoMemory>
    requires within { (length seqs.items + 1 ≡ at) × (at ≤ length args.items) }
    requires fit { takes O.MapN (map sight_of args.items) ≡ true }
    ensures { IfOk result (λ r. Takes (seq_each (seens seqs.items) (plains (drop at args.items)) (map_all_on (plain function.value))) r) }
{
    let value = args.get(at)?;
    match value {
        None => all_there(alloc, function, seqs, args),
        Some(value) => match seek(value) {
            Sought::Now(what) => gathered(
                alloc,
                Gathering {
                    function,
                    seqs,
                    args,
                    at: at + 1,
                },
                what,
            ),
            Sought::Ask(value) => Ok(seeks(
                AtSeq::MapAll(Gathering {
                    function,
                    seqs,
                    args,
                    at: at + 1,
                }),
                value,
            )),
        },
    }
}

/// The seq of one of the collections is there.
#[cycle(gathering)]
pub(crate) fn gathered(
    alloc: Global,
    gathering: Gathering,
    what: Seen,
) -> Result<Next<State>, NoMemory>
    ensures { IfOk result (λ r. Takes (left_seq (Q.MapAll gathering) (seen what)) r) }
{
    let Gathering {
        function,
        seqs,
        args,
        at,
    } = gathering;
    let seqs = and_seen(seqs, what)?;
    gather(alloc, function, seqs, args, at)
}

/// All seqs are there.
#[tactic(auto, using(crate::proofs::MapAllTurns::few_seqs))]
fn all_there(
    alloc: Global,
    function: Proper,
    seqs: Vec<Seen>,
    args: ProperList,
) -> Result<Next<State>, NoMemory>
    requires many { length seqs.items + 1 ≡ length args.items }
    requires fit { takes O.MapN (map sight_of args.items) ≡ true }
    ensures { IfOk result (λ r. Takes (map_all_on (plain function.value) (seens seqs.items)) r) }
{
    let_go(args);
    calls_all(alloc, function, seqs)
}

/// The function is called with the first elements, unless one of the seqs is nil.
fn calls_all(alloc: Global, function: Proper, seqs: Vec<Seen>) -> Result<Next<State>, NoMemory>
    requires { (2 ≤ length seqs.items) × (length seqs.items ≤ 4) }
    ensures { IfOk result (λ r. Takes (map_all_on (plain function.value) (seens seqs.items)) r) }
{
    if is_any_nil(seqs.as_slice()) {
        let_go(function);
        let_go(seqs);
        return Ok(gives_nil());
    }
    let firsts = firsts_of(alloc, seqs.as_slice())?;
    call_all(alloc, function, firsts, seqs)
}

#[tactic(auto, using(crate::proofs::MapAllTurns::all_called, crate::proofs::MadeTerms::takes_several))]
fn call_all(
    alloc: Global,
    function: Proper,
    firsts: ProperList,
    seqs: Vec<Seen>,
) -> Result<Next<State>, NoMemory>
    requires { (2 ≤ length seqs.items) × (length seqs.items ≤ 4) }
    ensures { IfOk result (λ r. Takes (call (plain function.value) (plains firsts.items) (λ y. first_and y O.MapN (plain function.value ∷ map rest_of (seens seqs.items)))) r) }
{
    let called = function.share()?;
    let rests = rests_of(alloc, function, seqs)?;
    let term = term_of(Op::MapN, rests);
    Ok(calls(AtValue::MapAll(term), called, firsts))
}

/// Whether one of the seqs is nil.
fn is_any_nil(seqs: &[Seen]) -> bool
    ensures { result ≡ is_any_nil (seens seqs.now) }
{
    for what in seqs {
        if is_seen_nil(what) {
            return true;
        }
    }
    false
}

fn is_seen_nil(what: &Seen) -> bool
    ensures { result ≡ is_nil (seen what.now) }
{
    match what {
        Seen::Nil => true,
        Seen::At(_) => false,
    }
}

/// The first element, or nil where there is none.
fn first_seen(what: &Seen) -> Result<Proper, NoMemory>
    ensures { IfOk result (λ v. plain v.value ≡ first_of (seen what.now)) }
{
    match what {
        Seen::Nil => Ok(Proper::nil()),
        Seen::At(place) => first_of_cursor(place),
    }
}

/// The first elements.
fn firsts_of(alloc: Global, seqs: &[Seen]) -> Result<ProperList, NoMemory>
    requires { length seqs.now ≤ 4 }
    ensures { IfOk result (λ firsts. plains firsts.items ≡ map first_of (seens seqs.now)) }
{
    let mut firsts = Gathered::with_room(alloc, seqs.len())?;
    for what in seqs {
        let first = first_seen(what)?;
        firsts = firsts.and(first)?;
    }
    firsts.listed(alloc)
}

/// What comes after the first element, and `()` where there is none.
fn rest_seen(alloc: Global, what: Seen) -> Result<Proper, NoMemory>
    ensures { IfOk result (λ v. plain v.value ≡ rest_of (seen what)) }
{
    match what {
        Seen::Nil => Ok(Proper::empty()),
        Seen::At(place) => {
            let rest = step_cursor(place)?;
            rest_value(alloc, rest)
        }
    }
}

#[tactic(auto, using(crate::proofs::MapAllTurns::turned_rests))]
/// The function, and what comes after each first element.
fn rests_of(alloc: Global, function: Proper, seqs: Vec<Seen>) -> Result<ProperList, NoMemory>
    requires { length seqs.items ≤ 4 }
    ensures { IfOk result (λ rests. plains rests.items ≡ plain function.value ∷ map rest_of (seens seqs.items)) }
{
    let mut seqs = seqs;
    let mut rests = Gathered::with_room(alloc, seqs.len() + 1)?;
    while let Some(what) = seqs.pop() {
        let rest = rest_seen(alloc, what)?;
        rests = rests.and(rest)?;
    }
    let all = rests.and(function)?;
    let turned = all.turned();
    let items = turned.listed(alloc)?;
    Ok(items)
}
