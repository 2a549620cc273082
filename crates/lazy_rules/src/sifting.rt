//! The elements of a chunk, for `map`, `filter` and `keep`.
ghost use Rattle.std.specs.Prelude.{◌≡◌, ◌<◌, ◌≤◌, ◌+◌, [], ◌∷◌, length, drop, IfOk};
ghost use Rattle.lazy_rules.specs.Left.{left_value, sift_left, sift_op, Takes};
ghost use Rattle.lazy_rules.specs.declared.state.AtValue.TheVariants as V;
ghost use Rattle.seq_plan.specs.Lists.{items_and};
ghost use Rattle.seq_values.specs.Plain.{plain, plains};

use crate::choosing::more_kept;
use crate::made_terms::pair_term;
use crate::state::{AtPart, AtValue, Sieve, Sifting, State};
use crate::ways::{calls, let_go, makes};
use seq_turns::{Gathered, Next, Proper, ProperList};
use seq_vector::NoMemory;
use std::alloc::Global;

/// The function is called with the element at a place of a chunk, or the part for what comes after the chunk is made.
pub(crate) fn sift_chunk(
    alloc: Global,
    sieve: Sieve,
    kept: Gathered,
    items: ProperList,
    at: usize,
) -> Result<Next<State>, NoMemory>
    requires { (length kept.items.items ≤ at) × (at ≤ length items.items) }
    ensures { IfOk result (λ r. Takes (sift_left sieve.keeps (plain sieve.function.value) (plains kept.items.items) (plains (drop at items.items)) (plain sieve.rest.value)) r) }
{
    let element = items.get(at)?;
    match element {
        None => {
            let_go(items);
            chunk_done(alloc, sieve, kept)
        }
        Some(element) => call_item(alloc, sieve, kept, items, at, element),
    }
}

#[tactic(auto, using(crate::proofs::SiftTurns::items_make, crate::proofs::MadeTerms::sift_takes))]
/// The part for what comes after the chunk is made.
fn chunk_done(alloc: Global, sieve: Sieve, kept: Gathered) -> Result<Next<State>, NoMemory>
    ensures { IfOk result (λ r. Takes (items_and (plains kept.items.items) (sift_op sieve.keeps) (plain sieve.function.value ∷ plain sieve.rest.value ∷ [])) r) }
{
    let Sieve {
        keeps,
        function,
        rest,
    } = sieve;
    let term = pair_term(alloc, keeps.op(), function, rest)?;
    let items = kept.listed(alloc)?;
    Ok(makes(AtPart::Items(items), term))
}

#[tactic(auto, using(crate::proofs::SiftTurns::item_calls))]
fn call_item(
    alloc: Global,
    sieve: Sieve,
    kept: Gathered,
    items: ProperList,
    at: usize,
    element: Proper,
) -> Result<Next<State>, NoMemory>
    requires within { (length kept.items.items ≤ at) × (at ≤ length items.items) }
    requires element { drop at items.items ≡ element.value ∷ drop (at + 1) items.items }
    ensures { IfOk result (λ r. Takes (sift_left sieve.keeps (plain sieve.function.value) (plains kept.items.items) (plains (drop at items.items)) (plain sieve.rest.value)) r) }
{
    let args = ProperList::one(alloc, element)?;
    let called = sieve.function.share()?;
    Ok(calls(
        AtValue::Chunk(Sifting {
            sieve,
            kept,
            items,
            at,
        }),
        called,
        args,
    ))
}

/// The function answered for an element of a chunk.
pub(crate) fn chunk_answer(
    alloc: Global,
    sifting: Sifting,
    answer: Proper,
) -> Result<Next<State>, NoMemory>
    ensures { IfOk result (λ r. Takes (left_value (V.Chunk sifting) (plain answer.value)) r) }
{
    let Sifting {
        sieve,
        kept,
        items,
        at,
    } = sifting;
    let kept = more_kept(sieve.keeps, kept, &items, at, answer)?;
    sift_chunk(alloc, sieve, kept, items, at + 1)
}
