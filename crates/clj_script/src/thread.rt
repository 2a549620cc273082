//! Threading written out.
ghost use Rattle.std.specs.Prelude.{◌≡◌, ◌<◌, length, map, vec_len, IfOk, OnOk};
ghost use Rattle.clj_script.specs.Arena.{AllBelow};
ghost use Rattle.clj_script.specs.Entries.{IsLower, IsAdded, form_at};
ghost use Rattle.clj_script.specs.Refusals.{earliest};
ghost use Rattle.clj_script.specs.Threading as spec;

use crate::refusal::Least;
use crate::source::{Content, Entry, add, list, place_at, symbol};
use std::alloc::{AllocError, Global};

/// Where a threading word puts what stands so far.
#[derive(Clone, Copy, Debug, PartialEq, Eq)]
pub(crate) enum Way {
    Second,
    Last,
}

/// The form that a first form and its steps stand for: what stands so far is put into each step in turn.
pub(crate) fn written_out(
    alloc: Global,
    sources: &mut Vec<Entry>,
    least: &mut Least,
    way: Way,
    first: usize,
    steps: &[usize],
) -> Result<usize, AllocError>
    requires lower { IsLower sources.old.items }
    requires first_below { first < length sources.old.items }
    requires steps_below { AllBelow (length sources.old.items) steps.now }
    ensures added { IfOk result (λ n. IsAdded sources.old.items sources.new.items n (spec.written_out way (form_at sources.old.items first) (map (form_at sources.old.items) steps.now))) }
    ensures refused { OnOk result (least.new.found ≡ earliest least.old.found (spec.refusals_of_steps (map (form_at sources.old.items) steps.now))) }
{
    let mut standing = first;
    for step in steps {
        standing = put(alloc, sources, least, way, standing, *step)?;
    }
    Ok(standing)
}

/// Puts what stands so far into a step. A step that takes nothing is refused, and what stands so far goes on.
#[tactic(auto, using(crate::proofs::ThreadLemmas::put_nowhere, crate::proofs::ThreadLemmas::put_somewhere, crate::proofs::ThreadLemmas::below_with, crate::proofs::ThreadLemmas::refused_nowhere, crate::proofs::ThreadLemmas::refused_somewhere))]
fn put(
    alloc: Global,
    sources: &mut Vec<Entry>,
    least: &mut Least,
    way: Way,
    standing: usize,
    step: usize,
) -> Result<usize, AllocError>
    requires lower { IsLower sources.old.items }
    requires standing_below { standing < length sources.old.items }
    requires step_below { step < length sources.old.items }
    ensures added { IfOk result (λ n. IsAdded sources.old.items sources.new.items n (spec.put way (form_at sources.old.items standing) (form_at sources.old.items step))) }
    ensures refused { OnOk result (least.new.found ≡ earliest least.old.found (spec.step_refusals (form_at sources.old.items step))) }
{
    let place = place_at(sources.as_slice(), step);
    let items = step_items(alloc, sources.as_slice(), step)?;
    if items.is_empty() {
        least.refuse(10, place);
        return Ok(standing);
    }
    let items = with_item(items, way, standing)?;
    let content = Content::List(items);
    add(sources, Entry { place, content })
}

/// The forms of the list for which a step stands, and none where it takes nothing.
#[tactic(auto, using(crate::proofs::ThreadLemmas::items_of_symbol, crate::proofs::ThreadLemmas::items_of_list, crate::proofs::ThreadLemmas::items_of_other))]
fn step_items(alloc: Global, sources: &[Entry], step: usize) -> Result<Vec<usize>, AllocError>
    requires lower { IsLower sources.now }
    requires below { step < length sources.now }
    ensures items { IfOk result (λ ns. map (form_at sources.now) ns.items ≡ spec.step_items (form_at sources.now step)) }
    ensures below { IfOk result (λ ns. AllBelow (length sources.now) ns.items) }
{
    if symbol(sources, step).is_some() {
        let mut items = Vec::new(alloc);
        items.push(step)?;
        return Ok(items);
    }
    match list(sources, step) {
        Some(items) => Vec::from_slice(alloc, items),
        None => Ok(Vec::new(alloc)),
    }
}

/// The items with one more, second or last.
fn with_item(mut items: Vec<usize>, way: Way, item: usize) -> Result<Vec<usize>, AllocError>
    requires { 0 < vec_len items }
    ensures { IfOk result (λ ns. ns.items ≡ spec.with_item way item items.items) }
{
    match way {
        Way::Second => items.insert(1, item)?,
        Way::Last => items.push(item)?,
    }
    Ok(items)
}
