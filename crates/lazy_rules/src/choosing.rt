//! What `map`, `filter` and `keep` keep.
ghost use Rattle.std.specs.Prelude.{◌≡◌, ℕ, ◌<◌, ◌≤◌, ◌+◌, [], ◌∷◌, ◌++◌, if◌then◌else◌, length, drop, IfOk};
ghost use Rattle.lazy_rules.specs.Arguments.{chosen, listed};
ghost use Rattle.lazy_rules.specs.Left.{kept_of, kept_in, sift_op};
ghost use Rattle.seq_plan.specs.Cursors.{stands};
ghost use Rattle.seq_plan.specs.Nodes.{first_of};
ghost use Rattle.seq_values.specs.Model as M;
ghost use Rattle.seq_values.specs.Plain.{plain, plains};

use crate::arguments::is_nil;
use crate::state::Keeps;
use crate::ways::let_go;
use seq_plan::Cursor;
use seq_turns::{Gathered, Proper, ProperList, first_of_cursor, is_truthy};
use seq_values::{Op, Value};
use seq_vector::NoMemory;

/// What is kept of an element and of the function's answer.
#[derive(Clone, Copy)]
pub(crate) enum Chosen {
    Answer,
    Element,
    Neither,
}

impl Keeps {
    /// The operation that keeps so.
    pub(crate) fn op(self) -> Op
        ensures { result ≡ sift_op self }
    {
        match self {
            Keeps::Answers => Op::Map,
            Keeps::Elements => Op::Filter,
            Keeps::SomeAnswers => Op::Keep,
        }
    }

    #[tactic(auto, using(crate::proofs::SiftTurns::elements_chosen, crate::proofs::SiftTurns::answers_chosen))]
    /// What is kept where the function gave this.
    fn choose(self, answer: &Proper) -> Chosen
        ensures { (x : M.Value ℕ) → kept_of self x (plain answer.now.value) ≡ chosen result x (plain answer.now.value) }
    {
        match self {
            Keeps::Answers => Chosen::Answer,
            Keeps::Elements => element_if(is_truthy(&answer.value)),
            Keeps::SomeAnswers => answer_unless(is_nil(answer)),
        }
    }
}

fn element_if(holds: bool) -> Chosen
    ensures { result ≡ (if holds then Chosen.Element else Chosen.Neither) }
{
    if holds {
        Chosen::Element
    } else {
        Chosen::Neither
    }
}

fn answer_unless(holds: bool) -> Chosen
    ensures { result ≡ (if holds then Chosen.Neither else Chosen.Answer) }
{
    if holds {
        Chosen::Neither
    } else {
        Chosen::Answer
    }
}

/// What is kept of the first element of a node.
pub(crate) fn first_kept(
    keeps: Keeps,
    place: &Cursor,
    answer: Proper,
) -> Result<Option<Proper>, NoMemory>
    ensures { IfOk result (λ kept. listed kept ≡ kept_of keeps (first_of (stands place.now)) (plain answer.value)) }
{
    match keeps.choose(&answer) {
        Chosen::Answer => Ok(Some(answer)),
        Chosen::Element => first_for(place, answer),
        Chosen::Neither => {
            let_go(answer);
            Ok(None)
        }
    }
}

/// The first element in place of an answer.
fn first_for(place: &Cursor, answer: Proper) -> Result<Option<Proper>, NoMemory>
    ensures { IfOk result (λ kept. listed kept ≡ first_of (stands place.now) ∷ []) }
{
    let_go(answer);
    let first = first_of_cursor(place)?;
    Ok(Some(first))
}

#[tactic(auto, using(crate::proofs::SiftTurns::kept_answer, crate::proofs::SiftTurns::kept_element, crate::proofs::SiftTurns::kept_neither))]
/// What was kept, and what is kept of the element at a place of a chunk.
pub(crate) fn more_kept(
    keeps: Keeps,
    kept: Gathered,
    items: &ProperList,
    at: usize,
    answer: Proper,
) -> Result<Gathered, NoMemory>
    requires within { (length kept.items.items ≤ at) × (at < length items.now.items) }
    ensures stands { IfOk result (λ all. plains all.items.items ≡ plains kept.items.items ++ kept_in keeps (plains (drop at items.now.items)) (plain answer.value)) }
    ensures few { IfOk result (λ all. length all.items.items ≤ at + 1) }
{
    let _many = items.items.len();
    match keeps.choose(&answer) {
        Chosen::Answer => {
            let all = kept.and(answer)?;
            Ok(all)
        }
        Chosen::Element => {
            let all = and_element(kept, items, at, answer)?;
            Ok(all)
        }
        Chosen::Neither => {
            let_go(answer);
            Ok(kept)
        }
    }
}

/// The element at a place in place of an answer.
fn and_element(
    kept: Gathered,
    items: &ProperList,
    at: usize,
    answer: Proper,
) -> Result<Gathered, NoMemory>
    requires within { (length kept.items.items ≤ at) × (at < length items.now.items) }
    ensures stands { IfOk result (λ all. (x : Value) → drop at items.now.items ≡ x ∷ drop (at + 1) items.now.items → plains all.items.items ≡ plains kept.items.items ++ plain x ∷ []) }
    ensures few { IfOk result (λ all. length all.items.items ≤ at + 1) }
{
    let _many = items.items.len();
    let_go(answer);
    let element = items.at(at)?;
    let all = kept.and(element)?;
    Ok(all)
}
