//! Whether a composition is a transducer with a stage. Compositions are taken apart without recursion, however deep they are.
ghost use Rattle.std.specs.Prelude.{◌≡◌, ℕ, ◌+◌, [], ◌∷◌, ◌++◌, true, false, Some, None, length, drop, IfOk, IsTrue, MatchOption, option_to_list};
ghost use Rattle.core_rules.specs.Opening.{IsOpening, Steps, StepsTo, finds, pending_in};
ghost use Rattle.seq_plan.specs.Stages.{has_stages};
ghost use Rattle.seq_values.specs.Model as M;
ghost use Rattle.seq_values.specs.Plain.{plain, plains};
ghost use Rattle.seq_values.specs.WellFormed.{is_well_formed, is_well_formed_function};
ghost use Rattle.seq_values.specs.declared.value.Value.TheVariants as V;
ghost use Rattle.seq_values.specs.declared.words.Target.TheVariants as T;

use crate::joining::let_go;
use crate::state::{Frame, Opening, Popped, Search};
use seq_turns::{Proper, ProperList};
use seq_values::{Builtin, FnValue, Node, Target, Value};
use seq_vector::NoMemory;
use std::alloc::Global;

/// What a word is as a transducer: `cat` is a stage, `identity` has none, and no other word is one.
fn opens_word(word: Builtin) -> Opening
    ensures { (bound : M.Values ℕ) → IsOpening (M.function (T.Builtin word) bound) result }
{
    if word == Builtin::Cat {
        return Opening::Stage;
    }
    if word == Builtin::Identity {
        return Opening::Nothing;
    }
    Opening::Refused
}

/// What a function is as a transducer.
fn opens_target(target: Target, items: ProperList) -> Opening
    ensures { IsOpening (M.function target (M.values (plains items.items))) result }
{
    match target {
        Target::Xf(_) => without(Opening::Stage, items),
        Target::Builtin(word) => without(opens_word(word), items),
        Target::Comp => Opening::Inner(items),
        Target::User(_) => without(Opening::Refused, items),
        Target::Partial => without(Opening::Refused, items),
        Target::Complement => without(Opening::Refused, items),
        Target::Constantly => without(Opening::Refused, items),
        Target::Completing => without(Opening::Refused, items),
        Target::Monoid => without(Opening::Refused, items),
        Target::Folder(_) => without(Opening::Refused, items),
    }
}

/// What was found, and what is bound is let go.
fn without(opening: Opening, items: ProperList) -> Opening
    ensures { result ≡ opening }
{
    let_go(items);
    opening
}

#[tactic(auto, using(seq_values::proofs::WellFormedLemmas::function_bound, crate::proofs::Openings::opens_function))]
fn opens_function(function: FnValue) -> Opening
    requires { IsTrue (is_well_formed_function function) }
    ensures { IsOpening (plain (V.Function function)) result }
{
    let FnValue { target, bound, .. } = function;
    opens_target(target, ProperList { items: bound })
}

/// A value that is no function is no transducer.
fn opens_other(value: Value) -> Opening
    ensures { result ≡ Opening.Refused }
{
    Opening::Refused
}

/// What a value is as a transducer.
#[tactic(auto, using(seq_values::proofs::WellFormedLemmas::function_in))]
fn opens(value: Value) -> Opening
    requires { IsTrue (is_well_formed value) }
    ensures { IsOpening (plain value) result }
{
    match value {
        Value::Function(function) => opens_function(function),
        Value::Nil => opens_other(Value::Nil),
        Value::Bool(truth) => opens_other(Value::Bool(truth)),
        Value::Int(number) => opens_other(Value::Int(number)),
        Value::Keyword(name) => opens_other(Value::Keyword(name)),
        Value::Text(text) => opens_other(Value::Text(text)),
        Value::Vector { depth, items } => opens_other(Value::Vector { depth, items }),
        Value::Node(node) => opens_node(node),
        Value::Reduced { depth, value } => opens_other(Value::Reduced { depth, value }),
        Value::Cell(id) => opens_other(Value::Cell(id)),
    }
}

/// A node is no transducer.
fn opens_node(node: Node) -> Opening
    ensures { IsOpening (plain (V.Node node)) result }
{
    match node {
        Node::Empty => opens_other(Value::Node(Node::Empty)),
        Node::Cons { depth, heads, rest } => {
            opens_other(Value::Node(Node::Cons { depth, heads, rest }))
        }
        Node::Chunk { depth, items, rest } => {
            opens_other(Value::Node(Node::Chunk { depth, items, rest }))
        }
        Node::Range { from, at, end } => opens_other(Value::Node(Node::Range { from, at, end })),
        Node::VecSeq { depth, items, at } => {
            opens_other(Value::Node(Node::VecSeq { depth, items, at }))
        }
    }
}

/// One more composition to be looked through, which comes first.
fn with_frame(search: Search, frame: Frame) -> Result<Search, NoMemory>
    ensures frames { IfOk result (λ s. s.frames.items ≡ search.frames.items ++ frame ∷ []) }
    ensures found { IfOk result (λ s. s.found ≡ search.found) }
{
    let Search { mut frames, found } = search;
    match frames.push(frame) {
        Ok(()) => Ok(Search { frames, found }),
        Err(_) => Err(NoMemory),
    }
}

/// The innermost composition is taken, where there is one.
fn without_frame(search: Search) -> Popped
    ensures frames { search.frames.items ≡ result.search.frames.items ++ option_to_list result.frame }
    ensures found { result.search.found ≡ search.found }
    ensures none { MatchOption result.frame (result.search.frames.items ≡ []) (λ f. Unit {0}) }
{
    let Search { mut frames, found } = search;
    let frame = frames.pop();
    Popped {
        search: Search { frames, found },
        frame,
    }
}

/// A stage was found.
fn with_stage(search: Search) -> Search
    ensures frames { result.frames ≡ search.frames }
    ensures found { result.found ≡ true }
{
    Search {
        frames: search.frames,
        found: true,
    }
}

/// The value is no transducer.
fn stops(search: Search) -> Option<Search>
    ensures { result ≡ None }
{
    let_go(search);
    None
}

/// A value is looked at, before what is still to be looked at.
fn look_at(search: Search, value: Proper) -> Result<Option<Search>, NoMemory>
    ensures { IfOk result (StepsTo (length search.frames.items) search.found (plain value.value ∷ pending_in search)) }
{
    match opens(value.value) {
        Opening::Stage => Ok(Some(with_stage(search))),
        Opening::Inner(items) => {
            let more = with_frame(search, Frame { items, at: 0 })?;
            Ok(Some(more))
        }
        Opening::Nothing => Ok(Some(search)),
        Opening::Refused => Ok(stops(search)),
    }
}

/// A value is looked at, before the others of its composition.
fn look_behind(search: Search, frame: Frame, value: Proper) -> Result<Option<Search>, NoMemory>
    ensures { IfOk result (StepsTo (length search.frames.items + 1) search.found (plain value.value ∷ plains (drop frame.at frame.items.items) ++ pending_in search)) }
{
    let more = with_frame(search, frame)?;
    let next = look_at(more, value)?;
    Ok(next)
}

/// Nothing is left of a composition.
fn past(search: Search, items: ProperList) -> Option<Search>
    ensures { result ≡ Some search }
{
    let_go(items);
    Some(search)
}

/// The next value of the innermost composition is looked at.
fn look_next(search: Search, frame: Frame) -> Result<Option<Search>, NoMemory>
    ensures { IfOk result (StepsTo (length search.frames.items + 1) search.found (plains (drop frame.at frame.items.items) ++ pending_in search)) }
{
    let Frame { items, at } = frame;
    let next = items.get(at)?;
    match next {
        None => Ok(past(search, items)),
        Some(value) => look_behind(search, Frame { items, at: at + 1 }, value),
    }
}

/// Whether all that is to be looked at are transducers, and one of them has a stage.
fn look_through(search: Search) -> Result<bool, NoMemory>
    ensures { IfOk result (λ holds. holds ≡ finds search.found (pending_in search)) }
{
    let mut here = search;
    loop {
        let Popped {
            search: rest,
            frame,
        } = without_frame(here);
        match frame {
            None => return Ok(rest.found),
            Some(frame) => {
                let next = look_next(rest, frame)?;
                match next {
                    None => return Ok(false),
                    Some(more) => here = more,
                }
            }
        }
    }
}

/// The functions of a composition are to be looked at.
fn search_of(alloc: Global, functions: &ProperList) -> Result<Search, NoMemory>
    ensures pending { IfOk result (λ s. pending_in s ≡ plains functions.now.items) }
    ensures found { IfOk result (λ s. s.found ≡ false) }
{
    let items = functions.share()?;
    let none = Search {
        frames: Vec::new(alloc),
        found: false,
    };
    let search = with_frame(none, Frame { items, at: 0 })?;
    Ok(search)
}

/// Whether the composition of these functions is a transducer with a stage.
/// https://clojure.org/reference/transducers
pub(crate) fn has_stages(alloc: Global, functions: &ProperList) -> Result<bool, NoMemory>
    ensures { IfOk result (λ holds. holds ≡ has_stages (M.function T.Comp (M.values (plains functions.now.items)))) }
{
    let search = search_of(alloc, functions)?;
    let holds = look_through(search)?;
    Ok(holds)
}
