//! The stages of a transducer. Compositions are taken apart without recursion, however deep they are.
ghost use Rattle.std.specs.Prelude.{◌≡◌, ℕ, ◌+◌, [], ◌∷◌, ◌++◌, true, false, length, drop, map, IfOk, IsTrue, MatchOption, Some, None, option_to_list};
ghost use Rattle.seq_base.specs.declared.thrown.Thrown.TheVariants.{Overflow};
ghost use Rattle.seq_plan.specs.Stages.{with_stages};
ghost use Rattle.seq_plan.specs.WellFormed.{sight};
ghost use Rattle.seq_values.specs.Model as M;
ghost use Rattle.seq_values.specs.Plain.{plain, plains};
ghost use Rattle.seq_values.specs.Sight.{an_int};
ghost use Rattle.seq_values.specs.WellFormed.{binds_stage, is_count, is_one, is_size, is_well_formed, is_well_formed_function, sight_of};
ghost use Rattle.seq_values.specs.declared.value.Value.TheVariants as V;
ghost use Rattle.seq_values.specs.declared.words.Target.TheVariants as T;
ghost use Rattle.seq_values.specs.declared.words.XfKind.TheVariants as X;
ghost use Rattle.xf_stages.specs.Left.{purpose_kind};
ghost use Rattle.xf_stages.specs.Opening.{AreFresh, IfStages, LimitedTo, Opens, seen_kept, kept_in};
ghost use Rattle.xf_stages.specs.Parts.{Begins, IsOpening, IsTaken, OpensAll, StepsTo, each_transducer, is_integer, pending_in};

use crate::reacting::no_group;
use crate::state::{Bound, Frame, Opened, Opening, Popped, Purpose, Stage, Stages, Work};
use crate::ways::let_go;
use seq_base::Thrown;
use seq_turns::{Proper, ProperList, number_of};
use seq_values::{Builtin, FnValue, Node, Target, Value, XfKind};
use seq_vector::NoMemory;
use std::alloc::Global;

/// A function with what is bound to it.
#[tactic(auto, using(seq_values::proofs::WellFormedLemmas::function_bound, seq_values::proofs::WellFormedLemmas::function_binds))]
fn bound_of(function: FnValue) -> Bound
    requires { IsTrue (is_well_formed_function function) }
    ensures { plain (V.Function function) ≡ M.function result.target (M.values (plains result.items.items)) }
{
    let FnValue { target, bound, .. } = function;
    Bound {
        target,
        items: ProperList { items: bound },
    }
}

/// The function that a value is, and `None` for a value that is none.
#[tactic(auto, using(seq_values::proofs::WellFormedLemmas::function_in))]
pub(crate) fn function_of(value: Value) -> Option<Bound>
    requires { IsTrue (is_well_formed value) }
    ensures { IsTaken (plain value) result }
{
    match value {
        Value::Nil => None,
        Value::Bool(_) => None,
        Value::Int(_) => None,
        Value::Keyword(_) => None,
        Value::Text(_) => None,
        Value::Vector { .. } => None,
        Value::Function(function) => Some(bound_of(function)),
        Value::Node(node) => no_function(node),
        Value::Reduced { .. } => None,
        Value::Cell(_) => None,
    }
}

/// A node is no function.
fn no_function(node: Node) -> Option<Bound>
    ensures { IsTaken (plain (V.Node node)) result }
{
    match node {
        Node::Empty => None,
        Node::Cons { .. } => None,
        Node::Chunk { .. } => None,
        Node::Range { .. } => None,
        Node::VecSeq { .. } => None,
    }
}

/// The only value that is bound.
pub(crate) fn bound_one(items: &ProperList) -> Result<Proper, NoMemory>
    requires { is_one (map sight_of items.now.items) ≡ true }
    ensures { IfOk result (λ v. items.now.items ≡ v.value ∷ []) }
{
    match items.only()? {
        Some(value) => Ok(value),
        None => unreachable!(),
    }
}

/// The integer that a value is.
pub(crate) fn integer_in(value: Proper) -> i64
    requires { is_integer (plain value.value) ≡ true }
    ensures stands { plain value.value ≡ M.int result }
    ensures sight { sight_of value.value ≡ an_int result }
{
    match number_of(&value.value) {
        Some(number) => number,
        None => unreachable!(),
    }
}

/// The only integer that is bound.
fn bound_count(items: &ProperList) -> Result<i64, NoMemory>
    requires { is_count (map sight_of items.now.items) ≡ true }
    ensures stands { IfOk result (λ n. plains items.now.items ≡ M.int n ∷ []) }
    ensures sight { IfOk result (λ n. map sight_of items.now.items ≡ an_int n ∷ []) }
{
    let value = bound_one(items)?;
    Ok(integer_in(value))
}

/// A stage that calls its function.
fn applies(purpose: Purpose, items: &ProperList) -> Result<Stage, NoMemory>
    requires { is_one (map sight_of items.now.items) ≡ true }
    ensures { IfOk result (Begins (M.function (T.Xf (purpose_kind purpose)) (M.values (plains items.now.items)))) }
{
    let function = bound_one(items)?;
    Ok(Stage::Applies { purpose, function })
}

fn takes(items: &ProperList) -> Result<Stage, NoMemory>
    requires { is_count (map sight_of items.now.items) ≡ true }
    ensures { IfOk result (Begins (M.function (T.Xf X.Take) (M.values (plains items.now.items)))) }
{
    let count = bound_count(items)?;
    Ok(Stage::Take { count, left: count })
}

fn drops(items: &ProperList) -> Result<Stage, NoMemory>
    requires { is_count (map sight_of items.now.items) ≡ true }
    ensures { IfOk result (Begins (M.function (T.Xf X.Drop) (M.values (plains items.now.items)))) }
{
    let count = bound_count(items)?;
    Ok(Stage::Drop { count, left: count })
}

fn drops_while(items: &ProperList) -> Result<Stage, NoMemory>
    requires { is_one (map sight_of items.now.items) ≡ true }
    ensures { IfOk result (Begins (M.function (T.Xf X.DropWhile) (M.values (plains items.now.items)))) }
{
    let test = bound_one(items)?;
    Ok(Stage::DropWhile {
        test,
        dropping: true,
    })
}

#[tactic(auto, using(crate::proofs::OpenTurns::size_some))]
fn groups(items: &ProperList) -> Result<Stage, NoMemory>
    requires { is_size (map sight_of items.now.items) ≡ true }
    ensures { IfOk result (Begins (M.function (T.Xf X.PartitionAll) (M.values (plains items.now.items)))) }
{
    let size = bound_count(items)?;
    Ok(Stage::PartitionAll(no_group(size)))
}

#[tactic(auto, using(crate::proofs::OpenTurns::cat_begins))]
/// The stage of a transducer's function, with the state with which it begins.
pub(crate) fn stage_of(kind: XfKind, items: &ProperList) -> Result<Stage, NoMemory>
    requires { IsTrue (binds_stage kind (map sight_of items.now.items)) }
    ensures { IfOk result (Begins (M.function (T.Xf kind) (M.values (plains items.now.items)))) }
{
    match kind {
        XfKind::Map => applies(Purpose::Map, items),
        XfKind::Filter => applies(Purpose::Filter, items),
        XfKind::Remove => applies(Purpose::Remove, items),
        XfKind::Keep => applies(Purpose::Keep, items),
        XfKind::Take => takes(items),
        XfKind::TakeWhile => applies(Purpose::TakeWhile, items),
        XfKind::Drop => drops(items),
        XfKind::DropWhile => drops_while(items),
        XfKind::Mapcat => applies(Purpose::Mapcat, items),
        XfKind::Cat => Ok(Stage::Cat),
        XfKind::PartitionAll => groups(items),
    }
}

/// `cat` and `identity` are transducers; no other word is one.
fn opens_word(word: Builtin) -> Opening
    ensures { (bound : M.Values ℕ) → IsOpening (M.function (T.Builtin word) bound) result }
{
    if word == Builtin::Cat {
        return Opening::Stage(Stage::Cat);
    }
    if word == Builtin::Identity {
        return Opening::Nothing;
    }
    Opening::Refused
}

/// What a function is as a transducer.
fn opens_function(bound: Bound) -> Result<Opening, NoMemory>
    ensures { IfOk result (IsOpening (M.function bound.target (M.values (plains bound.items.items)))) }
{
    let Bound { target, items } = bound;
    match target {
        Target::Xf(kind) => opens_stage(kind, items),
        Target::Builtin(word) => Ok(opens_alone(word, items)),
        Target::Comp => Ok(Opening::Inner(items)),
        Target::User(_) => Ok(refuses(items)),
        Target::Partial => Ok(refuses(items)),
        Target::Complement => Ok(refuses(items)),
        Target::Constantly => Ok(refuses(items)),
        Target::Completing => Ok(refuses(items)),
        Target::Monoid => Ok(refuses(items)),
        Target::Folder(_) => Ok(refuses(items)),
    }
}

fn opens_stage(kind: XfKind, items: ProperList) -> Result<Opening, NoMemory>
    requires { IsTrue (binds_stage kind (map sight_of items.items)) }
    ensures { IfOk result (IsOpening (M.function (T.Xf kind) (M.values (plains items.items)))) }
{
    let stage = stage_of(kind, &items)?;
    let_go(items);
    Ok(Opening::Stage(stage))
}

fn opens_alone(word: Builtin, items: ProperList) -> Opening
    ensures { IsOpening (M.function (T.Builtin word) (M.values (plains items.items))) result }
{
    let_go(items);
    opens_word(word)
}

fn refuses(items: ProperList) -> Opening
    ensures { result ≡ Opening.Refused }
{
    let_go(items);
    Opening::Refused
}

/// What a value is as a transducer.
fn opens(value: Proper) -> Result<Opening, NoMemory>
    ensures { IfOk result (IsOpening (plain value.value)) }
{
    match function_of(value.value) {
        Some(bound) => opens_function(bound),
        None => Ok(Opening::Refused),
    }
}

/// One more stage at the end.
fn with_stage(work: Work, stage: Stage) -> Result<Work, NoMemory>
    ensures frames { IfOk result (λ w. w.frames.items ≡ work.frames.items) }
    ensures stages { IfOk result (λ w. w.stages.items ≡ work.stages.items ++ stage ∷ []) }
{
    let Work { frames, mut stages } = work;
    match stages.push(stage) {
        Ok(()) => Ok(Work { frames, stages }),
        Err(_) => Err(NoMemory),
    }
}

/// One more composition to be opened, which comes first.
fn with_frame(work: Work, frame: Frame) -> Result<Work, NoMemory>
    ensures frames { IfOk result (λ w. w.frames.items ≡ work.frames.items ++ frame ∷ []) }
    ensures stages { IfOk result (λ w. w.stages.items ≡ work.stages.items) }
{
    let Work { mut frames, stages } = work;
    match frames.push(frame) {
        Ok(()) => Ok(Work { frames, stages }),
        Err(_) => Err(NoMemory),
    }
}

/// The innermost composition is taken, where there is one.
fn without_frame(work: Work) -> Popped
    ensures frames { work.frames.items ≡ result.work.frames.items ++ option_to_list result.frame }
    ensures stages { result.work.stages.items ≡ work.stages.items }
    ensures none { MatchOption result.frame (result.work.frames.items ≡ []) (λ f. Unit {0}) }
{
    let Work { mut frames, stages } = work;
    let frame = frames.pop();
    Popped {
        work: Work { frames, stages },
        frame,
    }
}

/// Nothing is left of a composition.
fn past(work: Work, items: ProperList) -> Option<Work>
    ensures { result ≡ Some work }
{
    let_go(items);
    Some(work)
}

/// The value is no transducer.
fn stops(work: Work) -> Option<Work>
    ensures { result ≡ None }
{
    let_go(work);
    None
}

/// A value is opened, before what is still to be opened.
fn open_value(work: Work, value: Proper) -> Result<Option<Work>, NoMemory>
    ensures { IfOk result (StepsTo (length work.frames.items) work (plain value.value ∷ pending_in work)) }
{
    let opening = opens(value)?;
    match opening {
        Opening::Stage(stage) => {
            let more = with_stage(work, stage)?;
            Ok(Some(more))
        }
        Opening::Inner(items) => {
            let more = with_frame(work, Frame { items, at: 0 })?;
            Ok(Some(more))
        }
        Opening::Nothing => Ok(Some(work)),
        Opening::Refused => Ok(stops(work)),
    }
}

/// The next value of the innermost composition is opened.
fn open_next(work: Work, frame: Frame) -> Result<Option<Work>, NoMemory>
    ensures { IfOk result (StepsTo (length work.frames.items + 1) work (plains (drop frame.at frame.items.items) ++ pending_in work)) }
{
    let Frame { items, at } = frame;
    let next = items.get(at)?;
    match next {
        None => Ok(past(work, items)),
        Some(value) => open_behind(work, Frame { items, at: at + 1 }, value),
    }
}

/// A value is opened, before the others of its composition.
fn open_behind(work: Work, frame: Frame, value: Proper) -> Result<Option<Work>, NoMemory>
    ensures { IfOk result (StepsTo (length work.frames.items + 1) work (plain value.value ∷ plains (drop frame.at frame.items.items) ++ pending_in work)) }
{
    let more = with_frame(work, frame)?;
    let opened = open_value(more, value)?;
    Ok(opened)
}

/// All compositions are opened.
fn open_all(work: Work) -> Result<Option<Vec<Stage>>, NoMemory>
    ensures { IfOk result (λ r. MatchOption r (each_transducer (pending_in work) ≡ false) (λ ss. OpensAll work ss.items)) }
{
    let mut here = work;
    loop {
        let Popped { work: rest, frame } = without_frame(here);
        match frame {
            None => return Ok(Some(rest.stages)),
            Some(frame) => {
                let next = open_next(rest, frame)?;
                match next {
                    None => return Ok(None),
                    Some(more) => here = more,
                }
            }
        }
    }
}

/// A transducer is to be opened.
fn work_of(alloc: Global, xf: &Proper) -> Result<Work, NoMemory>
    ensures pending { IfOk result (λ w. pending_in w ≡ plain xf.now.value ∷ []) }
    ensures stages { IfOk result (λ w. w.stages.items ≡ []) }
{
    let value = xf.share()?;
    let items = ProperList::one(alloc, value)?;
    let none = Work {
        frames: Vec::new(alloc),
        stages: Vec::new(alloc),
    };
    let work = with_frame(none, Frame { items, at: 0 })?;
    Ok(work)
}

/// The stages, unless they are more than a list may have.
fn limited(stages: Vec<Stage>) -> Opened
    ensures { LimitedTo stages.items result }
{
    if stages.len() > 4294967295 {
        return too_many(stages);
    }
    Opened::Stages(Stages {
        stages,
        done: false,
    })
}

fn too_many(stages: Vec<Stage>) -> Opened
    ensures { result ≡ Opened.Thrown Overflow }
{
    let_go(stages);
    Opened::Thrown(Thrown::Overflow)
}

impl Stages {
    /// The stages of a transducer, or why there are none: a value that is no transducer, or more stages than a list may have.
    /// https://clojure.org/reference/transducers
    pub fn of(alloc: Global, xf: &Proper) -> Result<Opened, NoMemory>
        ensures opens { IfOk result (λ o. Opens (with_stages (plain xf.now.value)) o) }
        ensures fresh { IfOk result (λ o. IfStages o AreFresh) }
        ensures kept { IfOk result (λ o. IfStages o (λ s. seen_kept (sight (plain xf.now.value)) ≡ Some (kept_in s))) }
    {
        let work = work_of(alloc, xf)?;
        let found = open_all(work)?;
        match found {
            None => Ok(Opened::Thrown(Thrown::BadType)),
            Some(stages) => Ok(limited(stages)),
        }
    }
}
