//! The stages of reducer values, and of a fold.
ghost use Rattle.std.specs.Prelude.{◌≡◌, ℕ, [], ◌∷◌, ◌++◌, true, drop, map, reverse, IfOk, IsTrue, Some};
ghost use Rattle.fold_rows.specs.Table.{bottom, reducer_stage as stage_in, reducer_stages};
ghost use Rattle.seq_plan.specs.WellFormed.{sight, sights};
ghost use Rattle.seq_values.specs.Model as M;
ghost use Rattle.seq_values.specs.Plain.{plain, plains};
ghost use Rattle.seq_values.specs.Sight.{a_nil};
ghost use Rattle.seq_values.specs.WellFormed.{binds_folder, binds_stage, sight_of};
ghost use Rattle.seq_values.specs.WellFormedTerms.{are_fold_stages, is_fold_stage};
ghost use Rattle.seq_values.specs.declared.words.FolderKind.TheVariants as F;
ghost use Rattle.seq_values.specs.declared.words.Target.TheVariants as T;
ghost use Rattle.xf_stages.specs.Left.{purpose_kind, stages_in};
ghost use Rattle.xf_stages.specs.Opening.{AreFresh};
ghost use Rattle.xf_stages.specs.Parts.{Begins, is_integer};
ghost use Rattle.xf_stages.specs.Reducers.{BeginAll, IsFolded, Reduces, folder_in};

use crate::opening::{function_of, integer_in, stage_of};
use crate::state::{Bound, Folded, Purpose, Stage, Stages};
use crate::ways::let_go;
use seq_turns::{Proper, ProperList};
use seq_values::{FolderKind, Target, Value, XfKind};
use seq_vector::NoMemory;
use std::alloc::Global;

/// The kind of a reducer value, and `None` for another value.
fn folder_kind(value: &Value) -> Option<FolderKind>
    ensures { result ≡ folder_in (plain value.now) }
{
    match value {
        Value::Function(function) => target_kind(function.target),
        _ => None,
    }
}

fn target_kind(target: Target) -> Option<FolderKind>
    ensures { (bound : M.Values ℕ) → result ≡ folder_in (M.function target bound) }
{
    match target {
        Target::Folder(kind) => Some(kind),
        _ => None,
    }
}

/// A stage that calls its function.
fn applying(purpose: Purpose, function: Proper) -> Stage
    ensures { Begins (M.function (T.Xf (purpose_kind purpose)) (M.values (plain function.value ∷ []))) result }
{
    Stage::Applies { purpose, function }
}

fn taking(given: Proper) -> Stage
    requires { is_integer (plain given.value) ≡ true }
    ensures { Begins (M.function (T.Folder F.Take) (M.values (plain given.value ∷ []))) result }
{
    let count = integer_in(given);
    Stage::ReducerTake { count, left: count }
}

/// The stage of a reducer value, by what its word was given before the collection.
fn reducer_stage(kind: FolderKind, given: Proper) -> Stage
    requires { IsTrue (binds_folder kind (sight_of given.value ∷ a_nil ∷ [])) }
    ensures { Begins (stage_in kind (plain given.value)) result }
{
    match kind {
        FolderKind::Map => applying(Purpose::Map, given),
        FolderKind::Filter => applying(Purpose::Filter, given),
        FolderKind::Remove => applying(Purpose::Remove, given),
        FolderKind::Mapcat => applying(Purpose::Mapcat, given),
        FolderKind::Take => taking(given),
        FolderKind::TakeWhile => applying(Purpose::TakeWhile, given),
    }
}

/// A reducer value taken apart.
#[tactic(auto, using(crate::proofs::ReduceTurns::folds_as, crate::proofs::ReduceTurns::folder_any, crate::proofs::ReduceTurns::folder_two))]
fn unfold_bound(kind: FolderKind, bound: Bound) -> Result<Folded, NoMemory>
    requires { bound.target ≡ T.Folder kind }
    ensures { IfOk result (IsFolded (M.function bound.target (M.values (plains bound.items.items)))) }
{
    let Bound { items, .. } = bound;
    let pair = items.pair()?;
    let_go(items);
    match pair {
        Some((given, collection)) => Ok(Folded::Reducer {
            stage: reducer_stage(kind, given),
            collection,
        }),
        None => unreachable!(),
    }
}

fn unfold_kind(kind: FolderKind, value: Proper) -> Result<Folded, NoMemory>
    requires { folder_in (plain value.value) ≡ Some kind }
    ensures { IfOk result (IsFolded (plain value.value)) }
{
    match function_of(value.value) {
        Some(bound) => unfold_bound(kind, bound),
        None => unreachable!(),
    }
}

/// The outermost stage of a reducer value and its collection, or the collection at the bottom.
fn unfold(value: Proper) -> Result<Folded, NoMemory>
    ensures { IfOk result (IsFolded (plain value.value)) }
{
    match folder_kind(&value.value) {
        Some(kind) => unfold_kind(kind, value),
        None => Ok(Folded::Bottom(value)),
    }
}

pub(crate) fn no_stages(alloc: Global) -> Vec<Stage>
    ensures { result.items ≡ [] }
{
    Vec::new(alloc)
}

pub(crate) fn and_stage(stages: Vec<Stage>, stage: Stage) -> Result<Vec<Stage>, NoMemory>
    ensures { IfOk result (λ ss. ss.items ≡ stages.items ++ stage ∷ []) }
{
    let mut stages = stages;
    match stages.push(stage) {
        Ok(()) => Ok(stages),
        Err(_) => Err(NoMemory),
    }
}

/// The stages from the outermost to the one nearest the collection at the bottom, and that collection.
fn unfold_all(alloc: Global, value: Proper) -> Result<(Vec<Stage>, Proper), NoMemory>
    ensures { IfOk result (λ r. Reduces (plain value.value) r.0.items (plain r.1.value)) }
{
    let mut stages = no_stages(alloc);
    let mut here = value;
    loop {
        let folded = unfold(here)?;
        match folded {
            Folded::Bottom(bottom) => return Ok((stages, bottom)),
            Folded::Reducer { stage, collection } => {
                let more = and_stage(stages, stage)?;
                stages = more;
                here = collection;
            }
        }
    }
}

/// The stages from the last on.
pub(crate) fn turned(stages: Vec<Stage>) -> Vec<Stage>
    ensures { result.items ≡ reverse stages.items }
{
    let mut stages = stages;
    stages.reverse();
    stages
}

#[tactic(auto, using(crate::proofs::ReduceTurns::no_function_folds))]
/// The stage that stands in a list at a place.
fn fold_stage(value: Proper) -> Result<Stage, NoMemory>
    requires { is_fold_stage (sight (plain value.value)) ≡ true }
    ensures { IfOk result (Begins (plain value.value)) }
{
    match function_of(value.value) {
        Some(bound) => bound_stage(bound),
        None => unreachable!(),
    }
}

fn bound_stage(bound: Bound) -> Result<Stage, NoMemory>
    requires { is_fold_stage (sight (M.function bound.target (M.values (plains bound.items.items)))) ≡ true }
    ensures { IfOk result (Begins (M.function bound.target (M.values (plains bound.items.items)))) }
{
    let Bound { target, items } = bound;
    match target {
        Target::Xf(kind) => stage_from(kind, items),
        Target::Builtin(_) => unreachable!(),
        Target::User(_) => unreachable!(),
        Target::Partial => unreachable!(),
        Target::Comp => unreachable!(),
        Target::Complement => unreachable!(),
        Target::Constantly => unreachable!(),
        Target::Completing => unreachable!(),
        Target::Monoid => unreachable!(),
        Target::Folder(_) => unreachable!(),
    }
}

fn stage_from(kind: XfKind, items: ProperList) -> Result<Stage, NoMemory>
    requires { IsTrue (binds_stage kind (map sight_of items.items)) }
    ensures { IfOk result (Begins (M.function (T.Xf kind) (M.values (plains items.items)))) }
{
    let stage = stage_of(kind, &items)?;
    let_go(items);
    Ok(stage)
}

/// The stages that stand in a list from a place on.
fn stages_from(alloc: Global, args: &ProperList, at: usize) -> Result<Vec<Stage>, NoMemory>
    requires { are_fold_stages (sights (M.values (plains (drop at args.now.items)))) ≡ true }
    ensures { IfOk result (λ ss. BeginAll (plains (drop at args.now.items)) ss.items) }
{
    let mut stages = no_stages(alloc);
    let mut here = at;
    while here < args.len() {
        let value = args.at(here)?;
        let stage = fold_stage(value)?;
        let more = and_stage(stages, stage)?;
        stages = more;
        here += 1;
    }
    Ok(stages)
}

impl Stages {
    /// The stages of a reducer value, from the one nearest the collection outwards, and the collection at the bottom. Another collection has no stages.
    /// https://clojure.org/reference/reducers
    pub fn of_reducer(alloc: Global, value: Proper) -> Result<(Stages, Proper), NoMemory>
        ensures stages { IfOk result (λ r. stages_in r.0 ≡ reducer_stages (plain value.value)) }
        ensures bottom { IfOk result (λ r. plain r.1.value ≡ bottom (plain value.value)) }
        ensures fresh { IfOk result (λ r. AreFresh r.0) }
    {
        let found = unfold_all(alloc, value)?;
        let (stages, collection) = found;
        let stages = Stages {
            stages: turned(stages),
            done: false,
        };
        Ok((stages, collection))
    }

    /// The stages of a fold, which stand in a list from a place on.
    pub fn of_fold(alloc: Global, args: &ProperList, at: usize) -> Result<Stages, NoMemory>
        requires { are_fold_stages (sights (M.values (plains (drop at args.now.items)))) ≡ true }
        ensures stages { IfOk result (λ s. stages_in s ≡ plains (drop at args.now.items)) }
        ensures fresh { IfOk result AreFresh }
    {
        let stages = stages_from(alloc, args, at)?;
        Ok(Stages {
            stages,
            done: false,
        })
    }
}
