//! The transducers of the rows.
ghost use Rattle.std.specs.Prelude.{◌≡◌, true, ℤ, [], ◌∷◌};
ghost use Rattle.seq_values.specs.Sight.{Sight, an_int};
ghost use Rattle.seq_values.specs.WellFormed.{binds_stage};

use crate::functions::made;
use seq_turns::{Gathered, Proper, ProperList, function_made};
use seq_values::{Builtin, Target, XfKind, word_value};
use seq_vector::NoMemory;
use std::alloc::Global;

/// A stage of a transducer, with the word or the number that it is given.
#[derive(Clone, Copy)]
pub(crate) enum Stage {
    Map(Builtin),
    Filter(Builtin),
    Remove(Builtin),
    Keep(Builtin),
    TakeWhile(Builtin),
    DropWhile(Builtin),
    Mapcat(Builtin),
    Take(i64),
    Drop(i64),
    PartitionAll(i64),
    Cat,
}

#[tactic(auto, using(crate::proofs::Binding::function_binds))]
fn with_function(alloc: Global, kind: XfKind, word: Builtin) -> Result<Proper, NoMemory>
    requires { (a : Sight) → binds_stage kind (a ∷ []) ≡ true }
{
    let function = Proper {
        value: word_value(word),
    };
    let bound = ProperList::one(alloc, function)?;
    made(function_made(Target::Xf(kind), bound))
}

#[tactic(auto, using(crate::proofs::Binding::count_binds))]
fn with_count(alloc: Global, kind: XfKind, count: i64) -> Result<Proper, NoMemory>
    requires { binds_stage kind (an_int count ∷ []) ≡ true }
{
    let bound = ProperList::one(alloc, Proper::of_int(count))?;
    made(function_made(Target::Xf(kind), bound))
}

/// `partition-all` of so many.
fn groups(alloc: Global, size: i64) -> Result<Proper, NoMemory> {
    if size < 1 {
        return Err(NoMemory);
    }
    with_count(alloc, XfKind::PartitionAll, size)
}

fn stage_of(alloc: Global, stage: Stage) -> Result<Proper, NoMemory> {
    match stage {
        Stage::Map(word) => with_function(alloc, XfKind::Map, word),
        Stage::Filter(word) => with_function(alloc, XfKind::Filter, word),
        Stage::Remove(word) => with_function(alloc, XfKind::Remove, word),
        Stage::Keep(word) => with_function(alloc, XfKind::Keep, word),
        Stage::TakeWhile(word) => with_function(alloc, XfKind::TakeWhile, word),
        Stage::DropWhile(word) => with_function(alloc, XfKind::DropWhile, word),
        Stage::Mapcat(word) => with_function(alloc, XfKind::Mapcat, word),
        Stage::Take(count) => with_count(alloc, XfKind::Take, count),
        Stage::Drop(count) => with_count(alloc, XfKind::Drop, count),
        Stage::PartitionAll(size) => groups(alloc, size),
        Stage::Cat => Ok(Proper {
            value: word_value(Builtin::Cat),
        }),
    }
}

#[tactic(auto, using(crate::proofs::Binding::comp_binds))]
/// The composition of stages; `identity` where there are none.
fn composed(stages: ProperList) -> Result<Proper, NoMemory> {
    if stages.len() == 0 {
        return Ok(Proper {
            value: word_value(Builtin::Identity),
        });
    }
    made(function_made(Target::Comp, stages))
}

/// The transducer of no more than 64 stages.
pub(crate) fn through(alloc: Global, stages: &[Stage]) -> Result<Proper, NoMemory> {
    let mut all = Gathered::none(alloc);
    for stage in stages {
        if all.len() >= 64 {
            return Err(NoMemory);
        }
        let stage = stage_of(alloc, *stage)?;
        all = all.and(stage)?;
    }
    let stages = all.listed(alloc)?;
    composed(stages)
}
