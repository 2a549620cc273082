//! The transducers of the rows.
ghost use Rattle.std.specs.Prelude.{◌<◌, [], ◌∷◌, length, IsTrue};
ghost use Rattle.seq_values.specs.Sight.{Sight, an_int};
ghost use Rattle.seq_values.specs.WellFormed.{binds, binds_stage};

use crate::kinds::Piece;
use seq_turns::{Gathered, Grown, Proper, ProperList, function_made};
use seq_values::{Builtin, Target, XfKind};
use seq_vector::NoMemory;
use std::alloc::Global;
use value_samples::{Sample, value_made};

/// A function that binds one value of any kind.
fn of_one(alloc: Global, target: Target, only: Sample) -> Result<Proper, NoMemory>
    requires { (a : Sight) → IsTrue (binds target (a ∷ [])) }
{
    let value = only.value(alloc)?;
    let one = ProperList::one(alloc, value)?;
    Ok(value_made(function_made(target, one)))
}

/// A stage that binds a count.
fn counted(alloc: Global, kind: XfKind, count: i64) -> Result<Proper, NoMemory>
    requires { IsTrue (binds_stage kind (an_int count ∷ [])) }
{
    let number = Proper::of_int(count);
    let one = ProperList::one(alloc, number)?;
    Ok(value_made(function_made(Target::Xf(kind), one)))
}

/// `partition-all`, and nil for a size below 1.
fn grouping(alloc: Global, size: i64) -> Result<Proper, NoMemory> {
    if size < 1 {
        return Ok(Proper::nil());
    }
    counted(alloc, XfKind::PartitionAll, size)
}

/// A function of a script.
fn user(number: u32) -> Proper {
    value_made(function_made(Target::User(number), ProperList::none()))
}

/// A stage that binds a function.
fn calling(alloc: Global, piece: Piece) -> Result<Proper, NoMemory> {
    match piece {
        Piece::Map(f) => of_one(alloc, Target::Xf(XfKind::Map), f),
        Piece::Filter(f) => of_one(alloc, Target::Xf(XfKind::Filter), f),
        Piece::Remove(f) => of_one(alloc, Target::Xf(XfKind::Remove), f),
        Piece::Keep(f) => of_one(alloc, Target::Xf(XfKind::Keep), f),
        Piece::TakeWhile(f) => of_one(alloc, Target::Xf(XfKind::TakeWhile), f),
        Piece::DropWhile(f) => of_one(alloc, Target::Xf(XfKind::DropWhile), f),
        Piece::Mapcat(f) => of_one(alloc, Target::Xf(XfKind::Mapcat), f),
        Piece::Constantly(x) => of_one(alloc, Target::Constantly, x),
        Piece::Partial(f) => of_one(alloc, Target::Partial, f),
        _ => Ok(Proper::nil()),
    }
}

fn piece_made(alloc: Global, piece: Piece) -> Result<Proper, NoMemory> {
    match piece {
        Piece::Take(count) => counted(alloc, XfKind::Take, count),
        Piece::Drop(count) => counted(alloc, XfKind::Drop, count),
        Piece::PartitionAll(size) => grouping(alloc, size),
        Piece::Only(sample) => sample.value(alloc),
        Piece::User(number) => Ok(user(number)),
        other => calling(alloc, other),
    }
}

fn one_more(all: Gathered, last: Proper) -> Result<Gathered, NoMemory> {
    match all.grown(last)? {
        Grown::All(all) => Ok(all),
        Grown::TooMany => Err(NoMemory),
    }
}

/// `comp` of some functions: the function itself where it is one alone, and `identity` where there is none.
fn composed(alloc: Global, all: Gathered) -> Result<Proper, NoMemory> {
    let functions = all.listed(alloc)?;
    match functions.len() {
        0 => Sample::Word(Builtin::Identity).value(alloc),
        1 => first_of(&functions),
        _ => Ok(composition(functions)),
    }
}

fn first_of(functions: &ProperList) -> Result<Proper, NoMemory> {
    match functions.get(0)? {
        Some(function) => Ok(function),
        None => Ok(Proper::nil()),
    }
}

fn composition(functions: ProperList) -> Proper
    requires { 1 < length functions.items }
{
    value_made(function_made(Target::Comp, functions))
}

/// `comp` of some pieces.
pub(crate) fn comp_of(alloc: Global, pieces: &[Piece]) -> Result<Proper, NoMemory> {
    let mut all = Gathered::none(alloc);
    for piece in pieces {
        all = one_more(all, piece_made(alloc, *piece)?)?;
    }
    composed(alloc, all)
}

/// `comp` of some compositions.
pub(crate) fn comp_of_comps(alloc: Global, inner: &[&[Piece]]) -> Result<Proper, NoMemory> {
    let mut all = Gathered::none(alloc);
    for pieces in inner {
        all = one_more(all, comp_of(alloc, pieces)?)?;
    }
    composed(alloc, all)
}
