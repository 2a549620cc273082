//! The arguments of a row.
use crate::functions::made;
use crate::stages::{Stage, through};
use seq_turns::{Gathered, Proper, ProperList, function_made};
use seq_values::Target;
use seq_vector::NoMemory;
use std::alloc::Global;
use turn_lines::{Arg, values_of};

/// An argument of a row.
#[derive(Clone, Copy)]
pub(crate) enum Given {
    /// The composition of these stages.
    Through(&'static [Stage]),
    /// A function that adds, and ends a reduction once the sum is above 5.
    SumToSix,
    Value(Arg),
}

fn one_value(alloc: Global, arg: Arg) -> Result<Proper, NoMemory> {
    let all = values_of(alloc, &[arg])?;
    match all.get(0)? {
        Some(value) => Ok(value),
        None => Err(NoMemory),
    }
}

fn value_given(alloc: Global, given: Given) -> Result<Proper, NoMemory> {
    match given {
        Given::Through(stages) => through(alloc, stages),
        Given::SumToSix => made(function_made(Target::User(1), ProperList::none())),
        Given::Value(arg) => one_value(alloc, arg),
    }
}

/// The values of some arguments, no more than 64.
pub(crate) fn values_given(alloc: Global, args: &[Given]) -> Result<ProperList, NoMemory> {
    let mut all = Gathered::none(alloc);
    for given in args {
        if all.len() >= 64 {
            return Err(NoMemory);
        }
        let value = value_given(alloc, *given)?;
        all = all.and(value)?;
    }
    all.listed(alloc)
}
