//! One input, reduced by hand.
use crate::driving::full;
use pull_rules::{Reduction, ReductionTurn};
use seq_turns::{Proper, number_of};
use seq_values::{Builtin, Turn, Value, word_value};
use seq_vector::{NoMemory, PVec};
use std::alloc::Global;
use std::test::Fail;
use xf_stages::{Opened, Stages};

fn let_go<T: Drop>(_value: T) {}

/// The number at a place.
fn number_at(args: &PVec<Value>, at: usize) -> Option<i64> {
    match args.get(at) {
        Some(value) => number_of(value),
        None => None,
    }
}

/// The two numbers with which a function is called, where that is asked.
fn called_with(turn: &ReductionTurn) -> (Option<i64>, Option<i64>) {
    match turn {
        ReductionTurn::Asks(next) => match &next.turn {
            Turn::Apply { args, .. } => (number_at(args, 0), number_at(args, 1)),
            _ => (None, None),
        },
        _ => (None, None),
    }
}

/// What `+` is called with, where 1 enters these stages and 10 is the answer so far.
fn entered(alloc: Global, stages: Stages) -> Result<(Option<i64>, Option<i64>), NoMemory> {
    let plus = Proper {
        value: word_value(Builtin::Plus),
    };
    let turn = Reduction::of_input(alloc, stages, plus, Proper::of_int(10), Proper::of_int(1))?;
    let numbers = called_with(&turn);
    let_go(turn);
    Ok(numbers)
}

/// The same of the stages of `identity`, which are none.
fn entered_none(alloc: Global) -> Result<(Option<i64>, Option<i64>), NoMemory> {
    let identity = Proper {
        value: word_value(Builtin::Identity),
    };
    match Stages::of(alloc, &identity)? {
        Opened::Thrown(_) => Ok((None, None)),
        Opened::Stages(stages) => entered(alloc, stages),
    }
}

#[test]
fn reduces_one_input(rt: HostRuntime) -> Result<(), Fail> {
    let (answer, item) = entered_none(rt.alloc()).map_err(full)?;
    assert_eq!(rt; answer, Some(10));
    assert_eq!(rt; item, Some(1));
    Ok(())
}
