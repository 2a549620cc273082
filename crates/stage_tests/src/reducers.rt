//! The stages of reducer values and of folds, through which the elements of a collection go. What is expected is what https://clojure.org/reference/reducers says.
use crate::driving::walked;
use crate::states::shown_states;
use reducer_values::{Foldable, foldable_of, is_reducer_word, reducer_call};
use seq_turns::{Proper, ProperList};
use seq_values::{Builtin, Line};
use seq_vector::NoMemory;
use std::alloc::Global;
use std::str;
use std::test::Fail;
use value_samples::{Sample, value_made};
use xf_stages::Stages;

/// A word of the reducers, and what it is given before the collection.
type Layer = (Builtin, Sample);

/// Layers from the innermost outwards, the collection under them, and what its elements do.
type Row = (&'static [Layer], Sample, &'static str);

const INC: Sample = Sample::Word(Builtin::Inc);

const ODD: Sample = Sample::Word(Builtin::IsOdd);

const SELF: Sample = Sample::Word(Builtin::Identity);

const VECTOR: Sample = Sample::Word(Builtin::Vector);

fn full(_why: NoMemory) -> Fail {
    Fail::from("no memory")
}

/// A reducer value over another collection.
fn layer(alloc: Global, word: Builtin, given: Sample, inner: Proper) -> Result<Proper, NoMemory> {
    if !is_reducer_word(word) {
        return Ok(inner);
    }
    let args = ProperList::two(alloc, given.value(alloc)?, inner)?;
    Ok(value_made(reducer_call(word, args)))
}

fn layers(alloc: Global, words: &[Layer], bottom: Sample) -> Result<Proper, NoMemory> {
    let mut whole = bottom.value(alloc)?;
    for (word, given) in words {
        whole = layer(alloc, *word, *given, whole)?;
    }
    Ok(whole)
}

/// Writes the states at the end.
fn ended(alloc: Global, after: Option<Stages>, line: &mut Line) -> Result<(), NoMemory> {
    match after {
        Some(stages) => {
            let _states = shown_states(alloc, stages, line)?;
            Ok(())
        }
        None => Ok(()),
    }
}

/// The elements of a collection go through stages.
fn through(
    alloc: Global,
    stages: Stages,
    collection: Proper,
    line: &mut Line,
) -> Result<(), NoMemory> {
    let after = walked(alloc, stages, collection, line)?;
    ended(alloc, after, line)
}

fn reduced(alloc: Global, words: &[Layer], bottom: Sample) -> Result<Line, NoMemory> {
    let mut line = Line::new(alloc);
    let whole = layers(alloc, words, bottom)?;
    let (stages, collection) = Stages::of_reducer(alloc, whole)?;
    through(alloc, stages, collection, &mut line)?;
    Ok(line)
}

/// What the first row did that doesn't do what it says, and nothing where all do.
fn differing(alloc: Global, rows: &[Row]) -> Result<Line, NoMemory> {
    for (words, bottom, expected) in rows {
        let mut line = reduced(alloc, words, *bottom)?;
        if line.bytes() != expected.as_bytes() {
            line.append(b"differs")?;
            return Ok(line);
        }
    }
    Ok(Line::new(alloc))
}

const REDUCERS: [Row; 22] = [
    (&[], Sample::Vector(2), ". >1 . >2 ; keeps; "),
    (&[], Sample::Part(1), "?#1 . >1 ; keeps; "),
    (&[], INC, "?#fn !type"),
    (
        &[(Builtin::ReducerMap, INC)],
        Sample::Vector(2),
        ". inc(1) >2 . inc(2) >3 ; keeps; ",
    ),
    (
        &[(Builtin::ReducerMap, INC)],
        Sample::Part(1),
        "?#1 . inc(1) >2 ; keeps; ",
    ),
    (&[(Builtin::ReducerMap, INC)], Sample::Nil, "; keeps; "),
    (&[(Builtin::ReducerMap, INC)], Sample::Int(5), "?5 !type"),
    (
        &[(Builtin::ReducerMap, INC)],
        Sample::Range(5, 9),
        ". inc(5) >6 . inc(6) >7! done; keeps; ",
    ),
    (
        &[(Builtin::ReducerFilter, ODD)],
        Sample::List(3),
        ". odd?(1) >1 . odd?(2) . odd?(3) >3 ; keeps; ",
    ),
    (
        &[(Builtin::ReducerRemove, ODD)],
        Sample::Vector(2),
        ". odd?(1) . odd?(2) >2 ; keeps; ",
    ),
    (
        &[(Builtin::ReducerMapcat, VECTOR)],
        Sample::Vector(2),
        ". vector(1) . >1 . vector(2) . >2 ; keeps; ",
    ),
    (
        &[(Builtin::ReducerMapcat, SELF)],
        Sample::Nested(2),
        ". identity([1 2]) . >1 . >2 ; keeps; ",
    ),
    (
        &[(Builtin::ReducerTake, Sample::Int(2))],
        Sample::Vector(4),
        ". >1 . >2 . done; keeps 0; ",
    ),
    (
        &[(Builtin::ReducerTake, Sample::Int(9))],
        Sample::Vector(2),
        ". >1 . >2 ; keeps 7; ",
    ),
    (
        &[(Builtin::ReducerTake, Sample::Int(0))],
        Sample::Vector(2),
        ". done; keeps 0; ",
    ),
    (
        &[(Builtin::ReducerTake, Sample::Int(-1))],
        Sample::Vector(2),
        ". done; keeps -1; ",
    ),
    (
        &[(Builtin::ReducerTakeWhile, ODD)],
        Sample::Vector(3),
        ". odd?(1) >1 . odd?(2) done; keeps; ",
    ),
    (
        &[(Builtin::ReducerFilter, ODD), (Builtin::ReducerMap, INC)],
        Sample::Vector(3),
        ". odd?(1) inc(1) >2 . odd?(2) . odd?(3) inc(3) >4 ; keeps; ",
    ),
    (
        &[
            (Builtin::ReducerTake, Sample::Int(1)),
            (Builtin::ReducerMap, INC),
        ],
        Sample::Vector(3),
        ". inc(1) >2 . done; keeps 0; ",
    ),
    (
        &[
            (Builtin::ReducerMap, INC),
            (Builtin::ReducerTake, Sample::Int(1)),
        ],
        Sample::Vector(3),
        ". inc(1) >2 . inc(2) done; keeps 0; ",
    ),
    (
        &[
            (Builtin::ReducerTake, Sample::Int(3)),
            (Builtin::ReducerMapcat, VECTOR),
            (Builtin::ReducerTake, Sample::Int(1)),
        ],
        Sample::Vector(3),
        ". vector(1) . >1 . vector(2) . done; keeps 1 0; ",
    ),
    (
        &[
            (Builtin::ReducerRemove, ODD),
            (Builtin::ReducerTakeWhile, ODD),
            (Builtin::ReducerMap, INC),
        ],
        Sample::Vector(3),
        ". odd?(1) . odd?(2) odd?(2) done; keeps; ",
    ),
];

#[test]
fn reducers_reduce(rt: HostRuntime) -> Result<(), Fail> {
    let line = differing(rt.alloc(), &REDUCERS).map_err(full)?;
    assert_eq!(rt; str::from_utf8(line.bytes()).unwrap_or("no text"), "");
    Ok(())
}

/// The items of a fold go through its stages from a place on.
fn fold_walked(
    alloc: Global,
    foldable: Foldable,
    at: usize,
    line: &mut Line,
) -> Result<(), NoMemory> {
    let Foldable { items, stages } = foldable;
    let stages = Stages::of_fold(alloc, &stages, at)?;
    through(alloc, stages, items.vector(), line)
}

fn folded(alloc: Global, words: &[Layer], count: u32, at: usize) -> Result<Line, NoMemory> {
    let mut line = Line::new(alloc);
    let whole = layers(alloc, words, Sample::Vector(count))?;
    if let Some(foldable) = foldable_of(alloc, &whole)? {
        fold_walked(alloc, foldable, at, &mut line)?;
    }
    Ok(line)
}

/// Layers, how many items a vector under them has, from which stage on they are taken, and what the items do.
type FoldRow = (&'static [Layer], u32, usize, &'static str);

fn fold_differing(alloc: Global, rows: &[FoldRow]) -> Result<Line, NoMemory> {
    for (words, count, at, expected) in rows {
        let mut line = folded(alloc, words, *count, *at)?;
        if line.bytes() != expected.as_bytes() {
            line.append(b"differs")?;
            return Ok(line);
        }
    }
    Ok(Line::new(alloc))
}

const FILTER_AND_MAP: &[Layer] = &[(Builtin::ReducerFilter, ODD), (Builtin::ReducerMap, INC)];

const FOLDS: [FoldRow; 7] = [
    (&[], 2, 0, ". >1 . >2 ; keeps; "),
    (
        &[(Builtin::ReducerMap, INC)],
        2,
        0,
        ". inc(1) >2 . inc(2) >3 ; keeps; ",
    ),
    (
        &[
            (Builtin::ReducerRemove, ODD),
            (Builtin::ReducerMapcat, VECTOR),
        ],
        2,
        0,
        ". odd?(1) . odd?(2) vector(2) . >2 ; keeps; ",
    ),
    (
        FILTER_AND_MAP,
        2,
        0,
        ". odd?(1) inc(1) >2 . odd?(2) ; keeps; ",
    ),
    (FILTER_AND_MAP, 2, 1, ". inc(1) >2 . inc(2) >3 ; keeps; "),
    (FILTER_AND_MAP, 2, 2, ". >1 . >2 ; keeps; "),
    (FILTER_AND_MAP, 0, 0, "; keeps; "),
];

#[test]
fn folds_reduce(rt: HostRuntime) -> Result<(), Fail> {
    let line = fold_differing(rt.alloc(), &FOLDS).map_err(full)?;
    assert_eq!(rt; str::from_utf8(line.bytes()).unwrap_or("no text"), "");
    Ok(())
}
