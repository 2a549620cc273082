//! Each word, and the futures of its folds.
use crate::driving::{full, run};
use crate::sources::{Layer, Source, collection};
use fold_rules::{begin, begin_word, is_fold_word};
use seq_turns::{Gathered, Proper, ProperList};
use seq_values::{Builtin, Op};
use seq_vector::NoMemory;
use std::alloc::Global;
use std::str;
use std::test::Fail;
use turn_lines::{Arg, Elements, Keeper, Record, values_of};

/// A word, its arguments before the collection, the collection, the reducers over it, and the lines: of the call, and of the futures that are run one after the other, each time the last that was made.
type Row = (
    Builtin,
    &'static [Arg],
    Source,
    &'static [Layer],
    &'static [&'static str],
);

const PLUS: Arg = Arg::Word(Builtin::Plus);

const VECTOR: Arg = Arg::Word(Builtin::Vector);

/// Gives an answer that ends the reduction.
const ENDS: Arg = Arg::Word(Builtin::Reduced);

const MAP: Layer = (Builtin::ReducerMap, Arg::Word(Builtin::Inc));

const FILTER: Layer = (Builtin::ReducerFilter, Arg::Word(Builtin::IsOdd));

const REMOVE: Layer = (Builtin::ReducerRemove, Arg::Word(Builtin::IsOdd));

const MAPCAT: Layer = (Builtin::ReducerMapcat, Arg::Word(Builtin::Vector));

const TAKE_TWO: Layer = (Builtin::ReducerTake, Arg::Int(2));

const TAKE_WHILE: Layer = (Builtin::ReducerTakeWhile, Arg::Word(Builtin::IsOdd));

const FOLDS: [Row; 20] = [
    (
        Builtin::Fold,
        &[PLUS],
        Source::Vector(0, 0),
        &[],
        &["1 calls, = 0"],
    ),
    (
        Builtin::Fold,
        &[PLUS],
        Source::Vector(1, 4),
        &[],
        &["4 calls, 3 steps, = 6"],
    ),
    (
        Builtin::Fold,
        &[VECTOR, PLUS],
        Source::Vector(0, 0),
        &[],
        &["1 calls, = []"],
    ),
    (
        Builtin::Fold,
        &[PLUS],
        Source::Vector(0, 512),
        &[],
        &["513 calls, 512 steps, = 130816"],
    ),
    (
        Builtin::Fold,
        &[VECTOR, PLUS],
        Source::Vector(0, 513),
        &[],
        &[
            "~fold[[256 .. 512] 512 #fn #fn]#1, 257 calls, 256 steps, ask #1, 1 calls, = [32640 ..]",
            "258 calls, 257 steps, = 98688",
        ],
    ),
    (
        Builtin::Fold,
        &[Arg::Int(3), VECTOR, PLUS],
        Source::Vector(1, 4),
        &[],
        &["4 calls, 3 steps, = 6"],
    ),
    (
        Builtin::Fold,
        &[Arg::Int(2), VECTOR, PLUS],
        Source::Vector(1, 4),
        &[],
        &[
            "~fold[[2 3] 2 #fn #fn]#1, 2 calls, 1 steps, ask #1, 1 calls, = [1 ..]",
            "3 calls, 2 steps, = 5",
        ],
    ),
    (
        Builtin::Fold,
        &[Arg::Int(1), VECTOR, PLUS],
        Source::Vector(1, 5),
        &[],
        &[
            "~fold[[3 4] 1 #fn #fn]#1, ~fold[[2] 1 #fn #fn]#2, 2 calls, 1 steps, ask #2, 1 calls, ask #1, 1 calls, = [.. ..]",
            "2 calls, 1 steps, = 2",
        ],
    ),
    (
        Builtin::Fold,
        &[Arg::Int(1), PLUS, ENDS],
        Source::Vector(5, 7),
        &[],
        &[
            "~fold[[6] 1 #fn #fn]#1, 2 calls, 1 steps, ask #1, 1 calls, = 5",
            "2 calls, 1 steps, = 6",
        ],
    ),
    (
        Builtin::Fold,
        &[Arg::Int(2), VECTOR, ENDS],
        Source::Vector(5, 10),
        &[],
        &[
            "~fold[[7 8 9] 2 #fn #fn]#1, 2 calls, 1 steps, ask #1, 1 calls, = [5 ..]",
            "~fold[[8 9] 2 #fn #fn]#2, 2 calls, 1 steps, ask #2, 1 calls, = [7 ..]",
            "2 calls, 1 steps, = 8",
        ],
    ),
    (
        Builtin::Fold,
        &[PLUS],
        Source::Vector(1, 3),
        &[MAP],
        &["5 calls, 2 steps, = 5"],
    ),
    (
        Builtin::Fold,
        &[Arg::Int(1), VECTOR, PLUS],
        Source::Vector(1, 3),
        &[FILTER, MAP],
        &[
            "~fold[[2] .. #fn]#1, 4 calls, 1 steps, ask #1, 1 calls, = [2 ..]",
            "2 calls, 1 steps, = []",
        ],
    ),
    (
        Builtin::Fold,
        &[PLUS],
        Source::Vector(1, 4),
        &[MAPCAT],
        &["7 calls, 6 steps, = 6"],
    ),
    (
        Builtin::Fold,
        &[PLUS],
        Source::Vector(5, 8),
        &[TAKE_TWO],
        &["3 calls, 3 steps, = 11"],
    ),
    (
        Builtin::Fold,
        &[Arg::Int(1), PLUS, PLUS],
        Source::Vector(5, 8),
        &[TAKE_TWO, MAP],
        &["5 calls, 3 steps, = 13"],
    ),
    (
        Builtin::Fold,
        &[PLUS],
        Source::Part(7),
        &[MAP],
        &["1 calls, seq #7, 4 calls, 2 steps, = 17"],
    ),
    (
        Builtin::Fold,
        &[PLUS],
        Source::Int(5),
        &[],
        &["1 calls, seq 5, "],
    ),
    (
        Builtin::Fold,
        &[Arg::Int(0), PLUS, PLUS],
        Source::Vector(0, 2),
        &[],
        &["! index"],
    ),
    (
        Builtin::Fold,
        &[Arg::Nil, PLUS, PLUS],
        Source::Vector(0, 2),
        &[],
        &["! type"],
    ),
    (Builtin::Fold, &[], Source::Vector(0, 2), &[], &["! arity"]),
];

const REDUCTIONS: [Row; 17] = [
    (
        Builtin::Fold,
        &[PLUS, PLUS, PLUS, PLUS],
        Source::Vector(0, 2),
        &[],
        &["! arity"],
    ),
    (
        Builtin::Reduce,
        &[PLUS],
        Source::Vector(1, 5),
        &[FILTER],
        &["7 calls, 4 steps, = 4"],
    ),
    (
        Builtin::Reduce,
        &[VECTOR],
        Source::Vector(7, 7),
        &[MAP],
        &["1 calls, = []"],
    ),
    (
        Builtin::Reduce,
        &[PLUS, Arg::Int(10)],
        Source::Vector(1, 3),
        &[MAP],
        &["4 calls, 2 steps, = 15"],
    ),
    (
        Builtin::Reduce,
        &[PLUS, Arg::Int(0)],
        Source::Vector(1, 4),
        &[FILTER, MAP],
        &["7 calls, 3 steps, = 6"],
    ),
    (
        Builtin::Reduce,
        &[PLUS, Arg::Int(0)],
        Source::Vector(1, 5),
        &[REMOVE],
        &["6 calls, 4 steps, = 6"],
    ),
    (
        Builtin::Reduce,
        &[PLUS, Arg::Int(0)],
        Source::Vector(1, 4),
        &[TAKE_WHILE],
        &["3 calls, 2 steps, = 1"],
    ),
    (
        Builtin::Reduce,
        &[PLUS, Arg::Int(0)],
        Source::Vector(5, 9),
        &[TAKE_TWO],
        &["2 calls, 3 steps, = 11"],
    ),
    (
        Builtin::Reduce,
        &[ENDS, Arg::Int(0)],
        Source::Vector(5, 9),
        &[MAP],
        &["2 calls, 1 steps, = 6"],
    ),
    (
        Builtin::Reduce,
        &[PLUS, Arg::Int(1)],
        Source::Part(7),
        &[],
        &["seq #7, 2 calls, 2 steps, = 16"],
    ),
    (
        Builtin::Reduce,
        &[],
        Source::Vector(0, 2),
        &[],
        &["! arity"],
    ),
    (
        Builtin::Reduce,
        &[PLUS, PLUS, PLUS],
        Source::Vector(0, 2),
        &[],
        &["! arity"],
    ),
    (
        Builtin::Into,
        &[Arg::Int(4)],
        Source::Vector(1, 2),
        &[MAP],
        &["2 calls, 1 steps, = [4 2]"],
    ),
    (
        Builtin::Into,
        &[Arg::Int(4)],
        Source::Vector(7, 7),
        &[TAKE_TWO],
        &["= 4"],
    ),
    (Builtin::Into, &[], Source::Vector(0, 2), &[], &["! arity"]),
    (
        Builtin::Into,
        &[PLUS, PLUS],
        Source::Vector(0, 2),
        &[],
        &["! arity"],
    ),
    (
        Builtin::Into,
        &[Arg::Nil],
        Source::Int(5),
        &[MAP],
        &["seq 5, "],
    ),
];

/// More arguments before the last.
fn with_last(alloc: Global, before: &[Arg], last: Proper) -> Result<ProperList, NoMemory> {
    let given = values_of(alloc, before)?;
    let mut all = Gathered::none(alloc);
    for at in 0..given.len() {
        if all.len() >= 64 {
            return Err(NoMemory);
        }
        all = all.and(given.at(at)?)?;
    }
    if all.len() >= 64 {
        return Err(NoMemory);
    }
    all.and(last)?.listed(alloc)
}

fn arguments(
    alloc: Global,
    before: &[Arg],
    source: Source,
    layers: &[Layer],
) -> Result<ProperList, NoMemory> {
    let last = collection(alloc, source, layers)?;
    with_last(alloc, before, last)
}

/// The call of a word.
fn word_line(
    alloc: Global,
    word: Builtin,
    args: ProperList,
    record: &mut Record,
    keeper: &mut Keeper,
) -> Result<(), Fail> {
    if !is_fold_word(word) {
        return Err(Fail::from("no word of this crate"));
    }
    run(
        alloc,
        begin_word(word, args.items),
        record,
        keeper,
        Elements::Numbers,
    )
}

/// The work of the future that is kept.
fn part_line(alloc: Global, record: &mut Record, keeper: &mut Keeper) -> Result<(), Fail> {
    match keeper.take() {
        None => Err(Fail::from("no part was made")),
        Some(part) => {
            if part.term.op != Op::Fold {
                return Err(Fail::from("no term of this crate"));
            }
            run(alloc, begin(part.term), record, keeper, Elements::Numbers)
        }
    }
}

/// The call of a row's word.
fn row_line(
    alloc: Global,
    row: &Row,
    record: &mut Record,
    keeper: &mut Keeper,
) -> Result<(), Fail> {
    let (word, before, source, layers, _) = row;
    let args = arguments(alloc, before, *source, layers).map_err(full)?;
    word_line(alloc, *word, args, record, keeper)
}

/// One of a row's lines.
fn line_at(
    alloc: Global,
    row: &Row,
    at: usize,
    record: &mut Record,
    keeper: &mut Keeper,
) -> Result<(), Fail> {
    if at == 0 {
        return row_line(alloc, row, record, keeper);
    }
    part_line(alloc, record, keeper)
}

#[test]
fn folds_in_groups(rt: HostRuntime) -> Result<(), Fail> {
    let alloc = rt.alloc();
    for row in &FOLDS {
        let mut record = Record::new(alloc);
        let mut keeper = Keeper::new((0, 0));
        for (at, line) in row.4.iter().enumerate() {
            line_at(alloc, row, at, &mut record, &mut keeper)?;
            assert_eq!(rt; str::from_utf8(record.bytes()).unwrap_or("?"), *line);
        }
    }
    Ok(())
}

#[test]
fn reduces_through_stages(rt: HostRuntime) -> Result<(), Fail> {
    let alloc = rt.alloc();
    for row in &REDUCTIONS {
        let mut record = Record::new(alloc);
        let mut keeper = Keeper::new((0, 0));
        for (at, line) in row.4.iter().enumerate() {
            line_at(alloc, row, at, &mut record, &mut keeper)?;
            assert_eq!(rt; str::from_utf8(record.bytes()).unwrap_or("?"), *line);
        }
    }
    Ok(())
}
