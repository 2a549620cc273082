//! `pmap` and `seque`, and each part that they make.
use crate::driving::{full, run};
use ahead_rules::{begin, begin_word};
use seq_values::Builtin;
use std::alloc::Global;
use std::str;
use std::test::Fail;
use turn_lines::{Arg, Elements, Keeper, Record, values_of};

/// How many elements a chunk of a range or of a vector's seq has.
const CHUNK: u32 = 32;

const PROCESSORS: u32 = 2;

/// A word, its arguments, what the elements of parts are, the numbers of parts that are run once they are made, and the lines: of the call, and of the parts that are run one after the other, each time one of those or the last that was made.
type Row = (
    Builtin,
    &'static [Arg],
    Elements,
    (u32, u32),
    &'static [&'static str],
);

const ROWS: [Row; 27] = [
    (
        Builtin::Pmap,
        &[Arg::Word(Builtin::Inc), Arg::Range(0, 40)],
        Elements::Parts,
        (0, 0),
        &[
            "rets[#fn 0..40]#1, drop[4 #1]#2, seq #1, step[#10 {#11} #1 #2]#3, = #3",
            "seq #2, ask #10, step[#11 nil {#11} {#21}]#4, = ([10 11] #4)",
            "ask #11, step[nil nil nil ()]#5, = ([11 12] #5)",
            "derefs[nil]#6, = #6",
            "= nil",
        ],
    ),
    (
        Builtin::Pmap,
        &[Arg::Word(Builtin::Inc), Arg::Range(0, 3)],
        Elements::OddParts,
        (0, 0),
        &[
            "rets[#fn 0..3]#1, drop[4 #1]#2, seq #1, step[#10 {#11} #1 #2]#3, = #3",
            "seq #2, derefs[#1]#4, = #4",
            "seq #1, ask #10, ask #11, derefs[()]#5, = <[10 11] [11 12] #5>",
            "= nil",
        ],
    ),
    (
        Builtin::Pmap,
        &[Arg::Word(Builtin::Inc), Arg::Range(0, 3)],
        Elements::OddSingles,
        (0, 0),
        &[
            "rets[#fn 0..3]#1, drop[4 #1]#2, seq #1, seq #11, step[#10 (#110) #1 #2]#3, = #3",
            "seq #2, derefs[#1]#4, = #4",
            "seq #1, ask #10, derefs[#11]#5, = ([10 11] #5)",
            "seq #11, ask #110, derefs[#111]#6, = ([110 111] #6)",
        ],
    ),
    (
        Builtin::Pmap,
        &[Arg::Word(Builtin::Inc), Arg::Range(0, 3)],
        Elements::Numbers,
        (0, 0),
        &[
            "rets[#fn 0..3]#1, drop[4 #1]#2, seq #1, step[1 {2} #1 #2]#3, = #3",
            "seq #2, ! type",
        ],
    ),
    (
        Builtin::Pmap,
        &[Arg::Word(Builtin::Inc), Arg::Range(0, 40)],
        Elements::Parts,
        (1, 0),
        &[
            "rets[#fn 0..40]#1, drop[4 #1]#2, seq #1, step[#10 {#11} #1 #2]#3, = #3",
            "32 futures, rets[#fn 32..40]#36, = <#4 .. #35 #36>",
            "8 futures, rets[#fn ()]#45, = <#37 .. #44 #45>",
            "= nil",
        ],
    ),
    (
        Builtin::Pmap,
        &[Arg::Word(Builtin::Inc), Arg::List(5, 7)],
        Elements::Parts,
        (1, 0),
        &[
            "rets[#fn (5 6)]#1, drop[4 #1]#2, seq #1, step[#10 {#11} #1 #2]#3, = #3",
            "1 futures, rets[#fn (6)]#5, = (#4 #5)",
            "1 futures, rets[#fn ()]#7, = (#6 #7)",
            "= nil",
        ],
    ),
    (
        Builtin::Pmap,
        &[Arg::Word(Builtin::Inc), Arg::Int(5)],
        Elements::Parts,
        (1, 0),
        &[
            "rets[#fn 5]#1, drop[4 #1]#2, seq #1, step[#10 {#11} #1 #2]#3, = #3",
            "seq 5, ",
        ],
    ),
    (
        Builtin::Pmap,
        &[Arg::Word(Builtin::Inc), Arg::Range(0, 40)],
        Elements::Parts,
        (2, 0),
        &[
            "rets[#fn 0..40]#1, drop[4 #1]#2, seq #1, step[#10 {#11} #1 #2]#3, = #3",
            "! type",
        ],
    ),
    (
        Builtin::Pmap,
        &[Arg::Word(Builtin::Inc), Arg::List(5, 7)],
        Elements::Parts,
        (1, 4),
        &[
            "rets[#fn (5 6)]#1, drop[4 #1]#2, seq #1, step[#10 {#11} #1 #2]#3, = #3",
            "1 futures, rets[#fn (6)]#5, = (#4 #5)",
            "1 calls, = 6",
        ],
    ),
    (Builtin::Pmap, &[], Elements::Parts, (0, 0), &["! arity"]),
    (
        Builtin::Pmap,
        &[Arg::Word(Builtin::Inc)],
        Elements::Parts,
        (0, 0),
        &["! arity"],
    ),
    (
        Builtin::Pmap,
        &[Arg::Nil, Arg::Nil, Arg::Nil],
        Elements::Parts,
        (0, 0),
        &["! arity"],
    ),
    (
        Builtin::Seque,
        &[Arg::Int(2), Arg::Range(0, 40)],
        Elements::Numbers,
        (0, 0),
        &[
            "~ahead[2 0..40]#1, near[0..40 #1]#2, = #2",
            "~ahead-of[#1]#3, near[1..40 #3]#4, = (0 #4)",
            "~ahead-of[#3]#5, near[2..40 #5]#6, = (1 #6)",
        ],
    ),
    (
        Builtin::Seque,
        &[Arg::Int(1), Arg::List(0, 1)],
        Elements::Numbers,
        (0, 0),
        &[
            "~ahead[1 (0)]#1, near[(0) #1]#2, = #2",
            "~ahead-of[#1]#3, near[() #3]#4, = (0 #4)",
            "= nil",
        ],
    ),
    (
        Builtin::Seque,
        &[Arg::Int(1), Arg::Part(7)],
        Elements::Numbers,
        (0, 0),
        &[
            "~ahead[1 #7]#1, near[#7 #1]#2, = #2",
            "seq #7, ~ahead-of[#1]#3, near[{8} #3]#4, = (7 #4)",
        ],
    ),
    (
        Builtin::Seque,
        &[Arg::Int(2), Arg::Range(0, 40)],
        Elements::Numbers,
        (1, 0),
        &[
            "~ahead[2 0..40]#1, near[0..40 #1]#2, = #2",
            "2 steps, = 2..40",
        ],
    ),
    (
        Builtin::Seque,
        &[Arg::Int(33), Arg::Range(0, 40)],
        Elements::Numbers,
        (1, 0),
        &[
            "~ahead[33 0..40]#1, near[0..40 #1]#2, = #2",
            "33 steps, = 33..40",
        ],
    ),
    (
        Builtin::Seque,
        &[Arg::Int(9), Arg::List(0, 2)],
        Elements::Numbers,
        (1, 0),
        &["~ahead[9 (0 1)]#1, near[(0 1) #1]#2, = #2", "2 steps, = ()"],
    ),
    (
        Builtin::Seque,
        &[Arg::Int(1), Arg::Part(7)],
        Elements::Numbers,
        (1, 0),
        &[
            "~ahead[1 #7]#1, near[#7 #1]#2, = #2",
            "seq #7, 1 steps, = {8}",
        ],
    ),
    (
        Builtin::Seque,
        &[Arg::Int(2), Arg::Range(0, 40)],
        Elements::Numbers,
        (3, 0),
        &[
            "~ahead[2 0..40]#1, near[0..40 #1]#2, = #2",
            "~ahead-of[#1]#3, near[1..40 #3]#4, = (0 #4)",
            "ask #1, 1 steps, = {2}",
        ],
    ),
    (
        Builtin::Seque,
        &[Arg::Int(0), Arg::Nil],
        Elements::Numbers,
        (0, 0),
        &["! index"],
    ),
    (
        Builtin::Seque,
        &[Arg::Int(-1), Arg::Nil],
        Elements::Numbers,
        (0, 0),
        &["! index"],
    ),
    (
        Builtin::Seque,
        &[Arg::Nil, Arg::Nil],
        Elements::Numbers,
        (0, 0),
        &["! type"],
    ),
    (Builtin::Seque, &[], Elements::Numbers, (0, 0), &["! arity"]),
    (
        Builtin::Seque,
        &[Arg::Int(1)],
        Elements::Numbers,
        (0, 0),
        &["! arity"],
    ),
    (
        Builtin::Seque,
        &[Arg::Int(1), Arg::Nil, Arg::Nil],
        Elements::Numbers,
        (0, 0),
        &["! arity"],
    ),
    (
        Builtin::Map,
        &[Arg::Word(Builtin::Inc), Arg::Nil],
        Elements::Numbers,
        (0, 0),
        &["! arity"],
    ),
];

/// The call of a word.
fn word_line(
    alloc: Global,
    word: Builtin,
    args: &[Arg],
    record: &mut Record,
    keeper: &mut Keeper,
    elements: Elements,
) -> Result<(), Fail> {
    let args = values_of(alloc, args).map_err(full)?;
    run(
        alloc,
        begin_word(word, args.items, PROCESSORS),
        record,
        keeper,
        elements,
    )
}

/// The work of the part that is kept.
fn part_line(
    alloc: Global,
    record: &mut Record,
    keeper: &mut Keeper,
    elements: Elements,
) -> Result<(), Fail> {
    match keeper.take() {
        None => Err(Fail::from("no part was made")),
        Some(part) => run(alloc, begin(part.term, CHUNK), record, keeper, elements),
    }
}

#[test]
fn work_begins_ahead(rt: HostRuntime) -> Result<(), Fail> {
    let alloc = rt.alloc();
    for (word, args, elements, wanted, lines) in &ROWS {
        let mut record = Record::new(alloc);
        let mut keeper = Keeper::new(*wanted);
        for (at, line) in lines.iter().enumerate() {
            if at == 0 {
                word_line(alloc, *word, args, &mut record, &mut keeper, *elements)?;
            } else {
                part_line(alloc, &mut record, &mut keeper, *elements)?;
            }
            assert_eq!(rt; str::from_utf8(record.bytes()).unwrap_or("?"), *line);
        }
    }
    Ok(())
}
