//! Each word on its happy path and on each error that it has, and each part that it makes.
use crate::lines::{Row, rows_hold};
use seq_values::Builtin;
use std::test::Fail;
use turn_lines::Arg;

/// `map`.
const MAPS: [Row; 13] = [
    (
        Builtin::Map,
        &[Arg::Word(Builtin::Inc), Arg::Range(0, 40)],
        &[
            "map[#fn 0..40]#1, = #1",
            "32 calls, map[#fn 32..40]#2, = <1 .. 32 #2>",
            "8 calls, map[#fn ()]#3, = <33 .. 40 #3>",
            "= nil",
        ],
    ),
    (
        Builtin::Map,
        &[Arg::Word(Builtin::Inc), Arg::Vector(0, 34)],
        &[
            "map[#fn [0 .. 33]]#1, = #1",
            "32 calls, map[#fn {32 33}]#2, = <1 .. 32 #2>",
            "2 calls, map[#fn ()]#3, = <33 34 #3>",
            "= nil",
        ],
    ),
    (
        Builtin::Map,
        &[Arg::Word(Builtin::Inc), Arg::List(1, 3)],
        &[
            "map[#fn (1 2)]#1, = #1",
            "1 calls, map[#fn (2)]#2, = (2 #2)",
            "1 calls, map[#fn ()]#3, = (3 #3)",
            "= nil",
        ],
    ),
    (
        Builtin::Map,
        &[Arg::Word(Builtin::Inc), Arg::Int(5)],
        &["map[#fn 5]#1, = #1", "seq 5, "],
    ),
    (Builtin::Map, &[Arg::Word(Builtin::Inc)], &["= #fn"]),
    (Builtin::Map, &[], &["! arity"]),
    (
        Builtin::Map,
        &[
            Arg::Word(Builtin::Inc),
            Arg::Nil,
            Arg::Nil,
            Arg::Nil,
            Arg::Nil,
            Arg::Nil,
        ],
        &["! arity"],
    ),
    (Builtin::Map, &[Arg::Deepest], &["! depth"]),
    (
        Builtin::Map,
        &[Arg::Word(Builtin::Vector), Arg::List(1, 2)],
        &["map[#fn (1)]#1, = #1", "1 calls, map[#fn ()]#2, = ([1] #2)"],
    ),
    (
        Builtin::Map,
        &[
            Arg::Word(Builtin::Plus),
            Arg::List(1, 3),
            Arg::Vector(10, 13),
        ],
        &[
            "map-n[#fn (1 2) [10 11 12]]#1, = #1",
            "1 calls, map-n[#fn (2) {11 12}]#2, = (11 #2)",
            "1 calls, map-n[#fn () {12}]#3, = (13 #3)",
            "= nil",
        ],
    ),
    (
        Builtin::Map,
        &[
            Arg::Word(Builtin::Plus),
            Arg::Range(0, 40),
            Arg::Range(5, 50),
            Arg::Nil,
        ],
        &["map-n[#fn 0..40 5..50 nil]#1, = #1", "= nil"],
    ),
    (
        Builtin::Map,
        &[
            Arg::Word(Builtin::Plus),
            Arg::Range(0, 40),
            Arg::Range(5, 50),
            Arg::Range(0, 9),
            Arg::Range(0, 9),
        ],
        &[
            "map-n[#fn .. 0..9]#1, = #1",
            "1 calls, map-n[#fn .. 1..9]#2, = (5 #2)",
        ],
    ),
    (
        Builtin::Map,
        &[Arg::Word(Builtin::Plus), Arg::Nil, Arg::Part(7)],
        &["map-n[#fn nil #7]#1, = #1", "seq #7, = nil"],
    ),
];

#[test]
fn maps(rt: HostRuntime) -> Result<(), Fail> {
    rows_hold(rt.alloc(), &MAPS)
}

/// `filter`, `keep` and `remove`.
const SIFTS: [Row; 22] = [
    (
        Builtin::Filter,
        &[Arg::Word(Builtin::IsOdd), Arg::Range(0, 40)],
        &[
            "filter[#fn 0..40]#1, = #1",
            "32 calls, filter[#fn 32..40]#2, = <1 .. 31 #2>",
            "8 calls, filter[#fn ()]#3, = <33 35 37 39 #3>",
            "= nil",
        ],
    ),
    (
        Builtin::Filter,
        &[Arg::Word(Builtin::IsOdd), Arg::List(0, 2)],
        &[
            "filter[#fn (0 1)]#1, = #1",
            "1 calls, filter[#fn (1)]#2, = #2",
            "1 calls, filter[#fn ()]#3, = (1 #3)",
            "= nil",
        ],
    ),
    (
        Builtin::Filter,
        &[Arg::Keyword, Arg::Range(0, 40)],
        &[
            "filter[:k 0..40]#1, = #1",
            "32 calls, filter[:k 32..40]#2, = #2",
            "8 calls, filter[:k ()]#3, = #3",
            "= nil",
        ],
    ),
    (
        Builtin::Filter,
        &[Arg::Word(Builtin::IsOdd), Arg::Text],
        &["filter[#fn \"t\"]#1, = #1", "seq \"t\", "],
    ),
    (Builtin::Filter, &[Arg::Word(Builtin::IsOdd)], &["= #fn"]),
    (Builtin::Filter, &[Arg::Deepest], &["! depth"]),
    (Builtin::Filter, &[], &["! arity"]),
    (
        Builtin::Filter,
        &[Arg::Nil, Arg::Nil, Arg::Nil],
        &["! arity"],
    ),
    (
        Builtin::Keep,
        &[Arg::Word(Builtin::IsOdd), Arg::Range(0, 3)],
        &[
            "keep[#fn 0..3]#1, = #1",
            "3 calls, keep[#fn ()]#2, = <false true false #2>",
            "= nil",
        ],
    ),
    (
        Builtin::Keep,
        &[Arg::Word(Builtin::IsOdd), Arg::List(0, 1)],
        &[
            "keep[#fn (0)]#1, = #1",
            "1 calls, keep[#fn ()]#2, = (false #2)",
            "= nil",
        ],
    ),
    (
        Builtin::Keep,
        &[Arg::Keyword, Arg::List(0, 1)],
        &[
            "keep[:k (0)]#1, = #1",
            "1 calls, keep[:k ()]#2, = #2",
            "= nil",
        ],
    ),
    (Builtin::Keep, &[Arg::Word(Builtin::IsOdd)], &["= #fn"]),
    (Builtin::Keep, &[Arg::Deepest], &["! depth"]),
    (Builtin::Keep, &[], &["! arity"]),
    (Builtin::Keep, &[Arg::Nil, Arg::Nil, Arg::Nil], &["! arity"]),
    (
        Builtin::Remove,
        &[Arg::Word(Builtin::IsOdd), Arg::Range(0, 4)],
        &[
            "filter[#fn 0..4]#1, = #1",
            "4 calls, filter[#fn ()]#2, = <0 2 #2>",
            "= nil",
        ],
    ),
    (
        Builtin::Remove,
        &[Arg::Word(Builtin::IsOdd), Arg::List(0, 1)],
        &[
            "filter[#fn (0)]#1, = #1",
            "1 calls, filter[#fn ()]#2, = (0 #2)",
            "= nil",
        ],
    ),
    (Builtin::Remove, &[Arg::Word(Builtin::IsOdd)], &["= #fn"]),
    (Builtin::Remove, &[Arg::Deepest], &["! depth"]),
    (Builtin::Remove, &[], &["! arity"]),
    (
        Builtin::Remove,
        &[Arg::Nil, Arg::Nil, Arg::Nil],
        &["! arity"],
    ),
    (Builtin::Remove, &[Arg::Deepest, Arg::Nil], &["! depth"]),
];

#[test]
fn sifts(rt: HostRuntime) -> Result<(), Fail> {
    rows_hold(rt.alloc(), &SIFTS)
}

/// `take` and `drop`.
const COUNTS: [Row; 19] = [
    (
        Builtin::Take,
        &[Arg::Int(2), Arg::Range(0, 40)],
        &[
            "take[2 0..40]#1, = #1",
            "take[1 1..40]#2, = (0 #2)",
            "take[0 2..40]#3, = (1 #3)",
            "= nil",
        ],
    ),
    (
        Builtin::Take,
        &[Arg::Int(0), Arg::Part(7)],
        &["take[0 #7]#1, = #1", "= nil"],
    ),
    (
        Builtin::Take,
        &[Arg::Int(1), Arg::Part(7)],
        &[
            "take[1 #7]#1, = #1",
            "seq #7, take[0 {8}]#2, = (7 #2)",
            "= nil",
        ],
    ),
    (
        Builtin::Take,
        &[Arg::Int(5), Arg::Part(99)],
        &["take[5 #99]#1, = #1", "seq #99, = nil"],
    ),
    (Builtin::Take, &[Arg::Int(1)], &["= #fn"]),
    (Builtin::Take, &[Arg::Nil], &["! type"]),
    (Builtin::Take, &[Arg::Nil, Arg::Nil], &["! type"]),
    (Builtin::Take, &[], &["! arity"]),
    (Builtin::Take, &[Arg::Nil, Arg::Nil, Arg::Nil], &["! arity"]),
    (Builtin::Drop, &[Arg::Int(1)], &["= #fn"]),
    (Builtin::Drop, &[Arg::Nil], &["! type"]),
    (Builtin::Drop, &[Arg::Nil, Arg::Nil], &["! type"]),
    (Builtin::Drop, &[], &["! arity"]),
    (Builtin::Drop, &[Arg::Nil, Arg::Nil, Arg::Nil], &["! arity"]),
    (
        Builtin::Drop,
        &[Arg::Int(3), Arg::Range(0, 40)],
        &["drop[3 0..40]#1, = #1", "3 steps, = 3..40"],
    ),
    (
        Builtin::Drop,
        &[Arg::Int(0), Arg::List(0, 2)],
        &["drop[0 (0 1)]#1, = #1", "= (0 1 nil)"],
    ),
    (
        Builtin::Drop,
        &[Arg::Int(9), Arg::List(0, 2)],
        &["drop[9 (0 1)]#1, = #1", "2 steps, = nil"],
    ),
    (
        Builtin::Drop,
        &[Arg::Int(-1), Arg::Vector(0, 2)],
        &["drop[-1 [0 1]]#1, = #1", "= {0 1}"],
    ),
    (
        Builtin::Drop,
        &[Arg::Int(1), Arg::Part(7)],
        &["drop[1 #7]#1, = #1", "seq #7, 1 steps, = {8}"],
    ),
];

#[test]
fn takes_and_drops(rt: HostRuntime) -> Result<(), Fail> {
    rows_hold(rt.alloc(), &COUNTS)
}

/// `take-while` and `drop-while`.
const WHILES: [Row; 14] = [
    (
        Builtin::TakeWhile,
        &[Arg::Word(Builtin::IsOdd), Arg::List(1, 3)],
        &[
            "take-while[#fn (1 2)]#1, = #1",
            "1 calls, take-while[#fn (2)]#2, = (1 #2)",
            "1 calls, = nil",
        ],
    ),
    (
        Builtin::TakeWhile,
        &[Arg::Word(Builtin::IsOdd), Arg::Range(1, 40)],
        &[
            "take-while[#fn 1..40]#1, = #1",
            "1 calls, take-while[#fn 2..40]#2, = (1 #2)",
            "1 calls, = nil",
        ],
    ),
    (
        Builtin::TakeWhile,
        &[Arg::Word(Builtin::IsOdd), Arg::Nil],
        &["take-while[#fn nil]#1, = #1", "= nil"],
    ),
    (Builtin::TakeWhile, &[Arg::Word(Builtin::IsOdd)], &["= #fn"]),
    (Builtin::TakeWhile, &[Arg::Deepest], &["! depth"]),
    (Builtin::TakeWhile, &[], &["! arity"]),
    (
        Builtin::TakeWhile,
        &[Arg::Nil, Arg::Nil, Arg::Nil],
        &["! arity"],
    ),
    (
        Builtin::DropWhile,
        &[Arg::Word(Builtin::IsOdd), Arg::Range(1, 40)],
        &["drop-while[#fn 1..40]#1, = #1", "2 calls, = 2..40"],
    ),
    (
        Builtin::DropWhile,
        &[Arg::Word(Builtin::Vector), Arg::List(1, 3)],
        &["drop-while[#fn (1 2)]#1, = #1", "2 calls, = nil"],
    ),
    (
        Builtin::DropWhile,
        &[Arg::Word(Builtin::IsOdd), Arg::Part(9)],
        &["drop-while[#fn #9]#1, = #1", "seq #9, 2 calls, = {10}"],
    ),
    (Builtin::DropWhile, &[Arg::Word(Builtin::IsOdd)], &["= #fn"]),
    (Builtin::DropWhile, &[Arg::Deepest], &["! depth"]),
    (Builtin::DropWhile, &[], &["! arity"]),
    (
        Builtin::DropWhile,
        &[Arg::Nil, Arg::Nil, Arg::Nil],
        &["! arity"],
    ),
];

#[test]
fn takes_and_drops_while(rt: HostRuntime) -> Result<(), Fail> {
    rows_hold(rt.alloc(), &WHILES)
}

/// `concat` and `mapcat`.
const JOINS: [Row; 13] = [
    (Builtin::Concat, &[], &["concat[]#1, = #1", "= nil"]),
    (
        Builtin::Concat,
        &[Arg::List(0, 1), Arg::Range(5, 40)],
        &[
            "concat[(0) 5..40]#1, = #1",
            "concat[() 5..40]#2, = (0 #2)",
            "= 5..40",
        ],
    ),
    (
        Builtin::Concat,
        &[Arg::Range(0, 40), Arg::Part(7)],
        &[
            "concat[0..40 #7]#1, = #1",
            "concat[32..40 #7]#2, = <0 .. 31 #2>",
            "concat[() #7]#3, = <32 .. 39 #3>",
            "= #7",
        ],
    ),
    (
        Builtin::Concat,
        &[Arg::Nil, Arg::Nil, Arg::Part(7), Arg::Nil],
        &[
            "concat[nil nil #7 nil]#1, = #1",
            "seq #7, concat[() nil]#2, = <7 8 #2>",
            "= nil",
        ],
    ),
    (
        Builtin::Concat,
        &[Arg::Part(99), Arg::List(1, 2), Arg::Nil],
        &[
            "concat[#99 (1) nil]#1, = #1",
            "seq #99, concat[() nil]#2, = (1 #2)",
            "= nil",
        ],
    ),
    (
        Builtin::Concat,
        &[Arg::Int(5), Arg::Nil],
        &["concat[5 nil]#1, = #1", "seq 5, "],
    ),
    (
        Builtin::Mapcat,
        &[Arg::Word(Builtin::Vector), Arg::List(1, 3)],
        &[
            "mapcat[#fn (1 2)]#1, = #1",
            "1 calls, mapcat[#fn (2)]#2, concat[[1] #2]#3, = #3",
            "concat[() #2]#4, = <1 #4>",
            "= #2",
        ],
    ),
    (
        Builtin::Mapcat,
        &[Arg::Word(Builtin::Vector), Arg::Range(0, 40)],
        &[
            "mapcat[#fn 0..40]#1, = #1",
            "1 calls, mapcat[#fn 1..40]#2, concat[[0] #2]#3, = #3",
        ],
    ),
    (
        Builtin::Mapcat,
        &[Arg::Word(Builtin::Vector), Arg::Nil],
        &["mapcat[#fn nil]#1, = #1", "= nil"],
    ),
    (Builtin::Mapcat, &[Arg::Word(Builtin::Vector)], &["= #fn"]),
    (Builtin::Mapcat, &[Arg::Deepest], &["! depth"]),
    (Builtin::Mapcat, &[], &["! arity"]),
    (
        Builtin::Mapcat,
        &[Arg::Nil, Arg::Nil, Arg::Nil],
        &["! arity"],
    ),
];

#[test]
fn joins(rt: HostRuntime) -> Result<(), Fail> {
    rows_hold(rt.alloc(), &JOINS)
}

/// `iterate`, `range`, `repeat` and `cycle`.
const SERIES: [Row; 25] = [
    (
        Builtin::Iterate,
        &[Arg::Word(Builtin::Inc), Arg::Int(5)],
        &[
            "next[#fn 5]#1, = (5 #1)",
            "1 calls, next[#fn 6]#2, = (6 #2)",
            "1 calls, next[#fn 7]#3, = (7 #3)",
        ],
    ),
    (
        Builtin::Iterate,
        &[Arg::Word(Builtin::Inc), Arg::Deepest],
        &["next[#fn [..]]#1, ! depth"],
    ),
    (Builtin::Iterate, &[], &["! arity"]),
    (Builtin::Iterate, &[Arg::Word(Builtin::Inc)], &["! arity"]),
    (
        Builtin::Iterate,
        &[Arg::Nil, Arg::Nil, Arg::Nil],
        &["! arity"],
    ),
    (
        Builtin::Range,
        &[],
        &[
            "next[#fn 0]#1, = (0 #1)",
            "1 calls, next[#fn 1]#2, = (1 #2)",
        ],
    ),
    (Builtin::Range, &[Arg::Int(3)], &["= 0..3"]),
    (Builtin::Range, &[Arg::Int(0)], &["= ()"]),
    (Builtin::Range, &[Arg::Int(2), Arg::Int(4)], &["= 2..4"]),
    (Builtin::Range, &[Arg::Int(4), Arg::Int(2)], &["= ()"]),
    (Builtin::Range, &[Arg::Nil], &["! type"]),
    (Builtin::Range, &[Arg::Nil, Arg::Int(1)], &["! type"]),
    (Builtin::Range, &[Arg::Int(1), Arg::Nil], &["! type"]),
    (
        Builtin::Range,
        &[Arg::Nil, Arg::Nil, Arg::Nil],
        &["! arity"],
    ),
    (
        Builtin::Repeat,
        &[Arg::Int(7)],
        &[
            "repeat[7]#1, = #1",
            "repeat[7]#2, = (7 #2)",
            "repeat[7]#3, = (7 #3)",
        ],
    ),
    (
        Builtin::Repeat,
        &[Arg::Deepest],
        &["repeat[[..]]#1, = #1", "repeat[[..]]#2, ! depth"],
    ),
    (
        Builtin::Repeat,
        &[Arg::Int(2), Arg::Int(7)],
        &[
            "repeat[7]#1, take[2 #1]#2, = #2",
            "seq #1, take[1 {2}]#3, = (1 #3)",
        ],
    ),
    (Builtin::Repeat, &[Arg::Nil, Arg::Int(7)], &["! type"]),
    (Builtin::Repeat, &[], &["! arity"]),
    (
        Builtin::Repeat,
        &[Arg::Nil, Arg::Nil, Arg::Nil],
        &["! arity"],
    ),
    (
        Builtin::Cycle,
        &[Arg::List(1, 3)],
        &[
            "cycle[(1 2) (1 2)]#1, = #1",
            "cycle[(1 2) (2)]#2, = (1 #2)",
            "cycle[(1 2) ()]#3, = (2 #3)",
            "cycle[(1 2) (2)]#4, = (1 #4)",
        ],
    ),
    (
        Builtin::Cycle,
        &[Arg::Part(7)],
        &[
            "cycle[#7 #7]#1, = #1",
            "seq #7, cycle[#7 {8}]#2, = (7 #2)",
            "cycle[#7 ()]#3, = (8 #3)",
            "seq #7, cycle[#7 {8}]#4, = (7 #4)",
        ],
    ),
    (
        Builtin::Cycle,
        &[Arg::Nil],
        &["cycle[nil nil]#1, = #1", "= nil"],
    ),
    (Builtin::Cycle, &[], &["! arity"]),
    (Builtin::Cycle, &[Arg::Nil, Arg::Nil], &["! arity"]),
];

#[test]
fn goes_on(rt: HostRuntime) -> Result<(), Fail> {
    rows_hold(rt.alloc(), &SERIES)
}

/// `partition-all`, and `cat`.
const GROUPS: [Row; 12] = [
    (
        Builtin::PartitionAll,
        &[Arg::Int(2), Arg::List(1, 4)],
        &[
            "parts[2 (1 2 3)]#1, = #1",
            "2 steps, parts[2 (3)]#2, = ((1 2) #2)",
            "1 steps, parts[2 ()]#3, = ((3) #3)",
            "= nil",
        ],
    ),
    (
        Builtin::PartitionAll,
        &[Arg::Int(32), Arg::Range(0, 40)],
        &[
            "parts[32 0..40]#1, = #1",
            "32 steps, parts[32 32..40]#2, = ((0 .. 31) #2)",
            "8 steps, parts[32 ()]#3, = ((32 .. 39) #3)",
            "= nil",
        ],
    ),
    (
        Builtin::PartitionAll,
        &[Arg::Int(3), Arg::Part(7)],
        &[
            "parts[3 #7]#1, = #1",
            "seq #7, 2 steps, parts[3 ()]#2, = ((7 8) #2)",
            "= nil",
        ],
    ),
    (Builtin::PartitionAll, &[Arg::Int(1)], &["= #fn"]),
    (Builtin::PartitionAll, &[Arg::Int(0)], &["! index"]),
    (
        Builtin::PartitionAll,
        &[Arg::Int(0), Arg::Nil],
        &["! index"],
    ),
    (Builtin::PartitionAll, &[Arg::Nil], &["! type"]),
    (Builtin::PartitionAll, &[Arg::Nil, Arg::Nil], &["! type"]),
    (Builtin::PartitionAll, &[], &["! arity"]),
    (
        Builtin::PartitionAll,
        &[Arg::Nil, Arg::Nil, Arg::Nil],
        &["! arity"],
    ),
    (Builtin::Cat, &[], &["! type"]),
    (Builtin::Cat, &[Arg::Nil], &["! type"]),
];

#[test]
fn groups(rt: HostRuntime) -> Result<(), Fail> {
    rows_hold(rt.alloc(), &GROUPS)
}
