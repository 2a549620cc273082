//! `sequence`, and the parts that it makes one after the other.
use crate::given::Given::{Through, Value};
use crate::rows::{Row, rows_hold};
use crate::stages::Stage;
use seq_values::Builtin;
use std::test::Fail;
use turn_lines::{Arg, Elements};

/// Pulls that end at 32 outputs, at the end of the collection, and where all is done.
const PULLS: [Row; 11] = [
    (
        Builtin::Sequence,
        &[
            Through(&[Stage::Map(Builtin::Inc)]),
            Value(Arg::Range(0, 40)),
        ],
        &[
            "pull[#fn 0..40]#1, = #1",
            "32 calls, 32 steps, pull[#fn 32..40]#2, = <1 .. 32 #2>",
            "8 calls, 8 steps, = <33 .. 40 ()>",
        ],
    ),
    (
        Builtin::Sequence,
        &[
            Through(&[Stage::Map(Builtin::Inc)]),
            Value(Arg::Range(0, 32)),
        ],
        &[
            "pull[#fn 0..32]#1, = #1",
            "32 calls, 32 steps, pull[#fn ()]#2, = <1 .. 32 #2>",
            "= nil",
        ],
    ),
    (
        Builtin::Sequence,
        &[
            Through(&[Stage::Filter(Builtin::IsOdd)]),
            Value(Arg::Range(0, 100)),
        ],
        &[
            "pull[#fn 0..100]#1, = #1",
            "64 calls, 64 steps, pull[#fn 64..100]#2, = <1 .. 63 #2>",
            "36 calls, 36 steps, = <65 .. 99 ()>",
        ],
    ),
    (
        Builtin::Sequence,
        &[Through(&[Stage::Map(Builtin::Inc)]), Value(Arg::Part(7))],
        &[
            "pull[#fn #7]#1, = #1",
            "seq #7, 2 calls, 2 steps, = <8 9 ()>",
        ],
    ),
    (
        Builtin::Sequence,
        &[Through(&[]), Value(Arg::List(1, 3))],
        &["pull[#fn (1 2)]#1, = #1", "2 steps, = <1 2 ()>"],
    ),
    (
        Builtin::Sequence,
        &[Through(&[Stage::Map(Builtin::Inc)]), Value(Arg::Nil)],
        &["pull[#fn nil]#1, = #1", "= nil"],
    ),
    (
        Builtin::Sequence,
        &[
            Through(&[Stage::Filter(Builtin::IsOdd)]),
            Value(Arg::Vector(0, 1)),
        ],
        &["pull[#fn [0]]#1, = #1", "1 calls, 1 steps, = nil"],
    ),
    (
        Builtin::Sequence,
        &[Through(&[Stage::Take(0)]), Value(Arg::Range(0, 40))],
        &["pull[#fn 0..40 0]#1, = #1", "1 steps, = nil"],
    ),
    (
        Builtin::Sequence,
        &[Through(&[Stage::Take(32)]), Value(Arg::Range(0, 40))],
        &["pull[#fn 0..40 32]#1, = #1", "32 steps, = <0 .. 31 ()>"],
    ),
    (
        Builtin::Sequence,
        &[
            Through(&[
                Stage::Map(Builtin::Inc),
                Stage::Filter(Builtin::IsOdd),
                Stage::Take(2),
            ]),
            Value(Arg::Range(0, 40)),
        ],
        &["pull[#fn 0..40 2]#1, = #1", "6 calls, 3 steps, = <1 3 ()>"],
    ),
    (
        Builtin::Sequence,
        &[
            Through(&[Stage::Take(3), Stage::PartitionAll(2)]),
            Value(Arg::Range(0, 40)),
        ],
        &["pull[#fn 0..40 3 []]#1, = #1", "3 steps, = <[0 1] [2] ()>"],
    ),
];

#[test]
fn pulls_few_outputs_at_once(rt: HostRuntime) -> Result<(), Fail> {
    rows_hold(rt.alloc(), &PULLS, Elements::Numbers)
}

/// States that go on with the next pull: how many are left, whether the first ones are still dropped, and groups that aren't full.
const CARRIED: [Row; 4] = [
    (
        Builtin::Sequence,
        &[
            Through(&[Stage::Take(70), Stage::Map(Builtin::Inc)]),
            Value(Arg::Range(0, 100)),
        ],
        &[
            "pull[#fn 0..100 70]#1, = #1",
            "32 calls, 32 steps, pull[#fn 32..100 38]#2, = <1 .. 32 #2>",
            "32 calls, 32 steps, pull[#fn 64..100 6]#3, = <33 .. 64 #3>",
            "6 calls, 6 steps, = <65 .. 70 ()>",
        ],
    ),
    (
        Builtin::Sequence,
        &[Through(&[Stage::Drop(3)]), Value(Arg::Range(0, 40))],
        &[
            "pull[#fn 0..40 3]#1, = #1",
            "35 steps, pull[#fn 35..40 0]#2, = <3 .. 34 #2>",
            "5 steps, = <35 .. 39 ()>",
        ],
    ),
    (
        Builtin::Sequence,
        &[
            Through(&[Stage::DropWhile(Builtin::IsOdd), Stage::PartitionAll(2)]),
            Value(Arg::Range(1, 100)),
        ],
        &[
            "pull[#fn 1..100 true []]#1, = #1",
            "2 calls, 65 steps, pull[#fn 66..100 false []]#2, = <[2 3] .. [64 65] #2>",
            "34 steps, = <[66 67] .. [98 99] ()>",
        ],
    ),
    (
        Builtin::Sequence,
        &[
            Through(&[Stage::PartitionAll(3), Stage::Cat, Stage::PartitionAll(4)]),
            Value(Arg::Range(0, 200)),
        ],
        &[
            "pull[#fn 0..200 [] []]#1, = #1",
            "258 steps, pull[#fn 129..200 [] [128]]#2, = <[0 1 2 3] .. [124 125 126 127] #2>",
            "142 steps, = <[128 129 130 131] .. [196 197 198 199] ()>",
        ],
    ),
];

#[test]
fn carries_states_on(rt: HostRuntime) -> Result<(), Fail> {
    rows_hold(rt.alloc(), &CARRIED, Elements::Numbers)
}

/// The other stages, and what can't be walked or held.
const STAGES: [Row; 7] = [
    (
        Builtin::Sequence,
        &[
            Through(&[Stage::TakeWhile(Builtin::IsOdd)]),
            Value(Arg::Range(1, 40)),
        ],
        &["pull[#fn 1..40]#1, = #1", "2 calls, 2 steps, = <1 ()>"],
    ),
    (
        Builtin::Sequence,
        &[
            Through(&[Stage::Remove(Builtin::IsOdd)]),
            Value(Arg::Range(0, 4)),
        ],
        &["pull[#fn 0..4]#1, = #1", "4 calls, 4 steps, = <0 2 ()>"],
    ),
    (
        Builtin::Sequence,
        &[
            Through(&[Stage::Keep(Builtin::IsOdd)]),
            Value(Arg::Range(0, 3)),
        ],
        &[
            "pull[#fn 0..3]#1, = #1",
            "3 calls, 3 steps, = <false true false ()>",
        ],
    ),
    (
        Builtin::Sequence,
        &[
            Through(&[Stage::Mapcat(Builtin::Vector)]),
            Value(Arg::Range(0, 2)),
        ],
        &["pull[#fn 0..2]#1, = #1", "2 calls, 4 steps, = <0 1 ()>"],
    ),
    (
        Builtin::Sequence,
        &[
            Through(&[Stage::Mapcat(Builtin::Inc)]),
            Value(Arg::List(1, 2)),
        ],
        &["pull[#fn (1)]#1, = #1", "1 calls, 1 steps, seq 2, "],
    ),
    (
        Builtin::Sequence,
        &[Through(&[Stage::Map(Builtin::Vector)]), Value(Arg::Deepest)],
        &["pull[#fn [..]]#1, = #1", "1 calls, 1 steps, ! depth"],
    ),
    (
        Builtin::Sequence,
        &[Through(&[Stage::Map(Builtin::Inc)]), Value(Arg::Int(5))],
        &["pull[#fn 5]#1, = #1", "seq 5, "],
    ),
];

#[test]
fn passes_each_stage(rt: HostRuntime) -> Result<(), Fail> {
    rows_hold(rt.alloc(), &STAGES, Elements::Numbers)
}

/// Collections in a collection, which are parts.
const WALKED: [Row; 1] = [(
    Builtin::Sequence,
    &[Through(&[Stage::Cat]), Value(Arg::Part(1))],
    &[
        "pull[#fn #1]#1, = #1",
        "seq #1, 1 steps, seq #10, 1 steps, seq #11, 2 steps, = <#110 #111 ()>",
    ],
)];

#[test]
fn walks_what_enters(rt: HostRuntime) -> Result<(), Fail> {
    rows_hold(rt.alloc(), &WALKED, Elements::OddParts)
}
