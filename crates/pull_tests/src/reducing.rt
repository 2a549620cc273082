//! `transduce`, and `into` with a transducer.
use crate::given::Given::{SumToSix, Through, Value};
use crate::rows::{Row, rows_hold};
use crate::stages::Stage;
use seq_values::Builtin;
use std::test::Fail;
use turn_lines::{Arg, Elements};

/// `transduce` with and without a first answer: to the end of the collection, and up to where a stage is done.
const REDUCTIONS: [Row; 9] = [
    (
        Builtin::Transduce,
        &[
            Through(&[Stage::Map(Builtin::Inc)]),
            Value(Arg::Word(Builtin::Plus)),
            Value(Arg::Int(0)),
            Value(Arg::Range(0, 3)),
        ],
        &["7 calls, 3 steps, = 6"],
    ),
    (
        Builtin::Transduce,
        &[
            Through(&[Stage::Map(Builtin::Inc)]),
            Value(Arg::Word(Builtin::Plus)),
            Value(Arg::Vector(0, 3)),
        ],
        &["8 calls, 3 steps, = 6"],
    ),
    (
        Builtin::Transduce,
        &[
            Through(&[Stage::Filter(Builtin::IsOdd)]),
            Value(Arg::Word(Builtin::Plus)),
            Value(Arg::Part(7)),
        ],
        &["1 calls, seq #7, 4 calls, 2 steps, = 7"],
    ),
    (
        Builtin::Transduce,
        &[
            Through(&[]),
            Value(Arg::Word(Builtin::Plus)),
            Value(Arg::Int(10)),
            Value(Arg::List(1, 4)),
        ],
        &["4 calls, 3 steps, = 16"],
    ),
    (
        Builtin::Transduce,
        &[
            Through(&[Stage::Map(Builtin::Inc)]),
            Value(Arg::Word(Builtin::Plus)),
            Value(Arg::Int(5)),
            Value(Arg::Nil),
        ],
        &["1 calls, = 5"],
    ),
    (
        Builtin::Transduce,
        &[
            Through(&[Stage::Take(2)]),
            Value(Arg::Word(Builtin::Plus)),
            Value(Arg::Int(0)),
            Value(Arg::Range(0, 40)),
        ],
        &["3 calls, 2 steps, = 1"],
    ),
    (
        Builtin::Transduce,
        &[
            Through(&[Stage::Take(0)]),
            Value(Arg::Word(Builtin::Plus)),
            Value(Arg::Int(5)),
            Value(Arg::Range(0, 40)),
        ],
        &["1 calls, 1 steps, = 5"],
    ),
    (
        Builtin::Transduce,
        &[
            Through(&[
                Stage::Map(Builtin::Inc),
                Stage::Filter(Builtin::IsOdd),
                Stage::Take(2),
            ]),
            Value(Arg::Word(Builtin::Plus)),
            Value(Arg::Int(0)),
            Value(Arg::Range(0, 40)),
        ],
        &["9 calls, 3 steps, = 4"],
    ),
    (
        Builtin::Transduce,
        &[
            Through(&[Stage::Map(Builtin::Inc)]),
            Value(Arg::Word(Builtin::Plus)),
            Value(Arg::Int(0)),
            Value(Arg::Keyword),
        ],
        &["seq :k, "],
    ),
];

#[test]
fn reduces_through_stages(rt: HostRuntime) -> Result<(), Fail> {
    rows_hold(rt.alloc(), &REDUCTIONS, Elements::Numbers)
}

/// A reduced answer ends a reduction: at once, in the midst of a group that is walked, and at the completion. It is unwrapped.
const REDUCED: [Row; 4] = [
    (
        Builtin::Transduce,
        &[
            Through(&[Stage::Map(Builtin::Inc)]),
            SumToSix,
            Value(Arg::Int(0)),
            Value(Arg::Range(0, 40)),
        ],
        &["7 calls, 3 steps, = 6"],
    ),
    (
        Builtin::Transduce,
        &[
            Through(&[Stage::PartitionAll(3), Stage::Cat]),
            SumToSix,
            Value(Arg::Int(0)),
            Value(Arg::Range(0, 40)),
        ],
        &["5 calls, 10 steps, = 6"],
    ),
    (
        Builtin::Transduce,
        &[
            Through(&[Stage::PartitionAll(3), Stage::Cat]),
            SumToSix,
            Value(Arg::Range(0, 40)),
        ],
        &["6 calls, 10 steps, = 6"],
    ),
    (
        Builtin::Transduce,
        &[
            Through(&[Stage::PartitionAll(3), Stage::Cat]),
            SumToSix,
            Value(Arg::Int(0)),
            Value(Arg::Range(0, 4)),
        ],
        &["5 calls, 8 steps, = 6"],
    ),
];

#[test]
fn ends_with_a_reduced_answer(rt: HostRuntime) -> Result<(), Fail> {
    rows_hold(rt.alloc(), &REDUCED, Elements::Numbers)
}

/// `into` of three arguments: into a vector and into a list, with a completion after an early end, and with stages that throw.
const INTO: [Row; 6] = [
    (
        Builtin::Into,
        &[
            Value(Arg::Vector(0, 0)),
            Through(&[Stage::Map(Builtin::Inc)]),
            Value(Arg::List(1, 3)),
        ],
        &["5 calls, 2 steps, = [2 3]"],
    ),
    (
        Builtin::Into,
        &[
            Value(Arg::Nil),
            Through(&[Stage::Map(Builtin::Inc)]),
            Value(Arg::List(1, 3)),
        ],
        &["5 calls, 2 steps, = (3 2 nil)"],
    ),
    (
        Builtin::Into,
        &[
            Value(Arg::Vector(0, 0)),
            Through(&[Stage::Take(3), Stage::PartitionAll(2)]),
            Value(Arg::Range(0, 40)),
        ],
        &["3 calls, 3 steps, = [.. ..]"],
    ),
    (
        Builtin::Into,
        &[
            Value(Arg::Vector(0, 0)),
            Through(&[Stage::Take(3), Stage::PartitionAll(2), Stage::Cat]),
            Value(Arg::Range(0, 40)),
        ],
        &["4 calls, 6 steps, = [0 1 2]"],
    ),
    (
        Builtin::Into,
        &[
            Value(Arg::Vector(0, 0)),
            Through(&[Stage::Map(Builtin::Vector), Stage::PartitionAll(1)]),
            Value(Arg::Deepest),
        ],
        &["1 calls, 1 steps, ! depth"],
    ),
    (
        Builtin::Into,
        &[
            Value(Arg::Vector(0, 0)),
            Through(&[Stage::Cat]),
            Value(Arg::List(1, 3)),
        ],
        &["1 steps, seq 1, "],
    ),
];

#[test]
fn joins_what_passes_the_stages(rt: HostRuntime) -> Result<(), Fail> {
    rows_hold(rt.alloc(), &INTO, Elements::Numbers)
}

/// Wrong numbers of arguments, and what is no transducer, which throws before the function is called.
const REFUSED: [Row; 12] = [
    (Builtin::Transduce, &[], &["! arity"]),
    (
        Builtin::Transduce,
        &[Through(&[]), Value(Arg::Word(Builtin::Plus))],
        &["! arity"],
    ),
    (
        Builtin::Transduce,
        &[
            Through(&[]),
            Value(Arg::Word(Builtin::Plus)),
            Value(Arg::Nil),
            Value(Arg::Nil),
            Value(Arg::Nil),
        ],
        &["! arity"],
    ),
    (
        Builtin::Transduce,
        &[
            Value(Arg::Word(Builtin::Inc)),
            Value(Arg::Word(Builtin::Plus)),
            Value(Arg::Nil),
        ],
        &["! type"],
    ),
    (
        Builtin::Transduce,
        &[
            Value(Arg::Int(5)),
            Value(Arg::Word(Builtin::Plus)),
            Value(Arg::Int(0)),
            Value(Arg::Nil),
        ],
        &["! type"],
    ),
    (
        Builtin::Into,
        &[Value(Arg::Nil), Value(Arg::Nil)],
        &["! arity"],
    ),
    (
        Builtin::Into,
        &[
            Value(Arg::Nil),
            Through(&[]),
            Value(Arg::Nil),
            Value(Arg::Nil),
        ],
        &["! arity"],
    ),
    (
        Builtin::Into,
        &[Value(Arg::Nil), Value(Arg::Keyword), Value(Arg::Nil)],
        &["! type"],
    ),
    (Builtin::Sequence, &[], &["! arity"]),
    (Builtin::Sequence, &[Through(&[])], &["! arity"]),
    (
        Builtin::Sequence,
        &[Through(&[]), Value(Arg::Nil), Value(Arg::Nil)],
        &["! arity"],
    ),
    (
        Builtin::Sequence,
        &[Value(Arg::Word(Builtin::Inc)), Value(Arg::Nil)],
        &["! type"],
    ),
];

#[test]
fn refuses_wrong_arguments(rt: HostRuntime) -> Result<(), Fail> {
    rows_hold(rt.alloc(), &REFUSED, Elements::Numbers)
}
