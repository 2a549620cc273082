//! Each word that forces nothing, on its happy path and on each error that it has.
ghost use Rattle.std.specs.Prelude.{IfOk, IsTrue};
ghost use Rattle.seq_values.specs.WellFormed.{is_well_formed};

use crate::arguments::{Arg, outcome, values_of};
use core_fns::call_builtin;
use seq_values::{Builtin, Value, vector};
use seq_vector::PVec;
use std::alloc::Global;
use std::test::Fail;

const LEAST: i64 = -9223372036854775807 - 1;

const GREATEST: i64 = 9223372036854775807;

/// A word, its arguments, and the answer or the error's word.
const ROWS: [(Builtin, &[Arg], &str); 146] = [
    (Builtin::Plus, &[], "0"),
    (Builtin::Plus, &[Arg::Int(1), Arg::Int(2), Arg::Int(3)], "6"),
    (
        Builtin::Plus,
        &[Arg::Int(GREATEST), Arg::Int(1)],
        "overflow",
    ),
    (
        Builtin::Plus,
        &[Arg::Int(GREATEST), Arg::Int(1), Arg::Nil],
        "type",
    ),
    (Builtin::Times, &[], "1"),
    (
        Builtin::Times,
        &[Arg::Int(2), Arg::Int(3), Arg::Int(4)],
        "24",
    ),
    (
        Builtin::Times,
        &[Arg::Int(GREATEST), Arg::Int(2)],
        "overflow",
    ),
    (Builtin::Times, &[Arg::True], "type"),
    (Builtin::Minus, &[Arg::Int(5)], "-5"),
    (
        Builtin::Minus,
        &[Arg::Int(10), Arg::Int(3), Arg::Int(2)],
        "5",
    ),
    (Builtin::Minus, &[], "arity"),
    (Builtin::Minus, &[Arg::Int(LEAST)], "overflow"),
    (Builtin::Minus, &[Arg::Int(LEAST), Arg::Int(1)], "overflow"),
    (Builtin::Minus, &[Arg::Int(1), Arg::Nil], "type"),
    (Builtin::Inc, &[Arg::Int(1)], "2"),
    (Builtin::Inc, &[Arg::Int(GREATEST)], "overflow"),
    (Builtin::Inc, &[Arg::Nil], "type"),
    (Builtin::Inc, &[], "arity"),
    (Builtin::Inc, &[Arg::Nil, Arg::Nil], "arity"),
    (Builtin::Dec, &[Arg::Int(1)], "0"),
    (Builtin::Dec, &[Arg::Int(LEAST)], "overflow"),
    (Builtin::Dec, &[Arg::Text], "type"),
    (Builtin::Dec, &[], "arity"),
    (Builtin::Quot, &[Arg::Int(-7), Arg::Int(2)], "-3"),
    (Builtin::Quot, &[Arg::Int(7), Arg::Int(-2)], "-3"),
    (Builtin::Quot, &[Arg::Int(1), Arg::Int(0)], "divide"),
    (Builtin::Quot, &[Arg::Int(LEAST), Arg::Int(-1)], "overflow"),
    (Builtin::Quot, &[Arg::Nil, Arg::Int(0)], "type"),
    (Builtin::Quot, &[Arg::Int(1)], "arity"),
    (Builtin::Rem, &[Arg::Int(-7), Arg::Int(2)], "-1"),
    (Builtin::Rem, &[Arg::Int(7), Arg::Int(-2)], "1"),
    (Builtin::Rem, &[Arg::Int(LEAST), Arg::Int(-1)], "0"),
    (Builtin::Rem, &[Arg::Int(1), Arg::Int(0)], "divide"),
    (Builtin::Rem, &[Arg::Int(1), Arg::Keyword], "type"),
    (Builtin::Rem, &[Arg::Nil, Arg::Nil, Arg::Nil], "arity"),
    (Builtin::Mod, &[Arg::Int(-7), Arg::Int(2)], "1"),
    (Builtin::Mod, &[Arg::Int(7), Arg::Int(-2)], "-1"),
    (Builtin::Mod, &[Arg::Int(-6), Arg::Int(3)], "0"),
    (Builtin::Mod, &[Arg::Int(LEAST), Arg::Int(-1)], "0"),
    (Builtin::Mod, &[Arg::Int(1), Arg::Int(0)], "divide"),
    (Builtin::Mod, &[Arg::True, Arg::Int(0)], "type"),
    (Builtin::Mod, &[], "arity"),
    (Builtin::Min, &[Arg::Int(3), Arg::Int(1), Arg::Int(2)], "1"),
    (Builtin::Min, &[], "arity"),
    (Builtin::Min, &[Arg::Int(1), Arg::Nil], "type"),
    (Builtin::Max, &[Arg::Int(3), Arg::Int(1), Arg::Int(2)], "3"),
    (Builtin::Max, &[], "arity"),
    (Builtin::Max, &[Arg::Nil, Arg::Int(1)], "type"),
    (
        Builtin::Less,
        &[Arg::Int(1), Arg::Int(2), Arg::Int(3)],
        "true",
    ),
    (
        Builtin::Less,
        &[Arg::Int(1), Arg::Int(3), Arg::Int(2)],
        "false",
    ),
    (Builtin::Less, &[Arg::Int(2), Arg::Int(2)], "false"),
    (Builtin::Less, &[Arg::Int(5)], "true"),
    (Builtin::Less, &[], "arity"),
    (Builtin::Less, &[Arg::Int(2), Arg::Int(1), Arg::Nil], "type"),
    (
        Builtin::LessOrEqual,
        &[Arg::Int(1), Arg::Int(1), Arg::Int(2)],
        "true",
    ),
    (
        Builtin::LessOrEqual,
        &[Arg::Int(2), Arg::Int(1), Arg::Int(3)],
        "false",
    ),
    (Builtin::LessOrEqual, &[], "arity"),
    (Builtin::LessOrEqual, &[Arg::Nil], "type"),
    (
        Builtin::Greater,
        &[Arg::Int(3), Arg::Int(2), Arg::Int(1)],
        "true",
    ),
    (
        Builtin::Greater,
        &[Arg::Int(3), Arg::Int(1), Arg::Int(2)],
        "false",
    ),
    (Builtin::Greater, &[], "arity"),
    (Builtin::Greater, &[Arg::Int(1), Arg::Empty], "type"),
    (
        Builtin::GreaterOrEqual,
        &[Arg::Int(2), Arg::Int(2), Arg::Int(1)],
        "true",
    ),
    (
        Builtin::GreaterOrEqual,
        &[Arg::Int(1), Arg::Int(2)],
        "false",
    ),
    (Builtin::GreaterOrEqual, &[], "arity"),
    (
        Builtin::GreaterOrEqual,
        &[Arg::Keyword, Arg::Int(1)],
        "type",
    ),
    (Builtin::IsZero, &[Arg::Int(0)], "true"),
    (Builtin::IsZero, &[Arg::Int(1)], "false"),
    (Builtin::IsZero, &[Arg::Nil], "type"),
    (Builtin::IsZero, &[], "arity"),
    (Builtin::IsPositive, &[Arg::Int(1)], "true"),
    (Builtin::IsPositive, &[Arg::Int(0)], "false"),
    (Builtin::IsPositive, &[Arg::Nil], "type"),
    (Builtin::IsPositive, &[], "arity"),
    (Builtin::IsNegative, &[Arg::Int(-1)], "true"),
    (Builtin::IsNegative, &[Arg::Int(0)], "false"),
    (Builtin::IsNegative, &[Arg::Nil], "type"),
    (Builtin::IsNegative, &[], "arity"),
    (Builtin::IsEven, &[Arg::Int(LEAST)], "true"),
    (Builtin::IsEven, &[Arg::Int(-3)], "false"),
    (Builtin::IsEven, &[Arg::Nil], "type"),
    (Builtin::IsEven, &[], "arity"),
    (Builtin::IsOdd, &[Arg::Int(-3)], "true"),
    (Builtin::IsOdd, &[Arg::Int(0)], "false"),
    (Builtin::IsOdd, &[Arg::Nil], "type"),
    (Builtin::IsOdd, &[], "arity"),
    (Builtin::IsNil, &[Arg::Nil], "true"),
    (Builtin::IsNil, &[Arg::False], "false"),
    (Builtin::IsNil, &[Arg::Empty], "false"),
    (Builtin::IsNil, &[], "arity"),
    (Builtin::IsSome, &[Arg::Nil], "false"),
    (Builtin::IsSome, &[Arg::False], "true"),
    (Builtin::IsSome, &[], "arity"),
    (Builtin::IsTrue, &[Arg::True], "true"),
    (Builtin::IsTrue, &[Arg::Int(1)], "false"),
    (Builtin::IsTrue, &[], "arity"),
    (Builtin::IsFalse, &[Arg::False], "true"),
    (Builtin::IsFalse, &[Arg::Nil], "false"),
    (Builtin::IsFalse, &[], "arity"),
    (Builtin::Not, &[Arg::Nil], "true"),
    (Builtin::Not, &[Arg::False], "true"),
    (Builtin::Not, &[Arg::Int(0)], "false"),
    (Builtin::Not, &[], "arity"),
    (Builtin::IsNumber, &[Arg::Int(1)], "true"),
    (Builtin::IsNumber, &[Arg::Nil], "false"),
    (Builtin::IsNumber, &[], "arity"),
    (Builtin::IsKeyword, &[Arg::Keyword], "true"),
    (Builtin::IsKeyword, &[Arg::Text], "false"),
    (Builtin::IsKeyword, &[], "arity"),
    (Builtin::IsString, &[Arg::Text], "true"),
    (Builtin::IsString, &[Arg::Keyword], "false"),
    (Builtin::IsString, &[], "arity"),
    (Builtin::IsVector, &[Arg::Pair], "true"),
    (Builtin::IsVector, &[Arg::Empty], "false"),
    (Builtin::IsVector, &[], "arity"),
    (Builtin::IsFunction, &[Arg::Word(Builtin::Inc)], "true"),
    (Builtin::IsFunction, &[Arg::Keyword], "false"),
    (Builtin::IsFunction, &[], "arity"),
    (Builtin::Identity, &[Arg::Pair], "[1 2]"),
    (Builtin::Identity, &[], "arity"),
    (Builtin::Constantly, &[Arg::Int(1)], "#fn"),
    (Builtin::Constantly, &[Arg::Int(1), Arg::Int(2)], "arity"),
    (Builtin::Complement, &[Arg::Word(Builtin::Inc)], "#fn"),
    (Builtin::Complement, &[], "arity"),
    (
        Builtin::Partial,
        &[Arg::Word(Builtin::Inc), Arg::Int(1), Arg::Int(2)],
        "#fn",
    ),
    (Builtin::Partial, &[], "arity"),
    (Builtin::Comp, &[], "#fn"),
    (
        Builtin::Comp,
        &[Arg::Word(Builtin::Inc), Arg::Word(Builtin::Inc)],
        "#fn",
    ),
    (Builtin::Completing, &[Arg::Word(Builtin::Inc)], "#fn"),
    (
        Builtin::Completing,
        &[Arg::Word(Builtin::Inc), Arg::Word(Builtin::Inc)],
        "#fn",
    ),
    (Builtin::Completing, &[], "arity"),
    (
        Builtin::Completing,
        &[
            Arg::Word(Builtin::Inc),
            Arg::Word(Builtin::Inc),
            Arg::Word(Builtin::Inc),
        ],
        "arity",
    ),
    (
        Builtin::Monoid,
        &[Arg::Word(Builtin::Inc), Arg::Word(Builtin::Inc)],
        "#fn",
    ),
    (Builtin::Monoid, &[Arg::Word(Builtin::Inc)], "arity"),
    (
        Builtin::Vector,
        &[Arg::Int(1), Arg::None, Arg::Nil],
        "[1 .. nil]",
    ),
    (Builtin::Vector, &[], "[]"),
    (
        Builtin::List,
        &[Arg::Int(1), Arg::Int(2), Arg::Int(3)],
        "(1 2 3)",
    ),
    (Builtin::List, &[], "()"),
    (Builtin::Reduced, &[Arg::Int(1)], "#reduced 1"),
    (Builtin::Reduced, &[], "arity"),
    (Builtin::IsReduced, &[Arg::Ended], "true"),
    (Builtin::IsReduced, &[Arg::Int(5)], "false"),
    (Builtin::IsReduced, &[], "arity"),
    (Builtin::Unreduced, &[Arg::Ended], "5"),
    (Builtin::Unreduced, &[Arg::Pair], "[1 2]"),
    (Builtin::Unreduced, &[], "arity"),
];

#[test]
fn each_word_answers(rt: HostRuntime) -> Result<(), Fail> {
    let alloc = rt.alloc();
    for (word, args, expected) in &ROWS {
        let args = values_of(alloc, args)?;
        let answer = call_builtin(alloc, *word, &args);
        assert_eq!(rt; outcome(alloc, &answer)?.as_str(), *expected);
    }
    Ok(())
}

/// The vector of one value.
#[tactic(auto, using(seq_values::proofs::WellFormedLemmas::one_well))]
fn deeper(alloc: Global, value: Value) -> Result<Value, Fail>
    requires { IsTrue (is_well_formed value) }
    ensures { IfOk result (λ v. IsTrue (is_well_formed v)) }
{
    let args = [value];
    match call_builtin(alloc, Builtin::Vector, &args) {
        Ok(deeper) => Ok(deeper),
        Err(_) => Err(Fail::from("no vector")),
    }
}

/// The vector of one value, and that of it, and so on.
fn nested(alloc: Global, levels: usize) -> Result<Value, Fail>
    ensures { IfOk result (λ v. IsTrue (is_well_formed v)) }
{
    let mut value = vector(PVec::new());
    for _ in 1..levels {
        value = deeper(alloc, value)?;
    }
    Ok(value)
}

/// What a call of a word with one argument came to.
#[tactic(auto, using(seq_values::proofs::WellFormedLemmas::one_well))]
fn of_one(alloc: Global, word: Builtin, only: Value) -> Result<String, Fail>
    requires { IsTrue (is_well_formed only) }
{
    let args = [only];
    let answer = call_builtin(alloc, word, &args);
    outcome(alloc, &answer)
}

/// What holds a value of the greatest depth is too deep.
#[test]
fn depth_is_limited(rt: HostRuntime) -> Result<(), Fail> {
    let alloc = rt.alloc();
    for word in [
        Builtin::Vector,
        Builtin::List,
        Builtin::Reduced,
        Builtin::Constantly,
    ] {
        let deepest = nested(alloc, 256)?;
        assert_eq!(rt; of_one(alloc, word, deepest)?.as_str(), "depth");
        let less = nested(alloc, 255)?;
        assert!(rt; of_one(alloc, word, less)?.as_str() != "depth");
    }
    let deepest = nested(alloc, 256)?;
    assert!(rt; of_one(alloc, Builtin::Identity, deepest)?.as_str() != "depth");
    Ok(())
}
