//! Each word that walks, on its happy path and on each error that it has.
use crate::turning::transcript;
use seq_values::{Builtin, Line};
use seq_vector::NoMemory;
use std::alloc::Global;
use std::str;
use std::test::Fail;
use value_samples::Sample;

const LEAST: i64 = -9223372036854775807 - 1;

const GREATEST: i64 = 9223372036854775807;

/// A word, its arguments, what it is told when it asks or calls, and what it does.
type Row = (Builtin, &'static [Sample], &'static [Sample], &'static str);

fn full(_why: NoMemory) -> Fail {
    Fail::from("no memory")
}

/// What the first row did that doesn't do what it says, and nothing where all do.
fn differing(alloc: Global, rows: &[Row]) -> Result<Line, NoMemory> {
    for (word, args, told, expected) in rows {
        let mut line = transcript(alloc, *word, args, told)?;
        if line.bytes() != expected.as_bytes() {
            line.append(b" differs")?;
            return Ok(line);
        }
    }
    Ok(Line::new(alloc))
}

/// `seq`, `first` and `second`.
const FIRSTS: [Row; 20] = [
    (Builtin::Seq, &[Sample::Vector(3)], &[], "=<1 2 3>"),
    (Builtin::Seq, &[Sample::List(0)], &[], "=nil"),
    (Builtin::Seq, &[Sample::Range(1, 4)], &[], "=1..4"),
    (
        Builtin::Seq,
        &[Sample::Part(7)],
        &[Sample::List(2)],
        "?#7 =(1 2)",
    ),
    (
        Builtin::Seq,
        &[Sample::Part(7)],
        &[Sample::Vector(0)],
        "?#7 =nil",
    ),
    (Builtin::Seq, &[Sample::Int(5)], &[], "?5 !type"),
    (Builtin::Seq, &[], &[], "!arity"),
    (Builtin::Seq, &[Sample::Nil, Sample::Nil], &[], "!arity"),
    (Builtin::First, &[Sample::Range(3, 9)], &[], "=3"),
    (Builtin::First, &[Sample::Nil], &[], "=nil"),
    (Builtin::First, &[Sample::Chunk(2, 7)], &[], "=1"),
    (Builtin::First, &[Sample::True], &[], "?true !type"),
    (Builtin::First, &[], &[], "!arity"),
    (Builtin::Second, &[Sample::Vector(3)], &[], "=2"),
    (
        Builtin::Second,
        &[Sample::Before(1, 7)],
        &[Sample::Vector(2)],
        "?#7 =1",
    ),
    (
        Builtin::Second,
        &[Sample::Before(1, 7)],
        &[Sample::Nil],
        "?#7 =nil",
    ),
    (Builtin::Second, &[Sample::List(1)], &[], "=nil"),
    (Builtin::Second, &[Sample::Nil], &[], "=nil"),
    (Builtin::Second, &[Sample::Int(5)], &[], "?5 !type"),
    (
        Builtin::Second,
        &[Sample::Vector(1), Sample::Vector(1)],
        &[],
        "!arity",
    ),
];

#[test]
fn finds_first_elements(rt: HostRuntime) -> Result<(), Fail> {
    let line = differing(rt.alloc(), &FIRSTS).map_err(full)?;
    assert_eq!(rt; str::from_utf8(line.bytes()).unwrap_or("no text"), "");
    Ok(())
}

/// `rest`, `next` and `empty?`.
const RESTS: [Row; 21] = [
    (Builtin::Rest, &[Sample::Vector(3)], &[], "=<2 3>"),
    (Builtin::Rest, &[Sample::List(1)], &[], "=()"),
    (Builtin::Rest, &[Sample::Before(1, 7)], &[], "=#7"),
    (Builtin::Rest, &[Sample::Chunk(2, 7)], &[], "={2 . #7}"),
    (Builtin::Rest, &[Sample::Range(1, 3)], &[], "=2..3"),
    (Builtin::Rest, &[Sample::Nil], &[], "=()"),
    (Builtin::Rest, &[Sample::Text], &[], "?\"t\" !type"),
    (Builtin::Rest, &[], &[], "!arity"),
    (Builtin::Next, &[Sample::Vector(3)], &[], "=<2 3>"),
    (Builtin::Next, &[Sample::Vector(1)], &[], "=nil"),
    (
        Builtin::Next,
        &[Sample::Before(1, 7)],
        &[Sample::List(2)],
        "?#7 =(1 2)",
    ),
    (Builtin::Next, &[Sample::Range(1, 2)], &[], "=nil"),
    (Builtin::Next, &[Sample::Nil], &[], "=nil"),
    (Builtin::Next, &[Sample::Ended(4)], &[], "?!4 !type"),
    (Builtin::Next, &[], &[], "!arity"),
    (Builtin::IsEmpty, &[Sample::Vector(0)], &[], "=true"),
    (Builtin::IsEmpty, &[Sample::Range(1, 2)], &[], "=false"),
    (Builtin::IsEmpty, &[Sample::Nil], &[], "=true"),
    (
        Builtin::IsEmpty,
        &[Sample::Part(7)],
        &[Sample::List(1)],
        "?#7 =false",
    ),
    (Builtin::IsEmpty, &[Sample::Int(5)], &[], "?5 !type"),
    (Builtin::IsEmpty, &[], &[], "!arity"),
];

#[test]
fn finds_rests(rt: HostRuntime) -> Result<(), Fail> {
    let line = differing(rt.alloc(), &RESTS).map_err(full)?;
    assert_eq!(rt; str::from_utf8(line.bytes()).unwrap_or("no text"), "");
    Ok(())
}

/// `nth` and `last`.
const PLACES: [Row; 25] = [
    (
        Builtin::Nth,
        &[Sample::Vector(3), Sample::Int(2)],
        &[],
        "=3",
    ),
    (
        Builtin::Nth,
        &[Sample::Vector(3), Sample::Int(3)],
        &[],
        "!index",
    ),
    (
        Builtin::Nth,
        &[Sample::Vector(3), Sample::Int(-1)],
        &[],
        "!index",
    ),
    (
        Builtin::Nth,
        &[Sample::Vector(3), Sample::Int(5), Sample::Keyword],
        &[],
        "=:k",
    ),
    (Builtin::Nth, &[Sample::Nil, Sample::Int(0)], &[], "=nil"),
    (
        Builtin::Nth,
        &[Sample::Nil, Sample::Int(7), Sample::Keyword],
        &[],
        "=:k",
    ),
    (
        Builtin::Nth,
        &[Sample::List(3), Sample::Int(2)],
        &[],
        ". . =3",
    ),
    (
        Builtin::Nth,
        &[Sample::List(3), Sample::Int(3)],
        &[],
        ". . . !index",
    ),
    (
        Builtin::Nth,
        &[Sample::List(3), Sample::Int(3), Sample::Keyword],
        &[],
        ". . . =:k",
    ),
    (
        Builtin::Nth,
        &[Sample::List(3), Sample::Int(-1)],
        &[],
        "!index",
    ),
    (
        Builtin::Nth,
        &[Sample::List(3), Sample::Int(-1), Sample::Keyword],
        &[],
        "=:k",
    ),
    (
        Builtin::Nth,
        &[Sample::Range(1, 4), Sample::Int(1)],
        &[],
        ". =2",
    ),
    (
        Builtin::Nth,
        &[Sample::Before(1, 7), Sample::Int(1)],
        &[Sample::List(1)],
        ". ?#7 =1",
    ),
    (
        Builtin::Nth,
        &[Sample::Part(7), Sample::Int(-1)],
        &[Sample::List(1)],
        "?#7 !index",
    ),
    (
        Builtin::Nth,
        &[Sample::Vector(2), Sample::Nil],
        &[],
        "!type",
    ),
    (
        Builtin::Nth,
        &[Sample::Vector(2), Sample::Nil, Sample::Nil],
        &[],
        "!type",
    ),
    (
        Builtin::Nth,
        &[Sample::Int(5), Sample::Int(0)],
        &[],
        "?5 !type",
    ),
    (Builtin::Nth, &[Sample::Vector(2)], &[], "!arity"),
    (
        Builtin::Nth,
        &[Sample::Vector(2), Sample::Int(0), Sample::Nil, Sample::Nil],
        &[],
        "!arity",
    ),
    (Builtin::Last, &[Sample::Vector(3)], &[], ". . . =3"),
    (Builtin::Last, &[Sample::Nil], &[], "=nil"),
    (
        Builtin::Last,
        &[Sample::Before(1, 7)],
        &[Sample::Nil],
        ". ?#7 =1",
    ),
    (Builtin::Last, &[Sample::Range(4, 6)], &[], ". . =5"),
    (Builtin::Last, &[Sample::Int(5)], &[], "?5 !type"),
    (Builtin::Last, &[], &[], "!arity"),
];

#[test]
fn finds_places(rt: HostRuntime) -> Result<(), Fail> {
    let line = differing(rt.alloc(), &PLACES).map_err(full)?;
    assert_eq!(rt; str::from_utf8(line.bytes()).unwrap_or("no text"), "");
    Ok(())
}

/// The words that walk a whole collection.
const COUNTS: [Row; 26] = [
    (Builtin::Count, &[Sample::Nil], &[], "=0"),
    (Builtin::Count, &[Sample::Vector(3)], &[], "=3"),
    (Builtin::Count, &[Sample::Range(2, 9)], &[], "=7"),
    (Builtin::Count, &[Sample::Seq(3)], &[], "=3"),
    (Builtin::Count, &[Sample::List(3)], &[], ". . . =3"),
    (
        Builtin::Count,
        &[Sample::Before(1, 7)],
        &[Sample::Vector(4)],
        ". ?#7 =5",
    ),
    (
        Builtin::Count,
        &[Sample::Chunk(2, 7)],
        &[Sample::Nil],
        ". . ?#7 =2",
    ),
    (
        Builtin::Count,
        &[Sample::Range(LEAST, GREATEST)],
        &[],
        "!overflow",
    ),
    (Builtin::Count, &[Sample::Keyword], &[], "?:k !type"),
    (Builtin::Count, &[], &[], "!arity"),
    (Builtin::Vec, &[Sample::Vector(2)], &[], "=[1 2]"),
    (Builtin::Vec, &[Sample::List(3)], &[], ". . . =[1 2 3]"),
    (Builtin::Vec, &[Sample::Nil], &[], "=[]"),
    (
        Builtin::Vec,
        &[Sample::Before(1, 7)],
        &[Sample::Range(5, 7)],
        ". ?#7 . . =[1 5 6]",
    ),
    (Builtin::Vec, &[Sample::Int(5)], &[], "?5 !type"),
    (Builtin::Vec, &[], &[], "!arity"),
    (
        Builtin::Reverse,
        &[Sample::Vector(3)],
        &[],
        ". . . =(3 2 1)",
    ),
    (Builtin::Reverse, &[Sample::Nil], &[], "=()"),
    (
        Builtin::Reverse,
        &[Sample::Chunk(2, 7)],
        &[Sample::Nil],
        ". . ?#7 =(2 1)",
    ),
    (Builtin::Reverse, &[Sample::Keyword], &[], "?:k !type"),
    (Builtin::Reverse, &[], &[], "!arity"),
    (Builtin::Doall, &[Sample::Range(1, 3)], &[], ". . =1..3"),
    (
        Builtin::Doall,
        &[Sample::Before(1, 7)],
        &[Sample::List(1)],
        ". ?#7 . =(1 . #7)",
    ),
    (Builtin::Doall, &[Sample::Nil], &[], "=nil"),
    (Builtin::Doall, &[Sample::Int(5)], &[], "?5 !type"),
    (Builtin::Doall, &[], &[], "!arity"),
];

#[test]
fn walks_to_the_end(rt: HostRuntime) -> Result<(), Fail> {
    let line = differing(rt.alloc(), &COUNTS).map_err(full)?;
    assert_eq!(rt; str::from_utf8(line.bytes()).unwrap_or("no text"), "");
    Ok(())
}

/// The words that put elements into a collection.
const JOINS: [Row; 20] = [
    (
        Builtin::Cons,
        &[Sample::Int(9), Sample::Vector(2)],
        &[],
        "=(9 . ..)",
    ),
    (
        Builtin::Cons,
        &[Sample::Int(9), Sample::Vector(0)],
        &[],
        "=(9)",
    ),
    (
        Builtin::Cons,
        &[Sample::Int(9), Sample::List(2)],
        &[],
        "=(9 1 2)",
    ),
    (Builtin::Cons, &[Sample::Int(9), Sample::Nil], &[], "=(9)"),
    (
        Builtin::Cons,
        &[Sample::Int(9), Sample::Part(7)],
        &[],
        "=(9 . #7)",
    ),
    (
        Builtin::Cons,
        &[Sample::Int(9), Sample::Range(1, 3)],
        &[],
        "=(9 . ..)",
    ),
    (
        Builtin::Cons,
        &[Sample::Deep(255), Sample::Nil],
        &[],
        "=(..)",
    ),
    (
        Builtin::Cons,
        &[Sample::Deep(256), Sample::Nil],
        &[],
        "!depth",
    ),
    (
        Builtin::Cons,
        &[Sample::Int(1), Sample::Int(5)],
        &[],
        "!type",
    ),
    (Builtin::Cons, &[Sample::Int(9)], &[], "!arity"),
    (Builtin::Conj, &[], &[], "=[]"),
    (Builtin::Conj, &[Sample::Int(5)], &[], "=5"),
    (
        Builtin::Conj,
        &[Sample::Vector(2), Sample::Int(9), Sample::Nil],
        &[],
        "=[1 2 9 nil]",
    ),
    (
        Builtin::Conj,
        &[Sample::List(2), Sample::Int(8), Sample::Int(9)],
        &[],
        "=(9 8 1 2)",
    ),
    (Builtin::Conj, &[Sample::Nil, Sample::Int(9)], &[], "=(9)"),
    (
        Builtin::Conj,
        &[Sample::Part(7), Sample::Int(9)],
        &[Sample::List(1)],
        "?#7 =(9 1)",
    ),
    (
        Builtin::Conj,
        &[Sample::Part(7), Sample::Int(9)],
        &[Sample::Nil],
        "?#7 =(9)",
    ),
    (
        Builtin::Conj,
        &[Sample::Vector(0), Sample::Deep(255)],
        &[],
        "=[..]",
    ),
    (
        Builtin::Conj,
        &[Sample::Vector(0), Sample::Deep(256)],
        &[],
        "!depth",
    ),
    (
        Builtin::Conj,
        &[Sample::Int(5), Sample::Int(9)],
        &[],
        "!type",
    ),
];

#[test]
fn joins_elements(rt: HostRuntime) -> Result<(), Fail> {
    let line = differing(rt.alloc(), &JOINS).map_err(full)?;
    assert_eq!(rt; str::from_utf8(line.bytes()).unwrap_or("no text"), "");
    Ok(())
}

/// The words that call a function with elements.
const CALLS: [Row; 20] = [
    (
        Builtin::IsEvery,
        &[Sample::Keyword, Sample::Vector(2)],
        &[Sample::True, Sample::Int(0)],
        ". :k(1) . :k(2) =true",
    ),
    (
        Builtin::IsEvery,
        &[Sample::Keyword, Sample::Vector(2)],
        &[Sample::True, Sample::Nil],
        ". :k(1) . :k(2) =false",
    ),
    (
        Builtin::IsEvery,
        &[Sample::Keyword, Sample::Vector(3)],
        &[Sample::False],
        ". :k(1) =false",
    ),
    (
        Builtin::IsEvery,
        &[Sample::Keyword, Sample::Nil],
        &[],
        "=true",
    ),
    (
        Builtin::IsEvery,
        &[Sample::Keyword, Sample::Before(1, 7)],
        &[Sample::True, Sample::Nil],
        ". :k(1) ?#7 =true",
    ),
    (
        Builtin::IsEvery,
        &[Sample::Keyword, Sample::Int(5)],
        &[],
        "?5 !type",
    ),
    (Builtin::IsEvery, &[Sample::Keyword], &[], "!arity"),
    (
        Builtin::Some,
        &[Sample::Keyword, Sample::List(3)],
        &[Sample::Nil, Sample::Int(4)],
        ". :k(1) . :k(2) =4",
    ),
    (
        Builtin::Some,
        &[Sample::Keyword, Sample::Vector(1)],
        &[Sample::False],
        ". :k(1) =nil",
    ),
    (Builtin::Some, &[Sample::Keyword, Sample::Nil], &[], "=nil"),
    (
        Builtin::Some,
        &[Sample::Keyword, Sample::Chunk(1, 7)],
        &[Sample::Nil, Sample::Vector(1), Sample::True],
        ". :k(1) ?#7 . :k(1) =true",
    ),
    (
        Builtin::Some,
        &[Sample::Keyword, Sample::Int(5)],
        &[],
        "?5 !type",
    ),
    (Builtin::Some, &[Sample::Keyword], &[], "!arity"),
    (
        Builtin::Apply,
        &[Sample::Keyword, Sample::Vector(2)],
        &[Sample::Int(9)],
        ". . :k(1 2) =9",
    ),
    (
        Builtin::Apply,
        &[
            Sample::Keyword,
            Sample::Int(8),
            Sample::Int(7),
            Sample::List(1),
        ],
        &[Sample::Nil],
        ". :k(8 7 1) =nil",
    ),
    (
        Builtin::Apply,
        &[Sample::Keyword, Sample::Nil],
        &[Sample::Int(3)],
        ":k() =3",
    ),
    (
        Builtin::Apply,
        &[Sample::Keyword, Sample::Int(8), Sample::Before(1, 7)],
        &[Sample::Vector(1), Sample::Int(5)],
        ". ?#7 . :k(8 1 1) =5",
    ),
    (
        Builtin::Apply,
        &[Sample::Keyword, Sample::Int(5)],
        &[],
        "?5 !type",
    ),
    (Builtin::Apply, &[Sample::Keyword], &[], "!arity"),
    (Builtin::Apply, &[], &[], "!arity"),
];

#[test]
fn calls_with_elements(rt: HostRuntime) -> Result<(), Fail> {
    let line = differing(rt.alloc(), &CALLS).map_err(full)?;
    assert_eq!(rt; str::from_utf8(line.bytes()).unwrap_or("no text"), "");
    Ok(())
}

/// The words that compare.
const EQUAL: [Row; 27] = [
    (Builtin::Equal, &[Sample::Int(1)], &[], "=true"),
    (
        Builtin::Equal,
        &[Sample::Int(1), Sample::Int(1)],
        &[],
        ". =true",
    ),
    (
        Builtin::Equal,
        &[Sample::Int(1), Sample::Int(2)],
        &[],
        ". =false",
    ),
    (
        Builtin::Equal,
        &[Sample::Int(1), Sample::Int(1), Sample::Int(2)],
        &[],
        ". . =false",
    ),
    (
        Builtin::Equal,
        &[Sample::Nil, Sample::False],
        &[],
        ". =false",
    ),
    (
        Builtin::Equal,
        &[Sample::True, Sample::True],
        &[],
        ". =true",
    ),
    (
        Builtin::Equal,
        &[Sample::Keyword, Sample::Keyword],
        &[],
        ". =true",
    ),
    (
        Builtin::Equal,
        &[Sample::Text, Sample::Text],
        &[],
        ". =true",
    ),
    (
        Builtin::Equal,
        &[Sample::Text, Sample::Keyword],
        &[],
        ". =false",
    ),
    (
        Builtin::Equal,
        &[Sample::Int(5), Sample::Vector(1)],
        &[],
        ". =false",
    ),
    (
        Builtin::Equal,
        &[Sample::Vector(0), Sample::Nil],
        &[],
        ". =false",
    ),
    (
        Builtin::Equal,
        &[Sample::Vector(2), Sample::List(2)],
        &[],
        ". . . =true",
    ),
    (
        Builtin::Equal,
        &[Sample::Vector(2), Sample::Range(1, 4)],
        &[],
        ". . . =false",
    ),
    (
        Builtin::Equal,
        &[Sample::Range(0, 2), Sample::Vector(2)],
        &[],
        ". . =false",
    ),
    (
        Builtin::Equal,
        &[Sample::Nested(2), Sample::Nested(2)],
        &[],
        ". . . . =true",
    ),
    (
        Builtin::Equal,
        &[Sample::Nested(2), Sample::Nested(3)],
        &[],
        ". . . . =false",
    ),
    (
        Builtin::Equal,
        &[Sample::Part(7), Sample::Part(8)],
        &[Sample::List(1), Sample::List(1)],
        ". ?#7 ?#8 . =true",
    ),
    (
        Builtin::Equal,
        &[Sample::Before(1, 7), Sample::Part(8)],
        &[Sample::Vector(2), Sample::Range(2, 3)],
        ". ?#8 . ?#7 . =true",
    ),
    (
        Builtin::Equal,
        &[Sample::Word(Builtin::Inc), Sample::Int(1)],
        &[],
        ". !type",
    ),
    (
        Builtin::Equal,
        &[Sample::Int(1), Sample::Ended(1)],
        &[],
        ". !type",
    ),
    (Builtin::Equal, &[], &[], "!arity"),
    (
        Builtin::NotEqual,
        &[Sample::Int(1), Sample::Int(2)],
        &[],
        ". =true",
    ),
    (Builtin::NotEqual, &[Sample::Int(1)], &[], "=false"),
    (
        Builtin::NotEqual,
        &[Sample::Vector(1), Sample::List(1)],
        &[],
        ". . =false",
    ),
    (
        Builtin::NotEqual,
        &[Sample::Vector(1), Sample::Vector(2)],
        &[],
        ". . =true",
    ),
    (
        Builtin::NotEqual,
        &[Sample::Word(Builtin::Inc), Sample::Nil],
        &[],
        ". !type",
    ),
    (Builtin::NotEqual, &[], &[], "!arity"),
];

#[test]
fn compares(rt: HostRuntime) -> Result<(), Fail> {
    let line = differing(rt.alloc(), &EQUAL).map_err(full)?;
    assert_eq!(rt; str::from_utf8(line.bytes()).unwrap_or("no text"), "");
    Ok(())
}

/// The words that reduce.
const REDUCTIONS: [Row; 14] = [
    (
        Builtin::Reduce,
        &[Sample::Keyword, Sample::Vector(3)],
        &[Sample::Int(3), Sample::Int(6)],
        ". . :k(1 2) . :k(3 3) =6",
    ),
    (
        Builtin::Reduce,
        &[Sample::Keyword, Sample::Nil],
        &[Sample::Int(0)],
        ":k() =0",
    ),
    (
        Builtin::Reduce,
        &[Sample::Keyword, Sample::List(1)],
        &[],
        ". =1",
    ),
    (
        Builtin::Reduce,
        &[Sample::Keyword, Sample::Int(10), Sample::Range(1, 3)],
        &[Sample::Int(11), Sample::Int(13)],
        ". :k(10 1) . :k(11 2) =13",
    ),
    (
        Builtin::Reduce,
        &[Sample::Keyword, Sample::Int(10), Sample::Nil],
        &[],
        "=10",
    ),
    (
        Builtin::Reduce,
        &[Sample::Keyword, Sample::Int(0), Sample::Vector(3)],
        &[Sample::Ended(4)],
        ". :k(0 1) =4",
    ),
    (
        Builtin::Reduce,
        &[Sample::Keyword, Sample::Before(1, 7)],
        &[Sample::List(1), Sample::Int(5)],
        ". ?#7 . :k(1 1) =5",
    ),
    (
        Builtin::Reduce,
        &[Sample::Keyword, Sample::Int(5)],
        &[],
        "?5 !type",
    ),
    (Builtin::Reduce, &[Sample::Keyword], &[], "!arity"),
    (
        Builtin::Reduce,
        &[Sample::Keyword, Sample::Int(0), Sample::Nil, Sample::Nil],
        &[],
        "!arity",
    ),
    (
        Builtin::Into,
        &[Sample::Vector(1), Sample::List(2)],
        &[Sample::Vector(2), Sample::Vector(3)],
        ". #fn([1] 1) . #fn([1 2] 2) =[1 2 3]",
    ),
    (Builtin::Into, &[Sample::Nil, Sample::Nil], &[], "=nil"),
    (
        Builtin::Into,
        &[Sample::Vector(1), Sample::Int(5)],
        &[],
        "?5 !type",
    ),
    (Builtin::Into, &[Sample::Vector(1)], &[], "!arity"),
];

#[test]
fn reduces(rt: HostRuntime) -> Result<(), Fail> {
    let line = differing(rt.alloc(), &REDUCTIONS).map_err(full)?;
    assert_eq!(rt; str::from_utf8(line.bytes()).unwrap_or("no text"), "");
    Ok(())
}
