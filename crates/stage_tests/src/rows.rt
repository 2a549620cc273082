//! Each kind of transducer, with inputs that it passes and with inputs that it doesn't, and several in a row.
use crate::kinds::{Act, Piece};
use crate::making::{comp_of, comp_of_comps};
use crate::standing::transcript;
use seq_values::{Builtin, Line};
use seq_vector::NoMemory;
use std::alloc::Global;
use std::str;
use std::test::Fail;
use value_samples::Sample;

const INC: Sample = Sample::Word(Builtin::Inc);

const ODD: Sample = Sample::Word(Builtin::IsOdd);

const SELF: Sample = Sample::Word(Builtin::Identity);

const VECTOR: Sample = Sample::Word(Builtin::Vector);

const CAT: Piece = Piece::Only(Sample::Word(Builtin::Cat));

/// A function that gives nil.
const NONE: Sample = Sample::Keyword;

/// What `comp` composes, what its stages are given, and what they do.
type Row = (&'static [Piece], &'static [Act], &'static str);

fn full(_why: NoMemory) -> Fail {
    Fail::from("no memory")
}

fn row(alloc: Global, pieces: &[Piece], acts: &[Act]) -> Result<Line, NoMemory> {
    let xf = comp_of(alloc, pieces)?;
    transcript(alloc, xf, acts)
}

/// What the first row did that doesn't do what it says, and nothing where all do.
fn differing(alloc: Global, rows: &[Row]) -> Result<Line, NoMemory> {
    for (pieces, acts, expected) in rows {
        let mut line = row(alloc, pieces, acts)?;
        if line.bytes() != expected.as_bytes() {
            line.append(b"differs")?;
            return Ok(line);
        }
    }
    Ok(Line::new(alloc))
}

/// `map`, `filter`, `remove`, `keep` and `mapcat`.
const CALLS: [Row; 16] = [
    (
        &[Piece::Map(INC)],
        &[Act::Enter(1), Act::Enter(2), Act::Complete],
        "inc(1) >2 ; inc(2) >3 ; done; ",
    ),
    (
        &[Piece::Map(NONE)],
        &[Act::Item(Sample::True)],
        ":k(true) >nil ; ",
    ),
    (
        &[Piece::Filter(ODD)],
        &[Act::Enter(1), Act::Enter(2), Act::Complete],
        "odd?(1) >1 ; odd?(2) ; done; ",
    ),
    (
        &[Piece::Filter(SELF)],
        &[
            Act::Enter(0),
            Act::Item(Sample::Nil),
            Act::Item(Sample::False),
        ],
        "identity(0) >0 ; identity(nil) ; identity(false) ; ",
    ),
    (
        &[Piece::Remove(ODD)],
        &[Act::Enter(1), Act::Enter(2), Act::Complete],
        "odd?(1) ; odd?(2) >2 ; done; ",
    ),
    (
        &[Piece::Remove(SELF)],
        &[
            Act::Enter(0),
            Act::Item(Sample::Nil),
            Act::Item(Sample::False),
        ],
        "identity(0) ; identity(nil) >nil ; identity(false) >false ; ",
    ),
    (
        &[Piece::Keep(SELF)],
        &[
            Act::Enter(1),
            Act::Item(Sample::Nil),
            Act::Item(Sample::False),
        ],
        "identity(1) >1 ; identity(nil) ; identity(false) >false ; ",
    ),
    (
        &[Piece::Keep(INC)],
        &[Act::Enter(1), Act::Complete],
        "inc(1) >2 ; done; ",
    ),
    (&[Piece::Keep(NONE)], &[Act::Enter(1)], ":k(1) ; "),
    (
        &[Piece::Mapcat(VECTOR)],
        &[Act::Enter(4), Act::Complete],
        "vector(4) . >4 ; done; ",
    ),
    (
        &[Piece::Mapcat(SELF)],
        &[Act::Item(Sample::List(2))],
        "identity((1 2)) . >1 . >2 ; ",
    ),
    (
        &[Piece::Mapcat(SELF)],
        &[Act::Item(Sample::Part(2))],
        "identity(#2) ?#2 . >1 . >2 ; ",
    ),
    (&[Piece::Mapcat(NONE)], &[Act::Enter(4)], ":k(4) ; "),
    (
        &[Piece::Mapcat(INC)],
        &[Act::Enter(4), Act::Enter(5)],
        "inc(4) ?5 !type",
    ),
    (&[], &[Act::Enter(1), Act::Complete], ">1 ; done; "),
    (&[], &[Act::Enter(7)], ">7! done; "),
];

#[test]
fn functions_are_called(rt: HostRuntime) -> Result<(), Fail> {
    let line = differing(rt.alloc(), &CALLS).map_err(full)?;
    assert_eq!(rt; str::from_utf8(line.bytes()).unwrap_or("no text"), "");
    Ok(())
}

/// `take`, `take-while`, `drop`, `drop-while` and `partition-all`.
const COUNTS: [Row; 21] = [
    (
        &[Piece::Take(2)],
        &[Act::Enter(1), Act::Enter(2), Act::Enter(3), Act::Complete],
        ">1 ; >2 done; done; done; ",
    ),
    (&[Piece::Take(1)], &[Act::Enter(1)], ">1 done; "),
    (&[Piece::Take(0)], &[Act::Enter(1)], "done; "),
    (&[Piece::Take(-1)], &[Act::Enter(1)], "done; "),
    (
        &[Piece::TakeWhile(ODD)],
        &[Act::Enter(1), Act::Enter(2), Act::Complete],
        "odd?(1) >1 ; odd?(2) done; done; ",
    ),
    (&[Piece::TakeWhile(NONE)], &[Act::Enter(1)], ":k(1) done; "),
    (
        &[Piece::Drop(2)],
        &[Act::Enter(1), Act::Enter(2), Act::Enter(3), Act::Enter(4)],
        "; ; >3 ; >4 ; ",
    ),
    (&[Piece::Drop(0)], &[Act::Enter(1)], ">1 ; "),
    (
        &[Piece::Drop(-1)],
        &[Act::Enter(1), Act::Complete],
        ">1 ; done; ",
    ),
    (
        &[Piece::DropWhile(ODD)],
        &[Act::Enter(1), Act::Enter(3), Act::Enter(4), Act::Enter(5)],
        "odd?(1) ; odd?(3) ; odd?(4) >4 ; >5 ; ",
    ),
    (
        &[Piece::DropWhile(NONE)],
        &[Act::Enter(1), Act::Enter(2), Act::Complete],
        ":k(1) >1 ; >2 ; done; ",
    ),
    (
        &[Piece::PartitionAll(2)],
        &[Act::Enter(1), Act::Enter(2), Act::Enter(3), Act::Complete],
        "; >[1 2] ; ; >[3] done; ",
    ),
    (
        &[Piece::PartitionAll(2)],
        &[Act::Enter(1), Act::Complete],
        "; >[1] done; ",
    ),
    (
        &[Piece::PartitionAll(3)],
        &[Act::Enter(1), Act::Enter(2), Act::Complete],
        "; ; >[1 2] done; ",
    ),
    (
        &[Piece::PartitionAll(2)],
        &[Act::Enter(1), Act::Enter(2), Act::Complete],
        "; >[1 2] ; done; ",
    ),
    (
        &[Piece::PartitionAll(1)],
        &[Act::Enter(1), Act::Enter(2), Act::Complete],
        ">[1] ; >[2] ; done; ",
    ),
    (&[Piece::PartitionAll(2)], &[Act::Complete], "done; "),
    (
        &[Piece::PartitionAll(9223372036854775807)],
        &[Act::Enter(1), Act::Complete],
        "; >[1] done; ",
    ),
    (
        &[Piece::PartitionAll(1)],
        &[Act::Item(Sample::Deep(255))],
        ">[..] ; ",
    ),
    (
        &[Piece::PartitionAll(1)],
        &[Act::Item(Sample::Deep(256)), Act::Enter(1)],
        "!depth",
    ),
    (
        &[Piece::PartitionAll(2)],
        &[Act::Item(Sample::Deep(256)), Act::Enter(1)],
        "!depth",
    ),
];

#[test]
fn inputs_are_counted(rt: HostRuntime) -> Result<(), Fail> {
    let line = differing(rt.alloc(), &COUNTS).map_err(full)?;
    assert_eq!(rt; str::from_utf8(line.bytes()).unwrap_or("no text"), "");
    Ok(())
}

/// Collections whose elements enter, by `cat` and at the first stage.
const WALKS: [Row; 30] = [
    (
        &[CAT],
        &[Act::Item(Sample::Vector(2)), Act::Complete],
        ". >1 . >2 ; done; ",
    ),
    (&[CAT], &[Act::Item(Sample::List(2))], ". >1 . >2 ; "),
    (&[CAT], &[Act::Item(Sample::Seq(2))], ". >1 . >2 ; "),
    (&[CAT], &[Act::Item(Sample::Range(3, 5))], ". >3 . >4 ; "),
    (
        &[CAT],
        &[Act::Item(Sample::Chunk(2, 1))],
        ". >1 . >2 ?#1 . >1 ; ",
    ),
    (
        &[CAT],
        &[Act::Item(Sample::Before(1, 2))],
        ". >1 ?#2 . >1 . >2 ; ",
    ),
    (&[CAT], &[Act::Item(Sample::Part(2))], "?#2 . >1 . >2 ; "),
    (&[CAT], &[Act::Item(Sample::Part(90))], "?#90 ; "),
    (&[CAT], &[Act::Item(Sample::Nil)], "; "),
    (&[CAT], &[Act::Item(Sample::List(0))], "; "),
    (&[CAT], &[Act::Item(Sample::Vector(0))], "; "),
    (&[CAT], &[Act::Enter(5)], "?5 !type"),
    (&[CAT], &[Act::Item(Sample::Keyword)], "?:k !type"),
    (&[CAT], &[Act::Item(Sample::Text)], "?\"t\" !type"),
    (&[CAT], &[Act::Item(Sample::Ended(1))], "?!1 !type"),
    (
        &[CAT],
        &[Act::Item(Sample::Range(6, 9)), Act::Complete],
        ". >6 . >7! done; done; ",
    ),
    (
        &[CAT, CAT],
        &[Act::Item(Sample::Nested(2))],
        ". . >1 . >2 ; ",
    ),
    (
        &[CAT, Piece::Take(2)],
        &[Act::Item(Sample::Vector(4)), Act::Complete],
        ". >1 . >2 done; done; ",
    ),
    (
        &[CAT, CAT, Piece::Take(1)],
        &[Act::Item(Sample::Nested(3))],
        ". . >1 done; ",
    ),
    (
        &[Piece::Take(1), CAT],
        &[Act::Item(Sample::Vector(3))],
        ". >1 . >2 . >3 done; ",
    ),
    (
        &[Piece::Take(2), CAT],
        &[Act::Item(Sample::Vector(2)), Act::Item(Sample::Chunk(1, 2))],
        ". >1 . >2 ; . >1 ?#2 . >1 . >2 done; ",
    ),
    (
        &[],
        &[Act::Walk(Sample::Vector(2)), Act::Complete],
        ". >1 . >2 ; done; ",
    ),
    (&[], &[Act::Walk(Sample::Part(2))], "?#2 . >1 . >2 ; "),
    (&[], &[Act::Walk(Sample::Nil)], "; "),
    (&[], &[Act::Walk(Sample::Int(5))], "?5 !type"),
    (&[], &[Act::Walk(Sample::Range(6, 9))], ". >6 . >7! done; "),
    (
        &[Piece::Take(0)],
        &[Act::Walk(Sample::Vector(3))],
        ". done; ",
    ),
    (
        &[Piece::Take(1)],
        &[Act::Walk(Sample::Before(1, 2))],
        ". >1 done; ",
    ),
    (
        &[Piece::TakeWhile(ODD)],
        &[Act::Walk(Sample::Vector(4))],
        ". odd?(1) >1 . odd?(2) done; ",
    ),
    (
        &[Piece::Map(INC)],
        &[Act::Walk(Sample::List(2)), Act::Walk(Sample::Vector(1))],
        ". inc(1) >2 . inc(2) >3 ; . inc(1) >2 ; ",
    ),
];

#[test]
fn elements_enter(rt: HostRuntime) -> Result<(), Fail> {
    let line = differing(rt.alloc(), &WALKS).map_err(full)?;
    assert_eq!(rt; str::from_utf8(line.bytes()).unwrap_or("no text"), "");
    Ok(())
}

/// Stages of several kinds in a row, with an early end and with what the completion passes on.
const ROWS: [Row; 13] = [
    (
        &[Piece::Filter(ODD), Piece::Mapcat(VECTOR), Piece::Take(2)],
        &[Act::Walk(Sample::Range(0, 9)), Act::Complete],
        ". odd?(0) . odd?(1) vector(1) . >1 . odd?(2) . odd?(3) vector(3) . >3 done; done; ",
    ),
    (
        &[Piece::Take(3), Piece::PartitionAll(2)],
        &[Act::Walk(Sample::Range(0, 9)), Act::Complete],
        ". . >[0 1] . done; >[2] done; ",
    ),
    (
        &[Piece::PartitionAll(2), Piece::Take(1)],
        &[Act::Walk(Sample::Range(0, 9)), Act::Complete],
        ". . >[0 1] done; done; ",
    ),
    (
        &[Piece::PartitionAll(2), Piece::TakeWhile(NONE)],
        &[Act::Enter(1), Act::Complete],
        "; :k([1]) done; ",
    ),
    (
        &[Piece::PartitionAll(2), Piece::PartitionAll(2)],
        &[Act::Enter(1), Act::Enter(2), Act::Enter(3), Act::Complete],
        "; ; ; >[.. ..] done; ",
    ),
    (
        &[Piece::PartitionAll(2), Piece::PartitionAll(3)],
        &[Act::Enter(1), Act::Complete],
        "; >[..] done; ",
    ),
    (
        &[Piece::PartitionAll(2), CAT],
        &[Act::Enter(6), Act::Complete],
        "; . >6 done; ",
    ),
    (
        &[Piece::PartitionAll(4), CAT, Piece::PartitionAll(2)],
        &[Act::Enter(4), Act::Enter(5), Act::Enter(6), Act::Complete],
        "; ; ; . . >[4 5] . >[6] done; ",
    ),
    (
        &[Piece::PartitionAll(4), CAT, Piece::Take(1)],
        &[Act::Enter(4), Act::Enter(5), Act::Complete],
        "; ; . >4 done; ",
    ),
    (
        &[Piece::PartitionAll(4), CAT, Piece::Map(SELF)],
        &[Act::Enter(7), Act::Enter(8), Act::Complete],
        "; ; . identity(7) >7! done; ",
    ),
    (
        &[Piece::PartitionAll(3), CAT, CAT],
        &[Act::Enter(1), Act::Complete],
        "; . ?1 !type",
    ),
    (
        &[Piece::Drop(1), Piece::Keep(SELF), Piece::TakeWhile(ODD)],
        &[
            Act::Enter(1),
            Act::Enter(3),
            Act::Item(Sample::Nil),
            Act::Enter(4),
        ],
        "; identity(3) odd?(3) >3 ; identity(nil) ; identity(4) odd?(4) done; ",
    ),
    (
        &[Piece::Take(2), Piece::Filter(ODD), Piece::Map(INC)],
        &[Act::Enter(2), Act::Enter(3), Act::Complete],
        "odd?(2) ; odd?(3) inc(3) >4 done; done; ",
    ),
];

#[test]
fn stages_run_in_order(rt: HostRuntime) -> Result<(), Fail> {
    let line = differing(rt.alloc(), &ROWS).map_err(full)?;
    assert_eq!(rt; str::from_utf8(line.bytes()).unwrap_or("no text"), "");
    Ok(())
}

/// States that are kept after each input, and given back.
const STATES: [Row; 7] = [
    (
        &[Piece::Drop(1), Piece::Take(3), Piece::PartitionAll(2)],
        &[
            Act::Keep,
            Act::Enter(10),
            Act::Keep,
            Act::Enter(20),
            Act::Keep,
            Act::Enter(30),
            Act::Keep,
            Act::Enter(40),
            Act::Keep,
            Act::Enter(50),
            Act::Complete,
        ],
        "keeps 1 3 []; ; keeps 0 3 []; ; keeps 0 2 [20]; >[20 30] ; keeps 0 1 []; done; keeps 0 0 [40]; done; >[40] done; ",
    ),
    (
        &[Piece::DropWhile(ODD), Piece::Map(INC), Piece::Take(2)],
        &[
            Act::Keep,
            Act::Enter(1),
            Act::Keep,
            Act::Enter(2),
            Act::Keep,
            Act::Enter(3),
            Act::Keep,
        ],
        "keeps true 2; odd?(1) ; keeps true 2; odd?(2) inc(2) >3 ; keeps false 1; inc(3) >4 done; keeps false 0; ",
    ),
    (
        &[Piece::PartitionAll(3)],
        &[
            Act::Enter(1),
            Act::Keep,
            Act::Enter(2),
            Act::Keep,
            Act::Enter(3),
            Act::Keep,
            Act::Complete,
        ],
        "; keeps [1]; ; keeps [1 2]; >[1 2 3] ; keeps []; done; ",
    ),
    (
        &[Piece::Take(3)],
        &[
            Act::Keep,
            Act::Enter(1),
            Act::Keep,
            Act::Enter(2),
            Act::Enter(3),
        ],
        "keeps 3; >1 ; keeps 2; >2 ; >3 done; ",
    ),
    (
        &[Piece::Drop(-2), Piece::Take(-1)],
        &[Act::Keep, Act::Enter(1), Act::Keep],
        "keeps -2 -1; done; keeps -2 -1; ",
    ),
    (
        &[
            Piece::Map(INC),
            Piece::Filter(ODD),
            Piece::Remove(NONE),
            Piece::Keep(SELF),
            Piece::TakeWhile(SELF),
            Piece::Mapcat(VECTOR),
        ],
        &[Act::Keep, Act::Enter(2), Act::Keep],
        "keeps; inc(2) odd?(3) :k(3) identity(3) identity(3) vector(3) . >3 ; keeps; ",
    ),
    (
        &[CAT, Piece::Take(4)],
        &[
            Act::Walk(Sample::Nested(2)),
            Act::Keep,
            Act::Item(Sample::Vector(9)),
            Act::Keep,
        ],
        ". . >1 . >2 ; keeps 2; . >1 . >2 done; keeps 0; ",
    ),
];

#[test]
fn states_are_kept(rt: HostRuntime) -> Result<(), Fail> {
    let line = differing(rt.alloc(), &STATES).map_err(full)?;
    assert_eq!(rt; str::from_utf8(line.bytes()).unwrap_or("no text"), "");
    Ok(())
}

/// Values that aren't transducers, alone and in a composition.
const OTHERS: [Row; 16] = [
    (&[Piece::Only(INC)], &[], "!type"),
    (&[Piece::Only(Sample::Nil)], &[], "!type"),
    (&[Piece::Only(Sample::True)], &[], "!type"),
    (&[Piece::Only(Sample::Int(5))], &[], "!type"),
    (&[Piece::Only(Sample::Keyword)], &[], "!type"),
    (&[Piece::Only(Sample::Text)], &[], "!type"),
    (&[Piece::Only(Sample::Part(3))], &[], "!type"),
    (&[Piece::Only(Sample::Vector(2))], &[], "!type"),
    (&[Piece::Only(Sample::Range(0, 2))], &[], "!type"),
    (&[Piece::Only(Sample::Ended(1))], &[], "!type"),
    (&[Piece::User(0)], &[], "!type"),
    (&[Piece::Constantly(INC)], &[], "!type"),
    (&[Piece::Partial(INC)], &[], "!type"),
    (&[Piece::Map(INC), Piece::Only(INC)], &[], "!type"),
    (&[Piece::Only(Sample::Nil), Piece::Map(INC)], &[], "!type"),
    (&[Piece::Only(SELF)], &[Act::Enter(1)], ">1 ; "),
];

#[test]
fn other_values_throw(rt: HostRuntime) -> Result<(), Fail> {
    let line = differing(rt.alloc(), &OTHERS).map_err(full)?;
    assert_eq!(rt; str::from_utf8(line.bytes()).unwrap_or("no text"), "");
    Ok(())
}

/// Compositions that are composed, what their stages are given, and what they do.
type Nested = (&'static [&'static [Piece]], &'static [Act], &'static str);

fn nested(alloc: Global, inner: &[&[Piece]], acts: &[Act]) -> Result<Line, NoMemory> {
    let xf = comp_of_comps(alloc, inner)?;
    transcript(alloc, xf, acts)
}

fn nested_differing(alloc: Global, rows: &[Nested]) -> Result<Line, NoMemory> {
    for (inner, acts, expected) in rows {
        let mut line = nested(alloc, inner, acts)?;
        if line.bytes() != expected.as_bytes() {
            line.append(b"differs")?;
            return Ok(line);
        }
    }
    Ok(Line::new(alloc))
}

const NESTED: [Nested; 4] = [
    (
        &[&[Piece::Map(INC), Piece::Filter(ODD)], &[Piece::Take(1)]],
        &[Act::Enter(1), Act::Enter(2)],
        "inc(1) odd?(2) ; inc(2) odd?(3) >3 done; ",
    ),
    (
        &[
            &[Piece::Drop(1), CAT],
            &[],
            &[Piece::Map(INC), Piece::PartitionAll(2)],
        ],
        &[
            Act::Keep,
            Act::Enter(5),
            Act::Item(Sample::Vector(3)),
            Act::Keep,
            Act::Complete,
        ],
        "keeps 1 []; ; . inc(1) . inc(2) >[2 3] . inc(3) ; keeps 0 [4]; >[4] done; ",
    ),
    (&[&[], &[]], &[Act::Enter(1)], ">1 ; "),
    (
        &[
            &[Piece::Map(INC), CAT],
            &[Piece::Map(INC), Piece::Only(INC)],
        ],
        &[],
        "!type",
    ),
];

#[test]
fn compositions_are_opened(rt: HostRuntime) -> Result<(), Fail> {
    let line = nested_differing(rt.alloc(), &NESTED).map_err(full)?;
    assert_eq!(rt; str::from_utf8(line.bytes()).unwrap_or("no text"), "");
    Ok(())
}
