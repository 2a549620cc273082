//! Each kind of value with its text and the own steps that its printing takes: one for each value in it.
use crate::building::{Step, build, full};
use crate::driving::printed;
use seq_turns::{Made, Proper, ProperList, vector_made};
use std::alloc::Global;
use std::process::Abort;
use std::test::Fail;

const ROWS: [(&[Step], &str, usize); 32] = [
    (&[Step::Nil], "nil", 1),
    (&[Step::True], "true", 1),
    (&[Step::False], "false", 1),
    (&[Step::Int(0)], "0", 1),
    (&[Step::Int(-12)], "-12", 1),
    (
        &[Step::Int(-9223372036854775807 - 1)],
        "-9223372036854775808",
        1,
    ),
    (&[Step::Keyword("a-b")], ":a-b", 1),
    (&[Step::Text("")], "\"\"", 1),
    (&[Step::Text("a b")], "\"a b\"", 1),
    (
        &[Step::Text("\"\\\n\t\r\x0c\x08")],
        "\"\\\"\\\\\\n\\t\\r\\f\\b\"",
        1,
    ),
    (&[Step::Text("λ'")], "\"λ'\"", 1),
    (&[Step::Word], "#fn", 1),
    (&[Step::Vector(0)], "[]", 1),
    (&[Step::Int(1), Step::Vector(1)], "[1]", 2),
    (
        &[Step::Int(1), Step::Nil, Step::Keyword("k"), Step::Vector(3)],
        "[1 nil :k]",
        4,
    ),
    (&[Step::List(0)], "()", 1),
    (&[Step::Text("x"), Step::List(1)], "(\"x\")", 2),
    (
        &[Step::Int(1), Step::Int(2), Step::Int(3), Step::List(3)],
        "(1 2 3)",
        4,
    ),
    (&[Step::Range(3, 6)], "(3 4 5)", 4),
    (&[Step::Range(3, 3)], "()", 1),
    (
        &[Step::Int(7), Step::Int(8), Step::Vector(2), Step::Seq],
        "(7 8)",
        3,
    ),
    (&[Step::Int(5), Step::Reduced], "#reduced 5", 2),
    (
        &[Step::Vector(0), Step::Reduced, Step::Reduced],
        "#reduced #reduced []",
        3,
    ),
    (
        &[Step::List(0), Step::Vector(0), Step::Vector(2)],
        "[() []]",
        3,
    ),
    (
        &[
            Step::Int(1),
            Step::Int(2),
            Step::List(2),
            Step::Int(3),
            Step::Reduced,
            Step::Vector(2),
            Step::Int(4),
            Step::List(2),
        ],
        "([(1 2) #reduced 3] 4)",
        8,
    ),
    (&[Step::Part(1)], "(1 2 3)", 4),
    (&[Step::Part(2)], "()", 1),
    (&[Step::Part(3)], "((1 2 3) ())", 6),
    (
        &[Step::Int(0), Step::Before(4), Step::Nil, Step::Vector(2)],
        "[(0 4 1 2 3) nil]",
        8,
    ),
    (&[Step::Part(9)], "throws", 1),
    (&[Step::Int(0), Step::Before(5)], "throws", 3),
    (
        &[Step::Int(1), Step::Part(5), Step::Int(2), Step::Vector(3)],
        "throws",
        4,
    ),
];

fn row(
    rt: &impl Abort,
    alloc: Global,
    steps: &[Step],
    text: &str,
    count: usize,
) -> Result<(), Fail> {
    let value = build(alloc, steps)?;
    let (shown, taken) = printed(alloc, value)?;
    assert_eq!(rt; shown.as_str(), text);
    assert_eq!(rt; taken, count, "steps of {text}");
    Ok(())
}

#[test]
fn values_are_printed(rt: HostRuntime) -> Result<(), Fail> {
    let alloc = rt.alloc();
    for (steps, text, count) in ROWS {
        row(&rt, alloc, steps, text, count)?;
    }
    Ok(())
}

/// An empty vector in so many vectors.
fn nested(alloc: Global, depth: usize) -> Result<Proper, Fail> {
    let mut value = build(alloc, &[Step::Vector(0)])?;
    for _ in 0..depth {
        let items = ProperList::one(alloc, value).map_err(full)?;
        match vector_made(items) {
            Made::Value(whole) => value = whole,
            Made::Thrown(_) => return Err(Fail::from("too deep")),
        }
    }
    Ok(value)
}

fn brackets(alloc: Global, depth: usize) -> Result<String, Fail> {
    let mut out = String::new(alloc);
    for _ in 0..depth {
        out.push_str("[")?;
    }
    for _ in 0..depth {
        out.push_str("]")?;
    }
    Ok(out)
}

#[test]
fn deep_vectors_are_printed(rt: HostRuntime) -> Result<(), Fail> {
    let alloc = rt.alloc();
    let value = nested(alloc, 199)?;
    let (shown, taken) = printed(alloc, value)?;
    let wanted = brackets(alloc, 200)?;
    assert_eq!(rt; shown.as_str(), wanted.as_str());
    assert_eq!(rt; taken, 200);
    Ok(())
}
