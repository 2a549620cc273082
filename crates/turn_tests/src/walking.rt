//! What `seq` finds, the elements of nodes, and first chunks.
use seq_plan::Cursor;
use seq_turns::{
    Chunked, Proper, ProperList, Rest, Seen, Sought, Split, chunk_of_cursor, rest_value, seek,
    seek_rest, seen_value, split_cursor,
};
use seq_values::{Builtin, Line};
use seq_vector::NoMemory;
use std::alloc::Global;
use std::str;
use std::test::Fail;
use value_samples::{Sample, show};

pub(crate) fn full(_why: NoMemory) -> Fail {
    Fail::from("no memory")
}

fn show_proper(value: Proper, line: &mut Line) -> Result<(), NoMemory> {
    show(&value.value, line)
}

fn show_seen(alloc: Global, what: Seen, line: &mut Line) -> Result<(), NoMemory> {
    let value = seen_value(alloc, what)?;
    show_proper(value, line)
}

/// What was found, and `?` before what has to be asked.
fn show_sought(alloc: Global, sought: Sought, line: &mut Line) -> Result<(), NoMemory> {
    match sought {
        Sought::Now(what) => show_seen(alloc, what, line),
        Sought::Ask(value) => {
            line.push(b'?')?;
            show_proper(value, line)
        }
    }
}

/// What `seq` of a sample finds.
fn found(alloc: Global, sample: Sample) -> Result<Line, NoMemory> {
    let mut line = Line::new(alloc);
    let sought = seek(sample.value(alloc)?);
    show_sought(alloc, sought, &mut line)?;
    Ok(line)
}

/// Where a walk over a sample begins, and `None` where there is no element at once.
fn start(alloc: Global, sample: Sample) -> Result<Option<Cursor>, NoMemory> {
    match seek(sample.value(alloc)?) {
        Sought::Now(Seen::At(cursor)) => Ok(Some(cursor)),
        _ => Ok(None),
    }
}

fn show_split(alloc: Global, split: Split, line: &mut Line) -> Result<(), NoMemory> {
    let Split { first, rest } = split;
    show_proper(first, line)?;
    line.append(b" | ")?;
    let value = rest_value(alloc, rest)?;
    show_proper(value, line)
}

/// The first element of a sample, and what comes after it.
fn first_and_rest(alloc: Global, sample: Sample) -> Result<Line, NoMemory> {
    let mut line = Line::new(alloc);
    if let Some(cursor) = start(alloc, sample)? {
        let split = split_cursor(cursor)?;
        show_split(alloc, split, &mut line)?;
    }
    Ok(line)
}

/// Shows the first element of a walk and goes on behind it, where that is there at once.
fn passed(alloc: Global, cursor: Cursor, line: &mut Line) -> Result<Option<Cursor>, NoMemory> {
    let Split { first, rest } = split_cursor(cursor)?;
    show_proper(first, line)?;
    line.push(b' ')?;
    behind(alloc, rest, line)
}

fn behind(alloc: Global, rest: Rest, line: &mut Line) -> Result<Option<Cursor>, NoMemory> {
    match seek_rest(rest) {
        Sought::Now(Seen::At(cursor)) => Ok(Some(cursor)),
        other => {
            show_sought(alloc, other, line)?;
            Ok(None)
        }
    }
}

/// All elements of a sample, up to what has to be asked or to the end.
fn walked(alloc: Global, sample: Sample) -> Result<Line, NoMemory> {
    let mut line = Line::new(alloc);
    let mut next = start(alloc, sample)?;
    for _ in 0..64 {
        match next {
            Some(cursor) => next = passed(alloc, cursor, &mut line)?,
            None => return Ok(line),
        }
    }
    line.append(b"no end")?;
    Ok(line)
}

fn show_items(items: ProperList, line: &mut Line) -> Result<(), NoMemory> {
    for at in 0..items.items.len() {
        if let Some(item) = items.items.get(at) {
            show(item, line)?;
            line.push(b' ')?;
        }
    }
    Ok(())
}

fn show_chunk(chunked: Chunked, line: &mut Line) -> Result<(), NoMemory> {
    match chunked {
        Chunked::Single(_) => line.append(b"no chunk"),
        Chunked::Whole { items, rest } => {
            show_items(items, line)?;
            line.append(b"| ")?;
            show_proper(rest, line)
        }
    }
}

/// The place after some elements of a sample.
fn place(alloc: Global, sample: Sample, done: u32) -> Result<Option<Cursor>, NoMemory> {
    let mut passed_over = Line::new(alloc);
    let mut next = start(alloc, sample)?;
    for _ in 0..done {
        match next {
            Some(cursor) => next = passed(alloc, cursor, &mut passed_over)?,
            None => return Ok(None),
        }
    }
    Ok(next)
}

/// The first chunk after some elements of a sample, where chunks have four elements.
fn chunk(alloc: Global, sample: Sample, done: u32) -> Result<Line, NoMemory> {
    let mut line = Line::new(alloc);
    if let Some(cursor) = place(alloc, sample, done)? {
        let chunked = chunk_of_cursor(alloc, cursor, 4)?;
        show_chunk(chunked, &mut line)?;
    }
    Ok(line)
}

/// What is asked of a sample.
#[derive(Clone, Copy)]
enum Query {
    Seq,
    FirstAndRest,
    Walk,
    /// The first chunk after so many elements.
    Chunk(u32),
}

fn answered(alloc: Global, query: Query, sample: Sample) -> Result<Line, NoMemory> {
    match query {
        Query::Seq => found(alloc, sample),
        Query::FirstAndRest => first_and_rest(alloc, sample),
        Query::Walk => walked(alloc, sample),
        Query::Chunk(done) => chunk(alloc, sample, done),
    }
}

const TOP: i64 = 9223372036854775805;

const GREATEST: i64 = 9223372036854775807;

/// What is asked, a sample, and what is found.
const ROWS: [(Query, Sample, &str); 51] = [
    (Query::Seq, Sample::Nil, "nil"),
    (Query::Seq, Sample::True, "?true"),
    (Query::Seq, Sample::Int(5), "?5"),
    (Query::Seq, Sample::Keyword, "?:k"),
    (Query::Seq, Sample::Text, "?\"t\""),
    (Query::Seq, Sample::Word(Builtin::Inc), "?#fn"),
    (Query::Seq, Sample::Ended(4), "?!4"),
    (Query::Seq, Sample::Part(7), "?#7"),
    (Query::Seq, Sample::Vector(0), "nil"),
    (Query::Seq, Sample::Vector(3), "<1 2 3>"),
    (Query::Seq, Sample::List(0), "nil"),
    (Query::Seq, Sample::List(2), "(1 2)"),
    (Query::Seq, Sample::Chunk(2, 7), "{1 2 . #7}"),
    (Query::Seq, Sample::Range(1, 1), "nil"),
    (Query::Seq, Sample::Range(1, 4), "1..4"),
    (Query::Seq, Sample::Seq(2), "<1 2>"),
    (Query::FirstAndRest, Sample::Vector(3), "1 | <2 3>"),
    (Query::FirstAndRest, Sample::Vector(1), "1 | ()"),
    (Query::FirstAndRest, Sample::List(3), "1 | (2 3)"),
    (Query::FirstAndRest, Sample::List(1), "1 | ()"),
    (Query::FirstAndRest, Sample::Before(1, 7), "1 | #7"),
    (Query::FirstAndRest, Sample::Before(2, 7), "1 | (2 . #7)"),
    (Query::FirstAndRest, Sample::Chunk(2, 7), "1 | {2 . #7}"),
    (Query::FirstAndRest, Sample::Chunk(1, 7), "1 | #7"),
    (Query::FirstAndRest, Sample::Range(1, 4), "1 | 2..4"),
    (Query::FirstAndRest, Sample::Range(8, 9), "8 | ()"),
    (Query::FirstAndRest, Sample::Nested(2), "[1 2] | ()"),
    (Query::FirstAndRest, Sample::Nil, ""),
    (Query::Walk, Sample::Vector(3), "1 2 3 nil"),
    (Query::Walk, Sample::List(3), "1 2 3 nil"),
    (Query::Walk, Sample::Before(2, 7), "1 2 ?#7"),
    (Query::Walk, Sample::Chunk(3, 7), "1 2 3 ?#7"),
    (Query::Walk, Sample::Range(-2, 1), "-2 -1 0 nil"),
    (
        Query::Walk,
        Sample::Range(TOP, GREATEST),
        "9223372036854775805 9223372036854775806 nil",
    ),
    (Query::Walk, Sample::Vector(0), ""),
    (Query::Chunk(0), Sample::Range(0, 9), "0 1 2 3 | 4..9"),
    (Query::Chunk(0), Sample::Range(0, 4), "0 1 2 3 | ()"),
    (Query::Chunk(0), Sample::Range(5, 7), "5 6 | ()"),
    (Query::Chunk(0), Sample::Vector(9), "1 2 3 4 | <5 6 7 8 9>"),
    (Query::Chunk(0), Sample::Vector(4), "1 2 3 4 | ()"),
    (Query::Chunk(0), Sample::Vector(2), "1 2 | ()"),
    (Query::Chunk(0), Sample::Chunk(6, 7), "1 2 3 4 5 6 | #7"),
    (Query::Chunk(0), Sample::List(5), "no chunk"),
    (Query::Chunk(0), Sample::Before(2, 7), "no chunk"),
    (Query::Chunk(1), Sample::Range(0, 9), "1 2 3 | 4..9"),
    (Query::Chunk(1), Sample::Vector(9), "2 3 4 | <5 6 7 8 9>"),
    (Query::Chunk(1), Sample::Chunk(6, 7), "2 3 4 5 6 | #7"),
    (Query::Chunk(4), Sample::Range(0, 9), "4 5 6 7 | 8..9"),
    (Query::Chunk(4), Sample::Vector(9), "5 6 7 8 | <9>"),
    (Query::Chunk(6), Sample::Range(0, 9), "6 7 | 8..9"),
    (Query::Chunk(6), Sample::Vector(9), "7 8 | <9>"),
];

#[test]
fn each_node_is_walked(rt: HostRuntime) -> Result<(), Fail> {
    let alloc = rt.alloc();
    for (query, sample, expected) in &ROWS {
        let line = answered(alloc, *query, *sample).map_err(full)?;
        let found = str::from_utf8(line.bytes()).unwrap_or("no text");
        assert_eq!(rt; found, *expected);
    }
    Ok(())
}
