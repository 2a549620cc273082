//! What is made at the greatest depth, and beyond it.
use crate::walking::full;
use seq_base::word_of;
use seq_turns::{
    Gathered, Grown, Made, Proper, ProperList, chunk_and_end, first_before, function_made,
    items_before, list_before, list_made, list_of_heads, one_more, put_first, vector_made,
};
use seq_values::{CellId, Line, Target, Value};
use seq_vector::NoMemory;
use std::alloc::Global;
use std::str;
use std::test::Fail;
use value_samples::{Sample, show};

/// What is made with an element. The part is number 7.
#[derive(Clone, Copy)]
enum Maker {
    Vector,
    /// A function with the element bound.
    Function,
    /// The element before a part.
    First,
    /// A chunk of the element before a part.
    Items,
    /// A chunk of the element, after which nothing comes.
    End,
    /// A list of the element.
    Heads,
    /// The same, of gathered elements.
    List,
    /// A list of the element before a part.
    ListFirst,
    /// The element after those of an empty vector.
    More,
    /// The element before nil.
    Cons,
    /// The number 9 before the element as a sequence.
    Onto,
}

fn one_gathered(alloc: Global, element: Proper) -> Result<Gathered, NoMemory> {
    match Gathered::none(alloc).grown(element)? {
        Grown::All(all) => Ok(all),
        Grown::TooMany => Err(NoMemory),
    }
}

#[tactic(auto, using(crate::proofs::Binding::one_bound))]
fn function(alloc: Global, element: Proper) -> Result<Made, NoMemory> {
    let bound = ProperList::one(alloc, element)?;
    Ok(function_made(Target::Constantly, bound))
}

#[tactic(auto, using(crate::proofs::Binding::one_there))]
fn last_chunk(alloc: Global, element: Proper) -> Result<Made, NoMemory> {
    let items = ProperList::one(alloc, element)?;
    chunk_and_end(alloc, items)
}

/// The element after those of a vector.
fn more(alloc: Global, whole: Proper, element: Proper) -> Result<Made, NoMemory> {
    let value = whole.value;
    match value {
        Value::Vector { depth, items } => one_more(alloc, depth, items, element),
        _ => Ok(Made::Value(element)),
    }
}

/// What stands before a part.
fn before_part(alloc: Global, maker: Maker, element: Proper, id: CellId) -> Result<Made, NoMemory> {
    match maker {
        Maker::Items => items_before(alloc, ProperList::one(alloc, element)?, id),
        Maker::ListFirst => list_before(alloc, one_gathered(alloc, element)?, id),
        _ => first_before(alloc, element, id),
    }
}

/// What is made of the element alone.
fn made_alone(alloc: Global, maker: Maker, element: Proper) -> Result<Made, NoMemory> {
    match maker {
        Maker::Function => function(alloc, element),
        Maker::End => last_chunk(alloc, element),
        Maker::Heads => list_of_heads(alloc, ProperList::one(alloc, element)?),
        Maker::List => list_made(alloc, one_gathered(alloc, element)?),
        Maker::Cons => put_first(alloc, element, Proper::nil()),
        Maker::Onto => put_first(alloc, Proper::of_int(9), element),
        Maker::More => more(alloc, Sample::Vector(0).value(alloc)?, element),
        _ => Ok(vector_made(ProperList::one(alloc, element)?)),
    }
}

fn made(alloc: Global, maker: Maker, element: Proper, id: CellId) -> Result<Made, NoMemory> {
    match maker {
        Maker::First => before_part(alloc, maker, element, id),
        Maker::Items => before_part(alloc, maker, element, id),
        Maker::ListFirst => before_part(alloc, maker, element, id),
        _ => made_alone(alloc, maker, element),
    }
}

/// What was made, or why it wasn't.
fn show_made(made: Made, line: &mut Line) -> Result<(), NoMemory> {
    match made {
        Made::Value(value) => show(&value.value, line),
        Made::Thrown(why) => line.append(word_of(why)),
    }
}

fn outcome(alloc: Global, maker: Maker, sample: Sample) -> Result<Line, NoMemory> {
    let mut line = Line::new(alloc);
    if let Some(id) = CellId::of(7) {
        let element = sample.value(alloc)?;
        show_made(made(alloc, maker, element, id)?, &mut line)?;
    }
    Ok(line)
}

/// What is made, with which element, and what comes of it.
const ROWS: [(Maker, Sample, &str); 37] = [
    (Maker::Vector, Sample::Int(5), "[5]"),
    (Maker::Vector, Sample::Deep(255), "[..]"),
    (Maker::Vector, Sample::Deep(256), "depth"),
    (Maker::Function, Sample::Int(5), "#fn"),
    (Maker::Function, Sample::Deep(255), "#fn"),
    (Maker::Function, Sample::Deep(256), "depth"),
    (Maker::First, Sample::Int(5), "(5 . #7)"),
    (Maker::First, Sample::Deep(255), "(.. . #7)"),
    (Maker::First, Sample::Deep(256), "depth"),
    (Maker::Items, Sample::Int(5), "{5 . #7}"),
    (Maker::Items, Sample::Deep(255), "{.. . #7}"),
    (Maker::Items, Sample::Deep(256), "depth"),
    (Maker::End, Sample::Int(5), "{5}"),
    (Maker::End, Sample::Deep(255), "{..}"),
    (Maker::End, Sample::Deep(256), "depth"),
    (Maker::Heads, Sample::Int(5), "(5)"),
    (Maker::Heads, Sample::Deep(255), "(..)"),
    (Maker::Heads, Sample::Deep(256), "depth"),
    (Maker::List, Sample::Int(5), "(5)"),
    (Maker::List, Sample::Deep(255), "(..)"),
    (Maker::List, Sample::Deep(256), "depth"),
    (Maker::Cons, Sample::Int(5), "(5)"),
    (Maker::Cons, Sample::Deep(255), "(..)"),
    (Maker::Cons, Sample::Deep(256), "depth"),
    (Maker::More, Sample::Int(5), "[5]"),
    (Maker::More, Sample::Deep(255), "[..]"),
    (Maker::More, Sample::Deep(256), "depth"),
    (Maker::ListFirst, Sample::Int(5), "(.. . #7)"),
    (Maker::ListFirst, Sample::Deep(254), "(.. . #7)"),
    (Maker::ListFirst, Sample::Deep(255), "depth"),
    (Maker::ListFirst, Sample::Deep(256), "depth"),
    (Maker::Onto, Sample::Int(5), "type"),
    (Maker::Onto, Sample::Deep(255), "(9 . ..)"),
    (Maker::Onto, Sample::Deep(256), "depth"),
    (Maker::Onto, Sample::List(2), "(9 1 2)"),
    (Maker::Onto, Sample::Part(3), "(9 . #3)"),
    (Maker::Onto, Sample::Nil, "(9)"),
];

#[test]
fn depth_is_looked_at(rt: HostRuntime) -> Result<(), Fail> {
    let alloc = rt.alloc();
    for (maker, sample, expected) in &ROWS {
        let line = outcome(alloc, *maker, *sample).map_err(full)?;
        let found = str::from_utf8(line.bytes()).unwrap_or("no text");
        assert_eq!(rt; found, *expected);
    }
    Ok(())
}

/// Without elements there is no chunk and no list.
#[test]
fn nothing_is_made_of_none(rt: HostRuntime) -> Result<(), Fail> {
    let alloc = rt.alloc();
    let mut line = Line::new(alloc);
    show_made(
        list_of_heads(alloc, ProperList::none()).map_err(full)?,
        &mut line,
    )
    .map_err(full)?;
    if let Some(id) = CellId::of(7) {
        let alone = items_before(alloc, ProperList::none(), id).map_err(full)?;
        show_made(alone, &mut line).map_err(full)?;
    }
    assert_eq!(rt; str::from_utf8(line.bytes()).unwrap_or("no text"), "()#7");
    Ok(())
}
