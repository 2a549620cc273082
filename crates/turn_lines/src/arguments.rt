//! The arguments of a row.
use seq_turns::{Gathered, Made, Proper, ProperList, list_made, vector_made};
use seq_values::{Builtin, CellId, Node, Text, Value, word_value};
use seq_vector::NoMemory;
use std::alloc::Global;

/// An argument of a row.
#[derive(Clone, Copy)]
pub enum Arg {
    Nil,
    Int(i64),
    /// `:k`, which gives nil as a function.
    Keyword,
    /// `"t"`
    Text,
    /// A word as a function.
    Word(Builtin),
    /// `(range from end)`
    Range(i64, i64),
    /// The integers from the first up to the second, which is left out, as a vector.
    Vector(i64, i64),
    /// The same as a list.
    List(i64, i64),
    /// A part, by its number.
    Part(u32),
    /// A vector of a vector and so on, as deep as a value may be.
    Deepest,
}

/// The integers from one up to another, which is left out. No more than 64 of them.
fn integers(alloc: Global, from: i64, end: i64) -> Result<Gathered, NoMemory> {
    let mut all = Gathered::none(alloc);
    for number in from..end {
        if all.len() >= 64 {
            return Err(NoMemory);
        }
        all = all.and(Proper::of_int(number))?;
    }
    Ok(all)
}

/// What was made, and `NoMemory` where it was too deep.
pub(crate) fn made(what: Made) -> Result<Proper, NoMemory> {
    match what {
        Made::Value(value) => Ok(value),
        Made::Thrown(_) => Err(NoMemory),
    }
}

/// The integers as a vector.
pub(crate) fn vector_of(alloc: Global, from: i64, end: i64) -> Result<Proper, NoMemory> {
    let items = integers(alloc, from, end)?.listed(alloc)?;
    made(vector_made(items))
}

fn list_of(alloc: Global, from: i64, end: i64) -> Result<Proper, NoMemory> {
    let members = integers(alloc, from, end)?;
    made(list_made(alloc, members)?)
}

/// A part, and nil for the number 0.
pub(crate) fn part_of(number: u32) -> Proper {
    match CellId::of(number) {
        Some(id) => Proper::of_part(id),
        None => Proper::nil(),
    }
}

fn keyword(alloc: Global) -> Result<Proper, NoMemory> {
    let name = Text::of(alloc, b"k")?;
    Ok(Proper {
        value: Value::Keyword(name),
    })
}

fn text(alloc: Global) -> Result<Proper, NoMemory> {
    let text = Text::of(alloc, b"t")?;
    Ok(Proper {
        value: Value::Text(text),
    })
}

/// The integers as a range.
#[tactic(auto, using(seq_values::proofs::WellFormedLemmas::node_well))]
fn range_of(from: i64, end: i64) -> Proper {
    Proper {
        value: Value::Node(Node::range(from, end)),
    }
}

/// A vector in a vector and so on, 256 levels deep.
fn deepest(alloc: Global) -> Result<Proper, NoMemory> {
    let mut value = Proper::nil();
    for _ in 0..256 {
        let items = ProperList::one(alloc, value)?;
        value = made(vector_made(items))?;
    }
    Ok(value)
}

fn value_of(alloc: Global, arg: Arg) -> Result<Proper, NoMemory> {
    match arg {
        Arg::Nil => Ok(Proper::nil()),
        Arg::Int(number) => Ok(Proper::of_int(number)),
        Arg::Keyword => keyword(alloc),
        Arg::Text => text(alloc),
        Arg::Word(word) => Ok(Proper {
            value: word_value(word),
        }),
        Arg::Range(from, end) => Ok(range_of(from, end)),
        Arg::Vector(from, end) => vector_of(alloc, from, end),
        Arg::List(from, end) => list_of(alloc, from, end),
        Arg::Part(number) => Ok(part_of(number)),
        Arg::Deepest => deepest(alloc),
    }
}

/// The values of some arguments, no more than 64.
pub fn values_of(alloc: Global, args: &[Arg]) -> Result<ProperList, NoMemory> {
    let mut all = Gathered::none(alloc);
    for arg in args {
        if all.len() >= 64 {
            return Err(NoMemory);
        }
        let value = value_of(alloc, *arg)?;
        all = all.and(value)?;
    }
    let values = all.listed(alloc)?;
    Ok(values)
}
