//! The values.
ghost use Rattle.std.specs.Prelude.{◌≡◌, IfOk};
ghost use Rattle.seq_turns.specs.Turning.{IsSeq};
ghost use Rattle.seq_values.specs.Model as M;
ghost use Rattle.seq_values.specs.Plain.{plain};

use crate::kinds::Sample;
use seq_turns::{
    Gathered, Grown, Made, Proper, ProperList, Sought, items_before, put_first, seek, seen_value,
    vector_made,
};
use seq_values::{CellId, Node, Text, Value, reduced, word_value};
use seq_vector::NoMemory;
use std::alloc::Global;

/// A value that was made, and nil in place of one that couldn't be.
pub fn value_made(made: Made) -> Proper {
    match made {
        Made::Value(value) => value,
        Made::Thrown(_) => Proper::nil(),
    }
}

fn one_more(all: Gathered, last: Proper) -> Result<Gathered, NoMemory> {
    match all.grown(last)? {
        Grown::All(all) => Ok(all),
        Grown::TooMany => Err(NoMemory),
    }
}

/// The integers from 1 on, so many.
fn numbers(alloc: Global, count: u32) -> Result<ProperList, NoMemory> {
    let mut all = Gathered::none(alloc);
    for done in 0..count {
        all = one_more(all, Proper::of_int(done as i64 + 1))?;
    }
    all.listed(alloc)
}

fn vector_of(alloc: Global, count: u32) -> Result<Proper, NoMemory> {
    let items = numbers(alloc, count)?;
    Ok(value_made(vector_made(items)))
}

fn holding(alloc: Global, only: Proper) -> Result<Proper, NoMemory> {
    let items = ProperList::one(alloc, only)?;
    Ok(value_made(vector_made(items)))
}

/// A list of the integers from 1 on, so many.
fn list_of(alloc: Global, count: u32) -> Result<Proper, NoMemory> {
    if count == 0 {
        return Ok(Proper::empty());
    }
    heads_before(alloc, count, Proper::nil())
}

/// The integers from 1 on before a value.
fn heads_before(alloc: Global, count: u32, rest: Proper) -> Result<Proper, NoMemory> {
    let mut whole = rest;
    for done in 0..count {
        let first = Proper::of_int((count - done) as i64);
        whole = value_made(put_first(alloc, first, whole)?);
    }
    Ok(whole)
}

/// A part, and nil for the number 0.
fn part_of(number: u32) -> Proper {
    match CellId::of(number) {
        Some(id) => Proper::of_part(id),
        None => Proper::nil(),
    }
}

/// The integers from 1 on in one chunk.
fn chunk_of(alloc: Global, count: u32, number: u32) -> Result<Proper, NoMemory> {
    match CellId::of(number) {
        Some(id) => {
            let items = numbers(alloc, count)?;
            Ok(value_made(items_before(alloc, items, id)?))
        }
        None => Ok(Proper::nil()),
    }
}

fn nothing(_value: Proper) -> Proper
    ensures { plain result.value ≡ M.nil }
{
    Proper::nil()
}

/// What `seq` finds of a value at once, and nil where it finds nothing.
#[tactic(auto, using(crate::proofs::Again::seen_again, crate::proofs::Again::nil_again))]
pub fn seq_of(alloc: Global, value: Proper) -> Result<Proper, NoMemory>
    ensures { IfOk result (λ v. IsSeq (plain v.value)) }
{
    match seek(value) {
        Sought::Now(what) => Ok(seen_value(alloc, what)?),
        Sought::Ask(value) => Ok(nothing(value)),
    }
}

fn ended(alloc: Global, number: i64) -> Result<Proper, NoMemory> {
    let value = reduced(alloc, Value::Int(number))?;
    Ok(Proper { value })
}

/// A vector that is so deep.
fn deep(alloc: Global, levels: u32) -> Result<Proper, NoMemory> {
    let mut value = vector_of(alloc, 0)?;
    for _ in 1..levels {
        value = holding(alloc, value)?;
    }
    Ok(value)
}

fn keyword(alloc: Global) -> Result<Proper, NoMemory> {
    let name = Text::of(alloc, b"k")?;
    Ok(Proper {
        value: Value::Keyword(name),
    })
}

fn text(alloc: Global) -> Result<Proper, NoMemory> {
    let text = Text::of(alloc, b"t")?;
    Ok(Proper {
        value: Value::Text(text),
    })
}

/// A word as a function.
fn word_of(sample: Sample) -> Proper {
    match sample {
        Sample::Word(word) => Proper {
            value: word_value(word),
        },
        _ => Proper::nil(),
    }
}

#[tactic(auto, using(seq_values::proofs::WellFormedLemmas::node_well))]
/// The integers from one up to another.
fn range_of(from: i64, end: i64) -> Proper {
    Proper {
        value: Value::Node(Node::range(from, end)),
    }
}

/// An atom, a function or a range, which hold no other values.
fn simple(alloc: Global, sample: Sample) -> Result<Proper, NoMemory> {
    match sample {
        Sample::True => Ok(Proper::of_truth(true)),
        Sample::False => Ok(Proper::of_truth(false)),
        Sample::Int(number) => Ok(Proper::of_int(number)),
        Sample::Keyword => keyword(alloc),
        Sample::Text => text(alloc),
        Sample::Part(number) => Ok(part_of(number)),
        Sample::Range(from, end) => Ok(range_of(from, end)),
        other => Ok(word_of(other)),
    }
}

impl Sample {
    /// The value.
    pub fn value(self, alloc: Global) -> Result<Proper, NoMemory> {
        match self {
            Sample::Vector(count) => vector_of(alloc, count),
            Sample::Nested(count) => holding(alloc, vector_of(alloc, count)?),
            Sample::List(count) => list_of(alloc, count),
            Sample::Before(count, part) => heads_before(alloc, count, part_of(part)),
            Sample::Chunk(count, part) => chunk_of(alloc, count, part),
            Sample::Seq(count) => seq_of(alloc, vector_of(alloc, count)?),
            Sample::Ended(number) => ended(alloc, number),
            Sample::Deep(levels) => deep(alloc, levels),
            other => simple(alloc, other),
        }
    }
}

/// The values of some samples.
pub fn samples(alloc: Global, all: &[Sample]) -> Result<ProperList, NoMemory> {
    let mut values = Gathered::none(alloc);
    for sample in all {
        values = one_more(values, sample.value(alloc)?)?;
    }
    values.listed(alloc)
}
