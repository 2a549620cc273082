//! Values of the rows, built one after another on a stack.
ghost use Rattle.std.specs.Prelude.{IfOk};
ghost use Rattle.seq_turns.specs.Turning.{IsSeq};
ghost use Rattle.seq_values.specs.Plain.{plain};

use seq_turns::{
    Gathered, Grown, Made, Proper, Sought, first_before, list_made, seek, seen_value, vector_made,
};
use seq_values::{Builtin, CellId, Node, Text, Value, depth_of, reduced, word_value};
use seq_vector::NoMemory;
use std::alloc::Global;
use std::test::Fail;

/// One step in building a value.
#[derive(Clone, Copy)]
pub(crate) enum Step {
    Nil,
    True,
    False,
    Int(i64),
    Keyword(&'static str),
    Text(&'static str),
    /// A function.
    Word,
    /// A lazy part, by its number.
    Part(u32),
    /// The integers from the first number up to the second, which is left out.
    Range(i64, i64),
    /// The last values, so many, as a vector.
    Vector(usize),
    /// The same as a list.
    List(usize),
    /// What `seq` gives of the last value.
    Seq,
    /// The last value before a lazy part, by the part's number.
    Before(u32),
    /// The last value, as `reduced` gives it.
    Reduced,
}

pub(crate) fn full(_why: NoMemory) -> Fail {
    Fail::from("no memory")
}

fn made(what: Made) -> Result<Proper, Fail> {
    match what {
        Made::Value(value) => Ok(value),
        Made::Thrown(_) => Err(Fail::from("too deep")),
    }
}

fn number_of_part(number: u32) -> Result<CellId, Fail> {
    match CellId::of(number) {
        Some(id) => Ok(id),
        None => Err(Fail::from("no part")),
    }
}

fn popped(stack: &mut Vec<Proper>) -> Result<Proper, Fail> {
    match stack.pop() {
        Some(value) => Ok(value),
        None => Err(Fail::from("no value")),
    }
}

fn grown(all: Gathered, last: Proper) -> Result<Gathered, Fail> {
    match all.grown(last).map_err(full)? {
        Grown::All(more) => Ok(more),
        Grown::TooMany => Err(Fail::from("too many")),
    }
}

/// The last values in order, so many.
fn last_values(alloc: Global, stack: &mut Vec<Proper>, count: usize) -> Result<Gathered, Fail> {
    let mut all = Gathered::none(alloc);
    for _ in 0..count {
        let value = popped(stack)?;
        all = grown(all, value)?;
    }
    Ok(all.turned())
}

fn vector_of(alloc: Global, stack: &mut Vec<Proper>, count: usize) -> Result<Proper, Fail> {
    let items = last_values(alloc, stack, count)?
        .listed(alloc)
        .map_err(full)?;
    made(vector_made(items))
}

fn list_of(alloc: Global, stack: &mut Vec<Proper>, count: usize) -> Result<Proper, Fail> {
    let items = last_values(alloc, stack, count)?;
    made(list_made(alloc, items).map_err(full)?)
}

#[tactic(auto, using(seq_plan::proofs::CursorLemmas::cursor_found))]
/// What `seq` of a value gives.
pub(crate) fn seq_of(alloc: Global, value: Proper) -> Result<Proper, Fail>
    ensures { IfOk result (λ v. IsSeq (plain v.value)) }
{
    match seek(value) {
        Sought::Now(what) => seen_value(alloc, what).map_err(full),
        Sought::Ask(_) => Err(Fail::from("no seq")),
    }
}

#[tactic(auto, using(seq_values::proofs::WellFormedLemmas::value_keeps))]
fn reduced_of(alloc: Global, value: Proper) -> Result<Proper, Fail> {
    if depth_of(&value.value) > 255 {
        return Err(Fail::from("too deep"));
    }
    let value = reduced(alloc, value.value).map_err(full)?;
    Ok(Proper { value })
}

fn keyword(alloc: Global, name: &str) -> Result<Proper, Fail> {
    let name = Text::of(alloc, name.as_bytes()).map_err(full)?;
    Ok(Proper {
        value: Value::Keyword(name),
    })
}

fn text(alloc: Global, text: &str) -> Result<Proper, Fail> {
    let text = Text::of(alloc, text.as_bytes()).map_err(full)?;
    Ok(Proper {
        value: Value::Text(text),
    })
}

#[tactic(auto, using(seq_values::proofs::WellFormedLemmas::node_well))]
fn range(from: i64, end: i64) -> Proper {
    Proper {
        value: Value::Node(Node::range(from, end)),
    }
}

fn word() -> Proper {
    Proper {
        value: word_value(Builtin::Plus),
    }
}

fn before_part(alloc: Global, stack: &mut Vec<Proper>, number: u32) -> Result<Proper, Fail> {
    let id = number_of_part(number)?;
    let first = popped(stack)?;
    made(first_before(alloc, first, id).map_err(full)?)
}

fn taken(alloc: Global, stack: &mut Vec<Proper>, step: Step) -> Result<Proper, Fail> {
    match step {
        Step::Nil => Ok(Proper::nil()),
        Step::True => Ok(Proper::of_truth(true)),
        Step::False => Ok(Proper::of_truth(false)),
        Step::Int(number) => Ok(Proper::of_int(number)),
        Step::Keyword(name) => keyword(alloc, name),
        Step::Text(bytes) => text(alloc, bytes),
        Step::Word => Ok(word()),
        Step::Part(number) => Ok(Proper::of_part(number_of_part(number)?)),
        Step::Range(from, end) => Ok(range(from, end)),
        Step::Vector(count) => vector_of(alloc, stack, count),
        Step::List(count) => list_of(alloc, stack, count),
        Step::Seq => seq_of(alloc, popped(stack)?),
        Step::Before(number) => before_part(alloc, stack, number),
        Step::Reduced => reduced_of(alloc, popped(stack)?),
    }
}

/// The value that the steps build, the last one on the stack.
pub(crate) fn build(alloc: Global, steps: &[Step]) -> Result<Proper, Fail> {
    let mut stack = Vec::new(alloc);
    for step in steps {
        let value = taken(alloc, &mut stack, *step)?;
        stack.push(value)?;
    }
    popped(&mut stack)
}
