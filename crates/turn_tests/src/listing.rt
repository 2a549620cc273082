//! Values that are gathered, arguments by their places, and what is looked at in a value.
use crate::walking::full;
use seq_turns::{Gathered, Grown, Proper, ProperList, is_truthy, number_of, part_of};
use seq_values::Line;
use seq_vector::NoMemory;
use std::alloc::Global;
use std::str;
use std::test::Fail;
use value_samples::{Sample, samples, show};

/// The integers from 1 on, so many.
fn gathered(alloc: Global, count: u32) -> Result<Gathered, NoMemory> {
    let mut all = Gathered::with_room(alloc, 3)?;
    for done in 0..count {
        match all.grown(Proper::of_int(done as i64 + 1))? {
            Grown::All(more) => all = more,
            Grown::TooMany => return Err(NoMemory),
        }
    }
    Ok(all)
}

fn show_all(values: &ProperList, line: &mut Line) -> Result<(), NoMemory> {
    for at in 0..values.len() {
        show_at(values, at, line)?;
    }
    Ok(())
}

/// The value at a place, or `-` where there is none.
fn show_at(values: &ProperList, at: usize, line: &mut Line) -> Result<(), NoMemory> {
    match values.get(at)? {
        Some(value) => show(&value.value, line),
        None => line.push(b'-'),
    }
}

fn turned_round(alloc: Global, count: u32) -> Result<Line, NoMemory> {
    let mut line = Line::new(alloc);
    let values = gathered(alloc, count)?.turned().listed(alloc)?;
    show_all(&values, &mut line)?;
    show_at(&values, values.len(), &mut line)?;
    Ok(line)
}

#[test]
fn values_are_gathered(rt: HostRuntime) -> Result<(), Fail> {
    let alloc = rt.alloc();
    assert_eq!(rt; gathered(alloc, 0).map_err(full)?.len(), 0);
    assert_eq!(rt; gathered(alloc, 5).map_err(full)?.len(), 5);
    let line = turned_round(alloc, 5).map_err(full)?;
    assert_eq!(rt; str::from_utf8(line.bytes()).unwrap_or("no text"), "54321-");
    Ok(())
}

fn show_only(values: &ProperList, line: &mut Line) -> Result<(), NoMemory> {
    match values.only()? {
        Some(value) => show(&value.value, line),
        None => line.push(b'-'),
    }
}

fn show_pair(values: &ProperList, line: &mut Line) -> Result<(), NoMemory> {
    match values.pair()? {
        Some((first, second)) => {
            show(&first.value, line)?;
            show(&second.value, line)
        }
        None => line.push(b'-'),
    }
}

/// The only value and the only pair of some samples.
fn by_number(alloc: Global, all: &[Sample]) -> Result<Line, NoMemory> {
    let mut line = Line::new(alloc);
    let values = samples(alloc, all)?;
    show_only(&values, &mut line)?;
    line.push(b' ')?;
    show_pair(&values, &mut line)?;
    Ok(line)
}

const NUMBERED: [(&[Sample], &str); 4] = [
    (&[], "- -"),
    (&[Sample::Int(8)], "8 -"),
    (&[Sample::Int(8), Sample::Nil], "- 8nil"),
    (&[Sample::Int(8), Sample::Nil, Sample::True], "- -"),
];

#[test]
fn arguments_by_number(rt: HostRuntime) -> Result<(), Fail> {
    let alloc = rt.alloc();
    for (all, expected) in &NUMBERED {
        let line = by_number(alloc, all).map_err(full)?;
        assert_eq!(rt;
            str::from_utf8(line.bytes()).unwrap_or("no text"),
            *expected
        );
    }
    Ok(())
}

/// The integer that a sample is, the number of the part that it is, and whether it counts as true.
fn looked_at(alloc: Global, sample: Sample) -> Result<(Option<i64>, Option<u32>, bool), NoMemory> {
    let value = sample.value(alloc)?;
    let part = match part_of(&value.value) {
        Some(id) => Some(id.number()),
        None => None,
    };
    Ok((number_of(&value.value), part, is_truthy(&value.value)))
}

const LOOKS: [(Sample, Option<i64>, Option<u32>, bool); 9] = [
    (Sample::Nil, None, None, false),
    (Sample::False, None, None, false),
    (Sample::True, None, None, true),
    (Sample::Int(0), Some(0), None, true),
    (Sample::Int(-4), Some(-4), None, true),
    (Sample::Part(7), None, Some(7), true),
    (Sample::Vector(0), None, None, true),
    (Sample::List(0), None, None, true),
    (Sample::Text, None, None, true),
];

#[test]
fn each_value_is_looked_at(rt: HostRuntime) -> Result<(), Fail> {
    let alloc = rt.alloc();
    for (sample, number, part, truth) in &LOOKS {
        let found = looked_at(alloc, *sample).map_err(full)?;
        assert!(rt; found == (*number, *part, *truth));
    }
    Ok(())
}
