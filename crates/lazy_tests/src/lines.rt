//! A word is called, and each part that it makes is run, and what they ask is compared with the lines of a row.
use crate::driving::{full, run};
use lazy_rules::{begin, begin_word, is_lazy_word};
use seq_values::Builtin;
use std::alloc::Global;
use std::str;
use std::test::Fail;
use turn_lines::{Arg, Elements, Keeper, Record, values_of};

/// How many elements a chunk of a range or of a vector's seq has.
const CHUNK: u32 = 32;

/// A word, its arguments, and the lines of its call, of the part that it makes, and of those that this makes one after the other.
pub(crate) type Row = (Builtin, &'static [Arg], &'static [&'static str]);

/// The call of a word.
fn word_line(
    alloc: Global,
    word: Builtin,
    args: &[Arg],
    record: &mut Record,
    keeper: &mut Keeper,
) -> Result<(), Fail> {
    let args = values_of(alloc, args).map_err(full)?;
    if !is_lazy_word(word) {
        return Err(Fail::from("no word of this crate"));
    }
    run(
        alloc,
        begin_word(word, args.items),
        record,
        keeper,
        Elements::Numbers,
    )
}

/// The work of the part that was made last.
fn part_line(alloc: Global, record: &mut Record, keeper: &mut Keeper) -> Result<(), Fail> {
    match keeper.take() {
        None => Err(Fail::from("no part was made")),
        Some(part) => run(
            alloc,
            begin(part.term, CHUNK),
            record,
            keeper,
            Elements::Numbers,
        ),
    }
}

/// The line that the call or a part writes: the call comes first.
fn line_at(
    alloc: Global,
    at: usize,
    word: Builtin,
    args: &[Arg],
    record: &mut Record,
    keeper: &mut Keeper,
) -> Result<(), Fail> {
    if at == 0 {
        word_line(alloc, word, args, record, keeper)
    } else {
        part_line(alloc, record, keeper)
    }
}

/// Whether each line is as the row has it. The record has the first one that isn't.
fn goes_so(
    alloc: Global,
    word: Builtin,
    args: &[Arg],
    lines: &[&str],
    record: &mut Record,
) -> Result<bool, Fail> {
    let mut keeper = Keeper::new((0, 0));
    for (at, line) in lines.iter().enumerate() {
        line_at(alloc, at, word, args, record, &mut keeper)?;
        if record.bytes() != line.as_bytes() {
            return Ok(false);
        }
    }
    Ok(true)
}

/// The line that isn't the one of the row.
fn another(record: &Record) -> Fail {
    Fail::from(str::from_utf8(record.bytes()).unwrap_or("no text"))
}

/// Rules do what the rows say.
pub(crate) fn rows_hold(alloc: Global, rows: &[Row]) -> Result<(), Fail> {
    for (word, args, lines) in rows {
        let mut record = Record::new(alloc);
        if !goes_so(alloc, *word, args, lines, &mut record)? {
            return Err(another(&record));
        }
    }
    Ok(())
}
