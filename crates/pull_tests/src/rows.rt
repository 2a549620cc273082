//! How a row is compared with what a rule does.
use crate::driving::{full, run};
use crate::given::{Given, values_given};
use pull_rules::{begin, begin_word, is_stage_word};
use seq_values::{Builtin, Op};
use std::alloc::Global;
use std::str;
use std::test::Fail;
use turn_lines::{Elements, Keeper, Record};

/// How many outputs end a pull.
const ENOUGH: u32 = 32;

/// A word, its arguments, and the lines of its call, of the part that it makes, and of those that this makes one after the other.
pub(crate) type Row = (Builtin, &'static [Given], &'static [&'static str]);

/// The call of a word.
fn word_line(
    alloc: Global,
    word: Builtin,
    args: &[Given],
    record: &mut Record,
    keeper: &mut Keeper,
    elements: Elements,
) -> Result<(), Fail> {
    let args = values_given(alloc, args).map_err(full)?;
    if !is_stage_word(word) {
        return Err(Fail::from("no word of this crate"));
    }
    run(
        alloc,
        begin_word(word, args.items),
        record,
        keeper,
        elements,
    )
}

/// The work of the part that was made last.
fn part_line(
    alloc: Global,
    record: &mut Record,
    keeper: &mut Keeper,
    elements: Elements,
) -> Result<(), Fail> {
    match keeper.take() {
        None => Err(Fail::from("no part was made")),
        Some(part) => {
            if part.term.op != Op::Pull {
                return Err(Fail::from("no pull was made"));
            }
            run(alloc, begin(part.term, ENOUGH), record, keeper, elements)
        }
    }
}

/// The line that isn't the one of the row.
fn another(record: &Record) -> Fail {
    Fail::from(str::from_utf8(record.bytes()).unwrap_or("no text"))
}

/// A rule does what a row says.
fn row_holds(alloc: Global, row: &Row, elements: Elements) -> Result<(), Fail> {
    let (word, args, lines) = row;
    let mut record = Record::new(alloc);
    let mut keeper = Keeper::new((0, 0));
    for (at, line) in lines.iter().enumerate() {
        if at == 0 {
            word_line(alloc, *word, args, &mut record, &mut keeper, elements)?;
        } else {
            part_line(alloc, &mut record, &mut keeper, elements)?;
        }
        if record.bytes() != line.as_bytes() {
            return Err(another(&record));
        }
    }
    Ok(())
}

/// Rules do what the rows say.
pub(crate) fn rows_hold(alloc: Global, rows: &[Row], elements: Elements) -> Result<(), Fail> {
    for row in rows {
        row_holds(alloc, row, elements)?;
    }
    Ok(())
}
