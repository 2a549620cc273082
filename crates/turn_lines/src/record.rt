//! What a rule asked, turn by turn, as a line.
use crate::shown::{write_count, write_part, write_term, write_thrown, write_value};
use seq_values::{CellId, Kind, Line, Op, Term, Turn, Value};
use seq_vector::NoMemory;
use std::alloc::Global;

/// What was asked so far. Calls, own steps and futures of calls that come one after the other are counted.
#[derive(Drop)]
pub struct Record {
    line: Line,
    calls: u32,
    steps: u32,
    futures: u32,
    made: u32,
}

impl Record {
    /// Nothing was asked, and no part was made.
    pub fn new(alloc: Global) -> Record {
        Record {
            line: Line::new(alloc),
            calls: 0,
            steps: 0,
            futures: 0,
            made: 0,
        }
    }

    /// The line so far.
    pub fn bytes(&self) -> &[u8] {
        self.line.bytes()
    }

    /// Begins a new line. Parts are numbered on.
    pub fn turn_over(&mut self) {
        self.line.cut(0);
    }

    /// How many parts were made, which is the number of the last one.
    pub fn made(&self) -> u32 {
        self.made
    }

    /// Writes what was counted.
    fn write_counts(&mut self) -> Result<(), NoMemory> {
        if self.calls > 0 {
            write_count(&mut self.line, self.calls, b" calls, ")?;
            self.calls = 0;
        }
        if self.steps > 0 {
            write_count(&mut self.line, self.steps, b" steps, ")?;
            self.steps = 0;
        }
        if self.futures > 0 {
            write_count(&mut self.line, self.futures, b" futures, ")?;
            self.futures = 0;
        }
        Ok(())
    }

    fn note_value(&mut self, what: &[u8], value: &Value, after: &[u8]) -> Result<(), NoMemory> {
        self.write_counts()?;
        self.line.append(what)?;
        write_value(&mut self.line, value)?;
        self.line.append(after)
    }

    fn note_part(&mut self, id: CellId) -> Result<(), NoMemory> {
        self.write_counts()?;
        self.line.append(b"ask ")?;
        write_part(&mut self.line, id)?;
        self.line.append(b", ")
    }

    fn note_made(&mut self, kind: Kind, term: &Term) -> Result<(), NoMemory> {
        self.made = self.made.saturating_add(1);
        if term.op == Op::Call {
            self.futures = self.futures.saturating_add(1);
            return Ok(());
        }
        self.write_counts()?;
        write_term(&mut self.line, kind, term)?;
        self.line.append(b"#")?;
        write_count(&mut self.line, self.made, b", ")
    }

    /// Writes down what a rule asks, or how it ends.
    pub fn note(&mut self, turn: &Turn) -> Result<(), NoMemory> {
        match turn {
            Turn::Need(id) => self.note_part(*id),
            Turn::Seq(value) => self.note_value(b"seq ", value, b", "),
            Turn::Visit => {
                self.steps = self.steps.saturating_add(1);
                Ok(())
            }
            Turn::Apply { .. } => {
                self.calls = self.calls.saturating_add(1);
                Ok(())
            }
            Turn::Make { kind, term } => self.note_made(*kind, term),
            Turn::Give(value) => self.note_value(b"= ", value, b""),
            Turn::Throw(why) => {
                self.write_counts()?;
                write_thrown(&mut self.line, *why)
            }
        }
    }
}
