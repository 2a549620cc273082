//! What an evaluation is made of.

use cell_book::Work;
use clj_script::Program;
use eval_frames::{Asker, Code, Event};
use eval_works::Halt;
use lawful_works::Stop;
use seq_base::Thrown;
use seq_turns::Rule;
use seq_values::{CellId, Value};

/// What all works of a program go by: the program, the number of processors, and how many own steps each may take.
#[derive(Drop)]
pub struct Setting {
    pub program: Program,
    pub processors: u32,
    pub limit: u64,
}

/// A work that waits for the part that the work above it is on. It must be put away.
pub struct Waiting<R: Rule> {
    pub work: Work,
    pub code: Code,
    pub asker: Asker<R>,
}

/// The work that goes on, and what it came to. It must be put away.
pub struct Top<R: Rule> {
    pub work: Work,
    pub code: Code,
    pub event: Event<R>,
}

/// Open works, of which the top one goes on. The others stand below, the lowest first. It must be put away.
pub struct Stack<R: Rule> {
    pub below: Vec<Waiting<R>>,
    pub top: Top<R>,
}

/// What a turn of a stack comes to.
pub enum Turned<R: Rule> {
    On(Stack<R>),
    /// The part that the top work asks for is evaluated by the claim with this number.
    Waits {
        stack: Stack<R>,
        cell: CellId,
        claim: u128,
    },
    /// The lowest work ended with this, and none is open.
    Over(Result<Value, Thrown>),
    /// The works are open and go on no more.
    Halts {
        below: Vec<Waiting<R>>,
        work: Work,
        why: Halt,
    },
}

/// What a step of an evaluation comes to.
#[derive(Drop)]
pub enum Progress {
    /// It goes on.
    Running,
    /// The part that it asks for is evaluated by the claim with this number. The next step asks for it again.
    Waiting { cell: CellId, claim: u128 },
    /// The work ended with this, or no work goes on and all were given up.
    Ended(Result<Value, Stop>),
}
