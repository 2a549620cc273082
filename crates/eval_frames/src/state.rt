ghost use Rattle.std.specs.Prelude.{◌≡◌, IsTrue};
ghost use Rattle.seq_plan.specs.WellFormed.{sight};
ghost use Rattle.seq_turns.specs.Turning.{to_begin, a_step, a_seq, a_value, a_part};
ghost use Rattle.seq_values.specs.Plain.{plain};
ghost use Rattle.seq_values.specs.WellFormed.{is_well_formed};
ghost use Rattle.seq_values.specs.WellFormedTerms.{is_seq, is_well_formed_term};

use clj_script::Program;
use seq_base::Thrown;
use seq_turns::{Gathered, Proper, ProperList, Rule};
use seq_values::{CellId, Kind, Term, Value};

/// What a work goes by: the program, the number of processors, and the values of the forms before.
#[derive(Drop)]
pub struct Code {
    pub program: Program,
    pub processors: u32,
    pub values: ProperList,
}

/// A term that is well formed.
#[derive(Drop)]
pub struct ProperTerm {
    pub term: Term,
    ghost well: { IsTrue (is_well_formed_term term) },
}

/// What `seq` gives: nil, or a node other than `()`.
#[derive(Drop)]
pub struct Sequence {
    pub value: Value,
    ghost well: { IsTrue (is_well_formed value) },
    ghost seq: { IsTrue (is_seq (sight (plain value))) },
}

/// What `seq` of a value finds: what it gives, a part that has to be asked, or no sequence.
#[derive(Drop)]
pub enum FoundNow {
    Now(Sequence),
    Asks(CellId),
    NoSeq,
}

/// A rule that is to begin.
#[derive(Drop)]
pub struct Beginning<R: Rule> {
    pub state: R,
    ghost waits: { R.running.wait_of state ≡ to_begin },
}

/// A rule that waits for an own step.
#[derive(Drop)]
pub struct Stepping<R: Rule> {
    pub state: R,
    ghost waits: { R.running.wait_of state ≡ a_step },
}

/// A rule that waits for what `seq` gives.
#[derive(Drop)]
pub struct Seeking<R: Rule> {
    pub state: R,
    ghost waits: { R.running.wait_of state ≡ a_seq },
}

/// A rule that waits for the value of a call or of a part.
#[derive(Drop)]
pub struct Called<R: Rule> {
    pub state: R,
    ghost waits: { R.running.wait_of state ≡ a_value },
}

/// A rule that waits for a part to be made.
#[derive(Drop)]
pub struct Parting<R: Rule> {
    pub state: R,
    ghost waits: { R.running.wait_of state ≡ a_part },
}

/// Expressions that are still to be evaluated: those among the parts of an expression from a place on, with the locals in scope.
#[derive(Drop)]
pub struct Members {
    /// The number of the expression.
    pub expr: u32,
    /// The place among its parts, from 0.
    pub at: u32,
    pub locals: ProperList,
}

/// What an expression is, by the numbers of those that it is made of. The parts of a vector, a call, an `and` or an `or` stay where they are.
#[derive(Drop)]
pub(crate) enum Shape {
    /// It has this value, whatever the locals are.
    Value(Proper),
    /// The value of the `def` form with this number, from 1.
    Defined(u32),
    Local(u32),
    Vector,
    Call { head: u32 },
    Let { value: u32, body: u32 },
    If { test: u32, yes: u32, no: u32 },
    And,
    Or,
    LazySeq { body: u32 },
}

/// The first of the expressions that are still to be evaluated, and those behind it.
#[derive(Drop)]
pub(crate) enum Ahead {
    Over,
    Part {
        number: u32,
        locals: ProperList,
        later: Members,
    },
}

/// What values are gathered for.
#[derive(Drop)]
pub enum Purpose {
    /// To call this value with them.
    Call(Proper),
    /// To make a vector of them.
    Vector,
}

/// What waits for a value.
#[derive(Drop)]
pub enum Frame<R: Rule> {
    Rule(Called<R>),
    /// A call whose head is evaluated, with its arguments.
    Head(Members),
    /// Parts of which one is evaluated, with the values of those before.
    Parts {
        purpose: Purpose,
        values: Gathered,
        members: Members,
    },
    /// The body of a `let`, by its number.
    Let {
        body: u32,
        locals: ProperList,
    },
    /// The branches of an `if`, by their numbers.
    If {
        yes: u32,
        no: u32,
        locals: ProperList,
    },
    /// The parts of an `and` after the one that is evaluated.
    And(Members),
    /// The parts of an `or` after the one that is evaluated.
    Or(Members),
    /// A form that prints.
    Print,
}

/// The own steps that are left, and the frames that wait, the top one last.
#[derive(Drop)]
pub struct Rest<R: Rule> {
    pub left: u64,
    pub frames: Vec<Frame<R>>,
}

/// A rule, and what it is told.
#[derive(Drop)]
pub enum Ready<R: Rule> {
    Begin(Beginning<R>),
    Done(Stepping<R>),
    Found(Seeking<R>, Sequence),
    Got(Called<R>, Proper),
    Made(Parting<R>, CellId),
}

/// What is done next.
#[derive(Drop)]
pub enum Now<R: Rule> {
    /// An expression is evaluated.
    Eval { expr: u32, locals: ProperList },
    /// The top frame is told a value, or the work ends with it.
    Tell(Proper),
    /// A rule takes a turn.
    Turn(Ready<R>),
}

/// A work that goes on.
#[derive(Drop)]
pub struct Runner<R: Rule> {
    pub now: Now<R>,
    pub rest: Rest<R>,
}

/// A work that was entered, by a call or from its beginning, or why it couldn't be.
#[derive(Drop)]
pub enum Entered<R: Rule> {
    On(Runner<R>),
    Throws(Thrown),
}

/// A rule that asks a part, for its value or for what `seq` of the value gives.
#[derive(Drop)]
pub enum Asking<R: Rule> {
    Value(Called<R>),
    Seq(Seeking<R>),
}

/// A work that asks a part. The own step for it was taken.
#[derive(Drop)]
pub struct Asker<R: Rule> {
    pub cell: CellId,
    pub asking: Asking<R>,
    pub rest: Rest<R>,
}

/// What waits for a part to be made.
#[derive(Drop)]
pub enum Maker<R: Rule> {
    Rule(Parting<R>),
    /// A `lazy-seq`, whose value is the part.
    LazySeq,
}

/// What a work came to.
#[derive(Drop)]
pub enum Event<R: Rule> {
    /// An own step was taken.
    Went(Runner<R>),
    /// A part is asked.
    Asks(Asker<R>),
    /// A part is to be made.
    Makes {
        kind: Kind,
        term: ProperTerm,
        maker: Maker<R>,
        rest: Rest<R>,
    },
    /// The work ends with this value, and so many own steps are left.
    Gives {
        value: Proper,
        left: u64,
    },
    /// The work ends with this error.
    Throws {
        why: Thrown,
        left: u64,
    },
}

/// A silent turn, or what the work came to.
#[derive(Drop)]
pub enum Advance<R: Rule> {
    On(Runner<R>),
    Comes(Event<R>),
}
