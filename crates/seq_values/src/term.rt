use crate::cell_id::CellId;
use crate::value::Value;
use crate::words::{Kind, Op};
use seq_base::Thrown;
use seq_vector::{NoMemory, PVec, Share};

/// What a part computes: an operation on values.
#[derive(Drop)]
pub struct Term {
    /// What is done.
    pub op: Op,
    /// The values that it is done on.
    pub args: PVec<Value>,
}

/// One atomic increment at most, whatever the arguments are.
impl Share for Term {
    fn share(&self) -> Result<Term, NoMemory> {
        let args = self.args.share()?;
        Ok(Term { op: self.op, args })
    }
}

/// Why a call gave no value.
#[derive(Clone, Copy, Debug, PartialEq, Eq)]
pub enum CallStop {
    Thrown(Thrown),
    Memory,
}

/// What a rule needs next, or how it ends.
#[derive(Drop)]
pub enum Turn {
    /// The value of a part.
    Need(CellId),
    /// The sequence of a value: nil, or a node that isn't `()`.
    Seq(Value),
    /// One own step.
    Visit,
    /// The answer of a call.
    Apply { function: Value, args: PVec<Value> },
    /// A new part.
    Make { kind: Kind, term: Term },
    /// The rule ends with this value.
    Give(Value),
    /// The rule ends with this error.
    Throw(Thrown),
}

/// What a rule is told.
#[derive(Drop)]
pub enum Answer {
    /// The rule begins.
    Begin,
    /// The own step was taken.
    Done,
    /// A value was got: a part's, a sequence or a call's answer.
    Got(Value),
    /// The part was made.
    Made(CellId),
}
