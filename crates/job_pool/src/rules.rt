//! What the queue and the closing word keep, and what each step on them tells.
use atomic_table::{Play, TableRule};
use crossbeam_queue::protocol::{Join, Lesson, Outcome, Protocol, Split};
use seq_values::CellId;
use std::collections::LinkedList;

// What a pass pushed and was handed, and which part of all passes it is. No value of it is made.
pub struct Hand {
    pub put: LinkedList<CellId>,
    pub taken: LinkedList<CellId>,
    pub part: u64,
    pub whole: u64,
}

// Whether a pass knows of a close. No value of it is made.
pub struct Heard {
    pub knows: bool,
}

/// What was pushed was handed out or is in the queue.
pub(crate) struct Fair;

impl Protocol<CellId, Hand> for Fair {
    ghost use Rattle.std.specs.Prelude.{[]};
    ghost use Rattle.job_pool.specs.Pooling.{hand, Balanced};

    ghost holds = { Balanced };

    ghost first = { hand [] [] 1 1 };
}

/// A push.
pub(crate) struct Put;

impl Outcome<CellId, Hand> for Put {
    ghost use Rattle.job_pool.specs.Pooling.{puts};

    ghost then = { puts };
}

/// A pop, and what one who has all parts learns of the queue.
pub(crate) struct Got;

impl Outcome<CellId, Hand> for Got {
    ghost use Rattle.job_pool.specs.Pooling.{gets};

    ghost then = { gets };
}

impl Lesson<CellId, Hand> for Got {
    ghost use Rattle.job_pool.specs.Pooling.{IsLeft};

    ghost fact = { IsLeft };
}

/// A pass is cut in two, or two are put together.
pub(crate) struct Cut;

impl Split<Hand> for Cut {
    ghost use Rattle.job_pool.specs.Pooling.{half, other_half};

    ghost left = { half };

    ghost right = { other_half };
}

impl Join<Hand> for Cut {
    ghost use Rattle.std.specs.Prelude.{[]};
    ghost use Rattle.job_pool.specs.Pooling.{hand, together};

    ghost both = { together };

    ghost spent = { hand [] [] 0 1 };
}

/// The closing word is 1 where a pass knows of a close.
pub(crate) struct Bell;

impl TableRule<(), Heard, ()> for Bell {
    ghost use Rattle.std.specs.Prelude.{false};
    ghost use Rattle.job_pool.specs.Pooling.{heard, Rings};

    ghost holds = { λ _. Rings };

    ghost first = { λ _. heard false };
}

/// A look at the closing word.
pub(crate) struct Hears;

impl Play<(), Heard> for Hears {
    ghost use Rattle.job_pool.specs.Pooling.{hears};

    ghost then = { hears };
}

/// A close.
pub(crate) struct Calls;

impl Play<(), Heard> for Calls {
    ghost use Rattle.job_pool.specs.Pooling.{calls};

    ghost then = { calls };
}

/// What is known of a close goes to both halves, and to a pass where either knew.
pub(crate) struct Echo;

impl Split<Heard> for Echo {
    ghost left = { λ v. v };

    ghost right = { λ v. v };
}

impl Join<Heard> for Echo {
    ghost use Rattle.std.specs.Prelude.{false, ◌||◌};
    ghost use Rattle.job_pool.specs.Pooling.{heard};

    ghost both = { λ v w. heard (v.knows || w.knows) };

    ghost spent = { heard false };
}
