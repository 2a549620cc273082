//! Why there is no program to run.
use clj_reader::{Place, ReadFormsStop};
use clj_script::CompileStop;
use std::alloc::{AllocError, AllocFailed};

/// Why a text isn't run, by its number, and where.
#[derive(Clone, Copy, Debug, PartialEq, Eq)]
pub struct Refusal {
    pub number: u8,
    pub place: Place,
}

/// Why there is nothing to run.
#[derive(Clone, Copy, Debug, PartialEq, Eq)]
pub enum ScriptStop {
    /// The text is refused.
    Refused(Refusal),
    /// Memory ran out.
    Memory,
}

impl From<AllocError> for ScriptStop {
    ghost use Rattle.std.specs.Prelude.{◌≡◌};
    ghost use Rattle.seq_run.specs.declared.script.ScriptStop.TheVariants.{Memory};

    ghost from_gives = { λ _ stop. stop ≡ Memory };

    fn from(_error: AllocError) -> ScriptStop {
        ScriptStop::Memory
    }
}

impl<T: Drop> From<AllocFailed<T>> for ScriptStop {
    ghost use Rattle.std.specs.Prelude.{◌≡◌};
    ghost use Rattle.seq_run.specs.declared.script.ScriptStop.TheVariants.{Memory};

    ghost from_gives = { λ _ stop. stop ≡ Memory };

    fn from(_error: AllocFailed<T>) -> ScriptStop {
        ScriptStop::Memory
    }
}

impl From<ReadFormsStop> for ScriptStop {
    ghost use Rattle.std.specs.Prelude.{◌≡◌};
    ghost use Rattle.seq_run.specs.Stops.{of_reader};

    ghost from_gives = { λ why stop. stop ≡ of_reader why };

    fn from(why: ReadFormsStop) -> ScriptStop {
        match why {
            ReadFormsStop::Refused(refusal) => ScriptStop::Refused(Refusal {
                number: refusal.number,
                place: refusal.place,
            }),
            ReadFormsStop::Memory => ScriptStop::Memory,
        }
    }
}

impl From<CompileStop> for ScriptStop {
    ghost use Rattle.std.specs.Prelude.{◌≡◌};
    ghost use Rattle.seq_run.specs.Stops.{of_compiler};

    ghost from_gives = { λ why stop. stop ≡ of_compiler why };

    fn from(why: CompileStop) -> ScriptStop {
        match why {
            CompileStop::Refused(refusal) => ScriptStop::Refused(Refusal {
                number: refusal.number,
                place: refusal.place,
            }),
            CompileStop::Memory => ScriptStop::Memory,
        }
    }
}
