ghost use Rattle.std.specs.Prelude.{◌≡◌};
ghost use Rattle.clj_reader.specs.declared.refusal.ReadRefusal.{ReadRefusal};

use crate::place::Place;
use std::alloc::AllocError;

/// Why a text is no script, and where.
///
/// The numbers: 1 the bytes aren't UTF-8, 2 the brackets don't match, 3 a token is spelled as none of the
/// language, 4 an integer is outside 64 bits, 5 brackets are nested deeper than 200, 6 there are more than
/// 1,048,576 bytes.
#[derive(Clone, Copy, Debug, PartialEq, Eq)]
pub struct ReadRefusal {
    pub number: u8,
    pub place: Place,
}

/// Why no forms were read.
#[derive(Clone, Copy, Debug, PartialEq, Eq)]
pub enum ReadFormsStop {
    /// The text is no script.
    Refused(ReadRefusal),
    /// Memory ran out.
    Memory,
}

impl From<AllocError> for ReadFormsStop {
    ghost use Rattle.std.specs.Prelude.{◌≡◌};
    ghost use Rattle.clj_reader.specs.declared.refusal.ReadFormsStop.TheVariants.{Memory};

    ghost from_gives = { λ _ stop. stop ≡ Memory };

    fn from(_error: AllocError) -> ReadFormsStop {
        ReadFormsStop::Memory
    }
}
