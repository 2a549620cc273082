ghost use Rattle.std.specs.Prelude.{◌≡◌};
ghost use Rattle.seq_base.specs.Words.{word};

/// Why an evaluation threw.
#[derive(Clone, Copy, Debug, PartialEq, Eq)]
pub enum Thrown {
    /// A number left 64 bits, or a list would have more than 4,294,967,295 members.
    Overflow,
    /// A division by zero.
    Divide,
    /// A call with a number of arguments that the function doesn't take.
    Arity,
    /// A value of a kind that the rule doesn't take.
    BadType,
    /// A place outside a sequence, or a group size below 1.
    Index,
    /// A value more than 256 deep.
    Depth,
    /// More own steps than the step limit.
    Steps,
}

/// The error word that a `threw` line shows.
pub fn word_of(why: Thrown) -> &'static [u8]
    ensures { result.now ≡ word why }
{
    match why {
        Thrown::Overflow => b"overflow".as_slice(),
        Thrown::Divide => b"divide".as_slice(),
        Thrown::Arity => b"arity".as_slice(),
        Thrown::BadType => b"type".as_slice(),
        Thrown::Index => b"index".as_slice(),
        Thrown::Depth => b"depth".as_slice(),
        Thrown::Steps => b"steps".as_slice(),
    }
}
