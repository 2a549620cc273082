ghost use Rattle.std.specs.Prelude.{◌≡◌};
ghost use Rattle.clj_script.specs.Refusals as spec;

use clj_reader::Place;
use std::alloc::AllocError;

/// Why forms are no script, and where.
///
/// The numbers: 7 an unknown name, 8 a name that is defined twice or built in, 9 a special form with wrong arguments, 10 a
/// form out of the profile, 11 a word of the top inside another form.
#[derive(Clone, Copy, Debug, PartialEq, Eq)]
pub struct ScriptRefusal {
    pub number: u8,
    pub place: Place,
}

/// Why no program was made.
#[derive(Clone, Copy, Debug, PartialEq, Eq)]
pub enum CompileStop {
    /// The forms are no script.
    Refused(ScriptRefusal),
    /// Memory ran out.
    Memory,
}

impl From<AllocError> for CompileStop {
    ghost use Rattle.std.specs.Prelude.{◌≡◌};
    ghost use Rattle.clj_script.specs.declared.refusal.CompileStop.TheVariants.{Memory};

    ghost from_gives = { λ _ stop. stop ≡ Memory };

    fn from(_error: AllocError) -> CompileStop {
        CompileStop::Memory
    }
}

/// The least refusal that was found so far: the one with the least place, and the lowest number there.
#[derive(Clone, Copy, Debug)]
pub(crate) struct Least {
    pub(crate) found: Option<ScriptRefusal>,
}

impl Least {
    /// Takes one more refusal into account.
    #[tactic(auto, unfolding(crate::specs::Refusals::earlier))]
    pub(crate) fn refuse(&mut self, number: u8, place: Place)
        ensures { self.new ≡ record { found = spec.earlier self.old.found (spec.refusal number place) } }
    {
        let refusal = ScriptRefusal { number, place };
        self.found = match self.found {
            Some(least) if !comes_before(refusal, least) => Some(least),
            _ => Some(refusal),
        };
    }
}

/// Whether the first has the lesser place, or the same place and the lower number.
#[tactic(auto, unfolding(crate::specs::Refusals::comes_before))]
fn comes_before(first: ScriptRefusal, second: ScriptRefusal) -> bool
    ensures { result ≡ spec.comes_before first second }
{
    if first.place.line != second.place.line {
        return first.place.line < second.place.line;
    }
    if first.place.column != second.place.column {
        return first.place.column < second.place.column;
    }
    first.number < second.number
}
