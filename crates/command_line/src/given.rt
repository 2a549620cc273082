//! What the settings that were given ask for.
ghost use Rattle.std.specs.Prelude.{◌≡◌, ℕ, List, Option, Some, None, true, false, MatchOption};
ghost use Rattle.clap.specs.Words.{first_value, found_of};
ghost use Rattle.command_line.specs.Asking.{Holds, options_of};
ghost use Rattle.command_line.specs.Reading.{HasBad, IsFound, fits, optional};
ghost use Rattle.command_line.specs.declared.setting.Setting.{Setting as Spelled};

use crate::setting::number_in;
use clap::ArgMatches;
use seq_base::Limits;

/// What the program is asked to do.
#[derive(Clone, Copy, Debug, PartialEq, Eq)]
pub enum Request {
    /// To run the script.
    Run,
    /// To read and compile the script alone.
    Check,
    /// To run a script that is made from this number. Nothing is read.
    Generate(u32),
}

/// What the words of a command line ask for.
#[derive(Clone, Copy, Debug, PartialEq, Eq)]
pub struct Options {
    /// What is to be done.
    pub request: Request,
    /// The bounds of the run.
    pub limits: Limits,
}

/// The numbers of the settings that were given.
#[derive(Clone, Copy, Debug, PartialEq, Eq)]
pub(crate) struct Given {
    check: bool,
    generate: Option<u32>,
    workers: Option<u32>,
    processors: Option<u32>,
    cells: Option<u32>,
    steps: Option<u32>,
}

impl Given {
    /// The numbers that `clap` found. `None` where a value is none of its option.
    pub(crate) fn found(matches: &ArgMatches<'_>) -> Option<Given>
        ensures { MatchOption result (HasBad (found_of matches.now)) (λ g. IsFound (found_of matches.now) g) }
    {
        Some(Given {
            check: matches.get_flag("check"),
            generate: value_in(matches, "generate", 1, 1000)?,
            workers: value_in(matches, "workers", 0, 64)?,
            processors: value_in(matches, "processors", 1, 64)?,
            cells: value_in(matches, "cells", 1, 1_048_576)?,
            steps: value_in(matches, "steps", 1, 16_777_216)?,
        })
    }

    /// Whether they ask for one thing to be done, and for no workers.
    pub(crate) fn is_fit(self) -> bool
        ensures { result ≡ fits self }
    {
        self.workers.unwrap_or(0) == 0 && !(self.check && self.generate.is_some())
    }

    /// What is to be done.
    fn request(self) -> Request
        ensures checked { self.check ≡ true → result ≡ Request.Check }
        ensures made { self.check ≡ false → (n : ℕ) → self.generate ≡ Some n → result ≡ Request.Generate n }
        ensures run { self.check ≡ false → self.generate ≡ None → result ≡ Request.Run }
    {
        if self.check {
            return Request::Check;
        }
        match self.generate {
            Some(number) => Request::Generate(number),
            None => Request::Run,
        }
    }

    /// What they ask for. A bound that isn't given is 65,536 parts, a million own steps and 4 processors.
    pub(crate) fn asked(self) -> Options
        ensures { (all : List Spelled) → Holds self all → result ≡ options_of all }
    {
        let request = self.request();
        let limits = Limits {
            cells: self.cells.unwrap_or(65_536),
            steps: self.steps.unwrap_or(1_000_000),
            processors: self.processors.unwrap_or(4),
        };
        Options { request, limits }
    }
}

/// The value of an option that may be left out. `None` where it is there and is none in the range.
fn value_in(matches: &ArgMatches<'_>, name: &str, least: u32, most: u32) -> Option<Option<u32>>
    ensures { result ≡ optional least most (first_value (found_of matches.now) name.now) }
{
    match matches.get_str(name) {
        Some(text) => Some(Some(number_in(text, least, most)?)),
        None => Some(None),
    }
}
