//! The words of a command line, read by `clap`.
ghost use Rattle.std.specs.Prelude.{◌≡◌, ◌≢◌, drop, codes, string_bytes, IfOk, MatchOption, None};
ghost use Rattle.std.specs.List.{list_any};
ghost use Rattle.std.specs.Str.{bytes_eq};
ghost use Rattle.clap.specs.Words.{found_of, kind_of};
ghost use Rattle.command_line.specs.Asking.{Asks, IsFaulty};
ghost use Rattle.command_line.specs.Reading.{Answered, Unanswered};
ghost use Rattle.command_line.specs.Settings.{texts};

use crate::given::{Given, Options};
use crate::line::command;
use clap::error::ErrorKind;
use clap::{ArgMatches, Error};
use std::alloc::{AllocError, Global};

/// What the words ask for, of which the first is the program's name and isn't looked at. `None` exactly where they ask for nothing that the program does.
pub fn asked(alloc: Global, words: &[String]) -> Result<Option<Options>, AllocError>
    ensures { IfOk result (λ o. MatchOption o (IsFaulty (texts words.now)) (λ a. Asks (texts words.now) a)) }
{
    if has_dashes(behind_name(words)) {
        return Ok(None);
    }
    match command(alloc)?.try_get_matches_from(words) {
        Ok(matches) => Ok(answer(&matches)),
        Err(error) => refused(&error),
    }
}

/// What a refusal of `clap` says: the words are faulty, unless memory ran out.
fn refused(error: &Error) -> Result<Option<Options>, AllocError>
    ensures { IfOk result (λ o. (o ≡ None) × (kind_of error.now ≢ ErrorKind.OutOfMemory)) }
{
    match error.kind() {
        ErrorKind::OutOfMemory => Err(AllocError),
        _ => Ok(None),
    }
}

/// The words behind the program's name.
fn behind_name(words: &[String]) -> &[String]
    ensures { texts result.now ≡ drop 1 (texts words.now) }
{
    match words {
        [] => &[],
        [_, rest @ ..] => rest,
    }
}

/// Whether a word is `--`, behind which `clap` would read no settings.
fn has_dashes(words: &[String]) -> bool
    ensures { result ≡ list_any (λ w. bytes_eq (string_bytes w) (codes "--")) words.now }
{
    words.iter().any(|word| word.as_str() == "--")
}

/// What the matches ask for. `None` where a value is none of its option, or the settings don't fit together.
fn answer(matches: &ArgMatches<'_>) -> Option<Options>
    ensures { MatchOption result (Unanswered (found_of matches.now)) (λ o. Answered (found_of matches.now) o) }
{
    let given = Given::found(matches)?;
    if given.is_fit() {
        Some(given.asked())
    } else {
        None
    }
}
