//! The command line, as `clap` is told of it.
ghost use Rattle.std.specs.Prelude.{◌≡◌, IfOk, false};
ghost use Rattle.clap.specs.Words.{app_of, rule_of};
ghost use Rattle.command_line.specs.Line.{line, number_rule};

use clap::{Arg, ArgAction, Command};
use std::alloc::{AllocError, Global};

/// A flag and five options with a value each. There is no help and no version.
pub(crate) fn command<'a>(alloc: Global) -> Result<Command<'a>, AllocError>
    ensures { IfOk result (λ c. app_of c ≡ line) }
{
    let check = Arg::new(alloc, "check")
        .long("check")
        .action(ArgAction::SetTrue);
    Command::new(alloc, "cljseq")
        .disable_help_flag(true)
        .arg(check)?
        .arg(number(alloc, "generate"))?
        .arg(number(alloc, "workers"))?
        .arg(number(alloc, "processors"))?
        .arg(number(alloc, "cells"))?
        .arg(number(alloc, "steps"))
}

/// An option with one value, which is a text for `clap`.
fn number<'a>(alloc: Global, name: &'a str) -> Arg<'a>
    ensures rule { rule_of result ≡ number_rule name.now }
    ensures local { result.global ≡ false }
{
    Arg::new(alloc, name).long(name).action(ArgAction::Set)
}
