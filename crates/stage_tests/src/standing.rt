//! A transducer's stages are given one thing after the other, and what they do is written down.
ghost use Rattle.std.specs.Prelude.{◌≡◌, Some, IfSome};
ghost use Rattle.seq_plan.specs.WellFormed.{sight};
ghost use Rattle.seq_values.specs.Plain.{plain};
ghost use Rattle.xf_stages.specs.Opening.{kept_in, seen_kept};

use crate::driving::{completed, entered, let_go, walked};
use crate::kinds::Act;
use crate::showing::show_thrown;
use crate::states::given_back;
use seq_base::Thrown;
use seq_turns::Proper;
use seq_values::Line;
use seq_vector::NoMemory;
use std::alloc::Global;
use value_samples::Sample;
use xf_stages::{Opened, Stages};

/// A transducer, and its stages between two inputs.
#[derive(Drop)]
struct Standing {
    xf: Proper,
    stages: Stages,
    ghost through: { seen_kept (sight (plain xf.value)) ≡ Some (kept_in stages) },
}

/// The transducer with its stages, where they stand.
fn stands(xf: Proper, stages: Option<Stages>) -> Option<Standing>
    requires { IfSome stages (λ s. seen_kept (sight (plain xf.value)) ≡ Some (kept_in s)) }
{
    match stages {
        Some(stages) => Some(Standing { xf, stages }),
        None => None,
    }
}

/// There are no stages.
fn refused(xf: Proper, why: Thrown, line: &mut Line) -> Result<Option<Standing>, NoMemory> {
    let_go(xf);
    show_thrown(why, line)?;
    Ok(None)
}

/// The stages of a transducer, and `None` for another value.
fn opened(alloc: Global, xf: Proper, line: &mut Line) -> Result<Option<Standing>, NoMemory> {
    let what = Stages::of(alloc, &xf)?;
    match what {
        Opened::Thrown(why) => refused(xf, why, line),
        Opened::Stages(stages) => Ok(Some(Standing { xf, stages })),
    }
}

fn enters(
    alloc: Global,
    before: Standing,
    item: Proper,
    line: &mut Line,
) -> Result<Option<Standing>, NoMemory> {
    let Standing { xf, stages } = before;
    let after = entered(alloc, stages, item, line)?;
    Ok(stands(xf, after))
}

fn walks(
    alloc: Global,
    before: Standing,
    collection: Proper,
    line: &mut Line,
) -> Result<Option<Standing>, NoMemory> {
    let Standing { xf, stages } = before;
    let after = walked(alloc, stages, collection, line)?;
    Ok(stands(xf, after))
}

/// New stages of the transducer get the states of the old ones.
fn goes_on(
    alloc: Global,
    xf: Proper,
    old: Stages,
    fresh: Stages,
    line: &mut Line,
) -> Result<Option<Standing>, NoMemory>
    requires before { seen_kept (sight (plain xf.value)) ≡ Some (kept_in old) }
    requires after { seen_kept (sight (plain xf.value)) ≡ Some (kept_in fresh) }
{
    let stages = given_back(alloc, old, fresh, line)?;
    Ok(Some(Standing { xf, stages }))
}

/// The transducer has no stages any more, which can't be.
fn lost(
    xf: Proper,
    stages: Stages,
    why: Thrown,
    line: &mut Line,
) -> Result<Option<Standing>, NoMemory> {
    let_go(stages);
    refused(xf, why, line)
}

/// The states are kept and given back.
fn keeps(alloc: Global, before: Standing, line: &mut Line) -> Result<Option<Standing>, NoMemory> {
    let what = Stages::of(alloc, &before.xf)?;
    let Standing { xf, stages } = before;
    match what {
        Opened::Thrown(why) => lost(xf, stages, why, line),
        Opened::Stages(fresh) => goes_on(alloc, xf, stages, fresh, line),
    }
}

/// The completion. After it no stage is left.
fn completes(
    alloc: Global,
    before: Standing,
    line: &mut Line,
) -> Result<Option<Standing>, NoMemory> {
    let Standing { xf, stages } = before;
    let_go(xf);
    let none = completed(alloc, stages, line)?;
    let_go(none);
    Ok(None)
}

fn enters_sample(
    alloc: Global,
    before: Standing,
    sample: Sample,
    line: &mut Line,
) -> Result<Option<Standing>, NoMemory> {
    let item = sample.value(alloc)?;
    enters(alloc, before, item, line)
}

fn walks_sample(
    alloc: Global,
    before: Standing,
    sample: Sample,
    line: &mut Line,
) -> Result<Option<Standing>, NoMemory> {
    let collection = sample.value(alloc)?;
    walks(alloc, before, collection, line)
}

fn acted(
    alloc: Global,
    before: Standing,
    act: Act,
    line: &mut Line,
) -> Result<Option<Standing>, NoMemory> {
    match act {
        Act::Enter(number) => enters(alloc, before, Proper::of_int(number), line),
        Act::Item(sample) => enters_sample(alloc, before, sample, line),
        Act::Walk(sample) => walks_sample(alloc, before, sample, line),
        Act::Keep => keeps(alloc, before, line),
        Act::Complete => completes(alloc, before, line),
    }
}

fn all_acted(alloc: Global, xf: Proper, acts: &[Act], line: &mut Line) -> Result<(), NoMemory> {
    let mut here = opened(alloc, xf, line)?;
    for act in acts {
        match here {
            Some(before) => here = acted(alloc, before, *act, line)?,
            None => return Ok(()),
        }
    }
    Ok(())
}

/// What the stages of a transducer do when they are given one thing after the other, until a stage throws or they are completed.
pub(crate) fn transcript(alloc: Global, xf: Proper, acts: &[Act]) -> Result<Line, NoMemory> {
    let mut line = Line::new(alloc);
    all_acted(alloc, xf, acts, &mut line)?;
    Ok(line)
}
