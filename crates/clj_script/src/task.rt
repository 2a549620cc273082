//! What is to be done for the parts of an expression.
ghost use Rattle.std.specs.Prelude.{◌≡◌, [], ◌∷◌, ◌++◌, List, map, replicate, length, OnOk};
ghost use Rattle.std.specs.Option.{option_map};
ghost use Rattle.clj_script.specs.Entries.{form_at};
ghost use Rattle.clj_script.specs.Reads.{pair_at, numbers_of_pairs, the_third};
ghost use Rattle.clj_script.specs.Machines.{Pushes, look, build, looks, lets, branches};

use std::alloc::AllocError;

/// An expression that is built of the last values.
#[derive(Clone, Copy, Debug, PartialEq, Eq)]
pub(crate) enum Build {
    /// A vector of so many.
    Vector(usize),
    /// A call with so many arguments, behind its head.
    Call(usize),
    /// Binds a value for a body. The binding ends here.
    Let,
    If,
    And(usize),
    Or(usize),
    /// A lazy part, whose body gets the next number.
    LazySeq,
    /// The literal nil, of no value.
    Nil,
}

/// What is to be done.
#[derive(Clone, Copy, Debug, PartialEq, Eq)]
pub(crate) enum Task {
    /// Looks at a form as an expression, which becomes the last value.
    Look(usize),
    /// Binds a name.
    Bind(usize),
    Build(Build),
}

/// A call: its head and its arguments from left to right.
pub(crate) fn push_call(
    tasks: &mut Vec<Task>,
    head: usize,
    args: &[usize],
) -> Result<(), AllocError>
    ensures { OnOk result (Pushes tasks.old.items tasks.new.items (head ∷ args.now) (λ es. look (form_at es head) ∷ looks (map (form_at es) args.now) ++ build (Build.Call (length args.now)) ∷ [])) }
{
    tasks.push(Task::Build(Build::Call(args.len())))?;
    push_looks(tasks, args)?;
    tasks.push(Task::Look(head))?;
    Ok(())
}

/// Forms from left to right, of which one expression is built.
pub(crate) fn push_all(
    tasks: &mut Vec<Task>,
    items: &[usize],
    whole: Build,
) -> Result<(), AllocError>
    ensures { OnOk result (Pushes tasks.old.items tasks.new.items items.now (λ es. looks (map (form_at es) items.now) ++ build whole ∷ [])) }
{
    tasks.push(Task::Build(whole))?;
    push_looks(tasks, items)
}

/// A test and its branches. A missing third is nil.
pub(crate) fn push_if(
    tasks: &mut Vec<Task>,
    test: usize,
    yes: usize,
    no: Option<usize>,
) -> Result<(), AllocError>
    ensures { OnOk result (Pushes tasks.old.items tasks.new.items (test ∷ yes ∷ the_third no) (λ es. branches (form_at es test) (form_at es yes) (option_map (form_at es) no))) }
{
    tasks.push(Task::Build(Build::If))?;
    match no {
        Some(no) => tasks.push(Task::Look(no))?,
        None => tasks.push(Task::Build(Build::Nil))?,
    }
    tasks.push(Task::Look(yes))?;
    tasks.push(Task::Look(test))?;
    Ok(())
}

/// Names that are bound to expressions in turn, and a body.
pub(crate) fn push_let(
    tasks: &mut Vec<Task>,
    pairs: &[(usize, usize)],
    body: usize,
) -> Result<(), AllocError>
    ensures { OnOk result (Pushes tasks.old.items tasks.new.items (body ∷ numbers_of_pairs pairs.now) (λ es. lets (map (pair_at es) pairs.now) ++ look (form_at es body) ∷ replicate (length pairs.now) (build Build.Let))) }
{
    push_ends(tasks, pairs.len())?;
    tasks.push(Task::Look(body))?;
    push_bindings(tasks, pairs)
}

/// A form of which one expression is built.
pub(crate) fn push_one(tasks: &mut Vec<Task>, item: usize, whole: Build) -> Result<(), AllocError>
    ensures { OnOk result (Pushes tasks.old.items tasks.new.items (item ∷ []) (λ es. look (form_at es item) ∷ build whole ∷ [])) }
{
    tasks.push(Task::Build(whole))?;
    tasks.push(Task::Look(item))?;
    Ok(())
}

/// The ends of so many bindings.
fn push_ends(tasks: &mut Vec<Task>, count: usize) -> Result<(), AllocError>
    ensures { OnOk result (Pushes tasks.old.items tasks.new.items [] (λ es. replicate count (build Build.Let))) }
{
    for _ in 0..count {
        tasks.push(Task::Build(Build::Let))?;
    }
    Ok(())
}

/// Forms to be looked at from left to right.
fn push_looks(tasks: &mut Vec<Task>, items: &[usize]) -> Result<(), AllocError>
    ensures { OnOk result (Pushes tasks.old.items tasks.new.items items.now (λ es. looks (map (form_at es) items.now))) }
{
    for item in items.iter().rev() {
        tasks.push(Task::Look(*item))?;
    }
    Ok(())
}

/// Names with their expressions: each expression, and then its name.
fn push_bindings(tasks: &mut Vec<Task>, pairs: &[(usize, usize)]) -> Result<(), AllocError>
    ensures { OnOk result (Pushes tasks.old.items tasks.new.items (numbers_of_pairs pairs.now) (λ es. lets (map (pair_at es) pairs.now))) }
{
    for (name, value) in pairs.iter().rev() {
        tasks.push(Task::Bind(*name))?;
        tasks.push(Task::Look(*value))?;
    }
    Ok(())
}
