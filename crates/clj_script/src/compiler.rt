//! From the forms of a script to its program.
ghost use Rattle.std.specs.Prelude.{◌≡◌, [], IfOk, Ok, Err, Some, None};
ghost use Rattle.clj_script.specs.declared.refusal.ScriptRefusal.{ScriptRefusal};
ghost use Rattle.clj_script.specs.declared.refusal.CompileStop.TheVariants.{Refused};
ghost use Rattle.clj_script.specs.Closed.{IsClosedProgram};
ghost use Rattle.clj_script.specs.Scripts.{Means, program_of};
ghost use Rattle.clj_script.specs.Seen.{seen, IsRefusal, Gives};
ghost use Rattle.clj_script.specs.Tops.{so_far, IsWhole};
ghost use Rattle.clj_script.specs.Trees as tree;

use crate::program::{Parts, Program};
use crate::refusal::CompileStop;
use crate::source::add_forms;
use crate::top::Tops;
use clj_reader::Forms;
use seq_vector::Shared;
use std::alloc::{AllocError, Global};

/// The program of a script's forms, or the least refusal.
///
/// Among all that is refused, the least is given: the one with the least place, and the lowest number there.
pub fn compile(alloc: Global, forms: &Forms) -> Result<Program, CompileStop>
    // What is compiled is the program of these forms.
    ensures found { IfOk result (λ program. Means forms.now (seen program) []) }
    // All that the program names is there: each form names only what the forms before it define.
    ensures closed { IfOk result (λ program. IsClosedProgram (seen program)) }
    // Forms that mean a program are compiled to it, unless memory runs out.
    ensures only { (program : tree.Program) → Means forms.now program [] → Gives result (Ok program) }
    // What is refused has this refusal.
    ensures refused { (r : ScriptRefusal) → result ≡ Err (Refused r) → IsRefusal forms.now r }
    // What has a refusal is refused so, unless memory runs out.
    ensures refuses { (r : ScriptRefusal) → IsRefusal forms.now r → Gives result (Err r) }
{
    let mut tops = Tops::new(alloc);
    let numbers = add_forms(alloc, &mut tops.sources, forms)?;
    for number in &numbers {
        tops.take(alloc, *number)?;
    }
    finished(alloc, tops)
}

/// The program of what the forms have given, or the least refusal.
fn finished(alloc: Global, tops: Tops) -> Result<Program, CompileStop>
    requires { IsWhole [] tops }
    ensures program { IfOk result (λ program. (seen program ≡ program_of (so_far tops)) × (tops.machine.least.found ≡ None)) }
    ensures refused { (r : ScriptRefusal) → result ≡ Err (Refused r) → tops.machine.least.found ≡ Some r }
{
    let machine = tops.machine;
    if let Some(refusal) = machine.least.found {
        return Err(CompileStop::Refused(refusal));
    }
    let Ok(count) = u32::try_from(tops.tops.len()) else {
        return Err(CompileStop::Memory);
    };
    let parts = Parts {
        nodes: machine.nodes,
        functions: tops.functions,
        bodies: machine.bodies,
        definitions: tops.definitions,
        tops: tops.tops,
        count,
    };
    match Shared::of(alloc, parts) {
        Ok(parts) => Ok(Program { parts }),
        Err(_) => Err(CompileStop::Memory),
    }
}
