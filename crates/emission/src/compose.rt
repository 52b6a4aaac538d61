// The text that a recipe makes of a source.
ghost use Rattle.std.specs.Prelude.{◌≡◌, Ok, Some, None, IfOk, IfErr};
ghost use Rattle.c_judge.specs.Rules.{KeepsRules};
ghost use Rattle.source_limits.specs.Executor.{HasExecutor};
ghost use Rattle.recipe_read.specs.Recipe as recipes;
ghost use Rattle.emission.specs.Emitting.{as_it_stands, IsLater, IsFor, IsWritten, SourceCause, Emits, Denies, HasCommands, EmitCause};
ghost use Rattle.outcomes.specs.Refusing.{IfRefused};
ghost use Rattle.c_loops.specs.Programs.{program_of};

use crate::kernel::through_kernel;
use crate::texts::{commands_of, read};
use c_print::print_program;
use c_tree::Program;
use chill_base::{NoMemory, Stop, Text};
use first_form::renamed;
use outcomes::Refusal;
use recipe_read::Command;
use std::alloc::Global;

/// The program as it stands, where there are no commands and it is of the first form.
#[tactic(auto, unfolding(crate::specs::Emitting::written_for))]
fn standing(
    alloc: Global,
    commands: &[Command],
    program: &Program,
) -> Result<Option<Program>, NoMemory>
    ensures { IfOk result (λ o. o ≡ as_it_stands commands.now program.now) }
{
    match commands {
        [] => renamed(alloc, program),
        _ => Ok(None),
    }
}

/// The program that is written.
fn written(alloc: Global, commands: &[Command], program: &Program) -> Result<Program, Stop<Refusal>>
    requires rules { KeepsRules program.now }
    requires executor { HasExecutor program.now }
    ensures ok { IfOk result (IsFor commands.now program.now (as_it_stands commands.now program.now)) }
    ensures none { IfErr result (IfRefused (λ r. as_it_stands commands.now program.now ≡ None)) }
    ensures later { IfErr result (IfRefused (IsLater commands.now program.now)) }
{
    match standing(alloc, commands, program)? {
        Some(written) => Ok(written),
        None => through_kernel(alloc, commands, program),
    }
}

/// The text that the commands make of a source.
#[tactic(auto, using(crate::proofs::Promise::is_written, crate::proofs::Promise::has_executor))]
fn emitted(alloc: Global, commands: &[Command], source: &[u8]) -> Result<Text, Stop<Refusal>>
    ensures ok { IfOk result (λ text. IsWritten commands.now source.now text) }
    ensures refused { IfErr result (IfRefused (SourceCause commands.now (program_of source.now))) }
{
    let program = read(alloc, source)?;
    let written = written(alloc, commands, &program)?;
    Ok(print_program(alloc, &written)?)
}

/// The text that the commands of a recipe make of a source.
pub fn emitted_by(
    alloc: Global,
    _recipe: &[u8],
    commands: &[Command],
    source: &[u8],
) -> Result<Text, Stop<Refusal>>
    requires { HasCommands _recipe.now commands.now }
    ensures ok { IfOk result (λ text. Emits _recipe.now source.now text) }
    ensures refused { IfErr result (IfRefused (Denies _recipe.now source.now)) }
{
    emitted(alloc, commands, source)
}

/// The text that a recipe makes of a source.
pub fn emit(alloc: Global, recipe: &[u8], source: &[u8]) -> Result<Text, Stop<Refusal>>
    ensures ok { IfOk result (λ text. Emits recipe.now source.now text) }
    ensures refused { IfErr result (IfRefused (EmitCause recipe.now source.now)) }
{
    let commands = commands_of(alloc, recipe)?;
    emitted_by(alloc, recipe, commands.as_slice(), source)
}
