// The text that a run leaves.
ghost use Rattle.std.specs.Prelude.{◌≡◌, ◌≤◌, ◌⊎◌, ◌^◌, Ok, IfOk, IfErr, length};
ghost use Rattle.c_grammar.specs.Program.{IsProgram};
ghost use Rattle.c_judge.specs.Rules.{KeepsRules};
ghost use Rattle.c_loops.specs.Programs.{program_of};
ghost use Rattle.c_tokens.specs.Pieces.{tokens_of};
ghost use Rattle.outcomes.specs.Refusing.{ProgramCause};
ghost use Rattle.outcomes.specs.Refusing.{IfRefused};
ghost use Rattle.program_run.specs.Texts.{Gives};
ghost use Rattle.text_runs.specs.Running.{RunCause, RunMakes, RunDenies, Leaves};

use crate::reading::read;
use crate::values::read_values;
use c_tree::Program;
use chill_base::{Stop, Text};
use csr_data::Values;
use outcomes::Refusal;
use program_run::run;
use std::alloc::Global;

/// The text that a program leaves on values.
fn run_on(
    alloc: Global,
    _source: &[u8],
    program: &Program,
    _input: &[u8],
    values: Values,
) -> Result<Text, Stop<Refusal>>
    requires grammar { IsProgram (tokens_of _source.now) program.now }
    requires rules { KeepsRules program.now }
    requires gives { Gives program.now _input.now values }
    ensures ok { IfOk result (Leaves program.now _input.now) }
    ensures refused { IfErr result (IfRefused (RunCause program.now _input.now)) }
{
    match run(alloc, program, values) {
        Ok(text) => Ok(text),
        Err(Stop::Refused(fault)) => Err(Stop::Refused(Refusal::Run(fault))),
        Err(Stop::NoMemory) => Err(Stop::NoMemory),
    }
}

/// The text that the program of a source leaves on a data text.
pub fn run_by(
    alloc: Global,
    source: &[u8],
    program: &Program,
    input: &[u8],
) -> Result<Text, Stop<Refusal>>
    requires is { program_of source.now ≡ Ok program.now }
    requires grammar { IsProgram (tokens_of source.now) program.now }
    requires rules { KeepsRules program.now }
    requires few { length input.now ≤ 2 ^ 62 }
    ensures ok { IfOk result (λ text. RunMakes source.now input.now text) }
    ensures refused { IfErr result (IfRefused (RunDenies source.now input.now)) }
{
    match read_values(alloc, source, program, input) {
        Ok(values) => run_on(alloc, source, program, input, values),
        Err(stop) => Err(stop),
    }
}

/// The text that the program of a text leaves on a data text.
pub fn run_program(alloc: Global, source: &[u8], input: &[u8]) -> Result<Text, Stop<Refusal>>
    requires { length input.now ≤ 67108864 }
    ensures ok { IfOk result (λ text. RunMakes source.now input.now text) }
    ensures refused { IfErr result (IfRefused (λ r. ProgramCause (program_of source.now) r ⊎ RunDenies source.now input.now r)) }
{
    match read(alloc, source) {
        Ok(program) => run_by(alloc, source, &program, input),
        Err(stop) => Err(stop),
    }
}
