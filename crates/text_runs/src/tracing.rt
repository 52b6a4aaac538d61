// The lines of a traced run.
ghost use Rattle.std.specs.Prelude.{◌≡◌, ◌≤◌, ◌^◌, Ok, length};
ghost use Rattle.c_grammar.specs.Program.{IsProgram};
ghost use Rattle.c_judge.specs.Rules.{KeepsRules};
ghost use Rattle.c_loops.specs.Programs.{program_of};
ghost use Rattle.c_tokens.specs.Pieces.{tokens_of};
ghost use Rattle.program_run.specs.Texts.{Gives};
ghost use Rattle.text_runs.specs.Tracing.{TraceTells, TellsOn, TraceAnswers, IsEarly};

use crate::reading::read;
use crate::values::read_values;
use c_tree::Program;
use chill_base::{Sink, Stop};
use csr_data::Values;
use outcomes::Refusal;
use program_run::{TraceStop, trace};
use std::alloc::Global;

/// Why a traced run of a text ended early.
#[derive(PartialEq, Eq, Drop)]
pub enum RunStop {
    Refused(Refusal),
    WriteFault,
    NoMemory,
}

/// The lines of a program on values.
fn trace_on<S: Sink>(
    alloc: Global,
    _source: &[u8],
    program: &Program,
    _input: &[u8],
    values: Values,
    sink: &mut S,
) -> Result<(), RunStop>
    requires grammar { IsProgram (tokens_of _source.now) program.now }
    requires rules { KeepsRules program.now }
    requires gives { Gives program.now _input.now values }
    ensures tells { TellsOn program.now _input.now (S.state sink.old) (S.state sink.new) result }
    ensures later { (S.state sink.old).faults ≤ (S.state sink.new).faults }
    ensures quiet { IsEarly result → S.state sink.new ≡ S.state sink.old }
{
    match trace(alloc, program, values, sink) {
        Ok(()) => Ok(()),
        Err(TraceStop::Refused(fault)) => Err(RunStop::Refused(Refusal::Run(fault))),
        Err(TraceStop::WriteFault) => Err(RunStop::WriteFault),
        Err(TraceStop::NoMemory) => Err(RunStop::NoMemory),
    }
}

/// Writes the line of each assignment of the executor of the program of a source.
pub fn trace_by<S: Sink>(
    alloc: Global,
    source: &[u8],
    program: &Program,
    input: &[u8],
    sink: &mut S,
) -> Result<(), RunStop>
    requires is { program_of source.now ≡ Ok program.now }
    requires grammar { IsProgram (tokens_of source.now) program.now }
    requires rules { KeepsRules program.now }
    requires few { length input.now ≤ 2 ^ 62 }
    ensures tells { TraceTells source.now input.now (S.state sink.old) (S.state sink.new) result }
    ensures later { (S.state sink.old).faults ≤ (S.state sink.new).faults }
    ensures quiet { IsEarly result → S.state sink.new ≡ S.state sink.old }
{
    match read_values(alloc, source, program, input) {
        Ok(values) => trace_on(alloc, source, program, input, values, sink),
        Err(Stop::Refused(refusal)) => Err(RunStop::Refused(refusal)),
        Err(Stop::NoMemory) => Err(RunStop::NoMemory),
    }
}

/// Writes the line of each assignment of the executor of the program of a text.
pub fn trace_program<S: Sink>(
    alloc: Global,
    source: &[u8],
    input: &[u8],
    sink: &mut S,
) -> Result<(), RunStop>
    requires { length input.now ≤ 67108864 }
    ensures tells { TraceAnswers source.now input.now (S.state sink.old) (S.state sink.new) result }
    ensures later { (S.state sink.old).faults ≤ (S.state sink.new).faults }
    ensures quiet { IsEarly result → S.state sink.new ≡ S.state sink.old }
{
    match read(alloc, source) {
        Ok(program) => trace_by(alloc, source, &program, input, sink),
        Err(Stop::Refused(refusal)) => Err(RunStop::Refused(refusal)),
        Err(Stop::NoMemory) => Err(RunStop::NoMemory),
    }
}
