// Runs of programs on values.
ghost use Rattle.std.specs.Prelude.{◌≡◌, ◌≤◌};
ghost use Rattle.csr_data.specs.Parameters.{AreSmall};
ghost use Rattle.csr_data.specs.Values.{params_of, arrays_of};
ghost use Rattle.c_run.specs.Ready.{CanInspect};
ghost use Rattle.c_run.specs.Store.{prepared};
ghost use Rattle.c_run.specs.Machines.{state_of_machine};
ghost use Rattle.c_run.specs.declared.machine.Stage.TheVariants.{Inspected};
ghost use Rattle.program_run.specs.Runs.{RunEnds, TraceEnds, ExecutorLeaves, IsBefore};

use c_run::{Machine, RunFault, TraceFault};
use c_tree::Program;
use chill_base::{List, NoMemory, Sink, Stop, Text};
use csr_data::{Values, push_parameters};
use std::alloc::Global;

/// Why a traced run ended early.
#[derive(Clone, Copy, PartialEq, Eq)]
pub enum TraceStop {
    Refused(RunFault),
    WriteFault,
    NoMemory,
}

/// The data text of the values that a run of the program leaves.
pub fn run(alloc: Global, program: &Program, values: Values) -> Result<Text, Stop<RunFault>>
    requires small { AreSmall (params_of values) }
    requires ready { CanInspect program.now (prepared (params_of values) (arrays_of values)) }
    ensures { RunEnds program.now (params_of values) (arrays_of values) result }
{
    let mut text = Vec::new(alloc);
    push_parameters(&mut text, values.params())?;
    let mut machine = match Machine::prepare(alloc, program, values) {
        Ok(machine) => machine,
        Err(NoMemory) => return Err(Stop::NoMemory),
    };
    match machine.inspect() {
        Ok(()) => execute_into(&mut machine, text),
        Err(stop) => Err(stop),
    }
}

// Runs the executor, and appends the arrays to the text.
fn execute_into(machine: &mut Machine, mut text: Vec<u8>) -> Result<Text, Stop<RunFault>>
    requires { machine.old.stage ≡ Inspected }
    ensures { ExecutorLeaves machine.old.program.now (state_of_machine machine.old) text.items result }
{
    match machine.execute() {
        Ok(()) => match machine.push_arrays(&mut text) {
            Ok(()) => Ok(List::from_vec(text)),
            Err(NoMemory) => Err(Stop::NoMemory),
        },
        Err(fault) => Err(Stop::Refused(fault)),
    }
}

/// Writes the line of each assignment of the program's executor.
pub fn trace<S: Sink>(
    alloc: Global,
    program: &Program,
    values: Values,
    sink: &mut S,
) -> Result<(), TraceStop>
    requires small { AreSmall (params_of values) }
    requires ready { CanInspect program.now (prepared (params_of values) (arrays_of values)) }
    ensures ends { TraceEnds program.now (params_of values) (arrays_of values) (S.state sink.old) (S.state sink.new) result }
    ensures later { (S.state sink.old).faults ≤ (S.state sink.new).faults }
    // A trace that ends before the executor leaves the sink as it was.
    ensures quiet { IsBefore result → S.state sink.new ≡ S.state sink.old }
{
    let mut machine = match Machine::prepare(alloc, program, values) {
        Ok(machine) => machine,
        Err(NoMemory) => return Err(TraceStop::NoMemory),
    };
    match machine.inspect() {
        Ok(()) => match machine.execute_traced(sink) {
            Ok(()) => Ok(()),
            Err(TraceFault::Run(fault)) => Err(TraceStop::Refused(fault)),
            Err(TraceFault::WriteFault) => Err(TraceStop::WriteFault),
        },
        Err(Stop::Refused(fault)) => Err(TraceStop::Refused(fault)),
        Err(Stop::NoMemory) => Err(TraceStop::NoMemory),
    }
}
