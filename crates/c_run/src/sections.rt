// The two sections of a program, run on a store.
ghost use Rattle.std.specs.Prelude.{◌≡◌, ◌≤◌, Ok};
ghost use Rattle.c_walk.specs.State.{memory_in};
ghost use Rattle.c_run.specs.Ready.{CanInspect, CanExecute, scope_behind};
ghost use Rattle.c_run.specs.Store.{state_of_store};
ghost use Rattle.c_run.specs.Sections.{Ended, InspectorEnds, TraceEnds, inspector_run, executor_run, executor_lines};

use crate::fault::{RunFault, Section, TraceFault, fault_of};
use crate::inspector::inspect;
use crate::store::Store;
use c_tree::Program;
use c_walk::{Halt, Silent, run_statements};
use chill_base::{Place, Sink, Stop};
use std::alloc::Global;

/// Runs the inspector.
pub(crate) fn inspect_on(
    alloc: Global,
    store: &mut Store,
    program: &Program,
) -> Result<(), Stop<RunFault>>
    requires { CanInspect program.now (state_of_store store.old) }
    ensures ends { InspectorEnds result (inspector_run program.now (state_of_store store.old)) (memory_in (state_of_store store.new)) }
    ensures values { (state_of_store store.new).sight.value ≡ (state_of_store store.old).sight.value }
    ensures scope { result ≡ Ok tt → (state_of_store store.new).scope ≡ scope_behind program.now.inspector (state_of_store store.old).scope }
    ensures ready { result ≡ Ok tt → CanExecute program.now (state_of_store store.new) }
{
    match inspect(alloc, store, &program.inspector) {
        Ok(()) => Ok(()),
        Err(halt) => match &halt {
            Halt::Fault { place, fault } => {
                Err(Stop::Refused(fault_of(Section::Inspector, place, fault)))
            }
            Halt::NoMemory => Err(Stop::NoMemory),
            Halt::WriteFault => unreachable!(),
        },
    }
}

/// Runs the executor. It takes no memory.
pub(crate) fn execute_on(store: &mut Store, program: &Program) -> Result<(), RunFault>
    requires { CanExecute program.now (state_of_store store.old) }
    ensures ends { Ended Section.Executor result (executor_run program.now (state_of_store store.old)) (memory_in (state_of_store store.new)) }
    ensures ready { CanExecute program.now (state_of_store store.new) }
{
    match run_statements(store, &mut Silent, &program.executor, &Place::new(), 0) {
        Ok(()) => Ok(()),
        Err(halt) => match &halt {
            Halt::Fault { place, fault } => Err(fault_of(Section::Executor, place, fault)),
            Halt::NoMemory => unreachable!(),
            Halt::WriteFault => unreachable!(),
        },
    }
}

/// Runs the executor, and writes a line for each assignment right before it is made. It takes no memory.
pub(crate) fn trace_on<S: Sink>(
    store: &mut Store,
    program: &Program,
    sink: &mut S,
) -> Result<(), TraceFault>
    requires { CanExecute program.now (state_of_store store.old) }
    ensures ends { TraceEnds result (executor_lines program.now (state_of_store store.old)) (executor_run program.now (state_of_store store.old)) (memory_in (state_of_store store.new)) (S.state sink.old) (S.state sink.new) }
    ensures later { (S.state sink.old).faults ≤ (S.state sink.new).faults }
    ensures ready { CanExecute program.now (state_of_store store.new) }
{
    match run_statements(store, sink, &program.executor, &Place::new(), 0) {
        Ok(()) => Ok(()),
        Err(halt) => match &halt {
            Halt::Fault { place, fault } => {
                Err(TraceFault::Run(fault_of(Section::Executor, place, fault)))
            }
            Halt::WriteFault => Err(TraceFault::WriteFault),
            Halt::NoMemory => unreachable!(),
        },
    }
}
