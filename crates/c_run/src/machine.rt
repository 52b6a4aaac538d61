// The machine that runs a program.
ghost use Rattle.std.specs.Prelude.{◌≡◌, ◌≤◌, [], ◌++◌, None, Some, Ok, Err, IfOk, OnOk, MatchOption};
ghost use Rattle.chill_base.specs.Outside.{Rose};
ghost use Rattle.csr_data.specs.Parameters.{AreSmall};
ghost use Rattle.c_walk.specs.State.{memory_in};
ghost use Rattle.csr_data.specs.Values.{array_of};
ghost use Rattle.c_run.specs.Ready.{CanInspect, CanExecute, HasArrays, scope_behind};
ghost use Rattle.c_run.specs.Store.{state_of_store, scope_of_store, tables_of, prepared};
ghost use Rattle.c_run.specs.Printing.{arrays_text, AreWhole};
ghost use Rattle.c_run.specs.Sections.{Ended, InspectorEnds, TraceEnds, inspector_run, executor_run, executor_lines};
ghost use Rattle.c_run.specs.Stages.{IsInspected};
ghost use Rattle.c_run.specs.declared.machine.Stage.TheVariants.{Prepared, Inspected};
ghost use Rattle.c_run.specs.declared.fault.Section.TheVariants.{Executor};

use crate::arrays::Arrays;
use crate::fault::{RunFault, TraceFault};
use crate::numbers::Numbers;
use crate::sections::{execute_on, inspect_on, trace_on};
use crate::store::Store;
use c_tree::Program;
use chill_base::{Name, NoMemory, Sink, Stop};
use csr_data::{Values, push_array};
use raw_store::Grid;
use std::alloc::Global;

/// How far a machine is.
#[derive(Clone, Copy)]
pub enum Stage {
    Prepared,
    /// The inspector was run.
    Inspected,
    /// The inspector was refused, or the executor.
    Refused(RunFault),
    NoMemory,
}

fn refused(fault: &RunFault) -> Stage
    ensures { result ≡ Stage.Refused fault.now }
{
    Stage::Refused(*fault)
}

/// Runs a program on values: the inspector once, and then the executor.
#[derive(Drop)]
pub struct Machine<'a> {
    alloc: Global,
    program: &'a Program,
    store: Store,
    stage: Stage,
    ghost prepared: { stage ≡ Prepared → CanInspect program.now (state_of_store store) },
    ghost inspected: { stage ≡ Inspected → CanExecute program.now (state_of_store store) },
}

impl<'a> Machine<'a> {
    ghost use Rattle.csr_data.specs.Values.{params_of, arrays_of};
    ghost use Rattle.c_run.specs.Machines.{state_of_machine};

    /// Makes the room for the loop variables. Where there is no memory the values are dropped.
    pub fn prepare(
        alloc: Global,
        program: &'a Program,
        values: Values,
    ) -> Result<Machine<'a>, NoMemory>
        requires small { AreSmall (params_of values) }
        requires ready { CanInspect program.now (prepared (params_of values) (arrays_of values)) }
        ensures { IfOk result (λ m. (m.stage ≡ Stage.Prepared) × (m.program.now ≡ program.now) × (state_of_machine m ≡ prepared (params_of values) (arrays_of values))) }
    {
        let (params, tables) = values.into_parts();
        let numbers = Numbers::new(alloc, params)?;
        Ok(Machine {
            alloc,
            program,
            store: Store {
                numbers,
                arrays: Arrays::new(tables),
            },
            stage: Stage::Prepared,
        })
    }

    /// Runs the inspector. After a refusal the machine answers it from then on, and so after want of memory.
    pub fn inspect(&mut self) -> Result<(), Stop<RunFault>>
        ensures ends { self.old.stage ≡ Stage.Prepared → InspectorEnds result (inspector_run self.old.program.now (state_of_machine self.old)) (memory_in (state_of_machine self.new)) }
        ensures ok { result ≡ Ok tt → self.new.stage ≡ Stage.Inspected }
        ensures refused { (fault : RunFault) → result ≡ Err (Stop.Refused fault) → self.new.stage ≡ Stage.Refused fault }
        ensures no_memory { result ≡ Err Stop.NoMemory → self.new.stage ≡ Stage.NoMemory }
        ensures stays { (fault : RunFault) → self.old.stage ≡ Stage.Refused fault → result ≡ Err (Stop.Refused fault) }
        ensures starves { self.old.stage ≡ Stage.NoMemory → result ≡ Err Stop.NoMemory }
        ensures program { self.new.program ≡ self.old.program }
        ensures values { (state_of_machine self.new).sight.value ≡ (state_of_machine self.old).sight.value }
        ensures scope { self.old.stage ≡ Stage.Prepared → result ≡ Ok tt → (state_of_machine self.new).scope ≡ scope_behind self.old.program.now.inspector (state_of_machine self.old).scope }
    {
        match self.stage {
            Stage::Prepared => self.run_inspector(),
            Stage::Inspected => Ok(()),
            Stage::Refused(fault) => Err(Stop::Refused(fault)),
            Stage::NoMemory => Err(Stop::NoMemory),
        }
    }

    fn run_inspector(&mut self) -> Result<(), Stop<RunFault>>
        requires { self.old.stage ≡ Stage.Prepared }
        ensures ends { InspectorEnds result (inspector_run self.old.program.now (state_of_machine self.old)) (memory_in (state_of_machine self.new)) }
        ensures ok { result ≡ Ok tt → self.new.stage ≡ Stage.Inspected }
        ensures refused { (fault : RunFault) → result ≡ Err (Stop.Refused fault) → self.new.stage ≡ Stage.Refused fault }
        ensures no_memory { result ≡ Err Stop.NoMemory → self.new.stage ≡ Stage.NoMemory }
        ensures program { self.new.program ≡ self.old.program }
        ensures values { (state_of_machine self.new).sight.value ≡ (state_of_machine self.old).sight.value }
        ensures scope { result ≡ Ok tt → (state_of_machine self.new).scope ≡ scope_behind self.old.program.now.inspector (state_of_machine self.old).scope }
    {
        match inspect_on(self.alloc, &mut self.store, self.program) {
            Ok(()) => {
                self.stage = Stage::Inspected;
                Ok(())
            }
            Err(Stop::Refused(fault)) => {
                self.stage = refused(&fault);
                Err(Stop::Refused(fault))
            }
            Err(Stop::NoMemory) => {
                self.stage = Stage::NoMemory;
                Err(Stop::NoMemory)
            }
        }
    }

    /// Runs the executor. It takes no memory. After a refusal the machine answers it from then on.
    pub fn execute(&mut self) -> Result<(), RunFault>
        requires { IsInspected self.old.stage }
        ensures ends { self.old.stage ≡ Stage.Inspected → Ended Executor result (executor_run self.old.program.now (state_of_machine self.old)) (memory_in (state_of_machine self.new)) }
        ensures ok { result ≡ Ok tt → self.new.stage ≡ Stage.Inspected }
        ensures refused { (fault : RunFault) → result ≡ Err fault → self.new.stage ≡ Stage.Refused fault }
        ensures stays { (fault : RunFault) → self.old.stage ≡ Stage.Refused fault → result ≡ Err fault }
        ensures program { self.new.program ≡ self.old.program }
    {
        match self.stage {
            Stage::Inspected => self.run_executor(),
            Stage::Refused(fault) => Err(fault),
            Stage::Prepared => unreachable!(),
            Stage::NoMemory => unreachable!(),
        }
    }

    fn run_executor(&mut self) -> Result<(), RunFault>
        requires { self.old.stage ≡ Stage.Inspected }
        ensures ends { Ended Executor result (executor_run self.old.program.now (state_of_machine self.old)) (memory_in (state_of_machine self.new)) }
        ensures ok { result ≡ Ok tt → self.new.stage ≡ Stage.Inspected }
        ensures refused { (fault : RunFault) → result ≡ Err fault → self.new.stage ≡ Stage.Refused fault }
        ensures program { self.new.program ≡ self.old.program }
    {
        match execute_on(&mut self.store, self.program) {
            Ok(()) => Ok(()),
            Err(fault) => {
                self.stage = refused(&fault);
                Err(fault)
            }
        }
    }

    /// Runs the executor, and writes the line of each assignment right before it is made. It takes no memory. After a
    /// failed line a later run begins from the arrays as they are then.
    pub fn execute_traced<S: Sink>(&mut self, sink: &mut S) -> Result<(), TraceFault>
        requires { IsInspected self.old.stage }
        ensures ends { self.old.stage ≡ Stage.Inspected → TraceEnds result (executor_lines self.old.program.now (state_of_machine self.old)) (executor_run self.old.program.now (state_of_machine self.old)) (memory_in (state_of_machine self.new)) (S.state sink.old) (S.state sink.new) }
        ensures later { (S.state sink.old).faults ≤ (S.state sink.new).faults }
        ensures ok { result ≡ Ok tt → self.new.stage ≡ Stage.Inspected }
        ensures refused { (fault : RunFault) → result ≡ Err (TraceFault.Run fault) → self.new.stage ≡ Stage.Refused fault }
        ensures cause { result ≡ Err TraceFault.WriteFault → Rose (S.state sink.old).faults (S.state sink.new).faults }
        ensures stays { (fault : RunFault) → self.old.stage ≡ Stage.Refused fault → result ≡ Err (TraceFault.Run fault) }
        ensures program { self.new.program ≡ self.old.program }
    {
        match self.stage {
            Stage::Inspected => self.trace_executor(sink),
            Stage::Refused(fault) => Err(TraceFault::Run(fault)),
            Stage::Prepared => unreachable!(),
            Stage::NoMemory => unreachable!(),
        }
    }

    fn trace_executor<S: Sink>(&mut self, sink: &mut S) -> Result<(), TraceFault>
        requires { self.old.stage ≡ Stage.Inspected }
        ensures ends { TraceEnds result (executor_lines self.old.program.now (state_of_machine self.old)) (executor_run self.old.program.now (state_of_machine self.old)) (memory_in (state_of_machine self.new)) (S.state sink.old) (S.state sink.new) }
        ensures later { (S.state sink.old).faults ≤ (S.state sink.new).faults }
        ensures ok { result ≡ Ok tt → self.new.stage ≡ Stage.Inspected }
        ensures refused { (fault : RunFault) → result ≡ Err (TraceFault.Run fault) → self.new.stage ≡ Stage.Refused fault }
        ensures program { self.new.program ≡ self.old.program }
    {
        match trace_on(&mut self.store, self.program, sink) {
            Ok(()) => Ok(()),
            Err(TraceFault::Run(fault)) => {
                self.stage = refused(&fault);
                Err(TraceFault::Run(fault))
            }
            Err(TraceFault::WriteFault) => Err(TraceFault::WriteFault),
        }
    }

    /// The cells of an array. None exactly where there is no array of that name.
    pub fn array(&self, name: &Name) -> Option<&Grid>
        ensures { MatchOption result (array_of (tables_of self.now.store.arrays) name.now ≡ None) (λ g. array_of (tables_of self.now.store.arrays) name.now ≡ Some g.now) }
    {
        self.store.arrays.find(name)
    }

    /// Appends a line for each array of the signature, with all its cells as they are now.
    pub fn push_arrays(&self, text: &mut Vec<u8>) -> Result<(), NoMemory>
        requires { self.now.stage ≡ Stage.Inspected }
        ensures text { OnOk result (text.new.items ≡ text.old.items ++ arrays_text (tables_of self.now.store.arrays) self.now.program.now.arrays) }
        ensures whole { OnOk result (AreWhole (tables_of self.now.store.arrays) self.now.program.now.arrays) }
    {
        push_all(text, &self.store, self.program)
    }
}

// Appends a line for each array of the signature.
fn push_all(text: &mut Vec<u8>, store: &Store, program: &Program) -> Result<(), NoMemory>
    requires { HasArrays program.now (scope_of_store store.now) }
    ensures text { OnOk result (text.new.items ≡ text.old.items ++ arrays_text (tables_of store.now.arrays) program.now.arrays) }
    ensures whole { OnOk result (AreWhole (tables_of store.now.arrays) program.now.arrays) }
{
    for array in program.arrays.as_slice() {
        push_array(text, &array.name, store.arrays.grid(&array.name))?;
    }
    Ok(())
}
