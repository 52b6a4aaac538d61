// The run, and what the summary tells of the arrays behind it.
ghost use Rattle.std.specs.Prelude.{◌≡◌, ◌≤◌, ◌*◌, ◌%◌, ◌^◌, IfOk, IfErr, length};
ghost use Rattle.c_grammar.specs.Program.{IsProgram};
ghost use Rattle.c_judge.specs.Rules.{KeepsRules};
ghost use Rattle.c_run.specs.Machines.{state_of_machine};
ghost use Rattle.c_tokens.specs.Pieces.{tokens_of};
ghost use Rattle.c_walk.specs.State.{memory_in};
ghost use Rattle.csr_data.specs.Values.{params_of};
ghost use Rattle.program_run.specs.Texts.{Gives};
ghost use Rattle.outcomes.specs.Refusing.{IfRefused};
ghost use Rattle.text_runs.specs.Running.{RunCause};
ghost use Rattle.measured_run.specs.Figures.{cells_of, entries_of, figures, total, weighed};
ghost use Rattle.measured_run.specs.Work.{Measures, summary};

use crate::summary::{Figures, layout, lines, sum};
use c_run::Machine;
use c_tree::Program;
use chill_base::{Name, NoMemory, Stop, Text};
use csr_data::Values;
use outcomes::Refusal;
use raw_store::{Cells, Grid};
use std::alloc::Global;

fn name(bytes: &[u8]) -> Name
    requires { (1 ≤ length bytes.now) × (length bytes.now ≤ 63) }
    ensures { result ≡ bytes.now }
{
    Name::new(bytes).unwrap()
}

/// How many entries the matrix of the data has.
fn entries(values: &Values) -> u64
    ensures { result ≡ entries_of (params_of values.now) }
{
    values.param(&name(b"nnz")).unwrap_or(0)
}

/// The cells of an array, as many as its extents say.
fn cells(grid: &Grid) -> &Cells
    ensures cells { result.now ≡ grid.now.cells }
    ensures full { length grid.now.cells ≡ grid.now.first * (grid.now.deep * grid.now.wide) }
{
    let _extents = grid.extents();
    grid.cells()
}

/// The sum of an array's cells.
fn sum_of(machine: &Machine, array: &[u8]) -> u64
    requires { (1 ≤ length array.now) × (length array.now ≤ 63) }
    ensures { result ≡ total (cells_of (memory_in (state_of_machine machine.now)) array.now) }
{
    match machine.array(&name(array)) {
        Some(grid) => sum(cells(grid)),
        None => 0,
    }
}

/// The sum of an array's cells, each times one more than its place.
fn layout_of(machine: &Machine, array: &[u8]) -> u64
    requires { (1 ≤ length array.now) × (length array.now ≤ 63) }
    ensures { result ≡ weighed 0 (cells_of (memory_in (state_of_machine machine.now)) array.now) % 2 ^ 64 }
{
    match machine.array(&name(array)) {
        Some(grid) => layout(cells(grid)),
        None => 0,
    }
}

/// The figures of the arrays. The number of blocks stands in the one cell of `b_num`.
fn measure(machine: &Machine, size: u32, entries: u64) -> Figures
    ensures { result ≡ figures size entries (memory_in (state_of_machine machine.now)) }
{
    Figures {
        size: size as u64,
        entries,
        blocks: sum_of(machine, b"b_num"),
        layout: layout_of(machine, b"b_lay"),
        sum: sum_of(machine, b"y"),
    }
}

/// Runs the program on the values, and tells of the data and of the arrays that it leaves.
#[tactic(auto, using(crate::proofs::Laws::can_run))]
pub(crate) fn run_measured(
    alloc: Global,
    _source: &[u8],
    program: &Program,
    _input: &[u8],
    values: Values,
    size: u32,
) -> Result<Text, Stop<Refusal>>
    requires grammar { IsProgram (tokens_of _source.now) program.now }
    requires rules { KeepsRules program.now }
    requires gives { Gives program.now _input.now values }
    ensures ok { IfOk result (Measures program.now _input.now size) }
    ensures refused { IfErr result (IfRefused (RunCause program.now _input.now)) }
{
    let count = entries(&values);
    let mut machine = match Machine::prepare(alloc, program, values) {
        Ok(machine) => machine,
        Err(NoMemory) => return Err(Stop::NoMemory),
    };
    match machine.inspect() {
        Ok(()) => {}
        Err(Stop::Refused(fault)) => return Err(Stop::Refused(Refusal::Run(fault))),
        Err(Stop::NoMemory) => return Err(Stop::NoMemory),
    }
    match machine.execute() {
        Ok(()) => match lines(alloc, &measure(&machine, size, count)) {
            Ok(text) => Ok(text),
            Err(NoMemory) => Err(Stop::NoMemory),
        },
        Err(fault) => Err(Stop::Refused(Refusal::Run(fault))),
    }
}
