// The work that is measured.
ghost use Rattle.std.specs.Prelude.{◌≡◌, ◌≤◌, ◌⊎◌, Ok, IfOk, IfErr, length};
ghost use Rattle.c_grammar.specs.Program.{IsProgram};
ghost use Rattle.c_judge.specs.Rules.{KeepsRules};
ghost use Rattle.c_loops.specs.Programs.{program_of};
ghost use Rattle.c_tokens.specs.Pieces.{tokens_of};
ghost use Rattle.emission.specs.Emitting.{Emits};
ghost use Rattle.outcomes.specs.Refusing.{IfRefused, ProgramCause};
ghost use Rattle.text_runs.specs.Running.{RunDenies};
ghost use Rattle.measured_run.specs.Work.{Measured, RunsTo, WorkCause};

use crate::machine::run_measured;
use c_tree::Program;
use chill_base::{FILE_LIMIT, NoMemory, Stop, Text};
use csr_data::{generate, print_values};
use emission::emit;
use outcomes::Refusal;
use std::alloc::Global;
use text_runs::{read, read_values};

/// The recipe of the measured run.
pub const RECIPE: &[u8] =
    b"make_dense(0,2)\ntile(0,1,2,1)\ntile(0,3,2,2)\ncompact_and_pad(0,2,block,b)\n";

/// The source of the measured run: the product of a sparse matrix and a vector.
pub const SOURCE: &[u8] =
    b"#pragma sparse csr(index, col, a, n, m, nnz)\nvoid spmv(int64_t n, int64_t m, int64_t nnz, int64_t index[n+1], int64_t col[nnz], uint64_t a[nnz], uint64_t x[m], uint64_t y[n])\n{\n  for (int64_t i = 0; i < n; i++)\n    for (int64_t k = index[i]; k < index[i+1]; k++)\n      y[i] += a[k] * x[col[k]];\n}\n";

/// The data text of the measured run.
fn made(alloc: Global, seed: u32, size: u32) -> Result<Text, NoMemory>
    requires seed { seed ≤ 2147483647 }
    requires size { (1 ≤ size) × (size ≤ 65536) }
{
    let values = generate(alloc, seed, size)?;
    print_values(alloc, &values)
}

/// The program that the block recipe makes of the source. The recipe is no cause of a refusal.
fn emitted(alloc: Global) -> Result<Text, Stop<Refusal>>
    ensures ok { IfOk result (Emits RECIPE.now SOURCE.now) }
    ensures refused { IfErr result (IfRefused (WorkCause RECIPE.now SOURCE.now)) }
{
    emit(alloc, RECIPE, SOURCE)
}

/// Runs the program of a text on a data text, and tells of the data and of the arrays that it leaves.
fn run_text(alloc: Global, source: &[u8], input: &[u8], size: u32) -> Result<Text, Stop<Refusal>>
    requires { length input.now ≤ 67108864 }
    ensures ok { IfOk result (RunsTo source.now input.now size) }
    ensures refused { IfErr result (IfRefused (λ r. ProgramCause (program_of source.now) r ⊎ RunDenies source.now input.now r)) }
{
    match read(alloc, source) {
        Ok(program) => run_tree(alloc, source, &program, input, size),
        Err(stop) => Err(stop),
    }
}

fn run_tree(
    alloc: Global,
    source: &[u8],
    program: &Program,
    input: &[u8],
    size: u32,
) -> Result<Text, Stop<Refusal>>
    requires is { program_of source.now ≡ Ok program.now }
    requires grammar { IsProgram (tokens_of source.now) program.now }
    requires rules { KeepsRules program.now }
    requires few { length input.now ≤ 67108864 }
    ensures ok { IfOk result (RunsTo source.now input.now size) }
    ensures refused { IfErr result (IfRefused (RunDenies source.now input.now)) }
{
    match read_values(alloc, source, program, input) {
        Ok(values) => run_measured(alloc, source, program, input, values, size),
        Err(stop) => Err(stop),
    }
}

/// Makes data of so many rows, writes the program of the block recipe, runs it on the data, and gives the summary of the data
/// and of the arrays that the run leaves. A data text that is longer than a file may be is refused as such.
pub fn work(alloc: Global, seed: u32, size: u32) -> Result<Text, Stop<Refusal>>
    requires seed { seed ≤ 2147483647 }
    requires size { (1 ≤ size) × (size ≤ 65536) }
    ensures ok { IfOk result (Measured RECIPE.now SOURCE.now size) }
    ensures refused { IfErr result (IfRefused (WorkCause RECIPE.now SOURCE.now)) }
{
    let written = emitted(alloc)?;
    let input = made(alloc, seed, size)?;
    if input.len() > FILE_LIMIT {
        return Err(Stop::Refused(Refusal::FileLong { file: 2 }));
    }
    run_text(alloc, written.as_slice(), input.as_slice(), size)
}
