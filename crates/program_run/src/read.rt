// The values of a data text.
ghost use Rattle.std.specs.Prelude.{◌≡◌, ◌≤◌, ◌^◌, ℕ, List, [], length};
ghost use Rattle.c_judge.specs.Rules.{KeepsRules};
ghost use Rattle.csr_data.specs.Divisors.{ExtentsHaveDivisors};
ghost use Rattle.csr_data.specs.Lines.{dues, says_from};
ghost use Rattle.csr_data.specs.Reading.{told};
ghost use Rattle.program_run.specs.Texts.{TellsValues};

use c_tree::Program;
use chill_base::{NoMemory, Stop};
use csr_data::{DataReader, Values, ValuesFault};
use std::alloc::Global;

/// The values that a whole data text gives.
pub fn values_of(alloc: Global, program: &Program, text: &[u8]) -> Result<Values, Stop<ValuesFault>>
    requires rules { KeepsRules program.now }
    requires divisors { ExtentsHaveDivisors program.now }
    requires few { length text.now ≤ 2 ^ 62 }
    ensures { TellsValues program.now text.now result }
{
    match DataReader::new(alloc, program) {
        Ok(reader) => read_all(program, reader, text),
        Err(NoMemory) => Err(Stop::NoMemory),
    }
}

// The values of a text by a new reader.
fn read_all(
    _program: &Program,
    mut reader: DataReader,
    text: &[u8],
) -> Result<Values, Stop<ValuesFault>>
    requires few { length text.now ≤ 2 ^ 62 }
    requires fresh { reader.taken ≡ 0 }
    requires program { reader.held.program.now ≡ _program.now }
    requires told { (more : List ℕ) → told reader.halt reader.held more ≡ says_from 1 (dues _program.now) (record { params = []; arrays = [] }) more }
    ensures { TellsValues _program.now text.now result }
{
    match reader.feed(text) {
        Ok(()) => reader.finish(),
        Err(stop) => Err(stop),
    }
}
