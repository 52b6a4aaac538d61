// The program of a text.
ghost use Rattle.std.specs.Prelude.{◌≡◌, Ok, IfOk, IfErr};
ghost use Rattle.c_grammar.specs.Program.{IsProgram};
ghost use Rattle.c_judge.specs.Rules.{KeepsRules};
ghost use Rattle.c_loops.specs.Programs.{program_of};
ghost use Rattle.c_tokens.specs.Pieces.{tokens_of};
ghost use Rattle.outcomes.specs.Refusing.{IfRefused, ProgramCause};

use c_loops::read_program;
use c_tree::Program;
use chill_base::Stop;
use outcomes::Refusal;
use std::alloc::Global;

/// The program of a text.
pub fn read(alloc: Global, text: &[u8]) -> Result<Program, Stop<Refusal>>
    ensures ok { IfOk result (λ p. program_of text.now ≡ Ok p) }
    ensures grammar { IfOk result (λ p. IsProgram (tokens_of text.now) p) }
    ensures rules { IfOk result (λ p. KeepsRules p) }
    ensures refused { IfErr result (IfRefused (ProgramCause (program_of text.now))) }
{
    match read_program(alloc, text) {
        Ok(program) => Ok(program),
        Err(Stop::Refused(fault)) => Err(Stop::Refused(Refusal::Program(fault))),
        Err(Stop::NoMemory) => Err(Stop::NoMemory),
    }
}
