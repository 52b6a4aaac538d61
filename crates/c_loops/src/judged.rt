// Reading a program, and judging it.
ghost use Rattle.std.specs.Prelude.{◌≡◌, IfOk};
ghost use Rattle.c_tokens.specs.Pieces.{tokens_of};
ghost use Rattle.c_tree.specs.declared.program.Program.{Program};
ghost use Rattle.c_grammar.specs.Program.{IsProgram};
ghost use Rattle.c_judge.specs.Rules.{KeepsRules};
ghost use Rattle.c_loops.specs.Text.{IfRefused};
ghost use Rattle.c_loops.specs.Programs.{program_of, Reads, IsCause};

use crate::{SyntaxAt, read_tree};
use c_judge::{ProgramFault, judge};
use c_tree::Program;
use chill_base::Stop;
use std::alloc::Global;

#[tactic(auto, unfolding(crate::specs::Programs::program_of))]
fn judged(alloc: Global, text: &[u8]) -> Result<Program, Stop<ProgramFault>>
    ensures { Reads (program_of text.now) result }
{
    let program = match read_tree(alloc, text) {
        Ok(program) => program,
        Err(Stop::Refused(SyntaxAt { token })) => {
            return Err(Stop::Refused(ProgramFault::Syntax { token }));
        }
        Err(Stop::NoMemory) => return Err(Stop::NoMemory),
    };
    match judge(alloc, &program) {
        Ok(()) => Ok(program),
        Err(stop) => Err(stop),
    }
}

/// The program of a text. A text that isn't in the grammar is refused as such; then the rules are judged that a tree must
/// keep besides.
pub fn read_program(alloc: Global, text: &[u8]) -> Result<Program, Stop<ProgramFault>>
    // The answer of the reader on tokens, and of the judge.
    ensures exact { Reads (program_of text.now) result }

    // The program is the text's by the grammar, there is no other, and it keeps the rules.
    ensures sound { IfOk result (λ p. IsProgram (tokens_of text.now) p × KeepsRules p) }
    ensures only { IfOk result (λ p. (q : Program) → IsProgram (tokens_of text.now) q → q ≡ p) }

    ensures refused { IfRefused result (λ fault. IsCause text.now fault) }
{
    judged(alloc, text)
}
