// The values of a data text.
ghost use Rattle.std.specs.Prelude.{◌≡◌, ◌≤◌, ◌^◌, [], IfOk, IfErr, length};
ghost use Rattle.c_grammar.specs.Program.{IsProgram};
ghost use Rattle.c_judge.specs.Rules.{KeepsRules};
ghost use Rattle.c_tokens.specs.Pieces.{tokens_of};
ghost use Rattle.outcomes.specs.Refusing.{IfRefused};
ghost use Rattle.program_run.specs.Texts.{Gives};
ghost use Rattle.text_runs.specs.Running.{RunCause};
ghost use Rattle.text_runs.specs.Tracing.{lines_on};

use c_tree::Program;
use chill_base::Stop;
use csr_data::Values;
use outcomes::Refusal;
use program_run::values_of;
use std::alloc::Global;

/// The values that a data text gives for a program.
#[tactic(auto, using(crate::proofs::Laws::divides))]
pub fn read_values(
    alloc: Global,
    _source: &[u8],
    program: &Program,
    input: &[u8],
) -> Result<Values, Stop<Refusal>>
    requires grammar { IsProgram (tokens_of _source.now) program.now }
    requires rules { KeepsRules program.now }
    requires few { length input.now ≤ 2 ^ 62 }
    ensures ok { IfOk result (Gives program.now input.now) }
    ensures refused { IfErr result (IfRefused (RunCause program.now input.now)) }
    // A text that is refused gives a trace no lines.
    ensures untraced { IfErr result (IfRefused (λ r. lines_on program.now input.now ≡ [])) }
{
    match values_of(alloc, program, input) {
        Ok(values) => Ok(values),
        Err(Stop::Refused(fault)) => Err(Stop::Refused(Refusal::Values(fault))),
        Err(Stop::NoMemory) => Err(Stop::NoMemory),
    }
}
