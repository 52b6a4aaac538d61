// Programs.
ghost use Rattle.c_grammar.specs.ReadProgram as spec;
ghost use Rattle.c_loops.specs.Reads.{Reads};

use crate::halt::Halt;
use crate::sections::{executed, inspector_if_any};
use crate::signature::{matrices, parameters};
use crate::words::name;
use c_grammar::Signature;
use c_tokens::{Sign, Tokens};
use c_tree::Program;
use std::alloc::Global;

/// How many brackets may stand around one place.
const BRACKETS: u16 = 256;

/// The longest program at the front.
#[tactic(auto, unfolding(c_grammar::specs::ReadProgram::program, c_grammar::specs::ReadProgram::procedure))]
pub fn program(alloc: Global, tokens: &mut Tokens<'_>) -> Result<Program, Halt>
    ensures { Reads (spec.program tokens.old) result tokens.new }
{
    let matrices = matrices(alloc, tokens)?;
    tokens.expect(Sign::Void)?;
    let name = name(tokens)?;
    tokens.expect(Sign::Open)?;
    let Signature { params, arrays } = parameters(alloc, tokens, BRACKETS - 2)?;
    tokens.expect(Sign::Close)?;
    tokens.expect(Sign::OpenBrace)?;
    let inspector = inspector_if_any(alloc, tokens, BRACKETS - 2)?;
    let executor = executed(alloc, tokens, BRACKETS - 1)?;
    tokens.expect(Sign::CloseBrace)?;
    Ok(Program {
        name,
        matrices,
        params,
        arrays,
        inspector,
        executor,
    })
}
