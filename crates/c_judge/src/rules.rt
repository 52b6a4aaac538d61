// The judge of a program's tree.
ghost use Rattle.c_judge.specs.Rules.{fault_of};
ghost use Rattle.c_judge.specs.Outcomes.{Tells};

use crate::ProgramFault;
use crate::fixed::judge_fixed;
use crate::limits::limit_fault;
use crate::names::{Part, judge_names, refuse};
use crate::signature::{signature, signature_fault};
use c_tree::Program;
use chill_base::Stop;
use std::alloc::Global;

/// Judges the rules that a tree of the grammar must keep besides: first the limits, then the names, then what must stay
/// as it is. Within each of the last two, the first fault in the order of the tree counts.
#[tactic(auto, unfolding(crate::specs::Rules::fault_of, crate::specs::Rules::all_names))]
pub fn judge(alloc: Global, program: &Program) -> Result<(), Stop<ProgramFault>>
    ensures { Tells (fault_of program.now) result }
{
    refuse(limit_fault(program))?;
    let mut scope = signature(alloc, program)?;
    refuse(signature_fault(&scope, program))?;
    judge_names(&mut scope, Part::Inspector, program.inspector.as_slice())?;
    judge_names(&mut scope, Part::Executor, program.executor.as_slice())?;
    judge_fixed(alloc, &scope, Part::Inspector, program.inspector.as_slice())?;
    judge_fixed(alloc, &scope, Part::Executor, program.executor.as_slice())
}
