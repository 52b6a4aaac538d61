// Programs that go through a kernel.
ghost use Rattle.std.specs.Prelude.{◌≡◌, OnOk, IfOk, IfErr};
ghost use Rattle.c_judge.specs.Rules.{KeepsRules};
ghost use Rattle.source_limits.specs.Executor.{HasExecutor};
ghost use Rattle.nest_core.specs.Shapes.{IsShaped};
ghost use Rattle.kernel_commands.specs.Done.{AllDone};
ghost use Rattle.emission.specs.Emitting.{IsAccepted, IsReached, IsThrough, IsRefusedAt, IsLater};
ghost use Rattle.outcomes.specs.Refusing.{IfRefused};

use c_tree::Program;
use chill_base::Stop;
use kernel_commands::apply;
use loop_scan::scan;
use nest_tree::Kernel;
use outcomes::Refusal;
use recipe_read::Command;
use source_check::accept;
use std::alloc::Global;

/// An accepted kernel of a program.
fn accepted(
    alloc: Global,
    _commands: &[Command],
    program: &Program,
) -> Result<Kernel, Stop<Refusal>>
    requires rules { KeepsRules program.now }
    requires executor { HasExecutor program.now }
    ensures accepted { IfOk result (IsAccepted program.now) }
    ensures refused { IfErr result (IfRefused (IsLater _commands.now program.now)) }
{
    match accept(alloc, program) {
        Ok(kernel) => Ok(kernel),
        Err(Stop::Refused(fault)) => Err(Stop::Refused(Refusal::Source(fault))),
        Err(Stop::NoMemory) => Err(Stop::NoMemory),
    }
}

/// Applies the commands in order. A refused one leaves the kernel that those before it have made.
fn apply_all(alloc: Global, kernel: &mut Kernel, commands: &[Command]) -> Result<(), Stop<Refusal>>
    requires shaped { IsShaped kernel.old }
    ensures shaped { IsShaped kernel.new }
    ensures done { OnOk result (AllDone kernel.old commands.now kernel.new) }
    ensures refused { IfErr result (IfRefused (IsRefusedAt kernel.old commands.now kernel.new)) }
{
    for i in 0..commands.len() {
        match apply(alloc, kernel, &commands[i]) {
            Ok(()) => {}
            Err(Stop::Refused(fault)) => {
                let number = i + 1;
                return Err(Stop::Refused(Refusal::Command { number, fault }));
            }
            Err(Stop::NoMemory) => return Err(Stop::NoMemory),
        }
    }
    Ok(())
}

/// The program that the statements of a kernel are written as.
fn scanned(
    alloc: Global,
    _commands: &[Command],
    _program: &Program,
    kernel: &Kernel,
) -> Result<Program, Stop<Refusal>>
    requires { IsReached _commands.now _program.now kernel.now }
    ensures through { IfOk result (IsThrough _commands.now _program.now) }
    ensures refused { IfErr result (IfRefused (IsLater _commands.now _program.now)) }
{
    match scan(alloc, kernel) {
        Ok(program) => Ok(program),
        Err(Stop::Refused(fault)) => Err(Stop::Refused(Refusal::Scan(fault))),
        Err(Stop::NoMemory) => Err(Stop::NoMemory),
    }
}

/// The program that the commands make of a program.
#[tactic(auto, using(crate::proofs::Chain::stopped))]
pub fn through_kernel(
    alloc: Global,
    commands: &[Command],
    program: &Program,
) -> Result<Program, Stop<Refusal>>
    requires rules { KeepsRules program.now }
    requires executor { HasExecutor program.now }
    ensures through { IfOk result (IsThrough commands.now program.now) }
    ensures refused { IfErr result (IfRefused (IsLater commands.now program.now)) }
{
    let mut kernel = accepted(alloc, commands, program)?;
    apply_all(alloc, &mut kernel, commands)?;
    scanned(alloc, commands, program, &kernel)
}
