//! What it means that a program of the first form is written: it runs as the source does. Each function here carries one
//! law as its contract.
#![tactic(auto)]

ghost use Rattle.std.specs.Prelude.{◌≡◌, Some};
ghost use Rattle.c_tree.specs.declared.program.Program.{Program};
ghost use Rattle.c_meaning.specs.Inputs.{Input, IsValid};
ghost use Rattle.c_meaning.specs.Programs.{IsFine};
ghost use Rattle.first_form.specs.Written.{written};
ghost use Rattle.c_meaning.specs.Examples.{i};
ghost use Rattle.first_form.specs.Nests.{outer_name};
ghost use Rattle.first_laws.specs.Examples.{copying};
ghost use Rattle.first_laws.specs.Alike.{HasSameSignature, RunsAlike};

/// The written program has the source's name, parameters and arrays, and neither has a matrix or an inspector.
pub fn written_program_has_same_signature()
    ensures { (p q : Program) → written p ≡ Some q → HasSameSignature p q }
{}

/// On each input the written program has the source's list, place by place, no fault where the source has none, and
/// leaves each array as the source leaves it.
pub fn written_program_runs_alike()
    ensures { (p q : Program) (i : Input) → written p ≡ Some q → RunsAlike p q i }
{}

/// On each valid input neither the source nor the written program has a fault.
pub fn first_form_has_no_fault()
    ensures source { (p q : Program) (i : Input) → written p ≡ Some q → IsValid p i → IsFine p i }
    ensures written { (p q : Program) (i : Input) → written p ≡ Some q → IsValid p i → IsFine q i }
{}

/// A loop that copies an array is written as it stands, with `t1` in the place of `i`.
pub fn worked_program()
    ensures { written (copying i) ≡ Some (copying outer_name) }
{}
