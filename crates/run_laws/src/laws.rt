// What the grammar and the rules say of runs. The functions are there for their contracts alone.
ghost use Rattle.run_laws.specs.Examples.{CopyCanRun};
ghost use Rattle.run_laws.specs.Running.{ProgramsHaveDivisors, ProgramsCanRun};

/// Each divisor in the extents of a program of the grammar is at least 1.
pub fn programs_have_divisors()
    ensures { ProgramsHaveDivisors }
{}

/// A program of the grammar that keeps the rules can be run on each values of its signature.
pub fn programs_can_run()
    ensures { ProgramsCanRun }
{}

/// A loop that copies an array can be run on two arrays of two cells.
pub fn copy_can_run()
    ensures { CopyCanRun }
{}
