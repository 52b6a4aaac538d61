// Loops and runs.
ghost use Rattle.worked_laws.specs.Runs.{LeavesOfALoop, CopyingRun};

/// What a loop performs, by its leaf and the bounds around it.
pub fn leaves_of_a_loop()
    ensures { LeavesOfALoop }
{}

/// The run of a loop that copies two cells is what its listing says.
pub fn copying_run()
    ensures { CopyingRun }
{}
