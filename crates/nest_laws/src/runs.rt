// Runs: what an executor without faults performs, and what the loops that scan a kernel perform.
ghost use Rattle.nest_laws.specs.RunLaws.{ExecutorPerformsItsLoops, LeavesTellPerformed, ScanHasKernelList};
ghost use Rattle.nest_laws.specs.BoundLaws.{DirectRowBoundsLevel};
ghost use Rattle.nest_laws.specs.Weights.{SmallExpressionHasValue};

/// An executor without faults performs exactly the items of its loops, in the order of their places.
pub fn executor_performs_its_loops()
    ensures { ExecutorPerformsItsLoops }
{}

/// An item is performed exactly where it is of a leaf, within all bounds and tests around it.
pub fn leaves_tell_performed()
    ensures { LeavesTellPerformed }
{}

/// The loops that scan a kernel perform the kernel's list.
pub fn scan_has_kernel_list()
    ensures { ScanHasKernelList }
{}

/// A direct row bounds its level by a ceiling from below or a floor from above.
pub fn direct_row_bounds_level()
    ensures { DirectRowBoundsLevel }
{}

/// An expression whose size is small by its text has its value, and no fault.
pub fn small_expression_has_value()
    ensures { SmallExpressionHasValue }
{}
