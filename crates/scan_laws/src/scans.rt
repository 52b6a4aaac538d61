// Bounds from rows, and what a printed executor performs.
ghost use Rattle.scan_laws.specs.Laws.{PrintedExecutorHasKernelList, DirectRowsAreBounds, RowsMakeSoundBounds, ScannedKernelHasItsList};

/// An executor that is printed for a kernel has no fault and performs the kernel's list.
pub fn printed_executor_has_kernel_list()
    ensures { PrintedExecutorHasKernelList }
{}

/// Rows that are direct at a level hold exactly within the bounds that they give.
pub fn direct_rows_are_bounds()
    ensures { DirectRowsAreBounds }
{}

/// Bounds made from all rows of all statements of a group fit the group's points.
pub fn rows_make_sound_bounds()
    ensures { RowsMakeSoundBounds }
{}

/// What is printed by such bounds has no fault and performs the list of the kernel.
pub fn scanned_kernel_has_its_list()
    ensures { ScannedKernelHasItsList }
{}
