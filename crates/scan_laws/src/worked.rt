// Worked cases of the laws of runs and scans: something meets each of their premises.
ghost use Rattle.scan_laws.specs.Examples.{WorkedExecutor, WorkedPrinting, WorkedAlone, WorkedScan, WorkedBounds, WorkedRows, WorkedSize};

/// A loop that copies two cells has no fault and performs the two copies.
pub fn worked_executor()
    ensures { WorkedExecutor }
{}

/// A loop that copies an array is printed for its kernel.
pub fn worked_printing()
    ensures { WorkedPrinting }
{}

/// That loop, whose assignment needs no test.
pub fn worked_alone()
    ensures { WorkedAlone }
{}

/// Loops that scan the kernel of that loop.
pub fn worked_scan()
    ensures { WorkedScan }
{}

/// A row with a read bounds a loop in a row of a matrix.
pub fn worked_bounds()
    ensures { WorkedBounds }
{}

/// The two rows of a loop bound it from both sides.
pub fn worked_rows()
    ensures { WorkedRows }
{}

/// An expression with a read is small.
pub fn worked_size()
    ensures { WorkedSize }
{}
