// Kernels on an input: values of terms, rewritten statements, and the kernel that pieces make.
ghost use Rattle.nest_laws.specs.KernelLaws.{TermsHaveTheirReadings, RewrittenStandsForOld, OnePieceEach, MadeKernelHasMovedList, FittingPieceMakes};

/// The terms' values are what the terms read at these values, and no others are.
pub fn terms_have_their_readings()
    ensures { TermsHaveTheirReadings }
{}

/// A rewritten statement is the old one at the level values that the piece's forms give.
pub fn rewritten_stands_for_old()
    ensures { RewrittenStandsForOld }
{}

/// One-to-one pieces, one for each statement, are one to one and onto for the kernel.
pub fn one_piece_each()
    ensures { OnePieceEach }
{}

/// The list of the kernel that pieces make is the moved list.
pub fn made_kernel_has_moved_list()
    ensures { MadeKernelHasMovedList }
{}

/// Each piece that fits a statement makes a rewritten one.
pub fn fitting_piece_makes()
    ensures { FittingPieceMakes }
{}
