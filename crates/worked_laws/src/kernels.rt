// Terms, and the list of a kernel.
ghost use Rattle.worked_laws.specs.Terms.{NestedTerms};
ghost use Rattle.worked_laws.specs.Diagonal.{DiagonalKernel};

/// A read within a read, and a statement without reads.
pub fn nested_terms()
    ensures { NestedTerms }
{}

/// The list of a stencil that is walked along its diagonals.
pub fn diagonal_kernel()
    ensures { DiagonalKernel }
{}
