//! Worked lists: what the definitions of commands give on small inputs. Each function here carries one as its contract.
#![tactic(auto)]

ghost use Rattle.worked_lists.specs.Lists.{SkewedStencil, UnrolledCopies, CopiedBox, CopiedArray, PermutedTriangle, FusedLoops};

/// A stencil under `skew` and `permute`.
pub fn skewed_stencil()
    ensures { SkewedStencil }
{}

/// A copied array under `unroll`.
pub fn unrolled_copies()
    ensures { UnrolledCopies }
{}

/// A read cell under `tile` and `datacopy`.
pub fn copied_box()
    ensures { CopiedBox }
{}

/// A whole array under `datacopy`.
pub fn copied_array()
    ensures { CopiedArray }
{}

/// A triangular nest under `permute`.
pub fn permuted_triangle()
    ensures { PermutedTriangle }
{}

/// Two loops under `fuse`.
pub fn fused_loops()
    ensures { FusedLoops }
{}
