// The shapes that come before the names.
ghost use Rattle.std.specs.Prelude.{◌≡◌, ◌≤◌, length, IfOk, Some};
ghost use Rattle.inspectors.specs.Numbers.{IsKept};
ghost use Rattle.compact.specs.Matching as matching;
ghost use Rattle.compact.specs.Shapes as spec;
ghost use Rattle.compact.specs.Shapes.{Judges, IsTarget};

use crate::matching::{Target, target_of};
use nest_tree::{Kernel, Nest, ShapeWhy};
use one_statement::is_alone;

/// What is compacted of a statement, or the first shape that holds.
fn nest_target(
    nests: &[Nest],
    statement: usize,
    level: usize,
    nest: &Nest,
) -> Result<Target, ShapeWhy>
    ensures first { Judges (spec.nest_shape statement level nests.now nest.now) result }
    ensures low { IfOk result (λ t. 1 ≤ level) }
    ensures high { IfOk result (λ t. level ≤ length nest.now.levels) }
    ensures target { IfOk result (λ t. matching.target_of level nest.now ≡ Some t) }
    ensures whole { IfOk result (λ t. nest.now.whole ≡ Some t.matrix) }
    ensures small { IfOk result (λ t. IsKept t.form) }
{
    if !(1 <= level && level <= nest.levels.len()) {
        return Err(ShapeWhy::NoLoop);
    }
    let Some(target) = target_of(level, nest) else {
        return Err(ShapeWhy::NotTraversal);
    };
    if !is_alone(nests, statement, 1, nest) {
        return Err(ShapeWhy::NotAlone);
    }
    Ok(target)
}

/// What is compacted, or the first shape that holds.
pub fn target(kernel: &Kernel, statement: usize, level: usize) -> Result<Target, ShapeWhy>
    ensures first { Judges (spec.first_shape kernel.now statement level) result }
    ensures target { IfOk result (λ t. IsTarget kernel.now statement level t) }
    ensures small { IfOk result (λ t. IsKept t.form) }
{
    let nests = kernel.nests.as_slice();
    match kernel.nests.get(statement) {
        Some(nest) => nest_target(nests, statement, level, nest),
        None => Err(ShapeWhy::NoStatement),
    }
}
