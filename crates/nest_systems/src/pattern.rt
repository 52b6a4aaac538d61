// What a whole statement goes over.
ghost use Rattle.std.specs.Prelude.{◌<◌, length};
ghost use Rattle.nest_core.specs.Shapes.{IsShaped};

use nest_tree::{Form, Kernel, Pattern};

/// The matrix and the forms of a statement that goes over a whole matrix.
pub fn sparse_pattern(kernel: &Kernel, statement: usize) -> Option<Pattern>
    requires shaped { IsShaped kernel.now }
    requires statement { statement < length kernel.now.nests }
{
    let nest = &kernel.nests.as_slice()[statement];
    let matrix = match nest.whole {
        Some(number) => kernel.head.matrices.as_slice()[number],
        None => return None,
    };
    let levels = nest.levels.as_slice();
    let mut forms = [Form::Other; 8];
    forms[..levels.len()].copy_from_slice(levels);
    Some(Pattern {
        matrix,
        depth: levels.len(),
        forms,
    })
}
