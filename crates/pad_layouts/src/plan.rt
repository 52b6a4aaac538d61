// What a statement is padded to, or the first condition that isn't met.
ghost use Rattle.std.specs.Prelude.{◌≡◌, ◌≤◌, ◌<◌, ◌+◌, length, Some, IfOk, IfSome, IsTrue};
ghost use Rattle.std.specs.List.{AllByRecursion};
ghost use Rattle.nest_core.specs.Shapes.{vars_of, IsShaped, IsShapedNest};
ghost use Rattle.pad_layouts.specs.Layouts as layouts;
ghost use Rattle.pad_layouts.specs.Moved.{is_pick};
ghost use Rattle.pad_layouts.specs.Plans as spec;
ghost use Rattle.pad_layouts.specs.Plans.{IsPlan, IsPlanAt};

use crate::column::find_read;
use crate::layout::{Layout, layout_of, level_of};
use crate::product::{Entry, any_writes, is_product};
use c_tree::{Matrix, Program};
use chill_base::Padding;
use nest_tree::{Form, Kernel, Nest, ShapeWhy};
use one_statement::is_alone;

/// What a statement is padded to.
#[derive(Clone, Copy)]
pub struct Plan {
    pub layout: Layout,
    /// The number of the matrix.
    pub number: usize,
    pub matrix: Matrix,
    /// The variable of the read of an entry's column, where the statement has it and may keep it.
    pub column: Option<usize>,
}

/// The read of an entry's column, which a statement over rows may have.
fn column_of(head: &Program, matrix: &Matrix, layout: Layout, nest: &Nest) -> Option<usize>
    requires shaped { IsShapedNest head.now nest.now }
    requires depth { length nest.now.levels ≡ spec.old_depth layout }
    ensures value { result ≡ spec.column_of (length head.now.params) matrix.now layout nest.now }
    ensures within { IsTrue (is_pick (vars_of (length head.now.params) nest.now) result) }
{
    let params = head.params.as_slice().len();
    match layout {
        Layout::Rows => find_read(matrix.col, params + 1, params + 2, nest.terms.as_slice()),
        Layout::Block { .. } => None,
        Layout::Diag => None,
    }
}

/// The layout that the levels allow.
fn layout_at(kind: Padding, levels: &[Form]) -> Option<Layout>
    ensures value { result ≡ layouts.layout_of kind levels.now }
    ensures depth { IfSome result (λ l. length levels.now ≡ spec.old_depth l) }
{
    layout_of(kind, levels)
}

/// The plan of a statement with this layout.
fn with_layout(head: &Program, nest: &Nest, number: usize, matrix: &Matrix, layout: Layout) -> Plan
    requires shaped { IsShapedNest head.now nest.now }
    requires depth { length nest.now.levels ≡ spec.old_depth layout }
    requires number { number < length head.now.matrices }
    ensures value { Some result ≡ spec.with_layout (length head.now.params) nest.now number matrix.now (Some layout) }
    ensures is { IsPlan head.now nest.now result }
{
    Plan {
        layout,
        number,
        matrix: *matrix,
        column: column_of(head, matrix, layout, nest),
    }
}

/// The plan of a statement over this matrix.
fn with_matrix(
    head: &Program,
    nest: &Nest,
    kind: Padding,
    number: usize,
    matrix: &Matrix,
) -> Option<Plan>
    requires shaped { IsShapedNest head.now nest.now }
    requires number { number < length head.now.matrices }
    ensures value { result ≡ spec.with_matrix (length head.now.params) nest.now kind number (Some matrix.now) }
    ensures is { IfSome result (λ p. IsPlan head.now nest.now p) }
{
    match layout_at(kind, nest.levels.as_slice()) {
        Some(layout) => Some(with_layout(head, nest, number, matrix, layout)),
        None => None,
    }
}

/// The plan of a statement that goes over a whole matrix.
#[tactic(auto, unfolding(crate::specs::Plans::whole_plan))]
fn whole_plan(head: &Program, nest: &Nest, kind: Padding) -> Option<Plan>
    requires { IsShapedNest head.now nest.now }
    ensures value { result ≡ spec.whole_plan head.now nest.now kind }
    ensures is { IfSome result (λ p. IsPlan head.now nest.now p) }
{
    match nest.whole {
        Some(number) => {
            let matrix = &head.matrices.as_slice()[number];
            with_matrix(head, nest, kind, number, matrix)
        }
        None => None,
    }
}

/// Whether the statement is a product with the entry's value, and no statement writes the values.
fn can_pad(head: &Program, nests: &[Nest], nest: &Nest, plan: &Plan) -> bool
    requires shaped { IsShapedNest head.now nest.now }
    requires some { 1 ≤ length nest.now.levels }
    ensures { result ≡ spec.can_pad (length head.now.params) nests.now nest.now plan.now }
{
    let params = head.params.as_slice().len();
    let entry = Entry {
        value: plan.matrix.value,
        level: params + (nest.levels.as_slice().len() - 1),
        allowed: plan.column,
    };
    is_product(&entry, nest) && !any_writes(plan.matrix.value, nests)
}

/// Whether the level is one of the statement's, and the one that the kind of padding is made at.
fn is_level(nest: &Nest, level: usize, kind: Padding) -> bool
    ensures { result ≡ spec.is_level (length nest.now.levels) level kind }
{
    1 <= level && level <= nest.levels.len() && level == level_of(kind)
}

/// The plan of a statement at hand, or the first shape that holds.
fn nest_plan(
    head: &Program,
    nests: &[Nest],
    statement: usize,
    level: usize,
    kind: Padding,
    nest: &Nest,
) -> Result<Plan, ShapeWhy>
    requires { IsShapedNest head.now nest.now }
    ensures value { result ≡ spec.nest_plan head.now nests.now statement level kind nest.now }
    ensures is { IfOk result (λ p. IsPlan head.now nest.now p) }
{
    if !is_level(nest, level, kind) {
        return Err(ShapeWhy::NoLoop);
    }
    let Some(plan) = whole_plan(head, nest, kind) else {
        return Err(ShapeWhy::NotTraversal);
    };
    if !can_pad(head, nests, nest, &plan) {
        return Err(ShapeWhy::NotProduct);
    }
    if !is_alone(nests, statement, 1, nest) {
        return Err(ShapeWhy::NotAlone);
    }
    Ok(plan)
}

/// What a statement is padded to, or the first shape that holds.
#[tactic(auto, unfolding(crate::specs::Plans::plan_of))]
pub fn plan_of(
    kernel: &Kernel,
    statement: usize,
    level: usize,
    kind: Padding,
) -> Result<Plan, ShapeWhy>
    requires { IsShaped kernel.now }
    ensures value { result ≡ spec.plan_of kernel.now statement level kind }
    ensures is { IfOk result (λ p. IsPlanAt kernel.now statement p) }
{
    let nests = kernel.nests.as_slice();
    match kernel.nests.get(statement) {
        Some(nest) => nest_plan(&kernel.head, nests, statement, level, kind, nest),
        None => Err(ShapeWhy::NoStatement),
    }
}
