// The layouts that the levels of a statement allow.
ghost use Rattle.std.specs.Prelude.{◌≡◌};
ghost use Rattle.pad_layouts.specs.Layouts as spec;

use chill_base::Padding;
use nest_tree::Form;

/// What the entries of a matrix are put into.
#[derive(Clone, Copy, Debug, PartialEq, Eq)]
pub enum Layout {
    /// Dense blocks of so many rows and columns. In a block the rows are the outer loop, or the inner one where `swapped`.
    Block { rows: i64, cols: i64, swapped: bool },
    /// Diagonals.
    Diag,
    /// Rows of one width.
    Rows,
}

/// The greatest number of rows or columns of a block.
const MOST: i64 = 64;

fn same_three(r: i64, j: i64, k: i64, row: i64, column: i64, entry: i64) -> bool
    ensures { result ≡ spec.same_three r j k row column entry }
{
    r == row && j == column && k == entry
}

fn is_undivided(constant: i64, divisor: i64) -> bool
    ensures { result ≡ spec.is_undivided constant divisor }
{
    constant == 0 && divisor == 1
}

fn is_group(constant: i64, divisor: i64) -> bool
    ensures { result ≡ spec.is_group constant divisor }
{
    constant == 0 && 1 <= divisor && divisor <= MOST
}

/// Whether the level is so many rows, columns and places of an entry added up.
fn stands_for(form: Form, row: i64, column: i64, entry: i64) -> bool
    ensures { result ≡ spec.stands_for row column entry form }
{
    match form {
        Form::Other => false,
        Form::Whole {
            r,
            j,
            k,
            constant,
            divisor,
        } => same_three(r, j, k, row, column, entry) && is_undivided(constant, divisor),
    }
}

/// How many rows or columns a group has, where the level is the number of a group.
fn side_of(form: Form, row: i64, column: i64) -> Option<i64>
    ensures { result ≡ spec.side_of row column form }
{
    match form {
        Form::Other => None,
        Form::Whole {
            r,
            j,
            k,
            constant,
            divisor,
        } => {
            if same_three(r, j, k, row, column, 0) && is_group(constant, divisor) {
                Some(divisor)
            } else {
                None
            }
        }
    }
}

/// Whether the two levels are the column and the row, or the row and the column; None where they are neither.
fn order_of(first: Form, second: Form) -> Option<bool>
    ensures { result ≡ spec.order_of first second }
{
    if stands_for(first, 1, 0, 0) && stands_for(second, 0, 1, 0) {
        Some(false)
    } else if stands_for(first, 0, 1, 0) && stands_for(second, 1, 0, 0) {
        Some(true)
    } else {
        None
    }
}

/// The blocks of a statement whose levels are the number of a group of rows, the number of a group of columns, row and
/// column in either order, and the entry's place.
fn block_of(group: Form, kept: Form, outer: Form, inner: Form, entry: Form) -> Option<Layout>
    ensures { result ≡ spec.block_of group kept outer inner entry }
{
    let rows = side_of(group, 1, 0)?;
    let cols = side_of(kept, 0, 1)?;
    let swapped = order_of(outer, inner)?;
    if stands_for(entry, 0, 0, 1) {
        Some(Layout::Block {
            rows,
            cols,
            swapped,
        })
    } else {
        None
    }
}

/// Whether the levels are the column less the row, the row, and the entry's place.
fn is_diag(kept: Form, row: Form, entry: Form) -> bool
    ensures { result ≡ spec.is_diag kept row entry }
{
    stands_for(kept, -1, 1, 0) && stands_for(row, 1, 0, 0) && stands_for(entry, 0, 0, 1)
}

/// Whether the levels are the row and the entry's place.
fn is_rows(row: Form, entry: Form) -> bool
    ensures { result ≡ spec.is_rows row entry }
{
    stands_for(row, 1, 0, 0) && stands_for(entry, 0, 0, 1)
}

/// The layout of this kind, where a statement with these levels can be padded to one.
pub fn layout_of(kind: Padding, levels: &[Form]) -> Option<Layout>
    ensures { result ≡ spec.layout_of kind levels.now }
{
    match (kind, levels) {
        (Padding::Block, [g, w, a, b, k]) => block_of(*g, *w, *a, *b, *k),
        (Padding::Diag, [w, r, k]) if is_diag(*w, *r, *k) => Some(Layout::Diag),
        (Padding::Rows, [r, k]) if is_rows(*r, *k) => Some(Layout::Rows),
        _ => None,
    }
}

/// The level that a padding of this kind is made at.
pub fn level_of(kind: Padding) -> usize
    ensures { result ≡ spec.level_of kind }
{
    match kind {
        Padding::Block => 2,
        Padding::Diag => 1,
        Padding::Rows => 2,
    }
}
