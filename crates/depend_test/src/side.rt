// What the moves make of a statement, ready for systems.
ghost use Rattle.std.specs.Prelude.{◌≡◌, ◌≤◌, ◌++◌, map, length, IfOk, Ok};
ghost use Rattle.std.specs.List.{AllByRecursion};
ghost use Rattle.nest_core.specs.Making.{Gives};
ghost use Rattle.nest_core.specs.Pieces.{pieces_made};
ghost use Rattle.nest_core.specs.Shapes.{IsShaped, IsShapedNest, FitsNest, Fits};
ghost use Rattle.nest_systems.specs.Instances.{IsInstance};
ghost use Rattle.nest_systems.specs.Cells.{subscripts as subscripts_of};
ghost use Rattle.nest_systems.specs.Statements.{IsPart, plain_row};
ghost use Rattle.depend_test.specs.Sides.{IsSide, IsMoved, IsSideOf, IsSame, AreSides, IsMovedBy, AreMoved, own_levels};

use c_tree::{How, Program};
use chill_base::{List, NoMemory};
use int_rows::Aff;
use int_sets::SetFault;
use nest_core::make_nest;
use nest_systems::{
    Instance, accesses, copy_forms, make_instance, plain_rows, subscripts, unit_form,
};
use nest_tree::{Access, Kernel, Made, Moves, Nest, Piece};
use std::alloc::Global;

/// A statement that a piece makes.
#[derive(Drop)]
pub struct Side {
    pub instance: Instance,
    /// The cells that it names: its target, and then those of its right side from the left.
    pub accesses: List<Access>,
    /// The old levels as forms of the new variables.
    pub old: List<Aff>,
    pub positions: List<usize>,
}

/// A statement and what its pieces make of it.
#[derive(Drop)]
pub struct Moved {
    pub applies: bool,
    pub how: How,
    pub accesses: List<Access>,
    pub positions: List<usize>,
    pub sides: List<Side>,
}

/// The statements that the pieces of one statement make.
fn make_own_pieces(
    alloc: Global,
    head: &Program,
    nest: &Nest,
    pieces: &[Piece],
) -> Result<List<Nest>, SetFault>
    requires nest { IsShapedNest head.now nest.now }
    requires pieces { AllByRecursion (FitsNest (length head.now.params) nest.now) pieces.now }
    ensures { Gives result (pieces_made (length head.now.params) nest.now pieces.now) }
{
    let alone = pieces.len() == 1;
    let mut nests = List::new(alloc);
    for piece in pieces {
        nests.push(make_nest(alloc, head, alone, nest, piece)?)?;
    }
    Ok(nests)
}

/// The side of a statement with these forms of the old levels.
fn make_side(
    alloc: Global,
    head: &Program,
    made: &[Made],
    nest: &Nest,
    old: List<Aff>,
) -> Result<Side, NoMemory>
    requires { IsShapedNest head.now nest.now }
    ensures shape { IfOk result (λ s. IsSide (length head.now.params) s) }
    ensures side { IfOk result (λ s. IsSideOf head.now made.now nest.now old s) }
{
    let own = accesses(alloc, nest)?;
    let forms = all_forms(alloc, own.as_slice(), old.as_slice())?;
    let instance = instance_of(alloc, head, made, nest, forms.as_slice())?;
    Ok(Side {
        instance,
        accesses: own,
        old,
        positions: List::from_slice(alloc, nest.positions.as_slice())?,
    })
}

/// The subscripts of cells, and further forms.
fn all_forms(alloc: Global, own: &[Access], old: &[Aff]) -> Result<List<Aff>, NoMemory>
    ensures { IfOk result (λ forms. forms ≡ subscripts_of own.now ++ old.now) }
{
    let mut forms = subscripts(alloc, own)?;
    forms.append(copy_forms(alloc, old)?)?;
    Ok(forms)
}

/// The part of a system of a statement whose rows and these forms it speaks of.
fn instance_of(
    alloc: Global,
    head: &Program,
    made: &[Made],
    nest: &Nest,
    forms: &[Aff],
) -> Result<Instance, NoMemory>
    requires { IsShapedNest head.now nest.now }
    ensures instance { IfOk result (λ i. IsInstance (length head.now.params) i) }
    ensures part { IfOk result (λ i. IsPart head.now made.now (length nest.now.levels) nest.now.terms 0 (map plain_row nest.now.rows) forms.now i) }
{
    let rows = plain_rows(alloc, nest.rows.as_slice())?;
    let levels = nest.levels.len();
    let terms = nest.terms.as_slice();
    make_instance(alloc, head, made, levels, terms, 0, rows.as_slice(), forms)
}

/// The sides of one statement's pieces, of which each has made the statement with its number.
fn make_own_sides(
    alloc: Global,
    head: &Program,
    made: &[Made],
    nests: &[Nest],
    pieces: &[Piece],
) -> Result<List<Side>, NoMemory>
    requires shaped { AllByRecursion (IsShapedNest head.now) nests.now }
    requires same { length nests.now ≡ length pieces.now }
    ensures shapes { IfOk result (λ ss. AllByRecursion (IsSide (length head.now.params)) ss) }
    ensures sides { IfOk result (λ ss. AreSides head.now made.now nests.now pieces.now ss) }
{
    let mut sides = List::new(alloc);
    for i in 0..nests.len() {
        let old = copy_forms(alloc, pieces[i].old.as_slice())?;
        sides.push(make_side(alloc, head, made, &nests[i], old)?)?;
    }
    Ok(sides)
}

/// The side of a statement that stays as it is.
pub fn same_side(
    alloc: Global,
    head: &Program,
    made: &[Made],
    nest: &Nest,
) -> Result<Side, NoMemory>
    requires { IsShapedNest head.now nest.now }
    ensures shape { IfOk result (λ s. IsSide (length head.now.params) s) }
    ensures same { IfOk result (λ s. IsSame head.now made.now nest.now s) }
{
    let old = own_levels(alloc, head, nest)?;
    make_side(alloc, head, made, nest, old)
}

/// The levels of a statement as forms of its own.
fn own_levels(alloc: Global, head: &Program, nest: &Nest) -> Result<List<Aff>, NoMemory>
    requires { IsShapedNest head.now nest.now }
    ensures { IfOk result (λ forms. forms ≡ own_levels head.now nest.now) }
{
    let params = head.params.as_slice().len();
    let levels = nest.levels.len();
    let vars = params + levels + nest.terms.as_slice().len();
    let mut forms = List::new(alloc);
    for level in 0..levels {
        forms.push(unit_form(alloc, params + level, vars)?)?;
    }
    Ok(forms)
}

/// A statement and the sides of its pieces, which make these statements.
fn moved_of(
    alloc: Global,
    head: &Program,
    made: &[Made],
    applies: bool,
    nest: &Nest,
    pieces: &[Piece],
    nests: &[Nest],
) -> Result<Moved, NoMemory>
    requires shaped { AllByRecursion (IsShapedNest head.now) nests.now }
    requires makes { pieces_made (length head.now.params) nest.now pieces.now ≡ Ok nests.now }
    ensures shape { IfOk result (λ m. IsMoved (length head.now.params) m) }
    ensures moved { IfOk result (λ m. IsMovedBy head.now made.now applies nest.now pieces.now m) }
{
    Ok(Moved {
        applies,
        how: nest.how,
        accesses: accesses(alloc, nest)?,
        positions: List::from_slice(alloc, nest.positions.as_slice())?,
        sides: make_own_sides(alloc, head, made, nests, pieces)?,
    })
}

/// A statement and the sides of its pieces.
fn make_one(
    alloc: Global,
    head: &Program,
    made: &[Made],
    applies: bool,
    nest: &Nest,
    pieces: &[Piece],
) -> Result<Moved, SetFault>
    requires nest { IsShapedNest head.now nest.now }
    requires pieces { AllByRecursion (FitsNest (length head.now.params) nest.now) pieces.now }
    requires some { 1 ≤ length pieces.now }
    ensures shape { IfOk result (λ m. IsMoved (length head.now.params) m) }
    ensures moved { IfOk result (λ m. IsMovedBy head.now made.now applies nest.now pieces.now m) }
{
    let nests = make_own_pieces(alloc, head, nest, pieces)?;
    Ok(moved_of(alloc, head, made, applies, nest, pieces, nests.as_slice())?)
}

/// All statements and the sides of their pieces.
pub fn make_moved(alloc: Global, kernel: &Kernel, moves: &Moves) -> Result<List<Moved>, SetFault>
    requires shaped { IsShaped kernel.now }
    requires fits { Fits kernel.now moves.now }
    ensures shapes { IfOk result (λ ms. AllByRecursion (IsMoved (length kernel.now.head.params)) ms) }
    ensures moved { IfOk result (λ ms. AreMoved kernel.now moves.now ms) }
{
    let nests = kernel.nests.as_slice();
    let pieces = moves.pieces.as_slice();
    let applies = moves.applies.as_slice();
    let mut all = List::new(alloc);
    for i in 0..nests.len() {
        let own = pieces[i].as_slice();
        let made = kernel.made.as_slice();
        all.push(make_one(alloc, &kernel.head, made, applies[i], &nests[i], own)?)?;
    }
    Ok(all)
}
