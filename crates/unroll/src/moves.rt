// `unroll`: the moves of an unrolled loop.
ghost use Rattle.std.specs.Prelude.{◌≡◌, ◌≤◌, ◌<◌, length, Some, false, slice_get, IfNone, IfOk, OnOk, IsTrue};
ghost use Rattle.std.specs.List.{list_any, AllByRecursion};
ghost use Rattle.nest_core.specs.Forms.{has_vars};
ghost use Rattle.nest_core.specs.Shapes.{vars_of, IsShapedNest, IsShaped, Fits};
ghost use Rattle.affine_moves.specs.Change.{is_level};
ghost use Rattle.affine_moves.specs.Placed.{are_small, piece_at, ArePlaced};
ghost use Rattle.unroll.specs.Bounds.{AreBounds};
ghost use Rattle.unroll.specs.Moves.{RoleSuits, RolesFit, RolesSuit};
ghost use Rattle.unroll.specs.Places.{roomy_positions};
ghost use Rattle.unroll.specs.Moves as spec;

use crate::bounds::{Bounds, bounds_of};
use crate::pieces::{full_piece, rest_piece};
use crate::positions::{copy_positions, rest_positions, roomy_positions};
use crate::roles::{Role, all_agree, roles_of};
use crate::shapes::{any_parts, any_tangles, count_sharers, is_large};
use affine_moves::{is_level, list_of, piece_at, sharers};
use c_tree::Program;
use chill_base::{List, NoMemory, Stop};
use int_rows::Aff;
use nest_tree::{Kernel, Moves, Nest, Piece, ShapeWhy};
use std::alloc::Global;

/// How a loop is unrolled.
#[derive(Clone, Copy)]
pub struct Plan {
    pub level: usize,
    pub factor: u32,
    /// How many statements are in the loop.
    pub count: usize,
    /// How many loops for what is left of the last group there are.
    pub rests: usize,
}

/// A copy of a statement in the full loop.
fn make_copy(
    alloc: Global,
    head: &Program,
    plan: Plan,
    nest: &Nest,
    bounds: &Bounds,
    copy: u32,
) -> Result<Piece, NoMemory>
    requires shaped { IsShapedNest head.now nest.now }
    requires small { IsTrue (are_small nest.now.positions) }
    requires level { IsTrue (is_level (length nest.now.levels) plan.level) }
    requires bounds { AreBounds (length head.now.params) nest.now bounds.now }
    requires copy { copy ≤ 16 }
    requires count { plan.count ≤ 64 }
    ensures { IfOk result (λ p. p ≡ spec.copy_of (length head.now.params) plan.level plan.factor plan.count nest.now bounds.now copy) }
{
    let positions = copy_positions(alloc, nest, copy as usize, plan.count)?;
    full_piece(
        alloc,
        head,
        plan.level,
        plan.factor,
        copy,
        nest,
        bounds,
        positions,
    )
}

/// The copies of a statement in the full loop.
fn full_pieces(
    alloc: Global,
    head: &Program,
    plan: Plan,
    nest: &Nest,
    bounds: &Bounds,
) -> Result<List<Piece>, NoMemory>
    requires shaped { IsShapedNest head.now nest.now }
    requires small { IsTrue (are_small nest.now.positions) }
    requires level { IsTrue (is_level (length nest.now.levels) plan.level) }
    requires bounds { AreBounds (length head.now.params) nest.now bounds.now }
    requires factor { plan.factor ≤ 16 }
    requires count { plan.count ≤ 64 }
    ensures { IfOk result (λ ps. ps ≡ spec.full_pieces (length head.now.params) plan.level plan.factor plan.count nest.now bounds.now) }
{
    let mut pieces = List::new(alloc);
    for copy in 0..plan.factor {
        pieces.push(make_copy(alloc, head, plan, nest, bounds, copy)?)?;
    }
    Ok(pieces)
}

/// The statement in the loop of the rest of one of its upper rows.
fn make_rest(
    alloc: Global,
    head: &Program,
    plan: Plan,
    nest: &Nest,
    bounds: &Bounds,
    missed: usize,
    upper: &Aff,
) -> Result<Piece, NoMemory>
    requires shaped { IsShapedNest head.now nest.now }
    requires small { IsTrue (are_small nest.now.positions) }
    requires level { IsTrue (is_level (length nest.now.levels) plan.level) }
    requires bounds { AreBounds (length head.now.params) nest.now bounds.now }
    requires missed { missed < length bounds.now.uppers }
    requires upper { IsTrue (has_vars (vars_of (length head.now.params) nest.now) upper.now) }
    requires few { missed < 64 }
    ensures { IfOk result (λ p. p ≡ spec.rest_of (length head.now.params) plan.level plan.factor nest.now bounds.now missed upper.now) }
{
    let positions = rest_positions(alloc, plan.level, nest, missed + 1)?;
    let earlier = &bounds.uppers.as_slice()[..missed];
    rest_piece(
        alloc,
        head,
        plan.level,
        plan.factor,
        nest,
        bounds,
        earlier,
        upper,
        positions,
    )
}

/// The statement in the loop of each rest.
fn rest_pieces(
    alloc: Global,
    head: &Program,
    plan: Plan,
    nest: &Nest,
    bounds: &Bounds,
) -> Result<List<Piece>, NoMemory>
    requires shaped { IsShapedNest head.now nest.now }
    requires small { IsTrue (are_small nest.now.positions) }
    requires level { IsTrue (is_level (length nest.now.levels) plan.level) }
    requires bounds { AreBounds (length head.now.params) nest.now bounds.now }
    requires few { length bounds.now.uppers ≤ 64 }
    ensures { IfOk result (λ ps. ps ≡ spec.rest_pieces (length head.now.params) plan.level plan.factor nest.now bounds.now 0 bounds.now.uppers) }
{
    let mut pieces = List::new(alloc);
    let uppers = bounds.uppers.as_slice();
    for missed in 0..uppers.len() {
        pieces.push(make_rest(alloc, head, plan, nest, bounds, missed, &uppers[missed])?)?;
    }
    Ok(pieces)
}

/// The pieces of a statement that is unrolled.
fn unrolled_pieces(
    alloc: Global,
    head: &Program,
    plan: Plan,
    nest: &Nest,
    bounds: &Bounds,
) -> Result<List<Piece>, NoMemory>
    requires shaped { IsShapedNest head.now nest.now }
    requires small { IsTrue (are_small nest.now.positions) }
    requires level { IsTrue (is_level (length nest.now.levels) plan.level) }
    requires bounds { AreBounds (length head.now.params) nest.now bounds.now }
    requires few { length bounds.now.uppers ≤ 64 }
    requires factor { plan.factor ≤ 16 }
    requires count { plan.count ≤ 64 }
    ensures { IfOk result (λ ps. ps ≡ spec.unrolled_pieces (length head.now.params) plan.level plan.factor plan.count nest.now bounds.now) }
{
    let mut pieces = full_pieces(alloc, head, plan, nest, bounds)?;
    pieces.append(rest_pieces(alloc, head, plan, nest, bounds)?)?;
    Ok(pieces)
}

/// The piece of a statement that isn't unrolled.
fn staying_piece(
    alloc: Global,
    head: &Program,
    plan: Plan,
    nest: &Nest,
    other: &Nest,
) -> Result<Piece, NoMemory>
    requires shaped { IsShapedNest head.now other.now }
    requires small { IsTrue (are_small other.now.positions) }
    requires nest { IsShapedNest head.now nest.now }
    requires nest_small { IsTrue (are_small nest.now.positions) }
    requires level { IsTrue (is_level (length nest.now.levels) plan.level) }
    requires rests { plan.rests ≤ 64 }
    ensures { IfOk result (λ p. p ≡ piece_at (length head.now.params) other.now (roomy_positions plan.level nest.now other.now plan.rests)) }
{
    let positions = roomy_positions(alloc, plan.level, nest, other, plan.rests)?;
    piece_at(alloc, head, other, positions)
}

/// The pieces of a statement.
fn pieces_of(
    alloc: Global,
    head: &Program,
    plan: Plan,
    nest: &Nest,
    other: &Nest,
    role: &Role,
) -> Result<List<Piece>, NoMemory>
    requires shaped { IsShapedNest head.now other.now }
    requires small { IsTrue (are_small other.now.positions) }
    requires nest { IsShapedNest head.now nest.now }
    requires nest_small { IsTrue (are_small nest.now.positions) }
    requires level { IsTrue (is_level (length nest.now.levels) plan.level) }
    requires role { RoleSuits (length head.now.params) plan.level plan.factor other.now role.now }
    requires factor { plan.factor ≤ 16 }
    requires count { plan.count ≤ 64 }
    requires rests { plan.rests ≤ 64 }
    ensures { IfOk result (λ ps. ps ≡ spec.pieces_of (length head.now.params) plan.level plan.factor plan.count plan.rests nest.now other.now role.now) }
{
    match role {
        Role::Stays => list_of(alloc, staying_piece(alloc, head, plan, nest, other)?),
        Role::Unrolls(bounds) => unrolled_pieces(alloc, head, plan, other, bounds),
    }
}

/// The pieces of all statements.
fn all_pieces(
    alloc: Global,
    head: &Program,
    plan: Plan,
    nest: &Nest,
    nests: &[Nest],
    roles: &[Role],
) -> Result<List<List<Piece>>, NoMemory>
    requires shaped { AllByRecursion (IsShapedNest head.now) nests.now }
    requires placed { ArePlaced nests.now }
    requires nest { IsShapedNest head.now nest.now }
    requires nest_small { IsTrue (are_small nest.now.positions) }
    requires level { IsTrue (is_level (length nest.now.levels) plan.level) }
    requires roles { RolesSuit (length head.now.params) plan.level plan.factor nests.now roles.now }
    requires factor { plan.factor ≤ 16 }
    requires count { plan.count ≤ 64 }
    requires rests { plan.rests ≤ 64 }
    ensures { IfOk result (λ pss. pss ≡ spec.all_pieces (length head.now.params) plan.level plan.factor plan.count plan.rests nest.now nests.now roles.now) }
{
    let mut pieces = List::new(alloc);
    for i in 0..nests.len() {
        pieces.push(pieces_of(alloc, head, plan, nest, &nests[i], &roles[i])?)?;
    }
    Ok(pieces)
}

/// The moves by which all statements in the loop are unrolled.
fn make_moves(
    alloc: Global,
    kernel: &Kernel,
    nest: &Nest,
    level: usize,
    factor: u32,
    rests: usize,
    roles: &[Role],
) -> Result<Moves, NoMemory>
    requires shaped { IsShaped kernel.now }
    requires nest { IsShapedNest kernel.now.head nest.now }
    requires small { IsTrue (are_small nest.now.positions) }
    requires level { IsTrue (is_level (length nest.now.levels) level) }
    requires roles { RolesSuit (length kernel.now.head.params) level factor kernel.now.nests roles.now }
    requires low { 2 ≤ factor }
    requires high { factor ≤ 16 }
    requires rests { rests ≤ 64 }
    requires room { IsTrue (spec.has_room factor 64 roles.now) }
    ensures moves { IfOk result (λ m. m ≡ spec.moves_by kernel.now nest.now level factor rests roles.now) }
    ensures fits { IfOk result (λ m. Fits kernel.now m) }
{
    let nests = kernel.nests.as_slice();
    let plan = Plan {
        level,
        factor,
        count: count_sharers(level, nest, nests),
        rests,
    };
    let pieces = all_pieces(alloc, &kernel.head, plan, nest, nests, roles)?;
    let applies = sharers(alloc, level, nest, nests)?;
    Ok(Moves { pieces, applies })
}

/// The lowest shape from the second half of the fourth on that holds, where the statements of the loop have these roles.
fn late_shape(
    kernel: &Kernel,
    nest: &Nest,
    level: usize,
    factor: u32,
    mine: &Bounds,
    roles: &[Role],
) -> Option<ShapeWhy>
    requires shaped { IsShaped kernel.now }
    requires nest { IsShapedNest kernel.now.head nest.now }
    requires level { 1 ≤ level }
    requires mine { AreBounds (length kernel.now.head.params) nest.now mine.now }
    requires roles { RolesFit (length kernel.now.head.params) level kernel.now.nests roles.now }
    ensures tangles { IfNone result (list_any (spec.tangles (length kernel.now.head.params) level nest.now) kernel.now.nests ≡ false) }
    ensures large { IfNone result (spec.is_large factor (length mine.now.uppers) kernel.now.nests roles.now ≡ false) }
{
    let nests = kernel.nests.as_slice();
    if !all_agree(&kernel.head, level, nest, mine, nests, roles) {
        return Some(ShapeWhy::NotShared);
    }
    if any_tangles(&kernel.head, level, nest, nests) {
        return Some(ShapeWhy::InnerBound);
    }
    if is_large(factor, mine.uppers.len(), nests, roles) {
        return Some(ShapeWhy::Limit);
    }
    None
}

/// The moves for a statement whose loop's statements have these roles, or a shape.
fn unroll_by(
    alloc: Global,
    kernel: &Kernel,
    nest: &Nest,
    level: usize,
    factor: u32,
    mine: &Bounds,
    roles: &[Role],
) -> Result<Moves, Stop<ShapeWhy>>
    requires shaped { IsShaped kernel.now }
    requires nest { IsShapedNest kernel.now.head nest.now }
    requires small { IsTrue (are_small nest.now.positions) }
    requires level { IsTrue (is_level (length nest.now.levels) level) }
    requires mine { AreBounds (length kernel.now.head.params) nest.now mine.now }
    requires roles { RolesFit (length kernel.now.head.params) level kernel.now.nests roles.now }
    ensures moves { IfOk result (λ m. m ≡ spec.moves_by kernel.now nest.now level factor (length mine.now.uppers) roles.now) }
    ensures clear { OnOk result (list_any (spec.tangles (length kernel.now.head.params) level nest.now) kernel.now.nests ≡ false) }
    ensures fits { IfOk result (λ m. Fits kernel.now m) }
{
    if let Some(why) = late_shape(kernel, nest, level, factor, mine, roles) {
        return Err(Stop::Refused(why));
    }
    let rests = mine.uppers.len();
    Ok(make_moves(alloc, kernel, nest, level, factor, rests, roles)?)
}

/// The lowest of the shapes before those of the rows that holds.
fn early_shape(level: usize, nest: &Nest, nests: &[Nest]) -> Option<ShapeWhy>
    ensures { result ≡ spec.early_shape level nest.now nests.now }
{
    if !is_level(nest.levels.len(), level) {
        return Some(ShapeWhy::NoLoop);
    }
    if any_parts(level, nest, nests) {
        return Some(ShapeWhy::NotShared);
    }
    None
}

/// The moves for a statement, or the lowest shape that holds.
fn unroll_at(
    alloc: Global,
    kernel: &Kernel,
    nest: &Nest,
    level: usize,
    factor: u32,
) -> Result<Moves, Stop<ShapeWhy>>
    requires shaped { IsShaped kernel.now }
    requires nest { IsShapedNest kernel.now.head nest.now }
    requires small { IsTrue (are_small nest.now.positions) }
    ensures moves { IfOk result (λ m. Some m ≡ spec.unrolled_at kernel.now (Some nest.now) level factor) }
    ensures early { spec.IsEarly (spec.early_at kernel.now (Some nest.now) level) result }
    ensures clear { OnOk result (spec.IsClear kernel.now (Some nest.now) level) }
    ensures fits { IfOk result (λ m. Fits kernel.now m) }
{
    let nests = kernel.nests.as_slice();
    if let Some(why) = early_shape(level, nest, nests) {
        return Err(Stop::Refused(why));
    }
    let Some(mine) = bounds_of(alloc, &kernel.head, level, nest)? else {
        return Err(Stop::Refused(ShapeWhy::LowerBounds));
    };
    let Some(roles) = roles_of(alloc, &kernel.head, level, nest, nests)? else {
        return Err(Stop::Refused(ShapeWhy::LowerBounds));
    };
    unroll_by(alloc, kernel, nest, level, factor, &mine, roles.as_slice())
}

/// The moves by which the level counts groups of so many of its values: copies of each statement for a full group, and a
/// loop of its own for what is left of the last group by each upper row.
pub fn unroll_moves(
    alloc: Global,
    kernel: &Kernel,
    statement: usize,
    level: usize,
    factor: u32,
) -> Result<Moves, Stop<ShapeWhy>>
    requires { IsShaped kernel.now }
    ensures moves { IfOk result (λ m. Some m ≡ spec.unrolled kernel.now statement level factor) }
    ensures early { spec.IsEarly (spec.early_at kernel.now (slice_get kernel.now.nests statement) level) result }
    ensures clear { OnOk result (spec.IsClear kernel.now (slice_get kernel.now.nests statement) level) }
    ensures fits { IfOk result (λ m. Fits kernel.now m) }
{
    match kernel.nests.get(statement) {
        Some(nest) => unroll_at(alloc, kernel, nest, level, factor),
        None => Err(Stop::Refused(ShapeWhy::NoStatement)),
    }
}
