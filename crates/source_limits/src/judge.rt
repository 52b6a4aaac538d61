// The limits of a source's expressions, in the order of the text.
ghost use Rattle.std.specs.Prelude.{◌≡◌, ℕ, ◌+◌, ◌<◌, length, IfOk, OnOk, IsTrue};
ghost use Rattle.std.specs.List.{list_all};
ghost use Rattle.c_judge.specs.Signature as signature;
ghost use Rattle.source_limits.specs.Dimensions.{HasMatrices, is_declared, is_declared_site};
ghost use Rattle.source_limits.specs.Matrices.{is_of_matrix};
ghost use Rattle.source_limits.specs.Sites.{count_loops};
ghost use Rattle.source_limits.specs.Widths.{is_read_over};

use crate::affine::{At, Variables, coefs, constant, form, not_affine, over};
use crate::brackets::{brackets, data_brackets};
use crate::parts::{cells, subscripts};
use crate::reads::{Mention, Read, is_affine, is_name, is_read, mentions};
use crate::site::{Around, Site, first_inside};
use crate::spine::{End, operands};
use crate::weight::{LevelSize, name_weight, weight};
use crate::{Part, SourceExcess, SourceFault, SourceWhat};
use c_tree::{Array, Cell, Index, Matrix, Program, Test};
use chill_base::{List, Name, NoMemory, Stop};
use std::alloc::Global;

/// The greatest number of brackets around one place.
const NEST: u64 = 64;
/// The greatest number of operands of a bound.
const OPERANDS: u64 = 32;
/// The greatest size of a row or a subscript.
const SIZE: u64 = 1 << 62;

/// What an expression of a statement is judged by: the signature, and the names in scope with the sizes of the loop
/// variables.
#[derive(Clone, Copy)]
pub struct Scene<'a> {
    pub statement: usize,
    pub head: &'a Program,
    pub names: &'a [Name],
    pub sizes: &'a [LevelSize],
}

/// Parameters and loop variables.
pub fn names_of(alloc: Global, params: &[Name], around: &[Around]) -> Result<List<Name>, NoMemory>
    ensures { IfOk result (λ ns. length ns ≡ length params.now + count_loops around.now) }
{
    let mut names = List::from_slice(alloc, params)?;
    for one in around {
        match one {
            Around::Loop { var, .. } => names.push(**var)?,
            Around::Guard { .. } => (),
        }
    }
    Ok(names)
}

/// The loop variables, each with the greatest size of its bounds.
pub fn sizes_of(alloc: Global, around: &[Around]) -> Result<Vec<LevelSize>, NoMemory> {
    let mut sizes = Vec::new(alloc);
    for one in around {
        match one {
            Around::Loop { var, low, high, .. } => {
                let low_size = weight(sizes.as_slice(), low);
                let high_size = weight(sizes.as_slice(), high);
                sizes.push(LevelSize {
                    name: **var,
                    size: low_size.max(high_size),
                })?;
            }
            Around::Guard { .. } => (),
        }
    }
    Ok(sizes)
}

/// Refuses a size past the limit.
fn judge_size(scene: Scene, size: u64) -> Result<(), Stop<SourceFault>> {
    if size > SIZE {
        return Err(Stop::Refused(SourceFault::Overflow {
            statement: scene.statement,
            why: SourceExcess::Size,
        }));
    }
    Ok(())
}

fn judge_count(what: SourceWhat, count: u64, limit: u64) -> Result<(), Stop<SourceFault>> {
    if count > limit {
        return Err(over(what, count));
    }
    Ok(())
}

/// The variables of an expression that names these reads.
pub fn variables<'a>(scene: Scene<'a>, reads: &'a [Read]) -> Variables<'a>
    ensures names { result.names ≡ scene.entry.names }
    ensures reads { result.reads ≡ reads.entry }
{
    Variables {
        matrices: scene.head.matrices.as_slice(),
        names: scene.names,
        reads,
    }
}

/// Where subscripts stand.
pub fn subscript_at(scene: Scene) -> At {
    At {
        statement: scene.statement,
        part: Part::Subscript,
    }
}

/// Judges an expression whose operands are sums: whether they are, their coefficients, their constants, the brackets.
fn judge_form(
    alloc: Global,
    at: At,
    vars: Variables,
    e: &Index,
    operands: &[&Index],
) -> Result<(), Stop<SourceFault>> {
    for operand in operands {
        if !is_affine(vars.matrices, operand) {
            return Err(not_affine(at));
        }
    }
    for operand in operands {
        let _coefs = coefs(alloc, at, vars, operand)?;
    }
    for operand in operands {
        let _constant = constant(alloc, at, operand)?;
    }
    judge_count(SourceWhat::Nest, brackets(e), NEST)
}

/// Appends a read that isn't among the others.
pub fn add_read(reads: &mut Vec<Read>, read: Read) -> Result<(), NoMemory>
    ensures { (n : ℕ) → IsTrue (list_all (is_read_over n) reads.old.items) → IsTrue (is_read_over n read) → OnOk result (IsTrue (list_all (is_read_over n) reads.new.items)) }
{
    for other in reads.as_slice() {
        if is_read(other, &read) {
            return Ok(());
        }
    }
    reads.push(read)?;
    Ok(())
}

/// The read that a mention is.
pub fn read_of(alloc: Global, scene: Scene, mention: Mention) -> Result<Read, Stop<SourceFault>>
    ensures { IfOk result (λ r. IsTrue (is_read_over (length scene.entry.names.now) r)) }
{
    let vars = variables(scene, &[]);
    Ok(Read {
        array: *mention.array,
        at: form(alloc, subscript_at(scene), vars, mention.at)?,
    })
}

/// The extents of the first array of that name.
fn extents_of<'a>(mut arrays: &'a [Array], name: Name) -> &'a [Index]
    ensures { result.now ≡ signature.extents_of arrays.entry.now name }
{
    'arrays: while let [array, rest @ ..] = arrays {
        if is_name(array.name, name) {
            return array.extents.as_slice();
        }
        arrays = rest;
    }
    &[]
}

/// Judges the size of a subscript, and of the row that it is below its extent.
fn judge_subscript_size(
    scene: Scene,
    array: Name,
    place: usize,
    e: &Index,
) -> Result<(), Stop<SourceFault>>
    requires { place < length (signature.extents_of scene.head.now.arrays array) }
{
    let size = weight(scene.sizes, e);
    judge_size(scene, size)?;
    let extents = extents_of(scene.head.arrays.as_slice(), array);
    let below = weight(&[], &extents[place]);
    judge_size(scene, size.saturating_add(below).saturating_add(2))
}

/// Judges a subscript that names these reads.
fn judge_subscript(
    alloc: Global,
    scene: Scene,
    reads: &[Read],
    array: Name,
    place: usize,
    e: &Index,
) -> Result<(), Stop<SourceFault>>
    requires { place < length (signature.extents_of scene.head.now.arrays array) }
{
    judge_form(alloc, subscript_at(scene), variables(scene, reads), e, &[e])?;
    judge_subscript_size(scene, array, place, e)
}

/// Judges the subscript of a term.
fn judge_term(alloc: Global, scene: Scene, mention: Mention) -> Result<(), Stop<SourceFault>>
    requires matrices { HasMatrices scene.head.now }
    requires term { IsTrue (is_of_matrix scene.head.now.matrices mention) }
{
    judge_subscript(alloc, scene, &[], *mention.array, 0, mention.at)
}

/// Judges the subscripts of the terms that an expression names, and adds these to the reads.
fn judge_mentions(
    alloc: Global,
    scene: Scene,
    reads: &mut Vec<Read>,
    e: &Index,
) -> Result<(), Stop<SourceFault>>
    requires { HasMatrices scene.head.now }
{
    let mentions = mentions(alloc, scene.head.matrices.as_slice(), e)?;
    for mention in mentions.as_slice() {
        judge_term(alloc, scene, *mention)?;
        add_read(reads, read_of(alloc, scene, *mention)?)?;
    }
    Ok(())
}

/// Judges a bound of a loop.
fn judge_bound(
    alloc: Global,
    scene: Scene,
    end: End,
    var: Name,
    e: &Index,
) -> Result<(), Stop<SourceFault>>
    requires { HasMatrices scene.head.now }
{
    let mut reads = Vec::new(alloc);
    judge_mentions(alloc, scene, &mut reads, e)?;
    let at = At {
        statement: scene.statement,
        part: Part::Bound,
    };
    let operands = operands(alloc, end, e)?;
    judge_form(
        alloc,
        at,
        variables(scene, reads.as_slice()),
        e,
        operands.as_slice(),
    )?;
    judge_count(SourceWhat::Bounds, operands.len() as u64, OPERANDS)?;
    let own = name_weight(scene.sizes, var);
    for operand in operands.as_slice() {
        let both = own.saturating_add(weight(scene.sizes, operand));
        judge_size(scene, both.saturating_add(1))?;
    }
    Ok(())
}

/// Judges a side of a test.
fn judge_side(alloc: Global, scene: Scene, e: &Index) -> Result<(), Stop<SourceFault>>
    requires { HasMatrices scene.head.now }
{
    let mut reads = Vec::new(alloc);
    judge_mentions(alloc, scene, &mut reads, e)?;
    let at = At {
        statement: scene.statement,
        part: Part::Guard,
    };
    judge_form(alloc, at, variables(scene, reads.as_slice()), e, &[e])
}

fn judge_test(alloc: Global, scene: Scene, test: &Test) -> Result<(), Stop<SourceFault>>
    requires { HasMatrices scene.head.now }
{
    judge_side(alloc, scene, &test.left)?;
    judge_side(alloc, scene, &test.right)?;
    let both = weight(scene.sizes, &test.left).saturating_add(weight(scene.sizes, &test.right));
    judge_size(scene, both.saturating_add(1))
}

/// Judges a loop's bounds, or a guard's tests.
fn judge_around(alloc: Global, scene: Scene, around: Around) -> Result<(), Stop<SourceFault>>
    requires { HasMatrices scene.head.now }
{
    match around {
        Around::Loop { var, low, high, .. } => {
            judge_bound(alloc, scene, End::Low, *var, low)?;
            judge_bound(alloc, scene, End::High, *var, high)
        }
        Around::Guard { tests, .. } => {
            for test in tests {
                judge_test(alloc, scene, test)?;
            }
            Ok(())
        }
    }
}

/// Judges the subscripts of a cell: first the terms in all of them, and then each.
fn judge_cell(alloc: Global, scene: Scene, cell: &Cell) -> Result<(), Stop<SourceFault>>
    requires matrices { HasMatrices scene.head.now }
    requires cell { IsTrue (is_declared scene.head.now.arrays cell.now) }
{
    let subscripts = subscripts(alloc, &cell.at)?;
    let mut reads = Vec::new(alloc);
    for e in subscripts.as_slice() {
        judge_mentions(alloc, scene, &mut reads, e)?;
    }
    for place in 0..subscripts.len() {
        judge_subscript(
            alloc,
            scene,
            reads.as_slice(),
            cell.array,
            place,
            subscripts[place],
        )?;
    }
    Ok(())
}

fn judge_cells(alloc: Global, scene: Scene, cells: &[&Cell]) -> Result<(), Stop<SourceFault>>
    requires matrices { HasMatrices scene.head.now }
    requires cells { IsTrue (list_all (λ c. is_declared scene.head.now.arrays c.now) cells.now) }
{
    for cell in cells {
        judge_cell(alloc, scene, cell)?;
    }
    Ok(())
}

/// Judges the expressions of an assignment, and those around it of which it is the first assignment inside.
pub fn judge_site(alloc: Global, scene: Scene, site: &Site) -> Result<(), Stop<SourceFault>>
    requires matrices { HasMatrices scene.head.now }
    requires declared { IsTrue (is_declared_site scene.head.now.arrays site.now) }
{
    for around in site.around.as_slice() {
        if first_inside(around) == site.number {
            judge_around(alloc, scene, *around)?;
        }
    }
    let cells = cells(alloc, site.target, site.value)?;
    judge_cells(alloc, scene, cells.as_slice())?;
    judge_count(SourceWhat::Nest, data_brackets(site.value), NEST)
}

/// Adds the reads that an expression names.
fn add_reads(
    alloc: Global,
    scene: Scene,
    reads: &mut Vec<Read>,
    e: &Index,
) -> Result<(), Stop<SourceFault>>
    requires { IsTrue (list_all (is_read_over (length scene.names.now)) reads.old.items) }
    ensures { OnOk result (IsTrue (list_all (is_read_over (length scene.entry.names.now)) reads.new.items)) }
{
    let mentions = mentions(alloc, scene.head.matrices.as_slice(), e)?;
    for mention in mentions.as_slice() {
        add_read(reads, read_of(alloc, scene, *mention)?)?;
    }
    Ok(())
}

/// The reads that these expressions name, each once, in order.
pub fn reads_of(
    alloc: Global,
    scene: Scene,
    expressions: &[&Index],
) -> Result<Vec<Read>, Stop<SourceFault>>
    ensures { IfOk result (λ v. IsTrue (list_all (is_read_over (length scene.entry.names.now)) v.items)) }
{
    let mut reads = Vec::new(alloc);
    for e in expressions {
        add_reads(alloc, scene, &mut reads, e)?;
    }
    Ok(reads)
}
