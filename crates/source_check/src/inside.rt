// Whether each access is inside its array.
ghost use Rattle.std.specs.Prelude.{◌≡◌, ℕ, ◌+◌, ◌≤◌, ◌<◌, [], ◌∷◌, length, IfOk, OnOk, IsTrue};
ghost use Rattle.std.specs.List.{list_all};
ghost use Rattle.nest_core.specs.Forms.{has_vars};
ghost use Rattle.c_judge.specs.Signature as signature;
ghost use Rattle.source_check.specs.Sights.{IsSight, are_extents, have_shapes};
ghost use Rattle.source_limits.specs.Dimensions.{is_declared, is_declared_site};
ghost use Rattle.source_limits.specs.Matrices.{is_of_matrix};
ghost use Rattle.source_limits.specs.Sites.{count_loops};

use crate::rows::{Own as Level, difference, levels_behind, push_bound, push_test};
use c_tree::{Array, Cell, Index, Test};
use chill_base::{List, Name, NoMemory, Stop};
use int_rows::{Aff, Row};
use int_sets::SetFault;
use nest_systems::{Own, copy_form, own_system, plain_rows, unit_form, widened_form, zero_form};
use nest_tree::{KernelRow, Term};
use source_limits::{
    Around, End, Mention, Read, Scene, Side, Site, SourceExcess, SourceFault, cells, first_inside,
    form, is_name, is_read, mentions, read_of, subscript_at, subscripts, variables,
};
use std::alloc::Global;

/// What the tests of one assignment share: the extents of all arrays as forms of the parameters, and the assignment's
/// reads, also those that fall out of their sums, with the terms that they are.
#[derive(Clone, Copy)]
pub struct Sight<'a> {
    pub scene: Scene<'a>,
    pub extents: &'a [List<Aff>],
    pub reads: &'a [Read],
    pub terms: &'a [Term],
}

/// What is known at a place: the rows before it, and for each read whether it is named where these rows come from.
#[derive(Drop)]
pub struct Known {
    rows: List<KernelRow>,
    named: List<bool>,
}

/// Marks a read.
fn mark_read(reads: &[Read], named: &mut List<bool>, read: &Read)
    requires { length named.old ≡ length reads.now }
    ensures { length named.new ≡ length named.old }
{
    for i in 0..reads.len() {
        if is_read(&reads[i], read) {
            named.set(i, true);
        }
    }
}

/// Marks the reads that an expression names.
fn mark(
    alloc: Global,
    sight: Sight,
    named: &mut List<bool>,
    e: &Index,
) -> Result<(), Stop<SourceFault>>
    requires named { length named.old ≡ length sight.reads.now }
    ensures { length named.new ≡ length named.old }
{
    let matrices = sight.scene.head.matrices.as_slice();
    let mentions = mentions(alloc, matrices, e)?;
    for mention in mentions.as_slice() {
        let read = read_of(alloc, sight.scene, *mention)?;
        mark_read(sight.reads, named, &read);
    }
    Ok(())
}

/// The extent at a place of the first array of that name.
fn extent_of<'a>(
    mut arrays: &[Array],
    mut extents: &'a [List<Aff>],
    name: Name,
    place: usize,
) -> &'a Aff
    requires shapes { IsTrue (have_shapes arrays.now extents.now) }
    requires place { place < length (signature.extents_of arrays.now name) }
    ensures { (n : ℕ) → IsTrue (list_all (are_extents n) extents.entry.now) → IsTrue (has_vars n result.now) }
{
    'arrays: while let [array, more @ ..] = arrays {
        let [own, others @ ..] = extents else {
            unreachable!()
        };
        if is_name(array.name, name) {
            return &own.as_slice()[place];
        }
        arrays = more;
        extents = others;
    }
    unreachable!()
}

/// The marked reads, and a form.
fn named_forms(alloc: Global, sight: Sight, named: &[bool], e: &Aff) -> Result<List<Aff>, NoMemory>
    requires count { length named.now ≡ length sight.reads.now }
{
    let first = sight.scene.names.len();
    let vars = first + sight.reads.len();
    let mut forms = List::new(alloc);
    for i in 0..named.len() {
        if named[i] {
            forms.push(unit_form(alloc, first + i, vars)?)?;
        }
    }
    forms.push(copy_form(alloc, e)?)?;
    Ok(forms)
}

/// Whether the system has no point at which the form is at least 0.
fn is_excluded(alloc: Global, own: &Own, form: &Aff) -> Result<bool, SetFault>
    requires { own.now.system.vars ≡ own.now.seats.vars }
{
    let mut system = own.system().copy(alloc)?;
    system.push(Row {
        equal: false,
        form: own.place(alloc, form)?,
    })?;
    system.excluded(alloc)
}

fn over(sight: Sight, stop: SetFault) -> Stop<SourceFault> {
    match stop {
        Stop::Refused(excess) => Stop::Refused(SourceFault::Overflow {
            statement: sight.scene.statement,
            why: SourceExcess::Set(excess),
        }),
        Stop::NoMemory => Stop::NoMemory,
    }
}

/// Refuses an access that may lie on a side of its array: where the form may be at least 0.
fn judge_side(
    alloc: Global,
    sight: Sight,
    own: &Own,
    array: Name,
    side: Side,
    form: &Aff,
) -> Result<(), Stop<SourceFault>>
    requires { own.now.system.vars ≡ own.now.seats.vars }
{
    match is_excluded(alloc, own, form) {
        Ok(true) => Ok(()),
        Ok(false) => Err(Stop::Refused(SourceFault::Outside {
            statement: sight.scene.statement,
            array,
            side,
        })),
        Err(stop) => Err(over(sight, stop)),
    }
}

/// The system of what is known and of the reads of a subscript.
fn system_of(
    alloc: Global,
    sight: Sight,
    known: &Known,
    named: &[bool],
    e: &Aff,
) -> Result<Own, SetFault>
    requires sight { IsSight sight }
    requires count { length named.now ≡ length sight.reads.now }
    ensures { IfOk result (λ own. own.system.vars ≡ own.seats.vars) }
{
    let head = sight.scene.head;
    let levels = sight.scene.names.len() - head.params.as_slice().len();
    let rows = plain_rows(alloc, known.rows.as_slice())?;
    let forms = named_forms(alloc, sight, named, e)?;
    own_system(
        alloc,
        head,
        &[],
        levels,
        sight.terms,
        0,
        rows.as_slice(),
        forms.as_slice(),
    )
}

/// Judges a subscript with its extent.
fn judge_extent(
    alloc: Global,
    sight: Sight,
    own: &Own,
    array: Name,
    e: &Aff,
    extent: &Aff,
) -> Result<(), Stop<SourceFault>>
    requires own { own.now.system.vars ≡ own.now.seats.vars }
    requires e { length e.now.coefs ≡ length sight.scene.names.now + length sight.reads.now }
    requires extent { length extent.now.coefs ≤ length sight.scene.names.now }
{
    let vars = sight.scene.names.len() + sight.reads.len();
    let below = difference(alloc, &zero_form(alloc, vars)?, e, 1)?;
    judge_side(alloc, sight, own, array, Side::Below, &below)?;
    let past = difference(alloc, e, &widened_form(alloc, extent, vars)?, 0)?;
    judge_side(alloc, sight, own, array, Side::Past, &past)
}

/// Judges a subscript that names the marked reads.
fn judge_inside(
    alloc: Global,
    sight: Sight,
    known: &Known,
    named: &[bool],
    array: Name,
    place: usize,
    e: &Index,
) -> Result<(), Stop<SourceFault>>
    requires sight { IsSight sight }
    requires count { length named.now ≡ length sight.reads.now }
    requires place { place < length (signature.extents_of sight.scene.head.now.arrays array) }
{
    let arrays = sight.scene.head.arrays.as_slice();
    let extent = extent_of(arrays, sight.extents, array, place);
    let vars = variables(sight.scene, sight.reads);
    let e = form(alloc, subscript_at(sight.scene), vars, e)?;
    match system_of(alloc, sight, known, named, &e) {
        Ok(own) => judge_extent(alloc, sight, &own, array, &e, extent),
        Err(stop) => Err(over(sight, stop)),
    }
}

/// Judges a term.
fn judge_term(
    alloc: Global,
    sight: Sight,
    known: &Known,
    mention: Mention,
) -> Result<(), Stop<SourceFault>>
    requires sight { IsSight sight }
    requires named { length known.now.named ≡ length sight.reads.now }
    requires term { IsTrue (is_of_matrix sight.scene.head.now.matrices mention) }
{
    let named = known.named.as_slice();
    judge_inside(alloc, sight, known, named, *mention.array, 0, mention.at)
}

/// Judges the terms that an expression names.
fn judge_terms(
    alloc: Global,
    sight: Sight,
    known: &Known,
    e: &Index,
) -> Result<(), Stop<SourceFault>>
    requires sight { IsSight sight }
    requires named { length known.now.named ≡ length sight.reads.now }
{
    let matrices = sight.scene.head.matrices.as_slice();
    let mentions = mentions(alloc, matrices, e)?;
    for mention in mentions.as_slice() {
        judge_term(alloc, sight, known, *mention)?;
    }
    Ok(())
}

/// Adds a loop to what is known, once its terms are judged.
fn pass_loop(
    alloc: Global,
    sight: Sight,
    known: &mut Known,
    is_first: bool,
    levels: usize,
    low: &Index,
    high: &Index,
) -> Result<(), Stop<SourceFault>>
    requires sight { IsSight sight }
    requires named { length known.old.named ≡ length sight.reads.now }
    requires levels { levels + 1 ≤ 8 }
    ensures { OnOk result (length known.new.named ≡ length sight.entry.reads.now) }
{
    if is_first {
        judge_terms(alloc, sight, known, low)?;
        judge_terms(alloc, sight, known, high)?;
    }
    let statement = sight.scene.statement;
    let vars = variables(sight.scene, sight.reads);
    let own = Level {
        level: levels + 1,
        var: sight.scene.head.params.as_slice().len() + levels,
    };
    push_bound(alloc, &mut known.rows, statement, vars, own, End::Low, low)?;
    push_bound(
        alloc,
        &mut known.rows,
        statement,
        vars,
        own,
        End::High,
        high,
    )?;
    mark(alloc, sight, &mut known.named, low)?;
    mark(alloc, sight, &mut known.named, high)
}

/// Adds a test to what is known, once its terms are judged.
fn pass_test(
    alloc: Global,
    sight: Sight,
    known: &mut Known,
    is_first: bool,
    test: &Test,
) -> Result<(), Stop<SourceFault>>
    requires sight { IsSight sight }
    requires named { length known.old.named ≡ length sight.reads.now }
    ensures { OnOk result (length known.new.named ≡ length sight.entry.reads.now) }
{
    if is_first {
        judge_terms(alloc, sight, known, &test.left)?;
        judge_terms(alloc, sight, known, &test.right)?;
    }
    let vars = variables(sight.scene, sight.reads);
    push_test(alloc, &mut known.rows, sight.scene.statement, vars, test)?;
    mark(alloc, sight, &mut known.named, &test.left)?;
    mark(alloc, sight, &mut known.named, &test.right)
}

fn pass_around(
    alloc: Global,
    sight: Sight,
    known: &mut Known,
    is_first: bool,
    levels: usize,
    around: Around,
) -> Result<(), Stop<SourceFault>>
    requires sight { IsSight sight }
    requires named { length known.old.named ≡ length sight.reads.now }
    requires levels { count_loops (around ∷ []) + levels ≤ 8 }
    ensures { OnOk result (length known.new.named ≡ length sight.entry.reads.now) }
{
    match around {
        Around::Loop { low, high, .. } => {
            pass_loop(alloc, sight, known, is_first, levels, low, high)
        }
        Around::Guard { tests, .. } => {
            for test in tests {
                pass_test(alloc, sight, known, is_first, test)?;
            }
            Ok(())
        }
    }
}

/// Judges a cell: the terms of its subscripts, and then each subscript.
fn judge_cell(
    alloc: Global,
    sight: Sight,
    known: &Known,
    cell: &Cell,
) -> Result<(), Stop<SourceFault>>
    requires sight { IsSight sight }
    requires named { length known.now.named ≡ length sight.reads.now }
    requires cell { IsTrue (is_declared sight.scene.head.now.arrays cell.now) }
{
    let subscripts = subscripts(alloc, &cell.at)?;
    for e in subscripts.as_slice() {
        judge_terms(alloc, sight, known, e)?;
    }
    for place in 0..subscripts.len() {
        let e = subscripts[place];
        let mut named = List::from_slice(alloc, known.named.as_slice())?;
        mark(alloc, sight, &mut named, e)?;
        judge_inside(alloc, sight, known, named.as_slice(), cell.array, place, e)?;
    }
    Ok(())
}

fn judge_cells(
    alloc: Global,
    sight: Sight,
    known: &Known,
    cells: &[&Cell],
) -> Result<(), Stop<SourceFault>>
    requires sight { IsSight sight }
    requires named { length known.now.named ≡ length sight.reads.now }
    requires cells { IsTrue (list_all (λ c. is_declared sight.scene.head.now.arrays c.now) cells.now) }
{
    for cell in cells {
        judge_cell(alloc, sight, known, cell)?;
    }
    Ok(())
}

/// No read yet.
fn nothing_named(alloc: Global, count: usize) -> Result<List<bool>, NoMemory>
    ensures { IfOk result (λ ns. length ns ≡ count) }
{
    let mut named = List::new(alloc);
    for _ in 0..count {
        named.push(false)?;
    }
    Ok(named)
}

/// Judges the accesses of an assignment, and those around it of which it is the first assignment inside.
pub fn judge_accesses(alloc: Global, sight: Sight, site: &Site) -> Result<(), Stop<SourceFault>>
    requires sight { IsSight sight }
    requires depth { count_loops site.now.around.items ≤ 8 }
    requires declared { IsTrue (is_declared_site sight.scene.head.now.arrays site.now) }
{
    let mut known = Known {
        rows: List::new(alloc),
        named: nothing_named(alloc, sight.reads.len())?,
    };
    let mut levels = 0;
    for around in site.around.as_slice() {
        let is_first = first_inside(around) == site.number;
        pass_around(alloc, sight, &mut known, is_first, levels, *around)?;
        levels = levels_behind(levels, *around);
    }
    let cells = cells(alloc, site.target, site.value)?;
    judge_cells(alloc, sight, &known, cells.as_slice())
}
