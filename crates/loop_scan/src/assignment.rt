// Assignments and the tests around them.
ghost use Rattle.std.specs.Prelude.{◌≡◌, ◌+◌, ◌<◌, ◌≤◌, length, IsTrue, IfOk, OnOk};
ghost use Rattle.std.specs.List.{list_all};
ghost use Rattle.nest_core.specs.Chains.{leaf_body};
ghost use Rattle.nest_core.specs.Shapes.{IsShaped, IsShapedNest, is_access_over, is_body_over, vars_of};
ghost use Rattle.scan_forms.specs.Reads.{term_has_places};
ghost use Rattle.loop_scan.specs.Choices as choices;

use crate::ask::ask_form;
use crate::head::writer;
use crate::nests::nest_at;
use crate::part::{Part, origin_of, place_forms};
use c_tree::{Cell, Expr, Stmt, Test};
use chill_base::{Boxed, List, Name, NoMemory, Stop};
use nest_core::{Chain, Leaf, Operation, chain_of};
use nest_tree::{Access, Body, Kernel, Nest};
use scan_forms::{
    Affine, Claim, Origin, ScanFault, Sizes, Table, Writer, push_claims, write_subscripts,
    write_test,
};
use std::alloc::Global;

/// What is known at a place, and the sizes of the levels around it.
#[derive(Drop)]
pub struct Around {
    pub context: List<Claim>,
    pub sizes: Sizes,
}

/// The statement under tests; without tests it stands alone.
pub fn guarded(alloc: Global, tests: List<Test>, statement: Stmt) -> Result<Stmt, NoMemory>
    ensures { IfOk result (λ s. s ≡ choices.guarded tests statement) }
{
    if tests.is_empty() {
        return Ok(statement);
    }
    let mut body = List::new(alloc);
    body.push(statement)?;
    Ok(Stmt::If { tests, body })
}

/// The tests that claims are.
pub fn write_tests(w: Writer<'_>, claims: &[Claim]) -> Result<List<Test>, Stop<ScanFault>> {
    let mut tests = List::new(w.alloc);
    for claim in claims {
        tests.push(write_test(w, claim)?)?;
    }
    Ok(tests)
}

/// Appends to a context the rows of a statement that no loop says, each behind what has to be tested before it is read.
fn ask_rows(
    alloc: Global,
    kernel: &Kernel,
    table: &mut Table,
    context: &mut List<Claim>,
    part: &Part,
) -> Result<(), NoMemory>
    ensures { OnOk result (length context.old ≤ length context.new) }
{
    for row in part.rows.as_slice() {
        if !row.settled {
            ask_form(alloc, kernel, table, context, &row.claim.form)?;
            context.push(row.claim.copy(alloc)?)?;
        }
    }
    Ok(())
}

/// What a statement's cells are printed by.
#[derive(Clone, Copy)]
struct Cells<'a> {
    alloc: Global,
    kernel: &'a Kernel,
    origin: Origin<'a>,
    order: &'a [usize],
    sizes: Sizes,
    statement: usize,
}

fn write_cell(
    c: Cells<'_>,
    table: &Table,
    array: Name,
    forms: &[Affine],
) -> Result<Cell, Stop<ScanFault>>
    requires low { 1 ≤ length forms.now }
    requires high { length forms.now ≤ 3 }
{
    let w = writer(c.alloc, c.kernel, table, c.order, c.sizes, c.statement);
    Ok(Cell {
        array,
        at: write_subscripts(w, forms)?,
    })
}

fn write_access(c: Cells<'_>, table: &mut Table, access: &Access) -> Result<Cell, Stop<ScanFault>>
    requires terms { IsTrue (list_all term_has_places c.origin.terms.now) }
    requires further { IsTrue (list_all term_has_places c.origin.further.now) }
    requires low { 1 ≤ length access.now.at }
    requires high { length access.now.at ≤ 3 }
{
    let forms = place_forms(c.alloc, table, c.origin, access.at.as_slice())?;
    write_cell(c, table, access.array, forms.as_slice())
}

fn write_leaf(c: Cells<'_>, table: &mut Table, leaf: Leaf<'_>) -> Result<Expr, Stop<ScanFault>>
    requires terms { IsTrue (list_all term_has_places c.origin.terms.now) }
    requires further { IsTrue (list_all term_has_places c.origin.further.now) }
    requires leaf { IsTrue (is_body_over (c.origin.params + c.origin.levels + length c.origin.terms.now) (leaf_body leaf)) }
{
    match leaf {
        Leaf::Number(number) => Ok(Expr::Const(number)),
        Leaf::Cell(access) => Ok(Expr::At(write_access(c, table, access)?)),
    }
}

fn joined(alloc: Global, operation: Operation, left: Expr, right: Expr) -> Result<Expr, NoMemory> {
    let a = Boxed::new(alloc, left)?;
    let b = Boxed::new(alloc, right)?;
    match operation {
        Operation::Plus => Ok(Expr::Plus(a, b)),
        Operation::Minus => Ok(Expr::Minus(a, b)),
        Operation::Times => Ok(Expr::Times(a, b)),
    }
}

/// The right side, from the left.
fn write_body(c: Cells<'_>, table: &mut Table, body: &Body) -> Result<Expr, Stop<ScanFault>>
    requires terms { IsTrue (list_all term_has_places c.origin.terms.now) }
    requires further { IsTrue (list_all term_has_places c.origin.further.now) }
    requires body { IsTrue (is_body_over (c.origin.params + c.origin.levels + length c.origin.terms.now) body.now) }
{
    let Chain { first, mut links } = chain_of(c.alloc, body)?;
    let mut whole = write_leaf(c, table, first)?;
    while let Some(link) = links.pop() {
        let right = write_body(c, table, link.right)?;
        whole = joined(c.alloc, link.operation, whole, right)?;
    }
    Ok(whole)
}

/// The assignment itself.
fn write_statement(c: Cells<'_>, table: &mut Table, nest: &Nest) -> Result<Stmt, Stop<ScanFault>>
    requires nest { IsShapedNest c.kernel.now.head nest.now }
    requires terms { IsTrue (list_all term_has_places c.origin.terms.now) }
    requires further { IsTrue (list_all term_has_places c.origin.further.now) }
    requires vars { c.origin.params + c.origin.levels + length c.origin.terms.now ≡ vars_of (length c.kernel.now.head.params) nest.now }
{
    let target = write_access(c, table, &nest.target)?;
    let value = write_body(c, table, &nest.value)?;
    Ok(Stmt::Assign {
        target,
        how: nest.how,
        value,
    })
}

/// The tests that a context has gained.
pub fn gained_tests(
    w: Writer<'_>,
    known: usize,
    context: &[Claim],
) -> Result<List<Test>, Stop<ScanFault>>
    requires { known ≤ length context.now }
{
    write_tests(w, &context[known..])
}

/// The tests around an assignment.
fn tests_around(
    c: Cells<'_>,
    table: &mut Table,
    part: &Part,
    known: &[Claim],
) -> Result<List<Test>, Stop<ScanFault>> {
    let mut context = List::new(c.alloc);
    push_claims(c.alloc, &mut context, known)?;
    ask_rows(c.alloc, c.kernel, table, &mut context, part)?;
    let w = writer(c.alloc, c.kernel, table, c.order, c.sizes, c.statement);
    gained_tests(w, known.len(), context.as_slice())
}

/// A statement's assignment, under the tests of the rows that no loop says.
pub fn scan_assignment(
    alloc: Global,
    kernel: &Kernel,
    table: &mut Table,
    part: &Part,
    statement: usize,
    around: &Around,
) -> Result<Stmt, Stop<ScanFault>>
    requires shaped { IsShaped kernel.now }
    requires statement { statement < length kernel.now.nests }
{
    let nest = nest_at(kernel, statement);
    let c = Cells {
        alloc,
        kernel,
        origin: origin_of(&kernel.head, nest),
        order: part.order.as_slice(),
        sizes: around.sizes,
        statement,
    };
    let tests = tests_around(c, table, part, around.context.as_slice())?;
    let assignment = write_statement(c, table, nest)?;
    Ok(guarded(alloc, tests, assignment)?)
}
