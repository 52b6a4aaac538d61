// Affine expressions: their coefficients and constants, judged part by part.
ghost use Rattle.std.specs.Prelude.{◌≡◌, ◌+◌, length, IfOk, OnOk};
ghost use Rattle.source_limits.specs.Widths.{is_read_over};

use crate::reads::{Read, is_read, term_subscript};
use crate::spine::{Sum, summands};
use crate::{Part, SourceFault, SourceWhat};
use c_tree::{Cell, Index, Matrix};
use chill_base::{List, Name, Stop};
use int_rows::Aff;
use std::alloc::Global;

/// The greatest size of a coefficient.
const COEFFICIENT: u128 = 1 << 16;
/// The greatest size of a constant.
const CONSTANT: u128 = 1 << 31;

/// The statement and the part in which an expression stands.
#[derive(Clone, Copy, Debug)]
pub struct At {
    pub statement: usize,
    pub part: Part,
}

/// The variables of forms: parameters and loop variables by their names, and then reads.
#[derive(Clone, Copy)]
pub struct Variables<'a> {
    pub matrices: &'a [Matrix],
    pub names: &'a [Name],
    pub reads: &'a [Read],
}

pub fn not_affine(at: At) -> Stop<SourceFault> {
    Stop::Refused(SourceFault::NotAffine {
        statement: at.statement,
        part: at.part,
    })
}

/// A size as it is told, at most 2^64-1.
fn told(size: u128) -> u64 {
    let most = u64::MAX as u128;
    if size <= most { size as u64 } else { u64::MAX }
}

pub fn over(what: SourceWhat, count: u64) -> Stop<SourceFault> {
    Stop::Refused(SourceFault::Limit { what, count })
}

/// Refuses the first coefficient past the limit.
fn judge_coefs(coefs: &[i128]) -> Result<(), Stop<SourceFault>> {
    for coef in coefs {
        let size = coef.unsigned_abs();
        if size > COEFFICIENT {
            return Err(over(SourceWhat::Coefficient, told(size)));
        }
    }
    Ok(())
}

fn judge_constant(constant: i128) -> Result<i128, Stop<SourceFault>> {
    let size = constant.unsigned_abs();
    if size > CONSTANT {
        return Err(over(SourceWhat::Constant, told(size)));
    }
    Ok(constant)
}

/// So many zeros.
fn zeros(alloc: Global, count: usize) -> Result<List<i128>, Stop<SourceFault>>
    ensures { IfOk result (λ cs. length cs ≡ count) }
{
    let mut zeros = List::new(alloc);
    for _ in 0..count {
        zeros.push(0)?;
    }
    Ok(zeros)
}

/// 0 at each variable.
fn zero_coefs(alloc: Global, vars: Variables) -> Result<List<i128>, Stop<SourceFault>>
    ensures { IfOk result (λ cs. length cs ≡ length vars.entry.names.now + length vars.entry.reads.now) }
{
    zeros(alloc, vars.names.len() + vars.reads.len())
}

/// 1 at each variable that has the name.
fn name_coefs(alloc: Global, vars: Variables, name: Name) -> Result<List<i128>, Stop<SourceFault>>
    ensures { IfOk result (λ cs. length cs ≡ length vars.entry.names.now + length vars.entry.reads.now) }
{
    let mut coefs = zero_coefs(alloc, vars)?;
    for i in 0..vars.names.len() {
        if vars.names[i] == name {
            coefs.set(i, 1);
        }
    }
    Ok(coefs)
}

/// 1 at each variable that is the read.
fn read_coefs(alloc: Global, vars: Variables, read: &Read) -> Result<List<i128>, Stop<SourceFault>>
    ensures { IfOk result (λ cs. length cs ≡ length vars.entry.names.now + length vars.entry.reads.now) }
{
    let mut coefs = zero_coefs(alloc, vars)?;
    let first = vars.names.len();
    for i in 0..vars.reads.len() {
        if is_read(&vars.reads[i], read) {
            coefs.set(first + i, 1);
        }
    }
    Ok(coefs)
}

/// Each coefficient multiplied.
fn multiplied(alloc: Global, factor: i128, coefs: &[i128]) -> Result<List<i128>, Stop<SourceFault>>
    ensures { IfOk result (λ cs. length cs ≡ length coefs.now) }
{
    let mut products = List::new(alloc);
    for coef in coefs {
        products.push(coef.saturating_mul(factor))?;
    }
    judge_coefs(products.as_slice())?;
    Ok(products)
}

/// Adds coefficients, or takes them away.
fn add_coefs(
    sum: &mut List<i128>,
    is_negative: bool,
    coefs: &[i128],
) -> Result<(), Stop<SourceFault>>
    requires { length coefs.now ≡ length sum.old }
    ensures { length sum.new ≡ length sum.old }
{
    for i in 0..coefs.len() {
        let old = sum.as_slice()[i];
        let new = if is_negative {
            old.saturating_sub(coefs[i])
        } else {
            old.saturating_add(coefs[i])
        };
        sum.set(i, new);
    }
    judge_coefs(sum.as_slice())
}

/// The coefficients of an expression, or the first part, inner ones first and from the left, that isn't affine or passes
/// the limit.
#[cycle(coefs)]
pub fn coefs(
    alloc: Global,
    at: At,
    vars: Variables,
    e: &Index,
) -> Result<List<i128>, Stop<SourceFault>>
    ensures { IfOk result (λ cs. length cs ≡ length vars.entry.names.now + length vars.entry.reads.now) }
{
    let Sum { first, behind } = summands(alloc, e)?;
    let mut sum = part_coefs(alloc, at, vars, first)?;
    for i in 0..behind.len() {
        let summand = behind[behind.len() - 1 - i];
        let part = coefs(alloc, at, vars, summand.part)?;
        add_coefs(&mut sum, summand.is_negative, part.as_slice())?;
    }
    Ok(sum)
}

/// The same of an expression that is no sum.
#[cycle(coefs)]
fn part_coefs(
    alloc: Global,
    at: At,
    vars: Variables,
    e: &Index,
) -> Result<List<i128>, Stop<SourceFault>>
    ensures { IfOk result (λ cs. length cs ≡ length vars.entry.names.now + length vars.entry.reads.now) }
{
    match e {
        Index::Const(_) => zero_coefs(alloc, vars),
        Index::Var(name) => name_coefs(alloc, vars, *name),
        Index::At(cell) => {
            let read = cell_read(alloc, at, vars, cell)?;
            read_coefs(alloc, vars, &read)
        }
        Index::Neg(inner) => {
            let part = coefs(alloc, at, vars, inner.get())?;
            multiplied(alloc, -1, part.as_slice())
        }
        Index::Times(factor, inner) => {
            let part = coefs(alloc, at, vars, inner.get())?;
            multiplied(alloc, *factor as i128, part.as_slice())
        }
        _ => Err(not_affine(at)),
    }
}

/// The read that a cell is.
#[cycle(coefs)]
fn cell_read(alloc: Global, at: At, vars: Variables, cell: &Cell) -> Result<Read, Stop<SourceFault>>
    ensures { IfOk result (λ r. length r.at.coefs ≡ length vars.entry.names.now) }
{
    match term_subscript(vars.matrices, cell) {
        Some(subscript) => {
            let bare = Variables {
                matrices: vars.matrices,
                names: vars.names,
                reads: &[],
            };
            let coefs = coefs(alloc, at, bare, subscript)?;
            let constant = constant(alloc, at, subscript)?;
            Ok(Read {
                array: cell.array,
                at: Aff { coefs, constant },
            })
        }
        None => Err(not_affine(at)),
    }
}

/// The constant of an expression, or the first part, inner ones first and from the left, that isn't affine or passes the
/// limit.
#[cycle(constant)]
pub fn constant(alloc: Global, at: At, e: &Index) -> Result<i128, Stop<SourceFault>> {
    let Sum { first, behind } = summands(alloc, e)?;
    let mut sum = part_constant(alloc, at, first)?;
    for i in 0..behind.len() {
        let summand = behind[behind.len() - 1 - i];
        let part = constant(alloc, at, summand.part)?;
        let new = if summand.is_negative {
            sum.saturating_sub(part)
        } else {
            sum.saturating_add(part)
        };
        sum = judge_constant(new)?;
    }
    Ok(sum)
}

#[cycle(constant)]
fn part_constant(alloc: Global, at: At, e: &Index) -> Result<i128, Stop<SourceFault>> {
    match e {
        Index::Const(n) => judge_constant(*n as i128),
        Index::Var(_) => Ok(0),
        Index::At(_) => Ok(0),
        Index::Neg(inner) => {
            let part = constant(alloc, at, inner.get())?;
            judge_constant(part.saturating_mul(-1))
        }
        Index::Times(factor, inner) => {
            let part = constant(alloc, at, inner.get())?;
            judge_constant(part.saturating_mul(*factor as i128))
        }
        _ => Err(not_affine(at)),
    }
}

/// The form of an expression, or the first part that isn't affine or passes a limit.
pub fn form(alloc: Global, at: At, vars: Variables, e: &Index) -> Result<Aff, Stop<SourceFault>>
    ensures { IfOk result (λ f. length f.coefs ≡ length vars.entry.names.now + length vars.entry.reads.now) }
{
    let coefs = coefs(alloc, at, vars, e)?;
    let constant = constant(alloc, at, e)?;
    Ok(Aff { coefs, constant })
}
