// Statements, line by line from the last.
ghost use Rattle.std.specs.Prelude.{◌≡◌, ◌++◌, ◌+◌, codes, decimal, length, map, OnOk};
ghost use Rattle.c_print.specs.Lists.{followed, joined};
ghost use Rattle.c_print.specs.Statement as spec;
ghost use Rattle.c_print.specs.Statement.{index_text, block, statement_text};

use crate::ahead::Ahead;
use crate::data::print_data;
use crate::index::{print_cell, print_index};
use c_tree::{Cell, Cmp, Expr, How, Index, Kind, Stmt, Test};
use chill_base::Name;
use std::alloc::{AllocError, Global};

/// Puts the statements before the text. Each line begins with the indent.
#[cycle(statement)]
pub fn print_block(
    alloc: Global,
    out: &mut Ahead,
    body: &[Stmt],
    indent: &[u8],
) -> Result<(), AllocError>
    ensures { OnOk result (out.new ≡ block (map statement_text body.now) indent.now ++ out.old) }
{
    let mut at = body.len();
    while at > 0 {
        at -= 1;
        print_statement(alloc, out, &body[at], indent)?;
    }
    Ok(())
}

#[cycle(statement)]
#[tactic(auto, using(crate::proofs::StatementEquations::lines_for, crate::proofs::StatementEquations::lines_if, crate::proofs::StatementEquations::lines_assign, crate::proofs::StatementEquations::lines_put, crate::proofs::StatementEquations::lines_declare, crate::proofs::StatementEquations::lines_grow))]
fn print_statement(
    alloc: Global,
    out: &mut Ahead,
    statement: &Stmt,
    indent: &[u8],
) -> Result<(), AllocError>
    ensures { OnOk result (out.new ≡ statement_text statement.now indent.now ++ out.old) }
{
    match statement {
        Stmt::For {
            var,
            low,
            high,
            body,
        } => {
            print_body(alloc, out, body.as_slice(), indent)?;
            print_loop_head(out, var, low, high)?;
            out.put(indent)
        }
        Stmt::If { tests, body } => {
            print_body(alloc, out, body.as_slice(), indent)?;
            print_guard_head(out, tests.as_slice())?;
            out.put(indent)
        }
        Stmt::Assign { target, how, value } => {
            print_assign(out, target, *how, value)?;
            out.put(indent)
        }
        Stmt::Put { target, value } => {
            print_put(out, target, value)?;
            out.put(indent)
        }
        Stmt::Declare { name, kind, inner } => {
            print_declaration(out, name, *kind, inner.as_slice())?;
            out.put(indent)
        }
        Stmt::Grow { name, by } => {
            print_growth(out, name, by)?;
            out.put(indent)
        }
    }
}

// A body, two blanks deeper, and the brace that closes it.
#[cycle(statement)]
fn print_body(
    alloc: Global,
    out: &mut Ahead,
    body: &[Stmt],
    indent: &[u8],
) -> Result<(), AllocError>
    ensures { OnOk result (out.new ≡ block (map statement_text body.now) (indent.now ++ codes "  ") ++ (indent.now ++ codes "}\n") ++ out.old) }
{
    out.put(b"}\n")?;
    out.put(indent)?;
    let mut deeper = Vec::from_slice(alloc, indent)?;
    deeper.extend_from_slice(b"  ")?;
    print_block(alloc, out, body, deeper.as_slice())
}

fn print_loop_head(out: &mut Ahead, var: &Name, low: &Index, high: &Index) -> Result<(), AllocError>
    ensures { OnOk result (out.new ≡ spec.loop_head var.now (index_text low.now) (index_text high.now) ++ out.old) }
{
    print_step(out, var)?;
    print_condition(out, var, high)?;
    print_start(out, var, low)
}

// `; v++) {`
fn print_step(out: &mut Ahead, var: &Name) -> Result<(), AllocError>
    ensures { OnOk result (out.new ≡ (codes "; " ++ var.now ++ codes "++) {\n") ++ out.old) }
{
    out.put(b"++) {\n")?;
    out.put(var.bytes())?;
    out.put(b"; ")
}

// `; v < high`
fn print_condition(out: &mut Ahead, var: &Name, high: &Index) -> Result<(), AllocError>
    ensures { OnOk result (out.new ≡ (codes "; " ++ var.now ++ codes " < " ++ index_text high.now) ++ out.old) }
{
    print_index(out, high)?;
    out.put(b" < ")?;
    out.put(var.bytes())?;
    out.put(b"; ")
}

// `for (int64_t v = low`
fn print_start(out: &mut Ahead, var: &Name, low: &Index) -> Result<(), AllocError>
    ensures { OnOk result (out.new ≡ (codes "for (int64_t " ++ var.now ++ codes " = " ++ index_text low.now) ++ out.old) }
{
    print_index(out, low)?;
    out.put(b" = ")?;
    out.put(var.bytes())?;
    out.put(b"for (int64_t ")
}

fn print_guard_head(out: &mut Ahead, tests: &[Test]) -> Result<(), AllocError>
    ensures { OnOk result (out.new ≡ spec.guard_head tests.now ++ out.old) }
{
    out.put(b") {\n")?;
    print_tests(out, tests)?;
    out.put(b"if (")
}

// Tests with `&&` between them.
fn print_tests(out: &mut Ahead, tests: &[Test]) -> Result<(), AllocError>
    ensures { OnOk result (out.new ≡ joined (codes " && ") (map spec.test_text tests.now) ++ out.old) }
{
    if tests.is_empty() {
        return Ok(());
    }
    print_further_tests(out, &tests[1..])?;
    print_test(out, &tests[0])
}

// Tests, each with `&&` before it.
fn print_further_tests(out: &mut Ahead, tests: &[Test]) -> Result<(), AllocError>
    ensures { OnOk result (out.new ≡ followed (codes " && ") (map spec.test_text tests.now) ++ out.old) }
{
    let mut at = tests.len();
    while at > 0 {
        at -= 1;
        print_test(out, &tests[at])?;
        out.put(b" && ")?;
    }
    Ok(())
}

fn print_test(out: &mut Ahead, test: &Test) -> Result<(), AllocError>
    ensures { OnOk result (out.new ≡ spec.test_text test.now ++ out.old) }
{
    print_index(out, &test.right)?;
    out.put(sign_of(test.cmp))?;
    print_index(out, &test.left)
}

fn sign_of(cmp: Cmp) -> &'static [u8]
    ensures { result.now ≡ spec.cmp_text cmp }
{
    match cmp {
        Cmp::Less => b" < ",
        Cmp::AtMost => b" <= ",
        Cmp::More => b" > ",
        Cmp::AtLeast => b" >= ",
        Cmp::Same => b" == ",
    }
}

/// The sign of an assignment, with a blank on each side.
pub fn sign_of_how(how: How) -> &'static [u8]
    ensures { result.now ≡ spec.how_text how }
{
    match how {
        How::Write => b" = ",
        How::Add => b" += ",
        How::Subtract => b" -= ",
    }
}

fn print_assign(out: &mut Ahead, target: &Cell, how: How, value: &Expr) -> Result<(), AllocError>
    ensures { OnOk result (out.new ≡ spec.assign_text target.now how value.now ++ out.old) }
{
    out.put(b";\n")?;
    print_data(out, value)?;
    out.put(sign_of_how(how))?;
    print_cell(out, target)
}

fn print_put(out: &mut Ahead, target: &Cell, value: &Index) -> Result<(), AllocError>
    ensures { OnOk result (out.new ≡ spec.put_text target.now value.now ++ out.old) }
{
    out.put(b";\n")?;
    print_index(out, value)?;
    out.put(b" = ")?;
    print_cell(out, target)
}

fn print_declaration(
    out: &mut Ahead,
    name: &Name,
    kind: Kind,
    inner: &[Index],
) -> Result<(), AllocError>
    ensures { OnOk result (out.new ≡ spec.declaration name.now kind inner.now ++ out.old) }
{
    out.put(b");\n")?;
    print_extents(out, inner)?;
    out.put(name.bytes())?;
    print_declaring_word(out, kind, inner)
}

// Extents, each with a comma before it.
fn print_extents(out: &mut Ahead, extents: &[Index]) -> Result<(), AllocError>
    ensures { OnOk result (out.new ≡ followed (codes ", ") (map index_text extents.now) ++ out.old) }
{
    let mut at = extents.len();
    while at > 0 {
        at -= 1;
        print_index(out, &extents[at])?;
        out.put(b", ")?;
    }
    Ok(())
}

// The word's number is the count of extents: one more than those behind the first.
fn print_declaring_word(out: &mut Ahead, kind: Kind, inner: &[Index]) -> Result<(), AllocError>
    ensures { OnOk result (out.new ≡ (spec.kind_word kind ++ decimal (length inner.now + 1) ++ codes "(") ++ out.old) }
{
    out.put(b"(")?;
    out.put_natural(inner.len() as u64 + 1)?;
    out.put(word_of(kind))
}

fn word_of(kind: Kind) -> &'static [u8]
    ensures { result.now ≡ spec.kind_word kind }
{
    match kind {
        Kind::Number => b"DATA",
        Kind::Position => b"INDEX",
    }
}

fn print_growth(out: &mut Ahead, name: &Name, by: &Index) -> Result<(), AllocError>
    ensures { OnOk result (out.new ≡ spec.growth name.now by.now ++ out.old) }
{
    out.put(b");\n")?;
    print_index(out, by)?;
    out.put(b", ")?;
    out.put(name.bytes())?;
    out.put(b"GROW(")
}
