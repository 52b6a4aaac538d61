// Programs, line by line from the last.
ghost use Rattle.std.specs.Prelude.{◌≡◌, ◌++◌, codes, map, OnOk, IfOk};
ghost use Rattle.c_print.specs.Lists.{followed, joined};
ghost use Rattle.c_print.specs.Program as spec;
ghost use Rattle.c_print.specs.Program.{program_text, lines_of, matrix_text, array_text};

use crate::ahead::Ahead;
use crate::index::print_index;
use crate::statement::print_block;
use c_tokens::prelude_lines;
use c_tree::{Array, Index, Kind, Matrix, Program, Stmt};
use chill_base::{Name, NoMemory, Text};
use std::alloc::{AllocError, Global};

// The lines, each with its line feed.
fn print_lines(out: &mut Ahead, lines: &[&[u8]]) -> Result<(), AllocError>
    ensures { OnOk result (out.new ≡ lines_of (map (λ line. line.now) lines.now) ++ out.old) }
{
    let mut at = lines.len();
    while at > 0 {
        at -= 1;
        out.put(b"\n")?;
        out.put(lines[at])?;
    }
    Ok(())
}

fn print_matrices(out: &mut Ahead, matrices: &[Matrix]) -> Result<(), AllocError>
    ensures { OnOk result (out.new ≡ lines_of (map matrix_text matrices.now) ++ out.old) }
{
    let mut at = matrices.len();
    while at > 0 {
        at -= 1;
        out.put(b"\n")?;
        print_matrix(out, &matrices[at])?;
    }
    Ok(())
}

fn print_matrix(out: &mut Ahead, matrix: &Matrix) -> Result<(), AllocError>
    ensures { OnOk result (out.new ≡ matrix_text matrix.now ++ out.old) }
{
    out.put(b")")?;
    print_after_comma(out, &matrix.count)?;
    print_after_comma(out, &matrix.cols)?;
    print_after_comma(out, &matrix.rows)?;
    print_after_comma(out, &matrix.value)?;
    print_after_comma(out, &matrix.col)?;
    out.put(matrix.index.bytes())?;
    out.put(b"#pragma sparse csr(")
}

fn print_after_comma(out: &mut Ahead, name: &Name) -> Result<(), AllocError>
    ensures { OnOk result (out.new ≡ (codes ", " ++ name.now) ++ out.old) }
{
    out.put(name.bytes())?;
    out.put(b", ")
}

fn print_header(out: &mut Ahead, program: &Program) -> Result<(), AllocError>
    ensures { OnOk result (out.new ≡ spec.header program.now ++ out.old) }
{
    out.put(b")\n{\n")?;
    print_parameters(out, program.params.as_slice(), program.arrays.as_slice())?;
    out.put(b"(")?;
    out.put(program.name.bytes())?;
    out.put(b"void ")
}

// The parameters and then the arrays, with commas between them.
fn print_parameters(out: &mut Ahead, params: &[Name], arrays: &[Array]) -> Result<(), AllocError>
    ensures { OnOk result (out.new ≡ joined (codes ", ") (map spec.param_text params.now ++ map array_text arrays.now) ++ out.old) }
{
    if params.is_empty() {
        return print_arrays(out, arrays);
    }
    print_further_arrays(out, arrays)?;
    print_further_params(out, &params[1..])?;
    print_param(out, &params[0])
}

fn print_arrays(out: &mut Ahead, arrays: &[Array]) -> Result<(), AllocError>
    ensures { OnOk result (out.new ≡ joined (codes ", ") (map array_text arrays.now) ++ out.old) }
{
    if arrays.is_empty() {
        return Ok(());
    }
    print_further_arrays(out, &arrays[1..])?;
    print_array(out, &arrays[0])
}

// Arrays, each with a comma before it.
fn print_further_arrays(out: &mut Ahead, arrays: &[Array]) -> Result<(), AllocError>
    ensures { OnOk result (out.new ≡ followed (codes ", ") (map array_text arrays.now) ++ out.old) }
{
    let mut at = arrays.len();
    while at > 0 {
        at -= 1;
        print_array(out, &arrays[at])?;
        out.put(b", ")?;
    }
    Ok(())
}

// Parameters, each with a comma before it.
fn print_further_params(out: &mut Ahead, params: &[Name]) -> Result<(), AllocError>
    ensures { OnOk result (out.new ≡ followed (codes ", ") (map spec.param_text params.now) ++ out.old) }
{
    let mut at = params.len();
    while at > 0 {
        at -= 1;
        print_param(out, &params[at])?;
        out.put(b", ")?;
    }
    Ok(())
}

fn print_param(out: &mut Ahead, name: &Name) -> Result<(), AllocError>
    ensures { OnOk result (out.new ≡ spec.param_text name.now ++ out.old) }
{
    out.put(name.bytes())?;
    out.put(b"int64_t ")
}

fn print_array(out: &mut Ahead, array: &Array) -> Result<(), AllocError>
    ensures { OnOk result (out.new ≡ array_text array.now ++ out.old) }
{
    print_extents(out, array.extents.as_slice())?;
    out.put(array.name.bytes())?;
    out.put(type_of(array.kind))
}

fn type_of(kind: Kind) -> &'static [u8]
    ensures { result.now ≡ spec.type_text kind }
{
    match kind {
        Kind::Number => b"uint64_t ",
        Kind::Position => b"int64_t ",
    }
}

// Extents in brackets.
fn print_extents(out: &mut Ahead, extents: &[Index]) -> Result<(), AllocError>
    ensures { OnOk result (out.new ≡ spec.extents_text (map spec.extent_text extents.now) ++ out.old) }
{
    let mut at = extents.len();
    while at > 0 {
        at -= 1;
        print_extent(out, &extents[at])?;
    }
    Ok(())
}

fn print_extent(out: &mut Ahead, extent: &Index) -> Result<(), AllocError>
    ensures { OnOk result (out.new ≡ spec.extent_text extent.now ++ out.old) }
{
    out.put(b"]")?;
    print_index(out, extent)?;
    out.put(b"[")
}

fn print_sections(
    alloc: Global,
    out: &mut Ahead,
    inspector: &[Stmt],
    executor: &[Stmt],
) -> Result<(), AllocError>
    ensures { OnOk result (out.new ≡ spec.sections inspector.now executor.now ++ out.old) }
{
    print_block(alloc, out, executor, b"  ")?;
    if inspector.is_empty() {
        return Ok(());
    }
    out.put(b"#pragma sparse executor\n")?;
    print_block(alloc, out, inspector, b"  ")?;
    out.put(b"#pragma sparse inspector\n")
}

fn print_all(alloc: Global, program: &Program) -> Result<Text, AllocError>
    ensures { IfOk result (λ text. text ≡ program_text program.now) }
{
    let mut out = Ahead::new(alloc);
    out.put(b"}\n")?;
    print_sections(
        alloc,
        &mut out,
        program.inspector.as_slice(),
        program.executor.as_slice(),
    )?;
    print_header(&mut out, program)?;
    print_matrices(&mut out, program.matrices.as_slice())?;
    print_lines(&mut out, prelude_lines())?;
    out.into_text(alloc)
}

/// The text of a program.
pub fn print_program(alloc: Global, program: &Program) -> Result<Text, NoMemory>
    ensures { IfOk result (λ text. text ≡ program_text program.now) }
{
    Ok(print_all(alloc, program)?)
}
