// Matrices, parameters and arrays.
ghost use Rattle.std.specs.Prelude.{◌≡◌};
ghost use Rattle.c_grammar.specs.ReadProgram as spec;
ghost use Rattle.c_loops.specs.Reads.{Reads, ReadsInto};

use crate::halt::Halt;
use crate::index::subscript;
use crate::words::{name, word};
use c_grammar::Signature;
use c_tokens::{Sign, Tokens};
use c_tree::{Array, Index, Kind, Matrix};
use chill_base::{List, Name};
use std::alloc::Global;

#[tactic(auto, unfolding(c_grammar::specs::ReadProgram::further_name))]
fn further_name(tokens: &mut Tokens<'_>) -> Result<Name, Halt>
    ensures { Reads (spec.further_name tokens.old) result tokens.new }
{
    tokens.expect(Sign::Comma)?;
    name(tokens)
}

#[tactic(auto, unfolding(c_grammar::specs::ReadProgram::matrix, c_grammar::specs::ReadProgram::names))]
fn matrix(tokens: &mut Tokens<'_>) -> Result<Matrix, Halt>
    ensures { Reads (spec.matrix tokens.old) result tokens.new }
{
    tokens.expect(Sign::Pragma)?;
    word(tokens, b"sparse")?;
    word(tokens, b"csr")?;
    tokens.expect(Sign::Open)?;
    let index = name(tokens)?;
    let col = further_name(tokens)?;
    let value = further_name(tokens)?;
    let rows = further_name(tokens)?;
    let cols = further_name(tokens)?;
    let count = further_name(tokens)?;
    tokens.expect(Sign::Close)?;
    Ok(Matrix {
        index,
        col,
        value,
        rows,
        cols,
        count,
    })
}

/// The matrices at the front, if any.
#[tactic(auto, using(crate::proofs::Lists::matrix_read, crate::proofs::Lists::matrix_refused, crate::proofs::Lists::matrix_less, crate::proofs::Lists::matrices_end))]
pub fn matrices(alloc: Global, tokens: &mut Tokens<'_>) -> Result<List<Matrix>, Halt>
    ensures { Reads (spec.matrices tokens.old) result tokens.new }
{
    let mut found = List::new(alloc);
    'matrices: while tokens.sees(Sign::Pragma) {
        let further = matrix(tokens)?;
        found.push(further)?;
    }
    Ok(found)
}

// One to three extents.
#[tactic(auto, unfolding(c_grammar::specs::ReadProgram::extents, c_grammar::specs::ReadProgram::second_extent, c_grammar::specs::ReadProgram::third_extent))]
fn extents(alloc: Global, tokens: &mut Tokens<'_>, brackets: u16) -> Result<List<Index>, Halt>
    ensures { Reads (spec.extents brackets tokens.old) result tokens.new }
{
    let mut found = List::new(alloc);
    let first = subscript(alloc, tokens, brackets)?;
    found.push(first)?;
    if !tokens.sees(Sign::OpenSquare) {
        return Ok(found);
    }
    let second = subscript(alloc, tokens, brackets)?;
    found.push(second)?;
    if !tokens.sees(Sign::OpenSquare) {
        return Ok(found);
    }
    let third = subscript(alloc, tokens, brackets)?;
    found.push(third)?;
    Ok(found)
}

// One parameter or array more. Behind an array no plain parameter stands.
#[tactic(auto, unfolding(c_grammar::specs::ReadProgram::parameter, c_grammar::specs::ReadProgram::position, c_grammar::specs::ReadProgram::positions, c_grammar::specs::ReadProgram::numbers))]
fn parameter(
    alloc: Global,
    tokens: &mut Tokens<'_>,
    brackets: u16,
    found: &mut Signature,
) -> Result<(), Halt>
    ensures { ReadsInto (spec.parameter brackets found.old tokens.old) result found.new tokens.new }
{
    if tokens.sees(Sign::Int64) {
        tokens.skip();
        let name = name(tokens)?;
        if !tokens.sees(Sign::OpenSquare) && found.arrays.is_empty() {
            found.params.push(name)?;
            return Ok(());
        }
        let mut extents = List::new(alloc);
        let only = subscript(alloc, tokens, brackets)?;
        extents.push(only)?;
        found.arrays.push(Array {
            name,
            kind: Kind::Position,
            extents,
        })?;
        return Ok(());
    }
    tokens.expect(Sign::Uint64)?;
    let name = name(tokens)?;
    let extents = extents(alloc, tokens, brackets)?;
    found.arrays.push(Array {
        name,
        kind: Kind::Number,
        extents,
    })?;
    Ok(())
}

/// One or more parameters and arrays, with commas.
#[tactic(auto, using(crate::proofs::Lists::parameter_read, crate::proofs::Lists::parameter_refused, crate::proofs::Lists::parameter_less, crate::proofs::Lists::parameters_end), unfolding(c_grammar::specs::ReadProgram::parameters))]
pub fn parameters(alloc: Global, tokens: &mut Tokens<'_>, brackets: u16) -> Result<Signature, Halt>
    ensures { Reads (spec.parameters brackets tokens.old) result tokens.new }
{
    let mut found = Signature {
        params: List::new(alloc),
        arrays: List::new(alloc),
    };
    parameter(alloc, tokens, brackets, &mut found)?;
    'parameters: while tokens.sees(Sign::Comma) {
        tokens.skip();
        parameter(alloc, tokens, brackets, &mut found)?;
    }
    Ok(found)
}
