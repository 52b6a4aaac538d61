// Data expressions.
ghost use Rattle.c_grammar.specs.ReadData as spec;
ghost use Rattle.c_loops.specs.Reads.{Reads};

use crate::halt::Halt;
use crate::index::subscripts;
use c_tokens::{Sign, Token, Tokens};
use c_tree::{Cell, Expr};
use chill_base::{Boxed, Name};
use std::alloc::Global;

/// The longest data expression at the front, where so many brackets may still be opened.
#[cycle(value)]
#[tactic(auto, using(crate::proofs::DataParts::plus_read, crate::proofs::DataParts::minus_read, crate::proofs::DataParts::plus_refused, crate::proofs::DataParts::minus_refused, crate::proofs::DataParts::plus_less, crate::proofs::DataParts::minus_less, crate::proofs::DataParts::parts_end), unfolding(c_grammar::specs::ReadData::sum))]
pub fn value(alloc: Global, tokens: &mut Tokens<'_>, brackets: u16) -> Result<Expr, Halt>
    ensures { Reads (spec.value brackets tokens.old) result tokens.new }
{
    let mut left = part(alloc, tokens, brackets)?;
    'parts: loop {
        if tokens.sees(Sign::Plus) {
            tokens.skip();
            let right = part(alloc, tokens, brackets)?;
            left = Expr::Plus(Boxed::new(alloc, left)?, Boxed::new(alloc, right)?);
        } else if tokens.sees(Sign::Minus) {
            tokens.skip();
            let right = part(alloc, tokens, brackets)?;
            left = Expr::Minus(Boxed::new(alloc, left)?, Boxed::new(alloc, right)?);
        } else {
            return Ok(left);
        }
    }
}

#[cycle(value)]
#[tactic(auto, using(crate::proofs::DataParts::times_read, crate::proofs::DataParts::times_refused, crate::proofs::DataParts::times_less, crate::proofs::DataParts::factors_end), unfolding(c_grammar::specs::ReadData::part))]
fn part(alloc: Global, tokens: &mut Tokens<'_>, brackets: u16) -> Result<Expr, Halt>
    ensures { Reads (spec.part (spec.room brackets) tokens.old) result tokens.new }
{
    let mut left = factor(alloc, tokens, brackets)?;
    'factors: while tokens.sees(Sign::Star) {
        tokens.skip();
        let right = factor(alloc, tokens, brackets)?;
        left = Expr::Times(Boxed::new(alloc, left)?, Boxed::new(alloc, right)?);
    }
    Ok(left)
}

#[cycle(value)]
#[tactic(auto, unfolding(c_grammar::specs::ReadData::factor))]
fn factor(alloc: Global, tokens: &mut Tokens<'_>, brackets: u16) -> Result<Expr, Halt>
    ensures { Reads (spec.factor (spec.room brackets) tokens.old) result tokens.new }
{
    let Some(token) = tokens.peek() else {
        return Err(Halt::Unexpected);
    };
    match token {
        Token::Name(name) => cell(alloc, tokens, brackets, name),
        Token::Number(number) => {
            tokens.skip();
            Ok(Expr::Const(number))
        }
        _ => group(alloc, tokens, brackets),
    }
}

// A cell, whose name comes next.
#[tactic(auto, using(crate::proofs::Rooms::no_data_room, crate::proofs::Rooms::data_room_inside), unfolding(c_grammar::specs::ReadData::cell))]
fn cell(alloc: Global, tokens: &mut Tokens<'_>, brackets: u16, name: Name) -> Result<Expr, Halt>
    ensures { Reads (spec.named (spec.room brackets) name tokens.old) result tokens.new }
{
    if brackets == 0 {
        return Err(Halt::Unexpected);
    }
    tokens.skip();
    let at = subscripts(alloc, tokens, brackets - 1)?;
    Ok(Expr::At(Cell { array: name, at }))
}

#[cycle(value)]
#[tactic(auto, using(crate::proofs::Rooms::no_data_room, crate::proofs::Rooms::data_room_inside), unfolding(c_grammar::specs::ReadData::group))]
fn group(alloc: Global, tokens: &mut Tokens<'_>, brackets: u16) -> Result<Expr, Halt>
    ensures { Reads (spec.in_room spec.group (spec.room brackets) tokens.old) result tokens.new }
{
    if brackets == 0 {
        return Err(Halt::Unexpected);
    }
    tokens.expect(Sign::Open)?;
    let e = value(alloc, tokens, brackets - 1)?;
    tokens.expect(Sign::Close)?;
    Ok(e)
}
