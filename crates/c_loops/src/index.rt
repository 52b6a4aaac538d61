// Index expressions, and the subscripts of cells.
ghost use Rattle.std.specs.Prelude.{◌≡◌, IfOk};
ghost use Rattle.c_grammar.specs.ReadIndex as spec;
ghost use Rattle.c_grammar.specs.Reader.{many};
ghost use Rattle.c_loops.specs.Reads.{Reads};

use crate::halt::Halt;
use crate::words::{constant, divisor};
use c_tokens::{Sign, Token, Tokens};
use c_tree::{Cell, Index, Subscripts};
use chill_base::{Boxed, Name};
use std::alloc::{AllocError, Global};

/// The longest index expression at the front, where so many brackets may still be opened.
#[cycle(index)]
#[tactic(auto, unfolding(c_grammar::specs::ReadIndex::sum))]
pub fn index(alloc: Global, tokens: &mut Tokens<'_>, brackets: u16) -> Result<Index, Halt>
    ensures { Reads (spec.index brackets tokens.old) result tokens.new }
{
    let first = first_part(alloc, tokens, brackets)?;
    further_parts(alloc, tokens, brackets, first)
}

#[cycle(index)]
#[tactic(auto, unfolding(c_grammar::specs::ReadIndex::first_part))]
fn first_part(alloc: Global, tokens: &mut Tokens<'_>, brackets: u16) -> Result<Index, Halt>
    ensures { Reads (spec.first_part (spec.room brackets) tokens.old) result tokens.new }
{
    if !tokens.sees(Sign::Minus) {
        return part(alloc, tokens, brackets);
    }
    tokens.skip();
    let e = part(alloc, tokens, brackets)?;
    Ok(Index::Neg(Boxed::new(alloc, e)?))
}

// The parts after `+` and `-`.
#[cycle(index)]
#[tactic(auto, using(crate::proofs::Parts::plus_read, crate::proofs::Parts::minus_read, crate::proofs::Parts::plus_refused, crate::proofs::Parts::minus_refused, crate::proofs::Parts::plus_less, crate::proofs::Parts::minus_less, crate::proofs::Parts::parts_end))]
fn further_parts(
    alloc: Global,
    tokens: &mut Tokens<'_>,
    brackets: u16,
    first: Index,
) -> Result<Index, Halt>
    ensures { Reads (many (spec.next_part (spec.room brackets)) first tokens.old) result tokens.new }
{
    let mut left = first;
    'parts: loop {
        if tokens.sees(Sign::Plus) {
            tokens.skip();
            let right = part(alloc, tokens, brackets)?;
            left = Index::Plus(Boxed::new(alloc, left)?, Boxed::new(alloc, right)?);
        } else if tokens.sees(Sign::Minus) {
            tokens.skip();
            let right = part(alloc, tokens, brackets)?;
            left = Index::Minus(Boxed::new(alloc, left)?, Boxed::new(alloc, right)?);
        } else {
            return Ok(left);
        }
    }
}

fn times(alloc: Global, number: i64, e: Index) -> Result<Index, AllocError>
    ensures { IfOk result (λ product. product ≡ Index.Times number e) }
{
    Ok(Index::Times(number, Boxed::new(alloc, e)?))
}

#[cycle(index)]
#[tactic(auto, unfolding(c_grammar::specs::ReadIndex::part, c_grammar::specs::ReadIndex::after_number, c_grammar::specs::ReadIndex::after_factor))]
fn part(alloc: Global, tokens: &mut Tokens<'_>, brackets: u16) -> Result<Index, Halt>
    ensures { Reads (spec.part (spec.room brackets) tokens.old) result tokens.new }
{
    match tokens.peek() {
        Some(Token::Number(_)) => {
            let number = constant(tokens)?;
            if !tokens.sees(Sign::Star) {
                return Ok(Index::Const(number));
            }
            tokens.skip();
            let e = factor(alloc, tokens, brackets)?;
            Ok(times(alloc, number, e)?)
        }
        _ => {
            let e = factor(alloc, tokens, brackets)?;
            if !tokens.sees(Sign::Star) {
                return Ok(e);
            }
            tokens.skip();
            let number = constant(tokens)?;
            Ok(times(alloc, number, e)?)
        }
    }
}

#[cycle(index)]
#[tactic(auto, unfolding(c_grammar::specs::ReadIndex::factor))]
fn factor(alloc: Global, tokens: &mut Tokens<'_>, brackets: u16) -> Result<Index, Halt>
    ensures { Reads (spec.factor (spec.room brackets) tokens.old) result tokens.new }
{
    let Some(token) = tokens.peek() else {
        return Err(Halt::Unexpected);
    };
    match token {
        Token::Name(name) => {
            tokens.skip();
            named(alloc, tokens, brackets, name)
        }
        Token::Number(_) => {
            let number = constant(tokens)?;
            Ok(Index::Const(number))
        }
        _ => bracketed(alloc, tokens, brackets),
    }
}

// What stands behind a name.
#[cycle(index)]
#[tactic(auto, using(crate::proofs::Rooms::no_room, crate::proofs::Rooms::room_inside), unfolding(c_grammar::specs::ReadIndex::named, c_grammar::specs::ReadIndex::cell))]
fn named(alloc: Global, tokens: &mut Tokens<'_>, brackets: u16, name: Name) -> Result<Index, Halt>
    ensures { Reads (spec.named (spec.room brackets) name tokens.old) result tokens.new }
{
    if !tokens.sees(Sign::OpenSquare) {
        return Ok(Index::Var(name));
    }
    if brackets == 0 {
        return Err(Halt::Unexpected);
    }
    let at = subscripts(alloc, tokens, brackets - 1)?;
    Ok(Index::At(Cell { array: name, at }))
}

// What needs a bracket.
#[cycle(index)]
#[tactic(auto, using(crate::proofs::Rooms::no_room, crate::proofs::Rooms::room_inside))]
fn bracketed(alloc: Global, tokens: &mut Tokens<'_>, brackets: u16) -> Result<Index, Halt>
    ensures { Reads (spec.in_room spec.bracketed (spec.room brackets) tokens.old) result tokens.new }
{
    if brackets == 0 {
        return Err(Halt::Unexpected);
    }
    by_word(alloc, tokens, brackets - 1)
}

// What begins with a bracket, or with a word before one. So many may still be opened in it.
#[cycle(index)]
#[tactic(auto, unfolding(c_grammar::specs::ReadIndex::bracketed))]
fn by_word(alloc: Global, tokens: &mut Tokens<'_>, inside: u16) -> Result<Index, Halt>
    ensures { Reads (spec.bracketed (spec.index inside) tokens.old) result tokens.new }
{
    if tokens.sees(Sign::Open) {
        return group(alloc, tokens, inside);
    }
    if tokens.sees(Sign::Min) {
        tokens.skip();
        let (left, right) = arguments(alloc, tokens, inside)?;
        return Ok(Index::Min(left, right));
    }
    if tokens.sees(Sign::Max) {
        tokens.skip();
        let (left, right) = arguments(alloc, tokens, inside)?;
        return Ok(Index::Max(left, right));
    }
    if tokens.sees(Sign::Floord) {
        tokens.skip();
        let (e, divisor) = division(alloc, tokens, inside)?;
        return Ok(Index::Floor(e, divisor));
    }
    if tokens.sees(Sign::Ceild) {
        tokens.skip();
        let (e, divisor) = division(alloc, tokens, inside)?;
        return Ok(Index::Ceil(e, divisor));
    }
    Err(Halt::Unexpected)
}

#[cycle(index)]
#[tactic(auto, unfolding(c_grammar::specs::ReadIndex::group))]
fn group(alloc: Global, tokens: &mut Tokens<'_>, inside: u16) -> Result<Index, Halt>
    ensures { Reads (spec.group (spec.index inside) tokens.old) result tokens.new }
{
    tokens.expect(Sign::Open)?;
    let e = index(alloc, tokens, inside)?;
    tokens.expect(Sign::Close)?;
    Ok(e)
}

// The two arguments of `min` and `max`.
#[cycle(index)]
#[tactic(auto, unfolding(c_grammar::specs::ReadIndex::arguments))]
fn arguments(
    alloc: Global,
    tokens: &mut Tokens<'_>,
    inside: u16,
) -> Result<(Boxed<Index>, Boxed<Index>), Halt>
    ensures { Reads (spec.arguments (spec.index inside) tokens.old) result tokens.new }
{
    tokens.expect(Sign::Open)?;
    let left = index(alloc, tokens, inside)?;
    tokens.expect(Sign::Comma)?;
    let right = index(alloc, tokens, inside)?;
    tokens.expect(Sign::Close)?;
    Ok((Boxed::new(alloc, left)?, Boxed::new(alloc, right)?))
}

// The arguments of `floord` and `ceild`.
#[cycle(index)]
#[tactic(auto, unfolding(c_grammar::specs::ReadIndex::division))]
fn division(
    alloc: Global,
    tokens: &mut Tokens<'_>,
    inside: u16,
) -> Result<(Boxed<Index>, i64), Halt>
    ensures { Reads (spec.division (spec.index inside) tokens.old) result tokens.new }
{
    tokens.expect(Sign::Open)?;
    let e = index(alloc, tokens, inside)?;
    tokens.expect(Sign::Comma)?;
    let number = divisor(tokens)?;
    tokens.expect(Sign::Close)?;
    Ok((Boxed::new(alloc, e)?, number))
}

/// One to three subscripts, in each of which so many brackets may still be opened.
#[cycle(index)]
#[tactic(auto, unfolding(c_grammar::specs::ReadIndex::subscripts, c_grammar::specs::ReadIndex::second_subscript, c_grammar::specs::ReadIndex::third_subscript))]
pub fn subscripts(alloc: Global, tokens: &mut Tokens<'_>, inside: u16) -> Result<Subscripts, Halt>
    ensures { Reads (spec.subscripts (spec.index inside) tokens.old) result tokens.new }
{
    let first = subscript(alloc, tokens, inside)?;
    if !tokens.sees(Sign::OpenSquare) {
        return Ok(Subscripts::One(Boxed::new(alloc, first)?));
    }
    let second = subscript(alloc, tokens, inside)?;
    if !tokens.sees(Sign::OpenSquare) {
        return Ok(Subscripts::Two(Boxed::new(alloc, first)?, Boxed::new(alloc, second)?));
    }
    let third = subscript(alloc, tokens, inside)?;
    Ok(Subscripts::Three(
        Boxed::new(alloc, first)?,
        Boxed::new(alloc, second)?,
        Boxed::new(alloc, third)?,
    ))
}

/// An index expression in square brackets.
#[cycle(index)]
#[tactic(auto, unfolding(c_grammar::specs::ReadIndex::subscript))]
pub fn subscript(alloc: Global, tokens: &mut Tokens<'_>, inside: u16) -> Result<Index, Halt>
    ensures { Reads (spec.subscript (spec.index inside) tokens.old) result tokens.new }
{
    tokens.expect(Sign::OpenSquare)?;
    let e = index(alloc, tokens, inside)?;
    tokens.expect(Sign::CloseSquare)?;
    Ok(e)
}
