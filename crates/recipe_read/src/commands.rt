// The commands of a recipe, each as one line writes it.
ghost use Rattle.std.specs.Prelude.{◌≡◌};
ghost use Rattle.recipe_read.specs.Commands as spec;
ghost use Rattle.recipe_read.specs.Cursor.{Reads, number, integer};

use crate::command::Command;
use crate::cursor::{BadLine, Cursor};
use crate::words::Verb;
use chill_base::{List, Name, Stop};
use std::alloc::Global;

// The levels behind those found, each after a comma.
fn further_levels(
    line: &mut Cursor<'_>,
    mut found: List<usize>,
) -> Result<List<usize>, Stop<BadLine>>
    ensures { Reads (spec.further number found line.old) result line.new }
{
    while line.takes(b',') {
        found.push(line.number()? as usize)?;
    }
    Ok(found)
}

// `[L,L]`, with at least one L.
#[tactic(auto, unfolding(crate::specs::Commands::levels, crate::specs::Commands::items))]
fn levels(alloc: Global, line: &mut Cursor<'_>) -> Result<List<usize>, Stop<BadLine>>
    ensures { Reads (spec.levels line.old) result line.new }
{
    line.expect(b'[')?;
    let first = line.number()?;
    let mut found = List::new(alloc);
    found.push(first as usize)?;
    let levels = further_levels(line, found)?;
    line.expect(b']')?;
    Ok(levels)
}

// The integers behind those found, each after a comma.
fn further_integers(line: &mut Cursor<'_>, mut found: List<i32>) -> Result<List<i32>, Stop<BadLine>>
    ensures { Reads (spec.further integer found line.old) result line.new }
{
    while line.takes(b',') {
        found.push(line.integer()?)?;
    }
    Ok(found)
}

// One integer or more, and the bracket behind them.
#[tactic(auto, unfolding(crate::specs::Commands::items))]
fn some_integers(alloc: Global, line: &mut Cursor<'_>) -> Result<List<i32>, Stop<BadLine>>
    ensures { Reads (spec.items integer line.old) result line.new }
{
    let first = line.integer()?;
    let mut found = List::new(alloc);
    found.push(first)?;
    let integers = further_integers(line, found)?;
    line.expect(b']')?;
    Ok(integers)
}

// `[Z]`, with any number of Z.
#[tactic(auto, unfolding(crate::specs::Commands::integers))]
fn integers(alloc: Global, line: &mut Cursor<'_>) -> Result<List<i32>, Stop<BadLine>>
    ensures { Reads (spec.integers line.old) result line.new }
{
    line.expect(b'[')?;
    if line.takes(b']') {
        return Ok(List::new(alloc));
    }
    some_integers(alloc, line)
}

// `(S`.
#[tactic(auto, unfolding(crate::specs::Commands::first))]
fn first(line: &mut Cursor<'_>) -> Result<u32, Stop<BadLine>>
    ensures { Reads (spec.first line.old) result line.new }
{
    line.expect(b'(')?;
    line.number()
}

// `,L`.
#[tactic(auto, unfolding(crate::specs::Commands::next))]
fn next(line: &mut Cursor<'_>) -> Result<u32, Stop<BadLine>>
    ensures { Reads (spec.next line.old) result line.new }
{
    line.expect(b',')?;
    line.number()
}

// `,N`.
#[tactic(auto, unfolding(crate::specs::Commands::next_name))]
fn next_name(line: &mut Cursor<'_>) -> Result<Name, Stop<BadLine>>
    ensures { Reads (spec.next_name line.old) result line.new }
{
    line.expect(b',')?;
    line.name()
}

#[tactic(auto, unfolding(crate::specs::Commands::permute))]
fn permute(alloc: Global, line: &mut Cursor<'_>) -> Result<Command, Stop<BadLine>>
    ensures { Reads (spec.permute line.old) result line.new }
{
    let statement = first(line)? as usize;
    line.expect(b',')?;
    let order = levels(alloc, line)?;
    line.expect(b')')?;
    Ok(Command::Permute { statement, order })
}

#[tactic(auto, unfolding(crate::specs::Commands::tile))]
fn tile(line: &mut Cursor<'_>) -> Result<Command, Stop<BadLine>>
    ensures { Reads (spec.tile line.old) result line.new }
{
    let statement = first(line)? as usize;
    let level = next(line)? as usize;
    let size = next(line)?;
    let outer = next(line)? as usize;
    line.expect(b')')?;
    Ok(Command::Tile {
        statement,
        level,
        size,
        outer,
    })
}

#[tactic(auto, unfolding(crate::specs::Commands::skew))]
fn skew(alloc: Global, line: &mut Cursor<'_>) -> Result<Command, Stop<BadLine>>
    ensures { Reads (spec.skew line.old) result line.new }
{
    let statement = first(line)? as usize;
    let level = next(line)? as usize;
    line.expect(b',')?;
    let coefs = integers(alloc, line)?;
    line.expect(b')')?;
    Ok(Command::Skew {
        statement,
        level,
        coefs,
    })
}

#[tactic(auto, unfolding(crate::specs::Commands::shift))]
fn shift(line: &mut Cursor<'_>) -> Result<Command, Stop<BadLine>>
    ensures { Reads (spec.shift line.old) result line.new }
{
    let statement = first(line)? as usize;
    let level = next(line)? as usize;
    line.expect(b',')?;
    let amount = line.integer()?;
    line.expect(b')')?;
    Ok(Command::Shift {
        statement,
        level,
        amount,
    })
}

#[tactic(auto, unfolding(crate::specs::Commands::fuse))]
fn fuse(line: &mut Cursor<'_>) -> Result<Command, Stop<BadLine>>
    ensures { Reads (spec.fuse line.old) result line.new }
{
    let first = first(line)? as usize;
    let second = next(line)? as usize;
    let level = next(line)? as usize;
    line.expect(b')')?;
    Ok(Command::Fuse {
        first,
        second,
        level,
    })
}

#[tactic(auto, unfolding(crate::specs::Commands::distribute))]
fn distribute(line: &mut Cursor<'_>) -> Result<Command, Stop<BadLine>>
    ensures { Reads (spec.distribute line.old) result line.new }
{
    let statement = first(line)? as usize;
    let level = next(line)? as usize;
    line.expect(b')')?;
    Ok(Command::Distribute { statement, level })
}

#[tactic(auto, unfolding(crate::specs::Commands::unroll))]
fn unroll(line: &mut Cursor<'_>) -> Result<Command, Stop<BadLine>>
    ensures { Reads (spec.unroll line.old) result line.new }
{
    let statement = first(line)? as usize;
    let level = next(line)? as usize;
    let factor = next(line)?;
    line.expect(b')')?;
    Ok(Command::Unroll {
        statement,
        level,
        factor,
    })
}

#[tactic(auto, unfolding(crate::specs::Commands::datacopy))]
fn datacopy(line: &mut Cursor<'_>) -> Result<Command, Stop<BadLine>>
    ensures { Reads (spec.datacopy line.old) result line.new }
{
    let statement = first(line)? as usize;
    let level = next(line)? as usize;
    let array = next_name(line)?;
    let copy = next_name(line)?;
    line.expect(b')')?;
    Ok(Command::Datacopy {
        statement,
        level,
        array,
        copy,
    })
}

#[tactic(auto, unfolding(crate::specs::Commands::make_dense))]
fn make_dense(line: &mut Cursor<'_>) -> Result<Command, Stop<BadLine>>
    ensures { Reads (spec.make_dense line.old) result line.new }
{
    let statement = first(line)? as usize;
    let level = next(line)? as usize;
    line.expect(b')')?;
    Ok(Command::MakeDense { statement, level })
}

#[tactic(auto, unfolding(crate::specs::Commands::compact))]
fn compact(line: &mut Cursor<'_>) -> Result<Command, Stop<BadLine>>
    ensures { Reads (spec.compact line.old) result line.new }
{
    let statement = first(line)? as usize;
    let level = next(line)? as usize;
    let name = next_name(line)?;
    line.expect(b')')?;
    Ok(Command::Compact {
        statement,
        level,
        name,
    })
}

#[tactic(auto, unfolding(crate::specs::Commands::compact_and_pad))]
fn compact_and_pad(line: &mut Cursor<'_>) -> Result<Command, Stop<BadLine>>
    ensures { Reads (spec.compact_and_pad line.old) result line.new }
{
    let statement = first(line)? as usize;
    let level = next(line)? as usize;
    line.expect(b',')?;
    let kind = line.layout()?;
    let name = next_name(line)?;
    line.expect(b')')?;
    Ok(Command::CompactAndPad {
        statement,
        level,
        kind,
        name,
    })
}

/// Takes a command from the very front of the line.
#[tactic(auto, unfolding(crate::specs::Commands::command))]
pub fn read_command(alloc: Global, line: &mut Cursor<'_>) -> Result<Command, Stop<BadLine>>
    ensures { Reads (spec.command line.old) result line.new }
{
    match line.command_word()? {
        Verb::Permute => permute(alloc, line),
        Verb::Tile => tile(line),
        Verb::Skew => skew(alloc, line),
        Verb::Shift => shift(line),
        Verb::Fuse => fuse(line),
        Verb::Distribute => distribute(line),
        Verb::Unroll => unroll(line),
        Verb::Datacopy => datacopy(line),
        Verb::MakeDense => make_dense(line),
        Verb::Compact => compact(line),
        Verb::CompactAndPad => compact_and_pad(line),
    }
}
