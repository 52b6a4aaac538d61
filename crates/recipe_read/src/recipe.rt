// A recipe: lines that are empty, comments or commands.
ghost use Rattle.std.specs.Prelude.{◌≡◌, ◌+◌, ◌≤◌, ◌<◌, ◌^◌, ◌++◌, length, drop, IfOk, true, false};
ghost use Rattle.recipe_read.specs.Recipe as spec;

use crate::command::Command;
use crate::commands::read_command;
use crate::cursor::{BadLine, Class, Cursor, run_len};
use chill_base::{List, Stop};
use std::alloc::Global;

/// Why a text is no recipe.
#[derive(Clone, Copy, Debug, PartialEq, Eq, Drop)]
pub enum RecipeFault {
    /// The first line, counted from 1, that is neither empty nor a comment nor a command.
    Line { number: usize },
    /// There are so many commands.
    Limit { count: usize },
}

/// The greatest count of commands.
const MOST_COMMANDS: usize = 64;

// What the line says: nothing, or a command.
#[tactic(auto, unfolding(crate::specs::Recipe::line))]
fn read_line(alloc: Global, line: &[u8]) -> Result<Option<Command>, Stop<BadLine>>
    ensures { spec.Says (spec.line line.now) result }
{
    if line.is_empty() || line[0] == b'#' {
        return Ok(None);
    }
    let mut cursor = Cursor::new(line);
    let command = read_command(alloc, &mut cursor)?;
    if cursor.is_at_end() {
        Ok(Some(command))
    } else {
        Err(Stop::Refused(BadLine))
    }
}

// Counts the line's command, and keeps it where it is one of the first.
#[tactic(auto, unfolding(crate::specs::Recipe::is_bad, crate::specs::Recipe::said))]
fn gather(
    alloc: Global,
    line: &[u8],
    commands: &mut List<Command>,
    count: usize,
) -> Result<usize, Stop<BadLine>>
    requires { count < 2 ^ 63 }
    ensures counted { IfOk result (λ n. n ≡ count + length (spec.said line.now)) }
    ensures kept { IfOk result (λ n. n ≤ 64 → commands.new ≡ commands.old ++ spec.said line.now) }
    ensures good { IfOk result (λ _. spec.is_bad line.now ≡ false) }
    ensures bad { spec.IsRefused result → spec.is_bad line.now ≡ true }
{
    let Some(command) = read_line(alloc, line)? else {
        return Ok(count);
    };
    if count < MOST_COMMANDS {
        commands.push(command)?;
    }
    Ok(count + 1)
}

// What comes behind the line of this length at the front, and its line feed.
fn behind_line(text: &[u8], len: usize) -> &[u8]
    ensures { result.now ≡ drop (len + 1) text.now }
{
    if len < text.len() {
        &text[len + 1..]
    } else {
        &[]
    }
}

/// Reads a recipe. A line ends at a line feed, which the last may lack.
pub fn read_recipe(alloc: Global, text: &[u8]) -> Result<List<Command>, Stop<RecipeFault>>
    ensures { spec.Answers (spec.recipe text.now) result }
{
    let mut commands = List::new(alloc);
    let (mut count, mut number) = (0, 1);
    let mut rest = text;
    while !rest.is_empty() {
        let len = run_len(rest, Class::InLine);
        match gather(alloc, &rest[..len], &mut commands, count) {
            Ok(counted) => count = counted,
            Err(Stop::Refused(BadLine)) => {
                return Err(Stop::Refused(RecipeFault::Line { number }));
            }
            Err(Stop::NoMemory) => return Err(Stop::NoMemory),
        }
        rest = behind_line(rest, len);
        number += 1;
    }
    if count > MOST_COMMANDS {
        return Err(Stop::Refused(RecipeFault::Limit { count }));
    }
    Ok(commands)
}
