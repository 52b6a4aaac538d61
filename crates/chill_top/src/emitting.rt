// `emit RECIPE SOURCE`.
ghost use Rattle.std.specs.Prelude.{◌≢◌, Some};
ghost use Rattle.command_words.specs.Commands.{emit};
ghost use Rattle.run_jobs.specs.Counts.{Does};
ghost use Rattle.chill_top.specs.Emitting.{emitting};

use chill_base::{Files, Sink, read_whole, write_all};
use emission::{commands_of, emitted_by};
use outcomes::Outcome;
use run_jobs::{stopped, unread};
use std::alloc::Global;

/// Reads both files, and writes the text that is made of them.
pub fn run_emit<F: Files, O: Sink>(
    alloc: Global,
    recipe: &str,
    source: &str,
    files: &mut F,
    out: &mut O,
) -> Outcome
    ensures does { Does emitting (Some (emit recipe.now source.now)) recipe.now source.now (F.state files.old) (F.state files.new) (O.state out.old) (O.state out.new) result }
    ensures usage { result ≢ Outcome.Usage }
{
    let rules = match read_whole(alloc, files, recipe) {
        Ok(text) => text,
        Err(why) => return unread(1, why),
    };
    let commands = match commands_of(alloc, rules.as_slice()) {
        Ok(commands) => commands,
        Err(stop) => return stopped(stop),
    };
    let program = match read_whole(alloc, files, source) {
        Ok(text) => text,
        Err(why) => return unread(2, why),
    };
    let text = match emitted_by(
        alloc,
        rules.as_slice(),
        commands.as_slice(),
        program.as_slice(),
    ) {
        Ok(text) => text,
        Err(stop) => return stopped(stop),
    };
    match write_all(out, text.as_slice()) {
        Ok(()) => Outcome::Done,
        Err(_) => Outcome::WriteFault,
    }
}
