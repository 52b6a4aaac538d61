// `run PROGRAM DATA` and `trace PROGRAM DATA`.
ghost use Rattle.std.specs.Prelude.{◌≢◌, Some};
ghost use Rattle.command_words.specs.Commands.{run};
ghost use Rattle.run_jobs.specs.Counts.{Does, Traces};
ghost use Rattle.run_jobs.specs.Running.{running};

use crate::ending::{run_stopped, stopped, unread};
use chill_base::{Files, Sink, read_whole, write_all};
use outcomes::Outcome;
use std::alloc::Global;
use text_runs::{read, run_by, trace_by};

/// Reads both files, and writes the text that the run leaves.
pub fn run_run<F: Files, O: Sink>(
    alloc: Global,
    program: &str,
    input: &str,
    files: &mut F,
    out: &mut O,
) -> Outcome
    ensures does { Does running (Some (run program.now input.now)) program.now input.now (F.state files.old) (F.state files.new) (O.state out.old) (O.state out.new) result }
    ensures usage { result ≢ Outcome.Usage }
{
    let source = match read_whole(alloc, files, program) {
        Ok(text) => text,
        Err(why) => return unread(1, why),
    };
    let tree = match read(alloc, source.as_slice()) {
        Ok(tree) => tree,
        Err(stop) => return stopped(stop),
    };
    let values = match read_whole(alloc, files, input) {
        Ok(text) => text,
        Err(why) => return unread(2, why),
    };
    let text = match run_by(alloc, source.as_slice(), &tree, values.as_slice()) {
        Ok(text) => text,
        Err(stop) => return stopped(stop),
    };
    match write_all(out, text.as_slice()) {
        Ok(()) => Outcome::Done,
        Err(_) => Outcome::WriteFault,
    }
}

/// Reads both files, and writes the line of each assignment of the executor. Lines before a fault stay written.
pub fn run_trace<F: Files, O: Sink>(
    alloc: Global,
    program: &str,
    input: &str,
    files: &mut F,
    out: &mut O,
) -> Outcome
    ensures does { Traces program.now input.now (F.state files.old) (F.state files.new) (O.state out.old) (O.state out.new) result }
    ensures usage { result ≢ Outcome.Usage }
{
    let source = match read_whole(alloc, files, program) {
        Ok(text) => text,
        Err(why) => return unread(1, why),
    };
    let tree = match read(alloc, source.as_slice()) {
        Ok(tree) => tree,
        Err(stop) => return stopped(stop),
    };
    let values = match read_whole(alloc, files, input) {
        Ok(text) => text,
        Err(why) => return unread(2, why),
    };
    match trace_by(alloc, source.as_slice(), &tree, values.as_slice(), out) {
        Ok(()) => Outcome::Done,
        Err(stop) => run_stopped(stop),
    }
}
