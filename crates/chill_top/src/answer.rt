// The top call.
ghost use Rattle.std.specs.Prelude.{◌≡◌, false, None, map, string_bytes};
ghost use Rattle.chill_base.specs.Outside.{TookFront};
ghost use Rattle.command_words.specs.Words.{are_words};
ghost use Rattle.command_words.specs.Commands.{command_of};
ghost use Rattle.outcomes.specs.Lines.{line_of};
ghost use Rattle.run_jobs.specs.Counts.{Counts};
ghost use Rattle.chill_top.specs.Answers.{Answers};
ghost use Rattle.chill_top.specs.Headline.{Headline, Completes};

use crate::emitting::run_emit;
use crate::working::run_work;
use chill_base::{Files, Sink};
use command_words::{Request, WordsFault, request_of};
use outcomes::{Outcome, say};
use run_jobs::{run_run, run_trace, run_where};
use std::alloc::Global;

/// Does what the words say, and writes a line on `err` for each outcome other than `Done`.
#[tactic(auto, using(crate::proofs::Headlines::headline, crate::proofs::Headlines::completes))]
pub fn chill<F: Files, O: Sink, E: Sink>(
    alloc: Global,
    words: &[String],
    files: &mut F,
    out: &mut O,
    err: &mut E,
) -> Outcome
    // Each answer has its cause.
    ensures answers { Answers (command_of (map string_bytes words.now)) (F.state files.old) (F.state files.new) (O.state out.old) (O.state out.new) result }
    // Where `emit` without commands is done on a source of the first form, what `out` took performs as the source does.
    ensures headline { Headline (command_of (map string_bytes words.now)) (F.state files.old) (O.state out.old) (O.state out.new) result }
    // Such a call is done, unless the outside fails or memory ends.
    ensures completes { Completes (command_of (map string_bytes words.now)) (F.state files.old) result }
    // Only words of no command are refused as such.
    ensures usage { result ≡ Outcome.Usage → command_of (map string_bytes words.now) ≡ None }
    // Other than three words, or an empty one or one that begins with `-`, take no memory.
    ensures no_words { are_words (map string_bytes words.now) ≡ false → result ≡ Outcome.Usage }
    // No count falls, and each fault of the outside has one that rose.
    ensures counts { Counts (command_of (map string_bytes words.now)) (F.state files.old) (F.state files.new) (O.state out.old) (O.state out.new) result }
    // The line of the outcome, as far as `err` takes it.
    ensures err { TookFront (E.state err.old) (line_of result) (E.state err.new) }
{
    let outcome = answer(alloc, words, files, out);
    say(err, &outcome);
    outcome
}

fn answer<F: Files, O: Sink>(alloc: Global, words: &[String], files: &mut F, out: &mut O) -> Outcome
    ensures answers { Answers (command_of (map string_bytes words.now)) (F.state files.old) (F.state files.new) (O.state out.old) (O.state out.new) result }
    ensures usage { result ≡ Outcome.Usage → command_of (map string_bytes words.now) ≡ None }
    ensures no_words { are_words (map string_bytes words.now) ≡ false → result ≡ Outcome.Usage }
    ensures counts { Counts (command_of (map string_bytes words.now)) (F.state files.old) (F.state files.new) (O.state out.old) (O.state out.new) result }
{
    match request_of(alloc, words) {
        Ok(Request::Emit { recipe, source }) => run_emit(alloc, recipe, source, files, out),
        Ok(Request::Run { program, data }) => run_run(alloc, program, data, files, out),
        Ok(Request::Trace { program, data }) => run_trace(alloc, program, data, files, out),
        Ok(Request::Work { seed, size }) => run_work(alloc, seed, size, out),
        Ok(Request::Where { text, token }) => run_where(alloc, text, token, files, out),
        Err(WordsFault::Usage) => Outcome::Usage,
        Err(WordsFault::NoMemory) => Outcome::NoMemory,
    }
}
