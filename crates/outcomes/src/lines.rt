// The line of an outcome, written with no memory.
ghost use Rattle.std.specs.Prelude.{◌∷◌, [], codes};
ghost use Rattle.std.specs.Fmt.{decimal};
ghost use Rattle.chill_base.specs.Outside.{TookFront};
ghost use Rattle.outcomes.specs.Words.{joined};
ghost use Rattle.outcomes.specs.Lines.{line_of, refusal_line};

use crate::say_command::{say_command, say_scan};
use crate::say_program::{say_program, say_recipe, say_source};
use crate::say_run::{say_run, say_tokens, say_values};
use crate::words::Word::{Number, Text};
use crate::words::say_words;
use crate::{Outcome, Refusal};
use chill_base::Sink;

/// Writes the line of the outcome, as far as the sink takes it.
pub fn say<E: Sink>(err: &mut E, outcome: &Outcome)
    ensures { TookFront (E.state err.old) (line_of outcome.now) (E.state err.new) }
{
    match outcome {
        Outcome::Done => say_words(err, &[]),
        Outcome::Refused(refusal) => say_refusal(err, refusal),
        Outcome::Usage => say_words(
            err,
            &[
                Text("chill: usage: chill emit RECIPE SOURCE, run PROGRAM DATA, "),
                Text("trace PROGRAM DATA, work SEED SIZE, where TEXT TOKEN\n"),
            ],
        ),
        Outcome::ReadFault { file } => say_file(err, *file, ": read fault\n"),
        Outcome::WriteFault => say_words(err, &[Text("chill: write fault\n")]),
        Outcome::NoMemory => say_words(err, &[Text("chill: no memory\n")]),
    }
}

fn say_file<E: Sink>(err: &mut E, file: u8, behind: &str)
    ensures { TookFront (E.state err.old) (joined (codes "chill: file " ∷ decimal file ∷ behind.now ∷ [])) (E.state err.new) }
{
    say_words(
        err,
        &[Text("chill: file "), Number(u128::from(file)), Text(behind)],
    );
}

fn say_refusal<E: Sink>(err: &mut E, refusal: &Refusal)
    ensures { TookFront (E.state err.old) (refusal_line refusal.now) (E.state err.new) }
{
    match refusal {
        Refusal::FileLong { file } => say_file(err, *file, ": longer than 67108864 bytes\n"),
        Refusal::Recipe(fault) => say_recipe(err, *fault),
        Refusal::Program(fault) => say_program(err, fault),
        Refusal::Source(fault) => say_source(err, fault),
        Refusal::Command { number, fault } => say_command(err, *number, fault),
        Refusal::Scan(fault) => say_scan(err, *fault),
        Refusal::Values(fault) => say_values(err, fault),
        Refusal::Run(fault) => say_run(err, fault),
        Refusal::Where(few) => say_tokens(err, *few),
    }
}
