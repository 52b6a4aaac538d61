// How a call ends.
ghost use Rattle.std.specs.Prelude.{◌≡◌};
ghost use Rattle.outcomes.specs.Lines.{status_of};

use c_judge::ProgramFault;
use c_run::RunFault;
use csr_data::ValuesFault;
use nest_tree::CommandFault;
use recipe_read::RecipeFault;
use scan_forms::ScanFault;
use source_limits::SourceFault;
use token_places::TooFew;

/// How a call ended.
#[derive(PartialEq, Eq, Drop)]
pub enum Outcome {
    /// All of the text was written.
    Done,
    /// A file's content is refused, or what it asks for.
    Refused(Refusal),
    /// The words are those of no command.
    Usage,
    /// That file of the command, counted from 1, couldn't be read.
    ReadFault { file: u8 },
    /// A front of the text was written, and then writing failed.
    WriteFault,
    NoMemory,
}

/// Why a call is refused.
#[derive(PartialEq, Eq, Drop)]
pub enum Refusal {
    /// The file is longer than 67,108,864 bytes.
    FileLong { file: u8 },
    Recipe(RecipeFault),
    Program(ProgramFault),
    /// The program of the source isn't accepted.
    Source(SourceFault),
    /// A command of the recipe, counted from 1, is refused.
    Command { number: usize, fault: CommandFault },
    /// The statements can't be written as loops.
    Scan(ScanFault),
    Values(ValuesFault),
    /// The run has a fault.
    Run(RunFault),
    /// The text has no token of the number that was asked for.
    Where(TooFew),
}

/// The exit status of an outcome.
pub fn status(outcome: &Outcome) -> u8
    ensures { result ≡ status_of outcome.now }
{
    match outcome {
        Outcome::Done => 0,
        Outcome::Refused(_) => 1,
        Outcome::Usage => 2,
        Outcome::ReadFault { .. } => 3,
        Outcome::WriteFault => 4,
        Outcome::NoMemory => 5,
    }
}
