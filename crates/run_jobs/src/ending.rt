// How a command ends early.
ghost use Rattle.std.specs.Prelude.{◌≡◌};
ghost use Rattle.run_jobs.specs.Counts.{outcome_of, outcome_of_run, outcome_of_stop};

use chill_base::{Stop, Unread};
use outcomes::{Outcome, Refusal};
use text_runs::RunStop;

/// The outcome where a file wasn't read whole.
pub fn unread(file: u8, why: Unread) -> Outcome
    ensures { result ≡ outcome_of file why }
{
    match why {
        Unread::Fault => Outcome::ReadFault { file },
        Unread::Long => Outcome::Refused(Refusal::FileLong { file }),
        Unread::NoMemory => Outcome::NoMemory,
    }
}

/// The outcome where a layer refused, or found no memory.
pub fn stopped(stop: Stop<Refusal>) -> Outcome
    ensures { result ≡ outcome_of_stop stop }
{
    match stop {
        Stop::Refused(refusal) => Outcome::Refused(refusal),
        Stop::NoMemory => Outcome::NoMemory,
    }
}

/// The outcome where a traced run ended early.
pub fn run_stopped(stop: RunStop) -> Outcome
    ensures { result ≡ outcome_of_run stop }
{
    match stop {
        RunStop::Refused(refusal) => Outcome::Refused(refusal),
        RunStop::WriteFault => Outcome::WriteFault,
        RunStop::NoMemory => Outcome::NoMemory,
    }
}
