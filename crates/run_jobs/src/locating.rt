// `where TEXT TOKEN`.
ghost use Rattle.std.specs.Prelude.{◌≡◌, ◌≢◌, ◌≤◌};
ghost use Rattle.run_jobs.specs.Locating.{Locates, outcome_of_place};

use crate::ending::unread;
use chill_base::{Files, Sink, Stop, read_whole, write_all};
use outcomes::{Outcome, Refusal};
use std::alloc::Global;
use token_places::{TooFew, place_line};

/// The outcome where the text has no such token, or memory ended.
fn unplaced(stop: Stop<TooFew>) -> Outcome
    ensures { result ≡ outcome_of_place stop }
{
    match stop {
        Stop::Refused(few) => Outcome::Refused(Refusal::Where(few)),
        Stop::NoMemory => Outcome::NoMemory,
    }
}

/// Reads the file, and writes where its token of that number stands and how it is spelled.
pub fn run_where<F: Files, O: Sink>(
    alloc: Global,
    text: &str,
    token: u32,
    files: &mut F,
    out: &mut O,
) -> Outcome
    requires { 1 ≤ token }
    ensures does { Locates text.now token (F.state files.old) (F.state files.new) (O.state out.old) (O.state out.new) result }
    ensures usage { result ≢ Outcome.Usage }
{
    let bytes = match read_whole(alloc, files, text) {
        Ok(bytes) => bytes,
        Err(why) => return unread(1, why),
    };
    let line = match place_line(alloc, bytes.as_slice(), token as usize) {
        Ok(line) => line,
        Err(stop) => return unplaced(stop),
    };
    match write_all(out, line.as_slice()) {
        Ok(()) => Outcome::Done,
        Err(_) => Outcome::WriteFault,
    }
}
