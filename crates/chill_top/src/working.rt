// `work SEED SIZE`.
ghost use Rattle.std.specs.Prelude.{◌≢◌, ◌≤◌};
ghost use Rattle.chill_base.specs.Outside.{Wrote};
ghost use Rattle.chill_top.specs.Answers.{WorkAnswer};
ghost use Rattle.chill_top.specs.Working.{OutCounts};

use chill_base::{Sink, write_all};
use measured_run::work;
use outcomes::Outcome;
use run_jobs::stopped;
use std::alloc::Global;

/// Makes data, runs the program of the block recipe on them, and writes the summary.
pub fn run_work<O: Sink>(alloc: Global, seed: u32, size: u32, out: &mut O) -> Outcome
    requires seed { seed ≤ 2147483647 }
    requires size { (1 ≤ size) × (size ≤ 65536) }
    ensures answer { WorkAnswer size (O.state out.old) (O.state out.new) result }
    ensures counts { OutCounts (O.state out.old) (O.state out.new) result }
{
    let text = match work(alloc, seed, size) {
        Ok(text) => text,
        Err(stop) => return stopped(stop),
    };
    match write_all(out, text.as_slice()) {
        Ok(()) => Outcome::Done,
        Err(_) => Outcome::WriteFault,
    }
}
