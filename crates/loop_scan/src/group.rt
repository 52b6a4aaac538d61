// Statements that share a loop.
ghost use Rattle.std.specs.Prelude.{◌≤◌, ◌<◌, length, IsTrue};
ghost use Rattle.loop_scan.specs.Groups as spec;

use nest_core::shares_loop;
use nest_tree::Nest;

/// A loop at a level around the statements from one number to below another.
#[derive(Clone, Copy)]
pub struct Group {
    pub from: usize,
    pub to: usize,
    pub level: usize,
}

/// Whether a statement has a loop at a level in common with another.
fn is_in(level: usize, first: &Nest, nest: &Nest) -> bool
    ensures { IsTrue result → level ≤ length nest.now.levels }
{
    level <= nest.levels.len() && shares_loop(level, first, nest)
}

/// The end of the statements from `at` on that share the loop at a level with the one there.
pub fn group_end(nests: &[Nest], at: usize, to: usize, level: usize) -> usize
    requires low { at < to }
    requires high { to ≤ length nests.now }
    requires level { spec.HasLevel nests.now level at }
    ensures low { at < result }
    ensures high { result ≤ to }
    ensures deep { spec.HaveLevel nests.now level at result }
{
    for next in at + 1..to {
        if !is_in(level, &nests[at], &nests[next]) {
            return next;
        }
    }
    to
}
