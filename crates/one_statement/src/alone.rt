// Statements that are alone in a loop.
ghost use Rattle.std.specs.Prelude.{◌≡◌, not};
ghost use Rattle.one_statement.specs.Alone.{any_shares};

use nest_core::shares_loop;
use nest_tree::Nest;

/// Whether no other statement shares the loop at the level with this one, which has that number.
pub fn is_alone(nests: &[Nest], statement: usize, level: usize, nest: &Nest) -> bool
    ensures { result ≡ not (any_shares 0 statement level nest.now nests.now) }
{
    for other in 0..nests.len() {
        let shares = shares_loop(level, nest, &nests[other]);
        if shares && other != statement {
            return false;
        }
    }
    true
}
