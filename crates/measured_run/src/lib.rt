//! The measured run: data are made, the block recipe is applied to a source, and the written program is run on the data.
#![tactic(auto)]

ghost use Rattle.std.specs.Prelude.{◌≡◌, Ok};
ghost use Rattle.recipe_read.specs.Recipe as recipes;
ghost use Rattle.measured_run.specs.Examples.{four_entries, one_block};
ghost use Rattle.measured_run.specs.Figures.{entries_of, figures};
ghost use Rattle.measured_run.specs.Recipe.{block_commands};

mod machine;
mod making;
mod summary;

pub use making::{RECIPE, SOURCE, work};

/// The figures of a worked matrix.
pub fn worked_figures()
    ensures entries { entries_of four_entries ≡ 4 }
    ensures figures { figures 2 4 one_block ≡ record { size = 2; entries = 4; blocks = 1; layout = 2666; sum = 1132841 } }
{}

/// The recipe is read, to four commands.
pub fn recipe_is_read()
    ensures { recipes.recipe RECIPE.now ≡ Ok block_commands }
{}
