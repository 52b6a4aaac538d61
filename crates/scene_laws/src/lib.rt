//! What the rules and a valid input give to acceptance: each function here carries one law as its contract.
#![tactic(auto)]

ghost use Rattle.scene_laws.specs.Examples.{WorkedScene};
ghost use Rattle.scene_laws.specs.Inputs.{RulesNameCells, ValidInputIsScene, AcceptedIsFineOnInputs};
ghost use Rattle.scene_laws.specs.Ranged.{ValidInputIsRanged};
ghost use Rattle.scene_laws.specs.Rules.{RulesScopeNames};

/// The rules bring the names of an executor into scope.
pub fn rules_scope_names()
    ensures { RulesScopeNames }
{}

/// Each cell of an executor lies in an array with as many extents as the cell has subscripts.
pub fn rules_name_cells()
    ensures { RulesNameCells }
{}

/// A valid input keeps the ranges that acceptance counts on.
pub fn valid_input_is_scene()
    ensures { ValidInputIsScene }
{}

/// On a valid input parameters and extents are at least 0, and each cell of an index array lies in the range that systems say of it.
pub fn valid_input_is_ranged()
    ensures { ValidInputIsRanged }
{}

/// Nothing in an accepted executor has a fault on a valid input.
pub fn accepted_is_fine_on_inputs()
    ensures { AcceptedIsFineOnInputs }
{}

/// A source with a matrix, on a matrix of one row.
pub fn worked_scene()
    ensures { WorkedScene }
{}
