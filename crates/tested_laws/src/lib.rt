//! Laws of tested commands: from what the code's test answers to the order that the moves keep.
#![tactic(auto)]

ghost use Rattle.tested_laws.specs.Testing.{MovesAreTested, NothingMadeHasSmallRanges, TestFindsNoneChanges, TestFindsNoneKeepsEffect};
ghost use Rattle.tested_laws.specs.Shifted.{ShiftedCommand};

/// Of each move that plain pieces make, the test has what the law of the test asks.
pub fn moves_are_tested()
    ensures { MovesAreTested }
{}

/// Before any command has made an array, the numbers of value ranges are within the limit of set work.
pub fn nothing_made_has_small_ranges()
    ensures { NothingMadeHasSmallRanges }
{}

/// Where the test of a command finds no dependence, no two conflicting instances change their order.
pub fn test_finds_none_changes()
    ensures { TestFindsNoneChanges }
{}

/// And the new statements have the effect of the old ones on all arrays.
pub fn test_finds_none_keeps_effect()
    ensures { TestFindsNoneKeepsEffect }
{}

/// A loop that is shifted by five: what the code makes of it, what its test finds, and the order that it keeps.
pub fn shifted_command()
    ensures { ShiftedCommand }
{}
