//! Laws of pairs: the systems of the dependence test are met at the points of two statements.
#![tactic(auto)]

ghost use Rattle.pair_laws.specs.Pairs.{PairIsMet, SubscriptsAreMet, OrdersAreMet};
ghost use Rattle.pair_laws.specs.Candidates.{ExcludedHasNoInstances};
ghost use Rattle.pair_laws.specs.Levels.{LevelHasNoDependence};
ghost use Rattle.pair_laws.specs.Changes.{NoneOpenNoneChanges, TestKeepsEffect};
ghost use Rattle.pair_laws.specs.Examples.{SettingLoop};
ghost use Rattle.pair_laws.specs.Shifted.{ShiftedLoop};

/// The rows of a pair's system that speak of no order are met at points of both statements.
pub fn pair_is_met()
    ensures { PairIsMet }
{}

/// So are the rows that two accesses name one cell, where they do.
pub fn subscripts_are_met()
    ensures { SubscriptsAreMet }
{}

/// So are the rows of an old and of a new order, where the level values have it.
pub fn orders_are_met()
    ensures { OrdersAreMet }
{}

/// Where a candidate is excluded, no two instances name one cell and change their order as it says.
pub fn excluded_has_no_instances()
    ensures { ExcludedHasNoInstances }
{}

/// Where no candidate of a level is open, no two instances that differ first there name one cell by conflicting accesses.
pub fn level_has_no_dependence()
    ensures { LevelHasNoDependence }
{}

/// Where the test of a command finds no dependence, no two conflicting instances change their order.
pub fn none_open_none_changes()
    ensures { NoneOpenNoneChanges }
{}

/// Where the test of a command finds no dependence, the effect on all arrays stays.
pub fn test_keeps_effect()
    ensures { TestKeepsEffect }
{}

/// The test of the level of a loop that sets an array.
pub fn setting_loop()
    ensures { SettingLoop }
{}

/// The test of a loop that is shifted, and the order that it keeps.
pub fn shifted_loop()
    ensures { ShiftedLoop }
{}
