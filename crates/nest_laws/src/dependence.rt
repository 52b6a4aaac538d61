// The dependence test of a command.
ghost use Rattle.nest_laws.specs.SystemLaws.{ExcludedSystemsKeepOrder, TestedCommandKeepsEffect};

/// Where all systems are excluded, each conflicting pair keeps its order.
pub fn excluded_systems_keep_order()
    ensures { ExcludedSystemsKeepOrder }
{}

/// A command all of whose systems are excluded leaves the effect on the arrays.
pub fn tested_command_keeps_effect()
    ensures { TestedCommandKeepsEffect }
{}
