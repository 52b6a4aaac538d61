//! The order of instances that commands keep without a test: each function here carries one law as its contract.
#![tactic(auto)]

ghost use Rattle.order_laws.specs.Others.{LeftStay, CommandsLeaveOthers, OthersOfCommandsStay};
ghost use Rattle.order_laws.specs.Skewing.{SkewChangesNone};
ghost use Rattle.order_laws.specs.Examples.{SplitLoop};

/// Two instances of statements that are left as they are don't change their order.
pub fn left_stay()
    ensures { LeftStay }
{}

/// The moves of each command leave the statements to which it doesn't apply as they are, in their order.
pub fn commands_leave_others()
    ensures { CommandsLeaveOthers }
{}

/// So two instances to which a command doesn't apply don't change their order.
pub fn others_of_commands_stay()
    ensures { OthersOfCommandsStay }
{}

/// `skew` changes the order of no two instances.
pub fn skew_changes_none()
    ensures { SkewChangesNone }
{}

/// A loop of two statements is split, and the statement behind it makes room.
pub fn split_loop()
    ensures { SplitLoop }
{}
