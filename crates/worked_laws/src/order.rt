// Places, their order, and lists that are in it.
ghost use Rattle.worked_laws.specs.Order.{OrderOfTwoStatements, OneSortedList, WeakerPremisesFail};

/// A statement in a loop, and one in a loop within it: places, what carries their order, and that a place tells its instance.
pub fn order_of_two_statements()
    ensures { OrderOfTwoStatements }
{}

/// A kernel's list is the one list with its members in order.
pub fn one_sorted_list()
    ensures { OneSortedList }
{}

/// Without their premises the laws of order and of tiles would be false.
pub fn weaker_premises_fail()
    ensures { WeakerPremisesFail }
{}
