// Placed lists: their order, what carries it, and what it means for the effect.
ghost use Rattle.nest_laws.specs.ListLaws.{PlacesHaveAnOrder, PlaceTellsInstance, CarriersTellOrder, MembersTellSortedList, KernelHasOneList, OrderKeepsEffect};

/// The order of places is strict and total.
pub fn places_have_an_order()
    ensures { PlacesHaveAnOrder }
{}

/// A place tells the statement's positions and the level values.
pub fn place_tells_instance()
    ensures { PlaceTellsInstance }
{}

/// An instance is before another exactly where a shared loop or the text carries it.
pub fn carriers_tell_order()
    ensures { CarriersTellOrder }
{}

/// Sorted lists with the same members are equal.
pub fn members_tell_sorted_list()
    ensures { MembersTellSortedList }
{}

/// A kernel has one list at most on an input.
pub fn kernel_has_one_list()
    ensures { KernelHasOneList }
{}

/// A moved list in which each conflicting pair keeps its order has the old list's effect.
pub fn order_keeps_effect()
    ensures { OrderKeepsEffect }
{}
