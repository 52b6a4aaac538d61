//! What the program of a scanned kernel does: each function here carries one law, or a worked case, as its contract.
#![tactic(auto)]

ghost use Rattle.scanning.specs.Examples.{WorkedFused, WorkedProduct, WorkedTiles, WorkedTriangle};
ghost use Rattle.scanning_laws.specs.Bounded.{BoundsMakeSoundScans};
ghost use Rattle.scanning_laws.specs.Examples.{WorkedNames};
ghost use Rattle.scanning_laws.specs.Laws.{AssignmentsAreMade, ClaimsStaySaid, LocalFactsPrintTheScan, OpenedLoopsAreMade, TablesAreInOrder};
ghost use Rattle.scanning_laws.specs.Naming.{NamedIsInnerFirst};

/// Bounds of all statements of a group, told by their values alone, fit the group's points.
pub fn bounds_make_sound_scans()
    ensures { BoundsMakeSoundScans }
{}

/// What a form names comes inner ones first.
pub fn named_is_inner_first()
    ensures { NamedIsInnerFirst }
{}

/// A form that holds a read names the one in its argument first.
pub fn worked_names()
    ensures { WorkedNames }
{}

/// In the table of a kernel, each read stands behind those in its arguments.
pub fn tables_are_in_order()
    ensures { TablesAreInOrder }
{}

/// Claims that name no further level stay said in a further loop.
pub fn claims_stay_said()
    ensures { ClaimsStaySaid }
{}

/// An opened loop is made of its sides, heads, tests and claims.
pub fn opened_loops_are_made()
    ensures { OpenedLoopsAreMade }
{}

/// An assignment is made of its tests, its target and its right side.
pub fn assignments_are_made()
    ensures { AssignmentsAreMade }
{}

/// Where each loop and each assignment does by itself what a maker says, the whole is printed for that maker.
pub fn local_facts_print_the_scan()
    ensures { LocalFactsPrintTheScan }
{}

/// A triangle with its loops exchanged: `t2` from `max(0, t1)`.
pub fn worked_triangle()
    ensures { WorkedTriangle }
{}

/// Two fused loops of unlike bounds: the least and the greatest, and each statement's rows in a test.
pub fn worked_fused()
    ensures { WorkedFused }
{}

/// The product of a sparse matrix and a vector: bounds are reads, and nothing is tested.
pub fn worked_product()
    ensures { WorkedProduct }
{}

/// Two statements in tiles of entries: bounds keep the reads that are safe.
pub fn worked_tiles()
    ensures { WorkedTiles }
{}
