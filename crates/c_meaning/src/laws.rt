// Laws of the definitions, and worked cases. Each function stands for the facts that its contract states, and does nothing.
ghost use Rattle.std.specs.Prelude.{◌≡◌, ◌^◌, ℤ, pos, negsuc, List, [], ◌∷◌, IsTrue, Ok, Err, None};
ghost use Rattle.std.specs.List.{list_all};
ghost use Rattle.c_tree.specs.declared.index.Index.TheVariants.{Const, Var, Plus, Minus, Floor, Ceil};
ghost use Rattle.c_tree.specs.declared.statement.Stmt.{Stmt};
ghost use Rattle.c_meaning.specs.Names.{Name};
ghost use Rattle.c_meaning.specs.Value.{Sight, value_of};
ghost use Rattle.c_meaning.specs.Memory.{Memory, Cells, Env};
ghost use Rattle.c_meaning.specs.Ground.{Step, effect};
ghost use Rattle.c_meaning.specs.Listing.{Item, steps, listing, scene_of};
ghost use Rattle.c_meaning.specs.Run.{run};
ghost use Rattle.c_meaning.specs.Executors.{Performs};
ghost use Rattle.c_meaning.specs.Programs.{is_executor};
ghost use Rattle.c_meaning.specs.Order.{IsReordering};
ghost use Rattle.c_meaning.specs.Examples.{zero_times, copy_loop, scene, copied, added};

use crate::EvalFault;

/// The same assignments in another order that keeps each conflicting pair have the same effect on all cells.
pub fn reordering_keeps_effect()
    ensures { (old new : List (Item Step)) (s : Cells) → IsReordering old new → effect (steps new) s ≡ effect (steps old) s }
{}

/// The run of an executor performs the assignments of its listing, at their places, leaves their effect, and has its fault.
pub fn executor_performs_its_listing()
    ensures { (body : List Stmt) (values : Env) (m : Memory) → IsTrue (list_all is_executor body) → Performs (listing body (scene_of values m)) m (run body values m) }
{}

/// Values of index expressions.
pub fn worked_values()
    ensures zero { (s : Sight) (x : Name) → value_of (zero_times (Var x)) s ≡ Ok (pos 0) }
    ensures floor { (s : Sight) → value_of (Floor (Const (negsuc 6)) (pos 2)) s ≡ Ok (negsuc 3) }
    ensures ceil { (s : Sight) → value_of (Ceil (Const (negsuc 6)) (pos 2)) s ≡ Ok (negsuc 2) }
    ensures heaviest { (s : Sight) → value_of (Plus (Const (pos (2 ^ 61))) (Const (pos (2 ^ 61)))) s ≡ Ok (pos (2 ^ 62)) }
    ensures too_heavy { (s : Sight) → value_of (Minus (Const (pos (2 ^ 62))) (Const (pos 1))) s ≡ Err EvalFault.Range }
{}

/// The listing of a loop that copies an array, and two sums into one cell that change places.
pub fn worked_lists()
    ensures copies { listing copy_loop (scene 2) ≡ record { items = copied 0 ∷ copied 1 ∷ []; trouble = None } }
    ensures sums { IsReordering (added 0 ∷ added 1 ∷ []) (added 1 ∷ added 0 ∷ []) }
{}
