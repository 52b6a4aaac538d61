// Who is told the assignments of a run.
ghost use Rattle.std.specs.Prelude.{◌≡◌, List, ℕ, [], Bool, None, Ok, IsTrue};
ghost use Rattle.chill_base.specs.Outside.{SinkState, WritesAll};
ghost use Rattle.c_meaning.specs.Memory.{Spot};
ghost use Rattle.c_meaning.specs.Ground.{Step};
ghost use Rattle.c_meaning.specs.Listing.{Item, assigned};
ghost use Rattle.c_trace.specs.Lines.{has_cell, has_cells};
ghost use Rattle.c_trace.specs.Steps.{Dimensions, step_line};

use c_meaning::View;
use c_trace::print_assignment;
use c_tree::{Cell, Expr, How};
use chill_base::{Failed, Place, Sink};

/// Who is told the assignments of a run.
pub trait Listener {
    /// What it has taken, and how often it has failed.
    ghost heard: { Self → SinkState };

    /// What it takes of an assignment at its place.
    ghost line: { Dimensions → Item Step → List ℕ };

    /// Is told an assignment right before it is made.
    fn hear<V: View>(
        &mut self,
        view: &V,
        place: &Place,
        target: &Cell,
        how: How,
        value: &Expr,
    ) -> Result<(), Failed>
        requires target { IsTrue (has_cell target.now (V.scope view.now) (V.sight view.now)) }
        requires value { IsTrue (has_cells value.now (V.scope view.now) (V.sight view.now)) }
        ensures { (inside : Spot → Bool) (t : Step) → assigned target.now how value.now (record { sight = V.sight view.now; inside = inside }) ≡ Ok t → WritesAll (heard self.old) (line (V.scope view.now).data_arrays (record { place = place.now; step = t })) (heard self.new) result };
}

/// Who doesn't listen.
#[derive(Drop)]
pub struct Silent;

impl Listener for Silent {
    ghost heard = { λ _. record { faults = 0; taken = None } };

    ghost line = { λ d i. [] };

    fn hear<V: View>(
        &mut self,
        _view: &V,
        _place: &Place,
        _target: &Cell,
        _how: How,
        _value: &Expr,
    ) -> Result<(), Failed> {
        Ok(())
    }
}

/// A sink gets a line for each.
impl<S: Sink> Listener for S {
    ghost heard = { S.state };

    ghost line = { step_line };

    fn hear<V: View>(
        &mut self,
        view: &V,
        place: &Place,
        target: &Cell,
        how: How,
        value: &Expr,
    ) -> Result<(), Failed> {
        print_assignment(self, view, place, target, how, value)
    }
}
