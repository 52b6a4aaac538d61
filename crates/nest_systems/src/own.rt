// The system of one statement.
ghost use Rattle.std.specs.Prelude.{◌≡◌, ◌+◌, ◌<◌, ◌≤◌, length, IsTrue, IfOk};
ghost use Rattle.std.specs.List.{list_all};
ghost use Rattle.nest_core.specs.Shapes.{is_term_over};
ghost use Rattle.nest_systems.specs.Owns.{IsOwn};

use crate::instance::{Instance, end_names, make_instance};
use crate::seating::take_seats;
use crate::seats::{Places, Seats};
use crate::system::{begin_system, place_rows, push_end_ranges};
use c_tree::Program;
use chill_base::{List, NoMemory};
use int_rows::{Aff, Row};
use int_sets::{SetFault, System};
use nest_tree::{Made, Term};
use std::alloc::Global;

/// The system of one statement, and how the statement's variables stand in it.
#[derive(Drop)]
pub struct Own {
    pub system: System,
    pub seats: Seats,
    pub instance: Instance,
}

/// The system of a statement with these levels, terms and rows; its variables are the parameters, the levels, the
/// terms that its rows and then the forms hold, by first appearance, and the reads `count[0]` that value ranges need.
/// Its rows are those of parameters and extents, the statement's, and the value ranges of its terms. Of the terms
/// the last `extras` are reads `count[0]`, which stand at the very end.
pub fn own_system(
    alloc: Global,
    head: &Program,
    made: &[Made],
    levels: usize,
    terms: &[Term],
    extras: usize,
    rows: &[Row],
    forms: &[Aff],
) -> Result<Own, SetFault>
    requires levels { levels ≤ 8 }
    requires terms { IsTrue (list_all (is_term_over (length head.now.params + levels + length terms.now)) terms.now) }
    requires extras { extras ≤ length terms.now }
    ensures { IfOk result (λ own. IsOwn (length head.now.params) levels (length terms.now) own) }
{
    let instance = make_instance(alloc, head, made, levels, terms, extras, rows, forms)?;
    let params = head.params.as_slice().len();
    let ends = end_names(alloc, params, &instance)?;
    let first_term = params + levels;
    let first_end = first_term + instance.chosen.order.len();
    let vars = first_end + ends.len();
    let places = Places {
        params,
        first_level: params,
        first_term,
        first_end,
        vars,
    };
    let seats = take_seats(alloc, &instance, places, ends.as_slice())?;
    let mut system = begin_system(alloc, head, vars)?;
    place_rows(alloc, &mut system, &seats, instance.rows.as_slice())?;
    place_rows(alloc, &mut system, &seats, instance.ranges.as_slice())?;
    push_end_ranges(
        alloc,
        head,
        made,
        &mut system,
        ends.as_slice(),
        first_end,
        vars,
    )?;
    Ok(Own {
        system,
        seats,
        instance,
    })
}

impl Own {
    /// A statement's form over the system's variables.
    pub fn place(&self, alloc: Global, form: &Aff) -> Result<Aff, NoMemory>
        ensures { IfOk result (λ f. length f.coefs ≡ self.now.seats.vars) }
    {
        self.seats.place(alloc, form)
    }

    pub fn system(&self) -> &System
        ensures { result.now ≡ self.now.system }
    {
        &self.system
    }

    pub fn into_system(self) -> System
        ensures { result ≡ self.system }
    {
        let Own {
            system,
            seats: _seats,
            instance: _instance,
        } = self;
        system
    }

    /// The statement's terms, and behind them those that only ranges brought.
    pub fn terms(&self) -> &[Term]
        ensures { result.now ≡ self.now.instance.terms }
    {
        self.instance.terms.as_slice()
    }

    /// How many terms the statement has itself.
    pub fn count(&self) -> usize
        ensures { result ≡ self.now.instance.count }
    {
        self.instance.count
    }

    /// A row of a system over the same variables, as one of the statement with `terms`.
    pub fn back(&self, alloc: Global, system: &System, row: usize) -> Result<Row, NoMemory>
        requires { row < length system.now.rows }
        ensures { IfOk result (λ r. length r.form.coefs ≡ self.now.seats.params + self.now.seats.levels + length self.now.seats.terms) }
    {
        self.seats.back(alloc, system, row)
    }
}
