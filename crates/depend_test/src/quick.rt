// Pairs of accesses that can be told apart at the first look.
ghost use Rattle.std.specs.Prelude.{◌≡◌, ◌∷◌, [], IsTrue, IfOk, Ok};
ghost use Rattle.std.specs.List.{list_all};
ghost use Rattle.int_rows.specs.Exclusion.{exclusion};
ghost use Rattle.int_rows.specs.Systems.{IsRowOf};
ghost use Rattle.nest_systems.specs.Owns.{row_has_vars};
ghost use Rattle.depend_test.specs.Systems.{HasExcluded};

use crate::pair::Pair;
use int_rows::{Aff, Row};
use int_sets::{SetFault, System};
use nest_systems::copy_row;
use std::alloc::Global;

/// Numbers up to this size have differences within the limit of set work.
const TAME: i128 = 1 << 124;

/// With so many rows there is room for those of two orders.
const ROOM: usize = 4000;

fn is_tame_number(number: i128) -> bool {
    -TAME <= number && number <= TAME
}

fn is_tame_form(form: &Aff) -> bool {
    is_tame_number(form.constant) && form.coefs.as_slice().iter().all(|c| is_tame_number(*c))
}

fn are_tame(forms: &[Aff]) -> bool {
    forms.iter().all(|form| is_tame_form(form))
}

/// Whether no row of an order passes a limit when it is pushed behind a pair's rows.
pub fn has_room(pair: &Pair) -> bool {
    pair.system.rows() <= ROOM
        && are_tame(pair.first_old.as_slice())
        && are_tame(pair.second_old.as_slice())
}

/// Whether an equality alone has no integer point, as the first look at each system that has it shows.
fn is_impossible(alloc: Global, vars: usize, row: &Row) -> Result<bool, SetFault>
    requires { IsTrue (row_has_vars vars row.now) }
    ensures { IfOk result (λ b. IsRowOf vars row.now × (exclusion vars (row.now ∷ []) ≡ Ok b)) }
{
    let mut alone = System::new(alloc, vars);
    alone.push(copy_row(alloc, row)?)?;
    alone.excluded(alloc)
}

/// Whether one of these equalities alone has no integer point. Each of them is pushed, in order.
pub fn any_impossible(alloc: Global, vars: usize, rows: &[Row]) -> Result<bool, SetFault>
    requires { IsTrue (list_all (row_has_vars vars) rows.now) }
    ensures { IfOk result (λ b. IsTrue b → HasExcluded vars rows.now) }
{
    let mut found = false;
    for row in rows {
        if is_impossible(alloc, vars, row)? {
            found = true;
        }
    }
    Ok(found)
}
