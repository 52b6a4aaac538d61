// What cells become where each new variable has the number of the old one that it stands for.
ghost use Rattle.std.specs.Prelude.{◌≡◌, map, length, IfOk, IsTrue};
ghost use Rattle.std.specs.List.{list_all};
ghost use Rattle.pad_layouts.specs.Moved as spec;

use chill_base::{List, NoMemory};
use int_rows::Aff;
use nest_tree::Access;
use std::alloc::Global;

/// The number at the old variable, where there is one.
fn picked(numbers: &[i128], pick: Option<usize>) -> i128
    requires { IsTrue (spec.is_pick (length numbers.now) pick) }
    ensures { result ≡ spec.picked numbers.now pick }
{
    match pick {
        Some(var) => numbers[var],
        None => 0,
    }
}

fn picked_each(
    alloc: Global,
    picks: &[Option<usize>],
    numbers: &[i128],
) -> Result<List<i128>, NoMemory>
    requires { IsTrue (list_all (spec.is_pick (length numbers.now)) picks.now) }
    ensures { IfOk result (λ cs. cs ≡ map (spec.picked numbers.now) picks.now) }
{
    let mut new = List::new(alloc);
    for pick in picks {
        new.push(picked(numbers, *pick))?;
    }
    Ok(new)
}

/// The form over the new variables. What it names, new variables stand for.
#[tactic(auto, unfolding(crate::specs::Moved::moved_form))]
pub fn moved_form(alloc: Global, picks: &[Option<usize>], form: &Aff) -> Result<Aff, NoMemory>
    requires { IsTrue (spec.suits picks.now form.now) }
    ensures { IfOk result (λ f. f ≡ spec.moved_form picks.now form.now) }
{
    Ok(Aff {
        coefs: picked_each(alloc, picks, form.coefs.as_slice())?,
        constant: form.constant,
    })
}

fn moved_forms(alloc: Global, picks: &[Option<usize>], forms: &[Aff]) -> Result<List<Aff>, NoMemory>
    requires { IsTrue (list_all (spec.suits picks.now) forms.now) }
    ensures { IfOk result (λ fs. fs ≡ map (spec.moved_form picks.now) forms.now) }
{
    let mut new = List::new(alloc);
    for form in forms {
        new.push(moved_form(alloc, picks, form)?)?;
    }
    Ok(new)
}

/// The cell over the new variables.
pub fn moved_access(
    alloc: Global,
    picks: &[Option<usize>],
    access: &Access,
) -> Result<Access, NoMemory>
    requires { IsTrue (list_all (spec.suits picks.now) access.now.at) }
    ensures { IfOk result (λ a. a ≡ spec.moved_access picks.now access.now) }
{
    Ok(Access {
        array: access.array,
        at: moved_forms(alloc, picks, access.at.as_slice())?,
    })
}
