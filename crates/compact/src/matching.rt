// Levels that can be compacted.
ghost use Rattle.std.specs.Prelude.{◌≡◌, ◌≤◌, ◌^◌, unsigned_abs, IfSome, IsTrue, Some};
ghost use Rattle.inspectors.specs.Numbers.{IsKept};
ghost use Rattle.compact.specs.Matching as spec;

use inspectors::{Group, KeptForm};
use nest_tree::{Form, Nest};

/// The greatest divisor of a compacted level.
const MOST: i64 = 1 << 20;

/// The greatest size of the factor of a row.
const MOST_FACTOR: u64 = 64;

/// The greatest size of a compacted level's constant.
const MOST_CONSTANT: u64 = 1 << 20;

/// What is compacted: the matrix by its number, the groups of its rows, and the values.
#[derive(Clone, Copy)]
pub struct Target {
    pub matrix: usize,
    pub group: Group,
    pub form: KeptForm,
}

fn is_divisor(number: i64) -> bool
    ensures { result ≡ spec.is_divisor number }
{
    1 <= number && number <= MOST
}

fn is_row(r: i64, j: i64, k: i64, constant: i64) -> bool
    ensures { result ≡ spec.is_row r j k constant }
{
    (r == 1 && j == 0) && (k == 0 && constant == 0)
}

fn is_kept(r: i64, j: i64, k: i64, constant: i64) -> bool
    ensures value { result ≡ spec.is_kept r j k constant }
    ensures row { IsTrue result → unsigned_abs r ≤ 64 }
    ensures constant { IsTrue result → unsigned_abs constant ≤ 2 ^ 20 }
{
    (j == 1 && k == 0)
        && (r.unsigned_abs() <= MOST_FACTOR && constant.unsigned_abs() <= MOST_CONSTANT)
}

/// The groups of rows that an outer level goes over.
fn row_group(form: &Form) -> Option<Group>
    ensures { result ≡ spec.row_group form.now }
{
    match *form {
        Form::Whole {
            r,
            j,
            k,
            constant,
            divisor,
        } => {
            if is_row(r, j, k, constant) && is_divisor(divisor) {
                Some(Group::Rows(divisor))
            } else {
                None
            }
        }
        Form::Other => None,
    }
}

/// Values with small numbers.
fn values(c: i64, s0: i64, divisor: i64) -> KeptForm
    requires row { unsigned_abs c ≤ 64 }
    requires constant { unsigned_abs s0 ≤ 2 ^ 20 }
    ensures value { result ≡ record { c = c; s0 = s0; divisor = divisor } }
    ensures small { IsKept result }
{
    KeptForm { c, s0, divisor }
}

/// The values of a level by its form.
fn kept_form(form: &Form) -> Option<KeptForm>
    ensures value { result ≡ spec.kept_form form.now }
    ensures small { IfSome result IsKept }
{
    match *form {
        Form::Whole {
            r,
            j,
            k,
            constant,
            divisor,
        } => {
            if is_kept(r, j, k, constant) && is_divisor(divisor) {
                Some(values(r, constant, divisor))
            } else {
                None
            }
        }
        Form::Other => None,
    }
}

fn first_group(forms: &[Form]) -> Option<Group>
    ensures { result ≡ spec.first_group forms.now }
{
    match forms {
        [first, ..] => row_group(first),
        [] => None,
    }
}

/// The groups of rows for a level: level 1 has all rows in one, level 2 those of level 1.
pub fn group_at(level: usize, forms: &[Form]) -> Option<Group>
    ensures { result ≡ spec.group_at level forms.now }
{
    match level {
        1 => Some(Group::All),
        2 => first_group(forms),
        _ => None,
    }
}

/// The values of a level.
pub fn form_at(level: usize, forms: &[Form]) -> Option<KeptForm>
    ensures value { result ≡ spec.form_at level forms.now }
    ensures small { IfSome result IsKept }
{
    if level == 0 {
        return None;
    }
    match forms.get(level - 1) {
        Some(form) => kept_form(form),
        None => None,
    }
}

/// What is compacted at a level of a statement, where that can be.
#[tactic(auto, unfolding(crate::specs::Matching::target_of))]
pub fn target_of(level: usize, nest: &Nest) -> Option<Target>
    ensures value { result ≡ spec.target_of level nest.now }
    ensures small { IfSome result (λ t. IsKept t.form) }
    ensures whole { IfSome result (λ t. nest.now.whole ≡ Some t.matrix) }
{
    let levels = nest.levels.as_slice();
    let Some(matrix) = nest.whole else {
        return None;
    };
    let Some(group) = group_at(level, levels) else {
        return None;
    };
    let Some(form) = form_at(level, levels) else {
        return None;
    };
    Some(Target {
        matrix,
        group,
        form,
    })
}
