// Forms over what a scan speaks of: the parameters, the levels, and the reads of a table. Behind its last number each list
// of numbers has 0.
ghost use Rattle.std.specs.Prelude.{◌≡◌, ◌≤◌, length, map, not, IfOk, OnOk};
ghost use Rattle.scan_forms.specs.Numbers as spec;
ghost use Rattle.scan_forms.specs.Forms as forms;

use chill_base::{List, NoMemory};
use std::alloc::Global;

/// The most levels that a statement has.
pub const MOST_LEVELS: usize = 8;

/// A sum of multiples of parameters, levels and reads, and a constant.
#[derive(Drop)]
pub struct Affine {
    pub params: List<i128>,
    pub levels: List<i128>,
    /// By the number of the read in the table.
    pub reads: List<i128>,
    pub constant: i128,
}

/// The number at a place, or 0 behind the last.
pub fn number_at(numbers: &[i128], at: usize) -> i128
    ensures { result ≡ spec.number_at at numbers.now }
{
    if at < numbers.len() { numbers[at] } else { 0 }
}

/// Whether all numbers are 0.
fn are_zero(numbers: &[i128]) -> bool
    ensures { result ≡ spec.are_zero numbers.now }
{
    numbers.iter().all(|number| *number == 0)
}

/// Whether the lists have the same numbers.
fn same_numbers(a: &[i128], b: &[i128]) -> bool
    ensures { result ≡ spec.same_numbers a.now b.now }
{
    match a {
        [] => are_zero(b),
        [x, xs @ ..] => match b {
            [] => *x == 0 && are_zero(xs),
            [y, ys @ ..] => *x == *y && same_numbers(xs, ys),
        },
    }
}

impl Affine {
    /// The multiple of a level, which counts from 1.
    pub fn level(&self, level: usize) -> i128
        ensures { result ≡ forms.level_of level self.now }
    {
        if level == 0 {
            return 0;
        }
        number_at(self.levels.as_slice(), level - 1)
    }

    pub fn read(&self, read: usize) -> i128
        ensures { result ≡ spec.number_at read self.now.reads }
    {
        number_at(self.reads.as_slice(), read)
    }

    pub fn has_reads(&self) -> bool
        ensures { result ≡ not (spec.are_zero self.now.reads) }
    {
        !are_zero(self.reads.as_slice())
    }

    pub fn is_same(&self, other: &Affine) -> bool
        ensures { result ≡ forms.same_form self.now other.now }
    {
        self.constant == other.constant
            && same_numbers(self.params.as_slice(), other.params.as_slice())
            && same_numbers(self.levels.as_slice(), other.levels.as_slice())
            && same_numbers(self.reads.as_slice(), other.reads.as_slice())
    }

    pub fn copy(&self, alloc: Global) -> Result<Affine, NoMemory>
        ensures { IfOk result (λ copy. copy ≡ self.now) }
    {
        Ok(Affine {
            params: List::from_slice(alloc, self.params.as_slice())?,
            levels: List::from_slice(alloc, self.levels.as_slice())?,
            reads: List::from_slice(alloc, self.reads.as_slice())?,
            constant: self.constant,
        })
    }

    /// The form with each number negated. A number past the limits of set work stays past them.
    pub fn negated(&self, alloc: Global) -> Result<Affine, NoMemory>
        ensures { IfOk result (λ form. form ≡ forms.negated self.now) }
    {
        Ok(Affine {
            params: opposites(alloc, self.params.as_slice())?,
            levels: opposites(alloc, self.levels.as_slice())?,
            reads: opposites(alloc, self.reads.as_slice())?,
            constant: opposite(self.constant),
        })
    }

    /// The form without the multiple of a level.
    pub fn without_level(&self, alloc: Global, level: usize) -> Result<Affine, NoMemory>
        ensures { IfOk result (λ form. form ≡ forms.without_level level self.now) }
    {
        let mut levels = List::from_slice(alloc, self.levels.as_slice())?;
        clear_level(&mut levels, level);
        Ok(Affine {
            params: List::from_slice(alloc, self.params.as_slice())?,
            levels,
            reads: List::from_slice(alloc, self.reads.as_slice())?,
            constant: self.constant,
        })
    }

    /// The form and 1.
    pub fn plus_one(&self, alloc: Global) -> Result<Affine, NoMemory>
        ensures { IfOk result (λ form. form ≡ forms.plus_one self.now) }
    {
        Ok(Affine {
            params: List::from_slice(alloc, self.params.as_slice())?,
            levels: List::from_slice(alloc, self.levels.as_slice())?,
            reads: List::from_slice(alloc, self.reads.as_slice())?,
            constant: next(self.constant),
        })
    }
}

/// Sets the number of a level to 0, where there is one.
fn clear_level(levels: &mut List<i128>, level: usize)
    ensures { levels.new ≡ forms.cleared level levels.old }
{
    if 1 <= level && level <= levels.len() {
        levels.set(level - 1, 0);
    }
}

/// The opposite of a number.
pub fn opposite(number: i128) -> i128
    ensures { result ≡ spec.opposite number }
{
    0i128.saturating_sub(number)
}

fn next(number: i128) -> i128
    ensures { result ≡ spec.next number }
{
    number.saturating_add(1)
}

fn opposites(alloc: Global, numbers: &[i128]) -> Result<List<i128>, NoMemory>
    ensures { IfOk result (λ list. list ≡ map spec.opposite numbers.now) }
{
    let mut list = List::new(alloc);
    for number in numbers {
        list.push(opposite(*number))?;
    }
    Ok(list)
}

/// Appends zeros up to a place, where there are fewer numbers.
fn pad(numbers: &mut List<i128>, at: usize) -> Result<(), NoMemory>
    ensures { OnOk result (numbers.new ≡ spec.padded at numbers.old) }
{
    while numbers.len() <= at {
        numbers.push(0)?;
    }
    Ok(())
}

fn plus(a: i128, b: i128) -> i128
    ensures { result ≡ spec.plus a b }
{
    a.saturating_add(b)
}

/// Adds to the number at a place.
#[tactic(auto, using(crate::proofs::Padding::padded_past))]
pub fn add_at(numbers: &mut List<i128>, at: usize, number: i128) -> Result<(), NoMemory>
    ensures { OnOk result (numbers.new ≡ spec.added_at at number numbers.old) }
{
    pad(numbers, at)?;
    let sum = plus(number_at(numbers.as_slice(), at), number);
    numbers.set(at, sum);
    Ok(())
}
