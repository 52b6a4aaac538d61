// A statement's forms in a system in which its variables have their seats.
ghost use Rattle.std.specs.Prelude.{◌≡◌, ◌+◌, map, length, IfOk};
ghost use Rattle.std.specs.List.{range_with_len};
ghost use Rattle.nest_systems.specs.Placing.{numbers_there, small_total, or_large, seated_number, placed, seated_levels};

use crate::alike::sum_there;
use crate::seats::Seats;
use crate::span::unit_form;
use crate::sums::number_at;
use chill_base::{List, NoMemory};
use int_rows::Aff;
use nest_core::LIMIT;
use std::alloc::Global;

impl Seats {
    /// The sum of a form's numbers for the terms that stand at a variable. A number past the limit stands for each sum
    /// that is past it.
    fn term_number(&self, coefs: &[i128], var: usize) -> i128
        ensures { result ≡ or_large (small_total (numbers_there (self.now.params + self.now.levels) self.now.terms var coefs.now)) }
    {
        let first = self.params + self.levels;
        match sum_there(first, self.terms.as_slice(), var, coefs) {
            Some(sum) => sum,
            None => LIMIT + 1,
        }
    }

    /// A form's number at a variable of the system.
    #[tactic(auto, unfolding(crate::specs::Placing::seated_number))]
    fn number(&self, coefs: &[i128], var: usize) -> i128
        ensures { result ≡ seated_number self.now coefs.now var }
    {
        if var < self.params {
            number_at(coefs, var)
        } else if self.first_level <= var && var - self.first_level < self.levels {
            number_at(coefs, self.params + (var - self.first_level))
        } else {
            self.term_number(coefs, var)
        }
    }

    /// A form's numbers at all variables of the system.
    fn numbers(&self, alloc: Global, coefs: &[i128]) -> Result<List<i128>, NoMemory>
        ensures { IfOk result (λ zs. zs ≡ map (seated_number self.now coefs.now) (range_with_len 0 self.now.vars)) }
    {
        let mut numbers = List::new(alloc);
        for var in 0..self.vars {
            numbers.push(self.number(coefs, var))?;
        }
        Ok(numbers)
    }

    /// A statement's form over the system's variables. The numbers of equal terms are added up.
    #[tactic(auto, unfolding(crate::specs::Placing::placed))]
    pub fn place(&self, alloc: Global, form: &Aff) -> Result<Aff, NoMemory>
        ensures value { IfOk result (λ f. f ≡ placed self.now form.now) }
        ensures width { IfOk result (λ f. length f.coefs ≡ self.now.vars) }
    {
        Ok(Aff {
            coefs: self.numbers(alloc, form.coefs.as_slice())?,
            constant: form.constant,
        })
    }

    /// The statement's levels as variables of the system.
    #[tactic(auto, unfolding(crate::specs::Placing::seated_levels))]
    pub fn level_forms(&self, alloc: Global) -> Result<List<Aff>, NoMemory>
        ensures { IfOk result (λ fs. fs ≡ seated_levels self.now) }
    {
        let vars = self.vars;
        let first = self.first_level;
        let mut forms = List::new(alloc);
        for level in 0..self.levels {
            forms.push(unit_form(alloc, first + level, vars)?)?;
        }
        Ok(forms)
    }
}
