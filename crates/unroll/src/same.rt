// Forms of two statements that say the same: as many times each parameter, level and term, and the same constant.
ghost use Rattle.std.specs.Prelude.{◌≡◌, ◌+◌, ◌<◌, length, IsTrue};
ghost use Rattle.std.specs.List.{list_all};
ghost use Rattle.nest_core.specs.Forms.{has_vars};
ghost use Rattle.nest_core.specs.Shapes.{is_term_over};

use crate::bounds::{Bounds, coef};
use int_rows::Aff;
use nest_core::is_held;
use nest_tree::Term;

/// Whether two forms are the same, where terms are compared at most so deep. The terms are the variables from `first` on.
#[cycle(same)]
fn is_same(first: usize, a: &[Term], b: &[Term], deep: usize, f: &Aff, g: &Aff) -> bool
    requires f { IsTrue (has_vars (first + length a.now) f.now) }
    requires g { IsTrue (has_vars (first + length b.now) g.now) }
    requires a { IsTrue (list_all (is_term_over (first + length a.now)) a.now) }
    requires b { IsTrue (list_all (is_term_over (first + length b.now)) b.now) }
{
    f.constant == g.constant
        && f.coefs.as_slice()[..first] == g.coefs.as_slice()[..first]
        && covers(first, a, b, deep, f, g)
        && covers(first, b, a, deep, g, f)
}

/// Whether the second form holds each term that the first one holds as often.
#[cycle(same)]
fn covers(first: usize, a: &[Term], b: &[Term], deep: usize, f: &Aff, g: &Aff) -> bool
    requires f { IsTrue (has_vars (first + length a.now) f.now) }
    requires g { IsTrue (has_vars (first + length b.now) g.now) }
    requires a { IsTrue (list_all (is_term_over (first + length a.now)) a.now) }
    requires b { IsTrue (list_all (is_term_over (first + length b.now)) b.now) }
{
    for i in 0..a.len() {
        let term = &a[i];
        if is_held(f.coefs.as_slice(), first + i)
            && !has_term(first, a, b, deep, term, coef(f, first + i), g)
        {
            return false;
        }
    }
    true
}

/// Whether the form holds the term so often.
#[cycle(same)]
fn has_term(
    first: usize,
    a: &[Term],
    b: &[Term],
    deep: usize,
    term: &Term,
    times: i128,
    form: &Aff,
) -> bool
    requires term { IsTrue (is_term_over (first + length a.now) term.now) }
    requires form { IsTrue (has_vars (first + length b.now) form.now) }
    requires a { IsTrue (list_all (is_term_over (first + length a.now)) a.now) }
    requires b { IsTrue (list_all (is_term_over (first + length b.now)) b.now) }
{
    let coefs = form.coefs.as_slice();
    for i in 0..b.len() {
        let other = &b[i];
        if coefs[first + i] == times && is_same_term(first, a, b, deep, term, other) {
            return true;
        }
    }
    false
}

/// Whether two terms read the same cell.
#[cycle(same)]
fn is_same_term(first: usize, a: &[Term], b: &[Term], deep: usize, s: &Term, t: &Term) -> bool
    requires s { IsTrue (is_term_over (first + length a.now) s.now) }
    requires t { IsTrue (is_term_over (first + length b.now) t.now) }
    requires a { IsTrue (list_all (is_term_over (first + length a.now)) a.now) }
    requires b { IsTrue (list_all (is_term_over (first + length b.now)) b.now) }
{
    if deep == 0 || s.array != t.array {
        return false;
    }
    are_same(first, a, b, deep - 1, s.at.as_slice(), t.at.as_slice())
}

/// Whether two lists of forms are the same.
#[cycle(same)]
fn are_same(first: usize, a: &[Term], b: &[Term], deep: usize, fs: &[Aff], gs: &[Aff]) -> bool
    requires f { IsTrue (list_all (has_vars (first + length a.now)) fs.now) }
    requires g { IsTrue (list_all (has_vars (first + length b.now)) gs.now) }
    requires a { IsTrue (list_all (is_term_over (first + length a.now)) a.now) }
    requires b { IsTrue (list_all (is_term_over (first + length b.now)) b.now) }
{
    if fs.len() != gs.len() {
        return false;
    }
    for i in 0..fs.len() {
        if !is_same(first, a, b, deep, &fs[i], &gs[i]) {
            return false;
        }
    }
    true
}

/// Whether the rows that bound a level are the same in two statements. The terms are the variables from `first` on.
pub fn same_bounds(first: usize, a: &[Term], b: &[Term], mine: &Bounds, other: &Bounds) -> bool
    requires lower { IsTrue (has_vars (first + length a.now) mine.now.lower) }
    requires other_lower { IsTrue (has_vars (first + length b.now) other.now.lower) }
    requires uppers { IsTrue (list_all (has_vars (first + length a.now)) mine.now.uppers) }
    requires other_uppers { IsTrue (list_all (has_vars (first + length b.now)) other.now.uppers) }
    requires a { IsTrue (list_all (is_term_over (first + length a.now)) a.now) }
    requires b { IsTrue (list_all (is_term_over (first + length b.now)) b.now) }
{
    let deep = a.len();
    let (uppers, others) = (mine.uppers.as_slice(), other.uppers.as_slice());
    is_same(first, a, b, deep, &mine.lower, &other.lower)
        && are_same(first, a, b, deep, uppers, others)
}
