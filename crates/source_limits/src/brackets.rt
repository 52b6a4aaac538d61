// How many brackets stand around one place of a printed expression.
use c_tree::{Cell, Expr, Index, Subscripts};

/// How tightly an expression binds.
#[derive(Clone, Copy, Debug, PartialEq, Eq)]
enum Tightness {
    /// A sum, or what begins with `-`.
    Sum,
    Product,
    /// What needs no brackets anywhere.
    Atom,
}

fn binding(e: &Index) -> Tightness {
    match e {
        Index::Const(n) => if *n < 0 {
            Tightness::Sum
        } else {
            Tightness::Atom
        },
        Index::Times(n, _) => if *n < 0 {
            Tightness::Sum
        } else {
            Tightness::Product
        },
        Index::Neg(_) | Index::Plus(_, _) | Index::Minus(_, _) => Tightness::Sum,
        _ => Tightness::Atom,
    }
}

fn around_part(tightness: Tightness) -> u64 {
    match tightness {
        Tightness::Sum => 1,
        Tightness::Product | Tightness::Atom => 0,
    }
}

fn around_factor(tightness: Tightness) -> u64 {
    match tightness {
        Tightness::Sum | Tightness::Product => 1,
        Tightness::Atom => 0,
    }
}

/// The greatest number of brackets around one place of an index expression.
#[cycle(brackets)]
pub fn brackets(e: &Index) -> u64 {
    let mut most = 0u64;
    let mut rest = e;
    loop {
        match rest {
            Index::Const(_) => return most,
            Index::Var(_) => return most,
            Index::At(cell) => return most.max(cell_brackets(cell)),
            Index::Plus(left, right) => {
                most = most.max(part_brackets(right.get()));
                rest = left.get();
            }
            Index::Minus(left, right) => {
                most = most.max(part_brackets(right.get()));
                rest = left.get();
            }
            Index::Neg(inner) => return most.max(part_brackets(inner.get())),
            Index::Times(_, inner) => return most.max(factor_brackets(inner.get())),
            Index::Min(a, b) => return most.max(call_brackets(a.get(), b.get())),
            Index::Max(a, b) => return most.max(call_brackets(a.get(), b.get())),
            Index::Floor(a, _) => return most.max(brackets(a.get()).saturating_add(1)),
            Index::Ceil(a, _) => return most.max(brackets(a.get()).saturating_add(1)),
        }
    }
}

#[cycle(brackets)]
fn part_brackets(e: &Index) -> u64 {
    brackets(e).saturating_add(around_part(binding(e)))
}

#[cycle(brackets)]
fn factor_brackets(e: &Index) -> u64 {
    brackets(e).saturating_add(around_factor(binding(e)))
}

#[cycle(brackets)]
fn call_brackets(a: &Index, b: &Index) -> u64 {
    brackets(a).max(brackets(b)).saturating_add(1)
}

/// The same of a cell.
#[cycle(brackets)]
fn cell_brackets(cell: &Cell) -> u64 {
    subscripts_brackets(&cell.at).saturating_add(1)
}

#[cycle(brackets)]
fn subscripts_brackets(at: &Subscripts) -> u64 {
    match at {
        Subscripts::One(a) => brackets(a.get()),
        Subscripts::Two(a, b) => brackets(a.get()).max(brackets(b.get())),
        Subscripts::Three(a, b, c) => brackets(a.get())
            .max(brackets(b.get()))
            .max(brackets(c.get())),
    }
}

fn data_binding(e: &Expr) -> Tightness {
    match e {
        Expr::Const(_) | Expr::At(_) => Tightness::Atom,
        Expr::Plus(_, _) | Expr::Minus(_, _) => Tightness::Sum,
        Expr::Times(_, _) => Tightness::Product,
    }
}

/// The greatest number of brackets around one place of a data expression.
pub fn data_brackets(e: &Expr) -> u64 {
    let mut most = 0u64;
    let mut open = 0u64;
    let mut rest = e;
    loop {
        match rest {
            Expr::Const(_) => return most.max(open),
            Expr::At(cell) => return most.max(cell_brackets(cell).saturating_add(open)),
            Expr::Plus(left, right) => {
                let right = right.get();
                let own = data_brackets(right).saturating_add(around_part(data_binding(right)));
                most = most.max(own.saturating_add(open));
                rest = left.get();
            }
            Expr::Minus(left, right) => {
                let right = right.get();
                let own = data_brackets(right).saturating_add(around_part(data_binding(right)));
                most = most.max(own.saturating_add(open));
                rest = left.get();
            }
            Expr::Times(left, right) => {
                let right = right.get();
                let own = data_brackets(right).saturating_add(around_factor(data_binding(right)));
                most = most.max(own.saturating_add(open));
                rest = left.get();
                open = open.saturating_add(around_part(data_binding(rest)));
            }
        }
    }
}
