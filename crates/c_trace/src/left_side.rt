// The left side of a data expression, which may be millions deep: it is walked by loops.
ghost use Rattle.std.specs.Prelude.{◌≡◌, ◌≤◌};
ghost use Rattle.c_tree.specs.declared.data.Expr.{size-Expr};
ghost use Rattle.c_meaning.specs.Value.{Sight};
ghost use Rattle.c_print.specs.Data.{data_printed};
ghost use Rattle.c_trace.specs.Lines.{cell_line};
ghost use Rattle.c_trace.specs.LeftSide.{level_of, left_part, opened, opened_down, down};

use c_print::Level;
use c_tree::Expr;

/// How many steps are taken at once.
pub(crate) const MOST: usize = 1_048_576;

/// Where a walk ended.
pub(crate) struct Descent<'a> {
    /// How many steps it took.
    pub(crate) steps: usize,
    /// How many brackets open before the part where it ended.
    pub(crate) opened: usize,
    /// That part.
    pub(crate) rest: &'a Expr,
}

/// What stands outermost.
#[tactic(auto, unfolding(crate::specs::LeftSide::level_of, c_print::specs::Data::data_printed))]
pub(crate) fn level(e: &Expr) -> Level
    ensures level { result ≡ level_of e.now }
    ensures printed { (s : Sight) → result ≡ (data_printed (cell_line s) e.now).level }
{
    match e {
        Expr::Const(_) | Expr::At(_) => Level::Atom,
        Expr::Plus(_, _) | Expr::Minus(_, _) => Level::Sum,
        Expr::Times(_, _) => Level::Product,
    }
}

// The left part of an operation; an atom stays.
#[tactic(auto, unfolding(crate::specs::LeftSide::left_part))]
fn left_part(e: &Expr) -> &Expr
    ensures part { result.now ≡ left_part e.now }
    ensures size { size-Expr result.now ≤ size-Expr e.now }
{
    match e {
        Expr::Const(_) | Expr::At(_) => e,
        Expr::Plus(left, _) => left.get(),
        Expr::Minus(left, _) => left.get(),
        Expr::Times(left, _) => left.get(),
    }
}

// How many brackets open before the left part.
#[tactic(auto, unfolding(crate::specs::LeftSide::opened))]
fn opened(e: &Expr) -> usize
    ensures opened { result ≡ opened e.now }
    ensures most { result ≤ 1 }
{
    match e {
        Expr::Times(left, _) => match level(left.get()) {
            Level::Sum => 1,
            Level::Product | Level::Atom => 0,
        },
        _ => 0,
    }
}

/// The part so many steps down.
pub(crate) fn down(e: &Expr, steps: usize) -> &Expr
    ensures down { result.now ≡ down e.now steps }
    ensures size { size-Expr result.now ≤ size-Expr e.now }
{
    let mut rest = e;
    for _step in 0..steps {
        rest = left_part(rest);
    }
    rest
}

/// Walks down at least one step, to an atom or as many steps as are taken at once.
pub(crate) fn walk(e: &Expr) -> Descent<'_>
    ensures steps { result.steps ≤ MOST }
    ensures rest { result.rest.now ≡ down e.now result.steps }
    ensures opened { result.opened ≡ opened_down e.now result.steps }
    ensures size { size-Expr result.rest.now ≤ size-Expr (left_part e.now) }
{
    let mut steps = 1;
    let mut opened_so_far = opened(e);
    let mut rest = left_part(e);
    while steps < MOST {
        if let Level::Atom = level(rest) {
            break;
        }
        opened_so_far += opened(rest);
        rest = left_part(rest);
        steps += 1;
    }
    Descent {
        steps,
        opened: opened_so_far,
        rest,
    }
}
