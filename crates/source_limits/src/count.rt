// How many statements an inspector has.
ghost use Rattle.std.specs.Prelude.{◌≡◌};
ghost use Rattle.c_judge.specs.Limits.{capped, count_in, count_of};
ghost use Rattle.c_judge.specs.declared.limits.Counted.TheVariants.{All};

use c_tree::Stmt;

/// The number of statements, inner ones too, at most 2^64-1.
#[cycle(count)]
pub fn count_statements(statements: &[Stmt]) -> u64
    ensures { result ≡ capped (count_of All statements.now) }
{
    let mut total = 0u64;
    for statement in statements {
        total = total.saturating_add(count_one(statement));
    }
    total
}

#[cycle(count)]
fn count_one(statement: &Stmt) -> u64
    ensures { result ≡ capped (count_in All statement.now) }
{
    match statement {
        Stmt::For { body, .. } => count_statements(body.as_slice()).saturating_add(1),
        Stmt::If { body, .. } => count_statements(body.as_slice()).saturating_add(1),
        Stmt::Assign { .. } => 1,
        Stmt::Put { .. } => 1,
        Stmt::Declare { .. } => 1,
        Stmt::Grow { .. } => 1,
    }
}
