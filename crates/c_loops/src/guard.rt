// The tests of a guard.
#![tactic(auto, unfolding(c_grammar::specs::ReadStatement::test))]

ghost use Rattle.std.specs.Prelude.{◌≡◌};
ghost use Rattle.c_grammar.specs.ReadStatement as spec;
ghost use Rattle.c_loops.specs.Reads.{Reads};

use crate::halt::Halt;
use crate::index::index;
use c_tokens::{Sign, Tokens};
use c_tree::{Cmp, Test};
use chill_base::List;
use std::alloc::Global;

#[tactic(auto, unfolding(c_grammar::specs::ReadStatement::comparison))]
fn comparison(tokens: &mut Tokens<'_>) -> Result<Cmp, Halt>
    ensures { Reads (spec.comparison tokens.old) result tokens.new }
{
    let found = if tokens.sees(Sign::Less) {
        Cmp::Less
    } else if tokens.sees(Sign::AtMost) {
        Cmp::AtMost
    } else if tokens.sees(Sign::More) {
        Cmp::More
    } else if tokens.sees(Sign::AtLeast) {
        Cmp::AtLeast
    } else if tokens.sees(Sign::Same) {
        Cmp::Same
    } else {
        return Err(Halt::Unexpected);
    };
    tokens.skip();
    Ok(found)
}

fn test(alloc: Global, tokens: &mut Tokens<'_>, brackets: u16) -> Result<Test, Halt>
    ensures { Reads (spec.test brackets tokens.old) result tokens.new }
{
    let left = index(alloc, tokens, brackets)?;
    let cmp = comparison(tokens)?;
    let right = index(alloc, tokens, brackets)?;
    Ok(Test { left, cmp, right })
}

#[tactic(auto, using(crate::proofs::Statements::test_read, crate::proofs::Statements::test_refused, crate::proofs::Statements::test_less, crate::proofs::Statements::tests_end), unfolding(c_grammar::specs::ReadStatement::tests))]
pub fn tests(alloc: Global, tokens: &mut Tokens<'_>, brackets: u16) -> Result<List<Test>, Halt>
    ensures { Reads (spec.tests brackets tokens.old) result tokens.new }
{
    let mut found = List::new(alloc);
    let first = test(alloc, tokens, brackets)?;
    found.push(first)?;
    'tests: while tokens.sees(Sign::And) {
        tokens.skip();
        let further = test(alloc, tokens, brackets)?;
        found.push(further)?;
    }
    Ok(found)
}
