// Statements.
ghost use Rattle.std.specs.Prelude.{◌≡◌, ◌-◌, ◌<◌, [], ◌∷◌};
ghost use Rattle.c_grammar.specs.ReadStatement as spec;
ghost use Rattle.c_grammar.specs.Statement.{is_growable, takes_index};
ghost use Rattle.c_loops.specs.Reads.{Reads};

use crate::guard::tests;
use crate::halt::Halt;
use crate::index::{index, subscripts};
use crate::value::value;
use crate::words::{name, word};
use c_grammar::{Range, Section};
use c_tokens::{Sign, Tokens};
use c_tree::{Cell, How, Stmt, Subscripts};
use chill_base::{List, Name};
use std::alloc::Global;

#[tactic(auto, unfolding(c_grammar::specs::ReadStatement::assignment_sign))]
fn assignment_sign(tokens: &mut Tokens<'_>) -> Result<How, Halt>
    ensures { Reads (spec.assignment_sign tokens.old) result tokens.new }
{
    let found = if tokens.sees(Sign::Assign) {
        How::Write
    } else if tokens.sees(Sign::AddAssign) {
        How::Add
    } else if tokens.sees(Sign::SubtractAssign) {
        How::Subtract
    } else {
        return Err(Halt::Unexpected);
    };
    tokens.skip();
    Ok(found)
}

// `(int64_t v = low; v < high; v++)`, where the three names are one.
#[tactic(auto, unfolding(c_grammar::specs::ReadStatement::range, c_grammar::specs::ReadStatement::lower, c_grammar::specs::ReadStatement::upper))]
fn range(alloc: Global, tokens: &mut Tokens<'_>, brackets: u16) -> Result<Range, Halt>
    ensures { Reads (spec.range brackets tokens.old) result tokens.new }
{
    tokens.expect(Sign::Open)?;
    tokens.expect(Sign::Int64)?;
    let var = name(tokens)?;
    tokens.expect(Sign::Assign)?;
    let low = index(alloc, tokens, brackets)?;
    tokens.expect(Sign::Semicolon)?;
    word(tokens, var.bytes())?;
    tokens.expect(Sign::Less)?;
    let high = index(alloc, tokens, brackets)?;
    tokens.expect(Sign::Semicolon)?;
    word(tokens, var.bytes())?;
    tokens.expect(Sign::Increment)?;
    tokens.expect(Sign::Close)?;
    Ok(Range { var, low, high })
}

#[tactic(auto, unfolding(c_grammar::specs::ReadStatement::growth))]
fn growth(alloc: Global, tokens: &mut Tokens<'_>, brackets: u16) -> Result<Stmt, Halt>
    ensures { Reads (spec.growth brackets tokens.old) result tokens.new }
{
    tokens.expect(Sign::Grow)?;
    tokens.expect(Sign::Open)?;
    let array = name(tokens)?;
    tokens.expect(Sign::Comma)?;
    let by = index(alloc, tokens, brackets)?;
    tokens.expect(Sign::Close)?;
    tokens.expect(Sign::Semicolon)?;
    Ok(Stmt::Grow { name: array, by })
}

// Whether the growable index array is declared before.
fn is_growable(section: &Section, name: &[u8]) -> bool
    ensures { result ≡ is_growable section.now name.now }
{
    section
        .growable
        .as_slice()
        .iter()
        .any(|known| known.bytes() == name)
}

fn takes_index(section: &Section, name: Name, how: How) -> bool
    ensures { result ≡ takes_index section.now name how }
{
    how == How::Write && is_growable(section, name.bytes())
}

// What is assigned to the cell, behind its subscripts.
#[tactic(auto, unfolding(c_grammar::specs::ReadStatement::assigned, c_grammar::specs::ReadStatement::put, c_grammar::specs::ReadStatement::assign))]
fn assigned(
    alloc: Global,
    tokens: &mut Tokens<'_>,
    section: &Section,
    brackets: u16,
    array: Name,
    at: Subscripts,
) -> Result<Stmt, Halt>
    ensures { Reads (spec.assigned section.now brackets array at tokens.old) result tokens.new }
{
    let target = Cell { array, at };
    let how = assignment_sign(tokens)?;
    if takes_index(section, array, how) {
        let value = index(alloc, tokens, brackets)?;
        tokens.expect(Sign::Semicolon)?;
        Ok(Stmt::Put { target, value })
    } else {
        let value = value(alloc, tokens, brackets)?;
        tokens.expect(Sign::Semicolon)?;
        Ok(Stmt::Assign { target, how, value })
    }
}

#[tactic(auto, using(crate::proofs::Rooms::one_inside), unfolding(c_grammar::specs::ReadStatement::assignment))]
fn assignment(
    alloc: Global,
    tokens: &mut Tokens<'_>,
    section: &Section,
    brackets: u16,
) -> Result<Stmt, Halt>
    requires { 0 < brackets }
    ensures { Reads (spec.assignment section.now (brackets - 1) tokens.old) result tokens.new }
{
    let array = name(tokens)?;
    let at = subscripts(alloc, tokens, brackets - 1)?;
    assigned(alloc, tokens, section, brackets, array, at)
}

/// A statement, where so many brackets, loops and guards may still be opened.
#[cycle(statement)]
#[tactic(auto, using(crate::proofs::Rooms::no_statement, crate::proofs::Rooms::statement_inside), unfolding(c_grammar::specs::ReadStatement::statement_by))]
pub fn statement(
    alloc: Global,
    tokens: &mut Tokens<'_>,
    section: &Section,
    brackets: u16,
    loops: u8,
    guards: u8,
) -> Result<Stmt, Halt>
    ensures { Reads (spec.statement section.now brackets loops guards tokens.old) result tokens.new }
{
    if brackets == 0 {
        return Err(Halt::Unexpected);
    }
    if tokens.sees(Sign::For) {
        if brackets == 1 || loops == 0 {
            return Err(Halt::Unexpected);
        }
        return repetition(alloc, tokens, section, brackets - 1, loops - 1, guards);
    }
    if tokens.sees(Sign::If) {
        if brackets == 1 || guards == 0 {
            return Err(Halt::Unexpected);
        }
        return guarded(alloc, tokens, section, brackets - 1, loops, guards - 1);
    }
    if section.is_inspector && tokens.sees(Sign::Grow) {
        return growth(alloc, tokens, brackets - 1);
    }
    assignment(alloc, tokens, section, brackets)
}

#[cycle(statement)]
#[tactic(auto, unfolding(c_grammar::specs::ReadStatement::repetition))]
fn repetition(
    alloc: Global,
    tokens: &mut Tokens<'_>,
    section: &Section,
    inside: u16,
    loops: u8,
    guards: u8,
) -> Result<Stmt, Halt>
    ensures { Reads (spec.repetition section.now inside (spec.statement section.now inside) loops guards tokens.old) result tokens.new }
{
    tokens.expect(Sign::For)?;
    let Range { var, low, high } = range(alloc, tokens, inside)?;
    let body = body(alloc, tokens, section, inside, loops, guards)?;
    Ok(Stmt::For {
        var,
        low,
        high,
        body,
    })
}

#[cycle(statement)]
#[tactic(auto, unfolding(c_grammar::specs::ReadStatement::guarded))]
fn guarded(
    alloc: Global,
    tokens: &mut Tokens<'_>,
    section: &Section,
    inside: u16,
    loops: u8,
    guards: u8,
) -> Result<Stmt, Halt>
    ensures { Reads (spec.guarded section.now inside (spec.statement section.now inside) loops guards tokens.old) result tokens.new }
{
    tokens.expect(Sign::If)?;
    tokens.expect(Sign::Open)?;
    let tests = tests(alloc, tokens, inside)?;
    tokens.expect(Sign::Close)?;
    let body = body(alloc, tokens, section, inside, loops, guards)?;
    Ok(Stmt::If { tests, body })
}

#[cycle(statement)]
#[tactic(auto, unfolding(c_grammar::specs::ReadStatement::body))]
fn body(
    alloc: Global,
    tokens: &mut Tokens<'_>,
    section: &Section,
    inside: u16,
    loops: u8,
    guards: u8,
) -> Result<List<Stmt>, Halt>
    ensures { Reads (spec.body section.now inside (spec.statement section.now inside) loops guards tokens.old) result tokens.new }
{
    if tokens.sees(Sign::OpenBrace) {
        tokens.skip();
        let found = statements(alloc, tokens, section, inside, loops, guards)?;
        tokens.expect(Sign::CloseBrace)?;
        return Ok(found);
    }
    let mut found = List::new(alloc);
    let only = statement(alloc, tokens, section, inside, loops, guards)?;
    found.push(only)?;
    Ok(found)
}

/// The statements up to a `}`, of which there is one at least.
#[cycle(statement)]
#[tactic(auto, using(crate::proofs::Statements::statement_read, crate::proofs::Statements::statement_refused, crate::proofs::Statements::statement_less, crate::proofs::Statements::statements_end), unfolding(c_grammar::specs::ReadStatement::statements_by))]
pub fn statements(
    alloc: Global,
    tokens: &mut Tokens<'_>,
    section: &Section,
    brackets: u16,
    loops: u8,
    guards: u8,
) -> Result<List<Stmt>, Halt>
    ensures { Reads (spec.statements section.now brackets loops guards tokens.old) result tokens.new }
{
    let mut found = List::new(alloc);
    let first = statement(alloc, tokens, section, brackets, loops, guards)?;
    found.push(first)?;
    'statements: while !tokens.sees(Sign::CloseBrace) {
        let further = statement(alloc, tokens, section, brackets, loops, guards)?;
        found.push(further)?;
    }
    Ok(found)
}
