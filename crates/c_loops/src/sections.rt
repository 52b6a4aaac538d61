// The sections of a procedure.
ghost use Rattle.std.specs.Prelude.{◌≡◌, ◌<◌, [], true};
ghost use Rattle.c_tokens.specs.Tokens.{first};
ghost use Rattle.c_grammar.specs.ReadProgram as spec;
ghost use Rattle.c_loops.specs.Reads.{Reads, ReadsWith};

use crate::halt::Halt;
use crate::index::index;
use crate::statement::{statement, statements};
use crate::words::{name, word};
use c_grammar::Section;
use c_tokens::{Sign, Tokens};
use c_tree::{Index, Kind, Stmt};
use chill_base::List;
use std::alloc::Global;

/// How many loops may stand around one place.
const LOOPS: u8 = 8;

/// How many guards may stand around one place.
const GUARDS: u8 = 16;

// The kind of the array that is declared next, and how many extents it names.
fn declared(tokens: &Tokens<'_>) -> Option<(Kind, u8)>
    ensures { result ≡ spec.declared (first tokens.now) }
{
    if tokens.sees(Sign::Index1) {
        Some((Kind::Position, 0))
    } else if tokens.sees(Sign::Index2) {
        Some((Kind::Position, 1))
    } else if tokens.sees(Sign::Data1) {
        Some((Kind::Number, 0))
    } else if tokens.sees(Sign::Data2) {
        Some((Kind::Number, 1))
    } else if tokens.sees(Sign::Data3) {
        Some((Kind::Number, 2))
    } else {
        None
    }
}

// So many extents, each behind a comma.
#[tactic(auto, using(crate::proofs::Rooms::extent_more, crate::proofs::Rooms::extents_done))]
fn inner(
    alloc: Global,
    tokens: &mut Tokens<'_>,
    brackets: u16,
    count: u8,
) -> Result<List<Index>, Halt>
    ensures { Reads (spec.inner brackets count [] tokens.old) result tokens.new }
{
    let mut found = List::new(alloc);
    for _turn in 0..count {
        tokens.expect(Sign::Comma)?;
        let extent = index(alloc, tokens, brackets)?;
        found.push(extent)?;
    }
    Ok(found)
}

// A declaration, which adds an index array to those of the section.
#[tactic(auto, unfolding(c_grammar::specs::ReadProgram::declaration))]
fn declaration(
    alloc: Global,
    tokens: &mut Tokens<'_>,
    brackets: u16,
    kind: Kind,
    count: u8,
    section: &mut Section,
) -> Result<Stmt, Halt>
    ensures reads { ReadsWith (spec.declaration brackets kind count section.old.growable tokens.old) result section.new.growable tokens.new }
    ensures kept { section.new.is_inspector ≡ section.old.is_inspector }
{
    tokens.skip();
    tokens.expect(Sign::Open)?;
    let name = name(tokens)?;
    let inner = inner(alloc, tokens, brackets, count)?;
    tokens.expect(Sign::Close)?;
    tokens.expect(Sign::Semicolon)?;
    if kind == Kind::Position {
        section.growable.push(name)?;
    }
    Ok(Stmt::Declare { name, kind, inner })
}

// A statement or a declaration of an inspector.
#[tactic(auto, using(crate::proofs::Rooms::is_inspector), unfolding(c_grammar::specs::ReadProgram::item))]
fn item(
    alloc: Global,
    tokens: &mut Tokens<'_>,
    brackets: u16,
    section: &mut Section,
) -> Result<Stmt, Halt>
    requires room { brackets < 65535 }
    requires inspector { section.old.is_inspector ≡ true }
    ensures reads { ReadsWith (spec.item brackets section.old.growable tokens.old) result section.new.growable tokens.new }
    ensures kept { section.new.is_inspector ≡ true }
{
    match declared(tokens) {
        Some((kind, count)) => declaration(alloc, tokens, brackets, kind, count, section),
        None => statement(alloc, tokens, section, brackets + 1, LOOPS, GUARDS),
    }
}

// The statements and declarations up to a `#pragma`, of which there is one at least.
#[tactic(auto, using(crate::proofs::Lists::item_read, crate::proofs::Lists::item_refused, crate::proofs::Lists::item_less, crate::proofs::Lists::items_end), unfolding(c_grammar::specs::ReadProgram::items))]
fn items(alloc: Global, tokens: &mut Tokens<'_>, brackets: u16) -> Result<List<Stmt>, Halt>
    requires { brackets < 65535 }
    ensures { Reads (spec.items brackets tokens.old) result tokens.new }
{
    let mut section = Section {
        is_inspector: true,
        growable: List::new(alloc),
    };
    let mut found = List::new(alloc);
    let first = item(alloc, tokens, brackets, &mut section)?;
    found.push(first)?;
    'items: while !tokens.sees(Sign::Pragma) {
        let further = item(alloc, tokens, brackets, &mut section)?;
        found.push(further)?;
    }
    Ok(found)
}

#[tactic(auto, unfolding(c_grammar::specs::ReadProgram::inspected))]
fn inspected(alloc: Global, tokens: &mut Tokens<'_>, brackets: u16) -> Result<List<Stmt>, Halt>
    requires { brackets < 65535 }
    ensures { Reads (spec.inspected brackets tokens.old) result tokens.new }
{
    tokens.expect(Sign::Pragma)?;
    word(tokens, b"sparse")?;
    word(tokens, b"inspector")?;
    let found = items(alloc, tokens, brackets)?;
    tokens.expect(Sign::Pragma)?;
    word(tokens, b"sparse")?;
    word(tokens, b"executor")?;
    Ok(found)
}

/// The inspector, where there is one, up to the executor's first statement.
#[tactic(auto, unfolding(c_grammar::specs::ReadProgram::inspector_if_any))]
pub fn inspector_if_any(
    alloc: Global,
    tokens: &mut Tokens<'_>,
    brackets: u16,
) -> Result<List<Stmt>, Halt>
    requires { brackets < 65535 }
    ensures { Reads (spec.inspector_if_any brackets tokens.old) result tokens.new }
{
    if tokens.sees(Sign::Pragma) {
        return inspected(alloc, tokens, brackets);
    }
    Ok(List::new(alloc))
}

/// The executor's statements, up to the `}` of the procedure.
#[tactic(auto, unfolding(c_grammar::specs::ReadProgram::executed))]
pub fn executed(alloc: Global, tokens: &mut Tokens<'_>, brackets: u16) -> Result<List<Stmt>, Halt>
    ensures { Reads (spec.executed brackets tokens.old) result tokens.new }
{
    let section = Section {
        is_inspector: false,
        growable: List::new(alloc),
    };
    statements(alloc, tokens, &section, brackets, LOOPS, GUARDS)
}
