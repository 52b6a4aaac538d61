// What the grammar says of executors. The function is there for its contract alone.
ghost use Rattle.source_laws.specs.Grammar.{GrammarHasExecutor};

/// The executor of a program of the grammar has loops, guards and assignments alone, at least one in each body, and at
/// most 8 loops around one place.
pub fn grammar_has_executor()
    ensures { GrammarHasExecutor }
{}
