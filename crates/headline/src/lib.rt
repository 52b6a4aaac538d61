//! What a text that is written promises. Each function here carries one law as its contract.
#![tactic(auto)]

ghost use Rattle.std.specs.Prelude.{◌≡◌, ℕ, List, Some};
ghost use Rattle.c_tokens.specs.Pieces.{tokens_of};
ghost use Rattle.c_tree.specs.declared.program.Program.{Program};
ghost use Rattle.c_grammar.specs.Program.{IsProgram};
ghost use Rattle.c_judge.specs.Rules.{KeepsRules};
ghost use Rattle.c_meaning.specs.Programs.{list_of};
ghost use Rattle.c_print.specs.Program.{program_text};
ghost use Rattle.first_form.specs.Written.{written};
ghost use Rattle.read_back.specs.FitsProgram.{FitsProgram};
ghost use Rattle.headline.specs.Headline.{PerformsAsSource};
ghost use Rattle.headline.specs.Examples.{copy_source, copy_text};

/// What is written for a program of the first form can be written where the source can.
pub fn first_form_can_be_written()
    ensures { (p q : Program) → FitsProgram p → written p ≡ Some q → FitsProgram q }
{}

/// What is written for a program of the first form keeps the rules that the source keeps.
pub fn first_form_keeps_rules()
    ensures { (p q : Program) → KeepsRules p → written p ≡ Some q → KeepsRules q }
{}

/// The text that is printed for a source of the first form performs as the source does.
pub fn headline_of_first_form()
    ensures { (source : List ℕ) (p q : Program) → IsProgram (tokens_of source) p → written p ≡ Some q → PerformsAsSource list_of source (program_text q) }
{}

/// A loop that copies an array, as a text, and the text that is written for it.
pub fn worked_program()
    ensures { PerformsAsSource list_of copy_source copy_text }
{}
