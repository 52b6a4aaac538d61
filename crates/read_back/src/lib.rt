//! The text that is printed for a program reads back to that program. Each function here carries one law as its contract.
#![tactic(auto)]

ghost use Rattle.std.specs.Prelude.{◌≡◌, ◌<◌, ◌^◌, ℕ, ◌∷◌, ◌++◌, [], codes, decimal};
ghost use Rattle.c_tokens.specs.declared.token.Token.TheVariants as token;
ghost use Rattle.c_tokens.specs.Pieces.{tokens_of, tokens_after};
ghost use Rattle.c_tree.specs.declared.index.Index.{Index};
ghost use Rattle.c_tree.specs.declared.data.Expr.{Expr};
ghost use Rattle.c_tree.specs.declared.statement.Stmt.{Stmt};
ghost use Rattle.c_tree.specs.declared.program.Program.{Program};
ghost use Rattle.c_grammar.specs.declared.pieces.Section.{Section};
ghost use Rattle.c_grammar.specs.Index.{IsIndex};
ghost use Rattle.c_grammar.specs.Data.{IsData};
ghost use Rattle.c_grammar.specs.Statement.{IsStatement};
ghost use Rattle.c_grammar.specs.Program.{IsProgram};
ghost use Rattle.c_print.specs.Index.{printed, cell_text};
ghost use Rattle.c_print.specs.Data.{data_printed};
ghost use Rattle.c_print.specs.Statement.{statement_text};
ghost use Rattle.c_print.specs.Program.{program_text};
ghost use Rattle.read_back.specs.Names.{IsName, Name, Text, Ends, AreBlanks};
ghost use Rattle.read_back.specs.Fits.{FitsIndex, FitsData};
ghost use Rattle.read_back.specs.FitStatements.{FitsStatement};
ghost use Rattle.read_back.specs.FitsProgram.{FitsProgram};
ghost use Rattle.read_back.specs.Examples.{nested};

/// A name is one token before any text that doesn't go on with a letter, a digit or `_`.
pub fn name_reads_back()
    ensures { (x : Name) (rest : Text) → IsName x → Ends rest → tokens_of (x ++ rest) ≡ token.Name x ∷ tokens_after rest }
{}

/// So is a number in decimal digits.
pub fn number_reads_back()
    ensures { (n : ℕ) (rest : Text) → n < 2 ^ 64 → Ends rest → tokens_of (decimal n ++ rest) ≡ token.Number n ∷ tokens_after rest }
{}

/// The text of an index expression is that expression by the grammar, within as many brackets as it needs.
pub fn index_reads_back()
    ensures { (b : ℕ) (e : Index) (rest : Text) → FitsIndex b e → Ends rest → IsIndex b (tokens_after ((printed e).text ++ rest)) e (tokens_after rest) }
{}

/// So is the text of a data expression.
pub fn data_reads_back()
    ensures { (b : ℕ) (e : Expr) (rest : Text) → FitsData b e → Ends rest → IsData b (tokens_after ((data_printed cell_text e).text ++ rest)) e (tokens_after rest) }
{}

/// The lines of a statement, behind any indent, are that statement by the grammar.
pub fn statement_reads_back()
    ensures { (section : Section) (b l g : ℕ) (x : Stmt) (indent rest : Text) → FitsStatement section b l g x → AreBlanks indent
        → IsStatement section b l g (tokens_of (statement_text x indent ++ rest)) x (tokens_of rest) }
{}

/// The text of a program that can be written is that program by the grammar.
pub fn program_reads_back()
    ensures { (p : Program) → FitsProgram p → IsProgram (tokens_of (program_text p)) p }
{}

/// The program of a text can be written.
pub fn program_of_text_fits()
    ensures { (text : Text) (p : Program) → IsProgram (tokens_of text) p → FitsProgram p }
{}

/// What is printed for the program of a text reads back to that program, and to no other.
pub fn printed_program_reads_back()
    ensures reads { (text : Text) (p : Program) → IsProgram (tokens_of text) p → IsProgram (tokens_of (program_text p)) p }
    ensures only { (text : Text) (p q : Program) → IsProgram (tokens_of text) p → IsProgram (tokens_of (program_text p)) q → q ≡ p }
{}

/// Programs of texts with the same printed text are one.
pub fn printed_text_tells_program()
    ensures { (p q : Program) → FitsProgram p → FitsProgram q → program_text p ≡ program_text q → p ≡ q }
{}

/// Brackets stand where the tree needs them: here one pair, so one bracket is enough.
pub fn worked_index()
    ensures text { (printed nested).text ≡ codes "a-(b-2*c)" }
    ensures fits { FitsIndex 1 nested }
    ensures reads { IsIndex 1 (tokens_after (codes "a-(b-2*c)")) nested [] }
{}
