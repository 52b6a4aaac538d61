// Reading a text.
ghost use Rattle.std.specs.Prelude.{◌≡◌, ◌≤◌, ◌+◌, ◌-◌, length, IfOk};
ghost use Rattle.c_tokens.specs.Pieces.{tokens_of};
ghost use Rattle.c_tree.specs.declared.program.Program.{Program};
ghost use Rattle.c_grammar.specs.Program.{IsProgram};
ghost use Rattle.c_grammar.specs.Texts.{IsNoText, IsWrong};
ghost use Rattle.c_loops.specs.Text.{tree_of, Tells, IfRefused};

use crate::halt::Halt;
use crate::program::program;
use c_tokens::Tokens;
use c_tree::Program;
use chill_base::Stop;
use std::alloc::Global;

/// The first token, counted from 1, with which no text of the language goes on. The end counts as one more token.
#[derive(Clone, Copy, Debug, PartialEq, Eq, Drop)]
pub struct SyntaxAt {
    pub token: usize,
}

// The number of the token at which the cursor stands.
#[tactic(auto, using(crate::proofs::Whole::few_tokens))]
fn number(text: &[u8], tokens: &Tokens<'_>) -> usize
    requires { length tokens.now ≤ length (tokens_of text.now) }
    ensures { result ≡ length (tokens_of text.now) - length tokens.now + 1 }
{
    let _bytes = text.len();
    Tokens::new(text).left() - tokens.left() + 1
}

// The tree of a program's text, or the token at which the reader stands still.
#[tactic(auto, using(crate::proofs::Whole::read_leaves, crate::proofs::Whole::refused_leaves), unfolding(crate::specs::Text::tree_of))]
fn tree(alloc: Global, text: &[u8]) -> Result<Program, Stop<SyntaxAt>>
    ensures { Tells (tree_of text.now) result }
{
    let mut tokens = Tokens::new(text);
    let found = program(alloc, &mut tokens);
    match found {
        Ok(program) => {
            if tokens.peek().is_none() {
                Ok(program)
            } else {
                Err(Stop::Refused(SyntaxAt {
                    token: number(text, &tokens),
                }))
            }
        }
        Err(Halt::Unexpected) => Err(Stop::Refused(SyntaxAt {
            token: number(text, &tokens),
        })),
        Err(Halt::NoMemory) => Err(Stop::NoMemory),
    }
}

/// The tree of a program's text.
pub fn read_tree(alloc: Global, text: &[u8]) -> Result<Program, Stop<SyntaxAt>>
    // The answer of the reader on tokens.
    ensures exact { Tells (tree_of text.now) result }

    // The tree is the text's by the grammar, and there is no other.
    ensures sound { IfOk result (λ p. IsProgram (tokens_of text.now) p) }
    ensures only { IfOk result (λ p. (q : Program) → IsProgram (tokens_of text.now) q → q ≡ p) }

    // What is refused is no text: some text begins with the tokens before the token, and none goes on with it.
    ensures refused { IfRefused result (λ at. IsNoText (tokens_of text.now)) }
    ensures token { IfRefused result (λ at. IsWrong (tokens_of text.now) at.token) }
{
    tree(alloc, text)
}
