// Laws of the tokens, which need no code.
ghost use Rattle.std.specs.Prelude.{◌≡◌, ◌≢◌, [], ◌∷◌};
ghost use Rattle.c_tokens.specs.declared.token.Token.TheVariants as token;
ghost use Rattle.c_tokens.specs.Signs.{spelling};
ghost use Rattle.c_tokens.specs.Pieces.{tokens_of};

use crate::Sign;

/// Each sign and each word of the language is read back from its own text.
#[tactic(auto, using(crate::proofs::ReadsBack::reads_back))]
pub fn spelling_reads_back(sign: Sign)
    requires { sign ≢ Sign.Reserved }
    ensures { tokens_of (spelling sign) ≡ token.Sign sign ∷ [] }
{}
