// Laws of places, which need no code.
ghost use Rattle.std.specs.Prelude.{◌≡◌, map};
ghost use Rattle.c_tokens.specs.Pieces.{tokens_of};
ghost use Rattle.token_places.specs.Marks.{marks_of};

/// Each token of a text has its place, in their order.
#[tactic(auto, using(crate::proofs::Tokens::marks_are_tokens))]
pub fn tokens_have_marks(text: &[u8])
    ensures { map (λ m. m.token) (marks_of text.now) ≡ tokens_of text.now }
{
    let _ = text;
}
