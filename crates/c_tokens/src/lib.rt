//! The tokens of a program's text.
#![tactic(auto)]

mod laws;
mod pieces;
mod prelude;
mod signs;
mod token;
mod tokens;

pub use laws::spelling_reads_back;
pub use pieces::{Margin, Piece, first_piece};
pub use prelude::{PRELUDE, prelude_lines};
pub use signs::{longest_sign, spelling};
pub use token::{Sign, Token};
pub use tokens::{Tokens, Unexpected};
