//! Where the tokens of a program's text stand.
#![tactic(auto)]

mod caret;
mod laws;
mod line;
mod marks;

pub use caret::{Caret, caret_behind};
pub use laws::tokens_have_marks;
pub use line::place_line;
pub use marks::{Mark, TooFew, nth_mark};
