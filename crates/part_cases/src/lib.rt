//! Worked cases of the parts of the language: tokens, what is read and printed, and data in pieces.
#![tactic(auto)]

#[cfg(test)]
mod expressions;
#[cfg(test)]
mod feeding;
#[cfg(test)]
mod making;
#[cfg(test)]
mod reading_back;
#[cfg(test)]
mod tokens;
#[cfg(test)]
mod written;
