//! The words of a call, read with `clap`.
#![tactic(auto)]

mod number;
mod request;
mod words;

pub use request::{Request, WordsFault, request_of};
