//! Reads a recipe: a list of commands, one a line.
#![tactic(auto)]

mod command;
mod commands;
mod cursor;
mod recipe;
mod words;

pub use command::Command;
pub use recipe::{RecipeFault, read_recipe};
