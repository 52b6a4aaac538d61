//! Kernels: an accepted program as statements with levels, rows and terms, and the pieces by which commands change it.
#![tactic(auto)]

mod body;
mod fault;
mod form;
mod kernel;
mod made;
mod moves;
mod pattern;

pub use body::{Access, Body};
pub use fault::{CommandFault, Dependence, ShapeWhy};
pub use form::Form;
pub use kernel::{Kernel, KernelRow, Nest, Term};
pub use made::{Made, MadeWhat};
pub use moves::{Moves, Piece};
pub use pattern::Pattern;
