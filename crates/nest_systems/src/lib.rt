//! Systems of rows that speak of statements: their variables, the ranges of what they read, and what is left of a
//! statement's rows at a level.
#![tactic(auto)]

mod access;
mod alike;
mod arguments;
mod choose;
mod copy;
mod direct;
mod extent;
mod instance;
mod needs;
mod own;
mod pattern;
mod placing;
mod project;
mod range;
mod seating;
mod seats;
mod span;
mod sums;
mod system;
mod widen;

pub use access::{accesses, subscripts};
pub use arguments::{Arguments, argument_rows};
pub use choose::Chosen;
pub use copy::{copy_form, copy_forms, copy_row, copy_rows, copy_term};
pub use direct::{direct_rows, is_direct, is_ready};
pub use extent::{extent_form, zero_form};
pub use instance::{Instance, end_names, make_instance};
pub use own::{Own, own_system};
pub use pattern::sparse_pattern;
pub use project::{Projection, nest_system, plain_rows, project_level, project_nest};
pub use range::{Span, argument_span, is_name, parameter_form, value_span};
pub use seating::take_seats;
pub use seats::{Places, Seats};
pub use span::{high_row, is_there, low_row, unit_form};
pub use sums::{number_at, stopped_difference, stopped_product, stopped_sum};
pub use system::{begin_system, place_rows, push_end_ranges};
pub use widen::{extended_terms, widened_form};
