//! The data of a program: read from a text in any pieces, held in cells, printed, and made for a measured run.
#![tactic(auto)]

mod fault;
mod generator;
mod held;
mod line;
mod lookup;
mod matrix;
mod parts;
mod print;
mod reader;
mod shape;
mod values;

pub use fault::{CsrWhy, ValuesFault};
pub use generator::generate;
pub use lookup::parameter_value;
pub use print::{print_values, push_array, push_parameters};
pub use reader::DataReader;
pub use values::{Parameter, Table, Values};
