//! Systems of rows over integers: elimination of variables, exclusion and implication, in checked 128-bit numbers.
#![tactic(auto)]

mod cancel;
mod combine;
mod decide;
mod gather;
mod keep;
mod key;
mod numbers;
mod packed;
mod reduce;
mod replace;
mod signs;
mod system;
mod views;

pub use system::{SetFault, System};
