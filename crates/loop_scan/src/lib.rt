//! From a kernel back to a program: its loops and guards, and what they print.
#![tactic(auto)]

mod ask;
mod assignment;
mod group;
mod head;
mod loops;
mod nests;
mod part;
mod project;
mod safe;
mod sides;

pub use loops::scan;
pub use scan_forms::ScanFault;
