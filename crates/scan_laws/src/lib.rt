//! Executors that are printed for kernels: each function here carries one law, or a worked case of one, as its contract.
#![tactic(auto)]

mod scans;
mod worked;

pub use scans::{
    direct_rows_are_bounds, printed_executor_has_kernel_list, rows_make_sound_bounds,
    scanned_kernel_has_its_list,
};
pub use worked::{
    worked_alone, worked_bounds, worked_executor, worked_printing, worked_rows, worked_scan,
    worked_size,
};
