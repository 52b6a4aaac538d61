//! What the definitions of kernels, pieces and runs mean: each function here carries one law as its contract. Worked
//! instances stand in `worked_laws`, those of runs and scans in `scan_laws`.
#![tactic(auto)]

mod commands;
mod dependence;
mod kernels;
mod order;
mod runs;

pub use commands::{
    permute_is_one_to_one, place_is_one_to_one, shift_is_one_to_one, skew_is_one_to_one,
    skew_keeps_order, tile_is_one_to_one, unroll_is_one_to_one,
};
pub use dependence::{excluded_systems_keep_order, tested_command_keeps_effect};
pub use kernels::{
    fitting_piece_makes, made_kernel_has_moved_list, one_piece_each, rewritten_stands_for_old,
    terms_have_their_readings,
};
pub use order::{
    carriers_tell_order, kernel_has_one_list, members_tell_sorted_list, order_keeps_effect,
    place_tells_instance, places_have_an_order,
};
pub use runs::{
    direct_row_bounds_level, executor_performs_its_loops, leaves_tell_performed,
    scan_has_kernel_list, small_expression_has_value,
};
