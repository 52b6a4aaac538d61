//! Rows of integer systems: forms, equalities and inequalities, what elimination and exclusion mean, and the limits that set work may pass.
#![tactic(auto)]

mod laws;
mod row;

pub use laws::{
    elimination_keeps_points, excluded_has_no_point, implied_holds, other_has_scaled_point,
    substitution_moves_points,
};
pub use row::{Aff, Excess, Row};
