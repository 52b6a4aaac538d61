//! Commands that give the instances of statements other places by affine maps of their levels.
#![tactic(auto)]

mod change;
mod form;
mod levels;
mod moves;
mod order;
mod permute;
mod piece;
mod placed;
mod shapes;
mod shift;
mod skew;
mod tile;

pub use form::{padded, unit};
pub use levels::wide;
pub use moves::{list_of, sharers};
pub use permute::permute_moves;
pub use placed::{child_at, child_in, piece_at};
pub use shapes::is_level;
pub use shift::shift_moves;
pub use skew::skew_moves;
pub use tile::tile_moves;
