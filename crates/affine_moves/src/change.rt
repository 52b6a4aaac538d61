// What a command does to the levels of a statement.
use chill_base::List;

/// How the levels of a statement change. Levels count from 1.
#[derive(Drop)]
pub enum Change {
    Stay,
    /// New level t is the t-th of these old levels; those behind them stay.
    Order(List<usize>),
    /// A new level at place `outer` counts tiles of so many values of the level.
    Tile {
        level: usize,
        size: u32,
        outer: usize,
    },
    /// The level's new value is its old one plus these multiples of the levels before it.
    Skew {
        level: usize,
        coefs: List<i32>,
    },
    /// The level's new value is its old one plus the amount.
    Shift {
        level: usize,
        amount: i32,
    },
}
