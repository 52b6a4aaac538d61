// Commands of a recipe.
use chill_base::{List, Name, Padding};

/// A command. Statements are counted from 0, levels from 1.
#[derive(Drop)]
pub enum Command {
    Permute {
        statement: usize,
        order: List<usize>,
    },
    Tile {
        statement: usize,
        level: usize,
        size: u32,
        outer: usize,
    },
    Skew {
        statement: usize,
        level: usize,
        coefs: List<i32>,
    },
    Shift {
        statement: usize,
        level: usize,
        amount: i32,
    },
    Fuse {
        first: usize,
        second: usize,
        level: usize,
    },
    Distribute {
        statement: usize,
        level: usize,
    },
    Unroll {
        statement: usize,
        level: usize,
        factor: u32,
    },
    Datacopy {
        statement: usize,
        level: usize,
        array: Name,
        copy: Name,
    },
    MakeDense {
        statement: usize,
        level: usize,
    },
    Compact {
        statement: usize,
        level: usize,
        name: Name,
    },
    CompactAndPad {
        statement: usize,
        level: usize,
        kind: Padding,
        name: Name,
    },
}
