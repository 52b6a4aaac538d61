// How the variables of a statement stand before and after a level is compacted.

/// The counts of a statement's variables, and the place of the compacted level, which counts from 0.
#[derive(Clone, Copy)]
pub struct Counts {
    pub params: usize,
    pub levels: usize,
    pub terms: usize,
    pub level: usize,
}
