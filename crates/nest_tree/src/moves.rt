// How a command changes statements.
use crate::{Form, KernelRow, Term};
use chill_base::List;
use int_rows::Aff;

/// A statement in the place of an old one.
#[derive(Drop)]
pub struct Piece {
    /// The places of the old rows that go.
    pub drops: List<usize>,
    /// Terms behind the old ones.
    pub terms: List<Term>,
    /// Rows behind the old ones that stay.
    pub rows: List<KernelRow>,
    /// Each old level as a form over the parameters, new levels and terms.
    pub old: List<Aff>,
    pub levels: List<Form>,
    pub positions: List<usize>,
}

/// The pieces of each statement, and whether the command applies to it.
#[derive(Drop)]
pub struct Moves {
    pub pieces: List<List<Piece>>,
    pub applies: List<bool>,
}
