// What is stored beside the kept values.
use chill_base::Name;

/// What is stored beside the kept values.
#[derive(Clone, Copy)]
pub enum Layout {
    /// Nothing.
    Plain,
    /// A dense block of so many rows and columns for each kept value.
    Block { lay: Name, rows: i64, cols: i64 },
    /// A diagonal for each kept value.
    Diag { lay: Name },
}
