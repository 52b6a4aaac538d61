// Lists and boxes that clauses see as what they hold.
pub use sqlite_items::{Boxed, Items as List};

/// The bytes of a text.
pub type Text = List<u8>;
