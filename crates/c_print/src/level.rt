// How tightly an expression binds.

/// What stands outermost in a printed expression.
#[derive(Clone, Copy, Debug, PartialEq, Eq)]
pub enum Level {
    /// A sum, a difference, or what begins with `-`.
    Sum,
    Product,
    /// What needs no parentheses anywhere.
    Atom,
}
