// How the values of a sparse matrix are laid out in padded arrays.

/// A layout of a padded matrix: dense blocks, diagonals, or rows of one width.
#[derive(Clone, Copy, Debug, PartialEq, Eq)]
pub enum Padding {
    Block,
    Diag,
    Rows,
}
