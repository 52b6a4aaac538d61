// What a reader holds of a data text.
ghost use Rattle.std.specs.Prelude.{◌≡◌, ◌≤◌, ◌<◌, ◌+◌, [], length, take, None, true, false};
ghost use Rattle.std.specs.Option.{option_to_list};
ghost use Rattle.csr_data.specs.Extents.{Stores};
ghost use Rattle.csr_data.specs.Lines.{shape_at};
ghost use Rattle.csr_data.specs.Parameters.{names_of, AreSmall};
ghost use Rattle.csr_data.specs.Signature.{IsSignature};

use crate::shape::Shape;
use crate::values::Values;
use c_tree::{Array, Program};
use chill_base::Name;
use raw_store::Cells;
use std::alloc::Global;

/// What a line is about.
#[derive(Clone, Copy)]
pub(crate) enum Wanted<'a> {
    Parameter(Name),
    Array(&'a Array),
}

/// The lines before, the numbers of the open line, and the digits at hand as a number. No text is kept.
#[derive(Drop)]
pub(crate) struct Held<'a> {
    pub(crate) alloc: Global,
    pub(crate) program: &'a Program,
    /// What the lines before gave.
    pub(crate) values: Values,
    /// How many lines have ended.
    pub(crate) lines: usize,
    /// The extents of the line at hand.
    pub(crate) shape: Shape,
    /// Whether a byte of the line has come.
    pub(crate) begun: bool,
    /// Whether the blank behind the line's name has come.
    pub(crate) headed: bool,
    /// How many bytes of the line's name have come.
    pub(crate) matched: usize,
    /// The digits at hand.
    pub(crate) token: Option<u64>,
    /// How many numbers of the line have come.
    pub(crate) found: u64,
    /// The first of them, as many as the line wants.
    pub(crate) cells: Cells,
    /// How many bytes have come.
    pub(crate) read: u64,
    ghost signature: { IsSignature program.now },
    ghost few: { lines ≤ length program.now.params + length program.now.arrays },
    ghost line_is_open: { begun ≡ true → lines < length program.now.params + length program.now.arrays },
    ghost fresh: { begun ≡ false → (headed ≡ false) × (matched ≡ 0) },
    ghost no_numbers: { headed ≡ false → (found ≡ 0) × (cells ≡ []) × (token ≡ None) },
    ghost small: { found + length (option_to_list token) ≤ read },
    ghost names: { names_of values.params.items ≡ take lines program.now.params },
    ghost parameters: { AreSmall values.params.items },
    ghost extents: { shape ≡ shape_at program.now values.params.items lines },
    ghost stored: { Stores shape found cells },
}
