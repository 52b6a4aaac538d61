// Index values in cells: a cell holds its number modulo 2^64.
ghost use Rattle.std.specs.Prelude.{◌≡◌};
ghost use Rattle.c_run.specs.Arrays.{signed};

/// The number that a cell of an index array holds.
pub(crate) fn number_of(cell: u64) -> i64
    ensures { result ≡ signed cell }
{
    if cell < 1 << 63 {
        cell as i64
    } else {
        -((u64::MAX - cell) as i64) - 1
    }
}

/// The cell that holds the number.
pub(crate) fn cell_of(number: i64) -> u64
    ensures { signed result ≡ number }
{
    if number < 0 {
        u64::MAX - (-(number + 1)) as u64
    } else {
        number as u64
    }
}
