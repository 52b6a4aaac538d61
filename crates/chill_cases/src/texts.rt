// The texts of the calls.

/// A copy of an array.
pub const COPY: &str =
    "void f(int64_t n, uint64_t b[n], uint64_t c[n]) { for (int64_t i = 0; i < n; i++) b[i] = c[i]; }
";

/// A sparse product.
pub const PRODUCT: &str = "#pragma sparse csr(index, col, a, n, m, nnz)
void spmv(int64_t n, int64_t m, int64_t nnz, int64_t index[n+1], int64_t col[nnz], uint64_t a[nnz], uint64_t x[m], uint64_t y[n])
{
  for (int64_t i = 0; i < n; i++)
    for (int64_t k = index[i]; k < index[i+1]; k++)
      y[i] += a[k] * x[col[k]];
}
";

/// Its data.
pub const MATRIX: &str =
    "n 3\nm 4\nnnz 5\nindex 0 2 3 5\ncol 0 2 1 0 3\na 5 6 7 8 9\nx 1 2 3 4\ny 0 0 0\n";

/// A program on an array of two cells, which goes past them where n is 3.
pub const FIVES: &str =
    "void f(int64_t n, uint64_t y[2]) { for (int64_t i = 0; i < n; i++) y[i] += 5; }";

pub const TWO: &str = "n 2\ny 1 2\n";

pub const THREE: &str = "n 3\ny 1 2\n";

/// An index array of two extents, read through another one.
pub const READ_THROUGH: &str = "void g(int64_t n, uint64_t y[n])
{
#pragma sparse inspector
  INDEX1(c);
  INDEX2(d, n);
  GROW(c, n);
  GROW(d, 2);
  for (int64_t i = 0; i < n; i++) {
    c[i] = n-1-i;
    d[1][i] = c[i]*2;
  }
#pragma sparse executor
  for (int64_t i = 0; i < n; i++)
    for (int64_t k = d[0][i]; k < d[1][c[i]]; k++)
      y[i] += 1;
}
";

pub const ZEROS: &str = "n 2\ny 0 0\n";
