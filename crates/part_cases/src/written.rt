// Texts that commands write, printed as they were. No recipe is applied to these: they have an inspector, or aren't affine.
use crate::reading_back::stays;
use std::test::Fail;

/// The texts, with an empty line between two: a tiled loop inside a statement that is less deep, fused loops, unrolled turns,
/// copies, blocks, diagonals, rows of one width, kept columns, and blocks behind another loop.
const WRITTEN: &str = "#pragma sparse csr(index, col, a, n, m, nnz)
void spmv(int64_t n, int64_t m, int64_t nnz, int64_t index[n+1], int64_t col[nnz], uint64_t a[nnz], uint64_t x[m], uint64_t y[n])
{
  for (int64_t t1 = 0; t1 < n; t1++) {
    for (int64_t t2 = ceild(t1-1, 2); t2 < floord(t1, 2)+1; t2++) {
      y[t1] = 0;
      for (int64_t t3 = index[t1]; t3 < index[t1+1]; t3++) {
        y[t1] += a[t3] * x[col[t3]];
      }
    }
  }
}

void f(int64_t n, int64_t m, uint64_t b[n], uint64_t d[m])
{
  for (int64_t t1 = min(0, 0); t1 < max(n, m); t1++) {
    if (t1 >= 0 && -t1+n-1 >= 0) {
      b[t1] = 1;
    }
    if (t1 >= 0 && -t1+m-1 >= 0) {
      d[t1] = 2;
    }
  }
}

void f(int64_t n, uint64_t b[10], uint64_t c[10])
{
  for (int64_t t1 = 0; t1 < floord(6, 4)+1; t1++) {
    b[4*t1] = c[4*t1];
    b[4*t1+1] = c[4*t1+1];
    b[4*t1+2] = c[4*t1+2];
    b[4*t1+3] = c[4*t1+3];
  }
  for (int64_t t1 = max(0, ceild(7, 4)); t1 < floord(9, 4)+1; t1++) {
    for (int64_t t2 = 0; t2 < min(4, -4*t1+10); t2++) {
      b[4*t1+t2] = c[4*t1+t2];
    }
  }
}

void f(int64_t n, uint64_t c[8], uint64_t d[8])
{
#pragma sparse inspector
  DATA1(e);
  GROW(e, 8);
#pragma sparse executor
  for (int64_t t1 = 0; t1 < 8; t1++) {
    e[t1] = c[t1];
  }
  for (int64_t t1 = 0; t1 < 8; t1++) {
    d[t1] = e[t1];
  }
}

void f(int64_t n, uint64_t d[n], uint64_t x[1])
{
#pragma sparse inspector
  DATA1(e);
  GROW(e, 1);
#pragma sparse executor
  for (int64_t t1 = ceild(-3, 4); t1 < floord(n-1, 4)+1; t1++) {
    for (int64_t t2 = 0; t2 < 1; t2++) {
      if (4*t1+3 >= 0 && -4*t1+n-1 >= 0) {
        e[t2] = x[t2];
      }
    }
    for (int64_t t2 = max(0, 4*t1); t2 < min(n, 4*t1+4); t2++) {
      d[t2] = e[0];
    }
  }
}

void f(int64_t n, uint64_t d[n][n][n], uint64_t x[4])
{
#pragma sparse inspector
  DATA1(c);
  GROW(c, 1);
#pragma sparse executor
  for (int64_t t1 = -n+1; t1 < 1; t1++) {
    for (int64_t t2 = t1; t2 < min(t1+1, t1+4); t2++) {
      if (-t1 >= 0 && -t1 >= 0 && t1+n-1 >= 0) {
        c[-t1+t2] = x[-t1+t2];
      }
    }
    for (int64_t t2 = 0; t2 < n; t2++) {
      for (int64_t t3 = -t1; t3 < min(-t1+n, n); t3++) {
        if (-t1 >= 0) {
          d[t1+t3][t3][t2] = c[0];
        }
      }
    }
  }
}

#pragma sparse csr(index, col, a, n, m, nnz)
void spmv(int64_t n, int64_t m, int64_t nnz, int64_t index[n+1], int64_t col[nnz], uint64_t a[nnz], uint64_t x[m], uint64_t y[n])
{
#pragma sparse inspector
  INDEX1(b_ptr);
  INDEX1(b_val);
  INDEX1(b_num);
  INDEX1(b_mark);
  DATA3(b_lay, 2, 2);
  GROW(b_ptr, ceild(n, 2)+1);
  GROW(b_num, 1);
  GROW(b_mark, max(0, floord(m-1, 2)-floord(0, 2)+1));
  for (int64_t t1 = 0; t1 < n; t1++) {
    for (int64_t t2 = index[t1]; t2 < index[t1+1]; t2++) {
      if (b_mark[floord(col[t2], 2)-floord(0, 2)] <= b_ptr[floord(t1, 2)]) {
        GROW(b_val, 1);
        GROW(b_lay, 1);
        b_val[b_num[0]] = floord(col[t2], 2);
        b_num[0] = b_num[0]+1;
        b_mark[floord(col[t2], 2)-floord(0, 2)] = b_num[0];
      }
      b_lay[b_mark[floord(col[t2], 2)-floord(0, 2)]-1][t1-2*floord(t1, 2)][col[t2]-2*floord(col[t2], 2)] += a[t2];
    }
    b_ptr[floord(t1, 2)+1] = b_num[0];
  }
#pragma sparse executor
  for (int64_t t1 = ceild(-1, 2); t1 < floord(n-1, 2)+1; t1++) {
    for (int64_t t2 = b_ptr[t1]; t2 < b_ptr[t1+1]; t2++) {
      for (int64_t t3 = max(0, 2*t1); t3 < min(n, 2*t1+2); t3++) {
        for (int64_t t4 = max(0, 2*b_val[t2]); t4 < min(m, 2*b_val[t2]+2); t4++) {
          y[t3] += b_lay[t2][-2*t1+t3][t4-2*b_val[t2]] * x[t4];
        }
      }
    }
  }
}

#pragma sparse csr(index, col, a, n, m, nnz)
void spmv(int64_t n, int64_t m, int64_t nnz, int64_t index[n+1], int64_t col[nnz], uint64_t a[nnz], uint64_t x[m], uint64_t y[n])
{
#pragma sparse inspector
  INDEX1(b_ptr);
  INDEX1(b_val);
  INDEX1(b_num);
  INDEX1(b_mark);
  DATA2(b_lay, n);
  GROW(b_ptr, 2);
  GROW(b_num, 1);
  GROW(b_mark, max(0, n+m-1));
  for (int64_t t1 = 0; t1 < n; t1++) {
    for (int64_t t2 = index[t1]; t2 < index[t1+1]; t2++) {
      if (b_mark[-t1+n+col[t2]-1] <= b_ptr[0]) {
        GROW(b_val, 1);
        GROW(b_lay, 1);
        b_val[b_num[0]] = -t1+col[t2];
        b_num[0] = b_num[0]+1;
        b_mark[-t1+n+col[t2]-1] = b_num[0];
      }
      b_lay[b_mark[-t1+n+col[t2]-1]-1][t1] += a[t2];
    }
    b_ptr[1] = b_num[0];
  }
#pragma sparse executor
  for (int64_t t1 = b_ptr[0]; t1 < b_ptr[1]; t1++) {
    for (int64_t t2 = max(0, -b_val[t1]); t2 < min(n, m-b_val[t1]); t2++) {
      y[t2] += b_lay[t1][t2] * x[t2+b_val[t1]];
    }
  }
}

#pragma sparse csr(index, col, a, n, m, nnz)
void spmv(int64_t n, int64_t m, int64_t nnz, int64_t index[n+1], int64_t col[nnz], uint64_t a[nnz], uint64_t x[m], uint64_t y[n])
{
#pragma sparse inspector
  INDEX1(b_wid);
  GROW(b_wid, 1);
  for (int64_t t1 = 0; t1 < n; t1++) {
    if (b_wid[0] < index[t1+1]-index[t1]) {
      b_wid[0] = index[t1+1]-index[t1];
    }
  }
  DATA2(b_lay, b_wid[0]);
  INDEX2(b_lcol, b_wid[0]);
  GROW(b_lay, n);
  GROW(b_lcol, n);
  for (int64_t t1 = 0; t1 < n; t1++) {
    for (int64_t t2 = index[t1]; t2 < index[t1+1]; t2++) {
      b_lay[t1][t2-index[t1]] += a[t2];
      b_lcol[t1][t2-index[t1]] = col[t2];
    }
  }
#pragma sparse executor
  for (int64_t t1 = 0; t1 < n; t1++) {
    for (int64_t t2 = 0; t2 < b_wid[0]; t2++) {
      y[t1] += b_lay[t1][t2] * x[b_lcol[t1][t2]];
    }
  }
}

#pragma sparse csr(index, col, a, n, m, nnz)
void spmv(int64_t n, int64_t m, int64_t nnz, int64_t index[n+1], int64_t col[nnz], uint64_t a[nnz], uint64_t x[m], uint64_t y[n])
{
#pragma sparse inspector
  INDEX1(b_ptr);
  INDEX1(b_val);
  INDEX1(b_num);
  INDEX1(b_mark);
  GROW(b_ptr, n+1);
  GROW(b_num, 1);
  GROW(b_mark, max(0, m));
  for (int64_t t1 = 0; t1 < n; t1++) {
    for (int64_t t2 = index[t1]; t2 < index[t1+1]; t2++) {
      if (b_mark[col[t2]] <= b_ptr[t1]) {
        GROW(b_val, 1);
        b_val[b_num[0]] = col[t2];
        b_num[0] = b_num[0]+1;
        b_mark[col[t2]] = b_num[0];
      }
    }
    b_ptr[t1+1] = b_num[0];
  }
#pragma sparse executor
  for (int64_t t1 = 0; t1 < n; t1++) {
    for (int64_t t2 = b_ptr[t1]; t2 < b_ptr[t1+1]; t2++) {
      for (int64_t t3 = index[t1]; t3 < index[t1+1]; t3++) {
        if (b_val[t2] >= 0 && m-b_val[t2]-1 >= 0 && b_val[t2]-col[t3] == 0) {
          y[t1] += a[t3] + x[b_val[t2]];
        }
      }
    }
  }
}

#pragma sparse csr(index, col, a, n, m, nnz)
void spmv(int64_t n, int64_t m, int64_t nnz, int64_t index[n+1], int64_t col[nnz], uint64_t a[nnz], uint64_t x[m], uint64_t y[n])
{
#pragma sparse inspector
  INDEX1(b_ptr);
  INDEX1(b_val);
  INDEX1(b_num);
  INDEX1(b_mark);
  DATA3(b_lay, 2, 2);
  GROW(b_ptr, ceild(n, 2)+1);
  GROW(b_num, 1);
  GROW(b_mark, max(0, floord(m-1, 2)-floord(0, 2)+1));
  for (int64_t t1 = 0; t1 < n; t1++) {
    for (int64_t t2 = index[t1]; t2 < index[t1+1]; t2++) {
      if (b_mark[floord(col[t2], 2)-floord(0, 2)] <= b_ptr[floord(t1, 2)]) {
        GROW(b_val, 1);
        GROW(b_lay, 1);
        b_val[b_num[0]] = floord(col[t2], 2);
        b_num[0] = b_num[0]+1;
        b_mark[floord(col[t2], 2)-floord(0, 2)] = b_num[0];
      }
      b_lay[b_mark[floord(col[t2], 2)-floord(0, 2)]-1][t1-2*floord(t1, 2)][col[t2]-2*floord(col[t2], 2)] += a[t2];
    }
    b_ptr[floord(t1, 2)+1] = b_num[0];
  }
#pragma sparse executor
  for (int64_t t1 = 0; t1 < n; t1++) {
    y[t1] = 0;
  }
  for (int64_t t1 = ceild(-1, 2); t1 < floord(n-1, 2)+1; t1++) {
    for (int64_t t2 = b_ptr[t1]; t2 < b_ptr[t1+1]; t2++) {
      for (int64_t t3 = max(0, 2*t1); t3 < min(n, 2*t1+2); t3++) {
        for (int64_t t4 = max(0, 2*b_val[t2]); t4 < min(m, 2*b_val[t2]+2); t4++) {
          y[t3] += b_lay[t2][-2*t1+t3][t4-2*b_val[t2]] * x[t4];
        }
      }
    }
  }
}";

#[test]
fn written_texts(rt: HostRuntime) -> Result<(), Fail> {
    let alloc = rt.alloc();
    for text in WRITTEN.split("\n\n") {
        let text = format!(in alloc; "{text}\n")?;
        stays(&rt, alloc, text.as_bytes())?;
    }
    Ok(())
}
