// Texts that are printed as they were.
use c_loops::read_program;
use c_print::print_program;
use c_tokens::PRELUDE;
use chill_base::Text;
use std::alloc::Global;
use std::process::Abort;
use std::test::Fail;

/// Each kind of statement and of array.
const STATEMENTS: &str = "#pragma sparse csr(index, col, a, n, m, nnz)
void f(int64_t n, int64_t m, int64_t nnz, int64_t index[n+1], int64_t col[nnz], uint64_t a[nnz], uint64_t b[n][m][2], uint64_t c[n])
{
#pragma sparse inspector
  INDEX1(p);
  INDEX2(q, n+1);
  DATA1(u);
  DATA2(v, n);
  DATA3(w, 2, 3);
  GROW(p, n);
  if (n <= 1 && 3 > n && n < 4 && m >= n && m == 2) {
    p[0] = -n;
    u[0] += a[0];
  }
  for (int64_t i = 0; i < n; i++) {
    for (int64_t k = index[i]; k < index[i+1]; k++) {
      p[i] = p[i]+col[k];
    }
  }
#pragma sparse executor
  for (int64_t t1 = 0; t1 < n; t1++) {
    b[t1][0][1] = c[t1];
    b[t1][1][0] += 2;
    c[t1] -= b[t1][0][1] * a[p[t1]];
  }
}
";

/// A text that is a front, a part that stands many times, a middle, another such part, and a back.
type Parts = [&'static str; 5];

/// A subscript that is a sum of many operands.
const SUBSCRIPT: Parts = [
    "void f(int64_t n, uint64_t y[1])\n{\n  y[0",
    "+n-n",
    "",
    "",
    "] = 1;\n}\n",
];

/// Differences in brackets.
const BRACKETS: Parts = [
    "void f(int64_t n, uint64_t y[1])\n{\n  y[0] = ",
    "1 - (",
    "1 + 1",
    ")",
    ";\n}\n",
];

/// The program of the text, printed.
pub fn printed(alloc: Global, text: &[u8]) -> Result<Text, Fail> {
    let program = read_program(alloc, text).ok().ok_or("a program")?;
    Ok(print_program(alloc, &program)?)
}

/// The lines that stand before each program that is printed.
pub fn prelude(alloc: Global) -> Result<Vec<u8>, Fail> {
    let mut text = Vec::new(alloc);
    for line in &PRELUDE {
        text.extend_from_slice(line)?;
        text.push(b'\n')?;
    }
    Ok(text)
}

/// The text is printed as it is, behind the lines of the prelude.
pub fn stays(rt: &impl Abort, alloc: Global, text: &[u8]) -> Result<(), Fail> {
    let again = printed(alloc, text)?;
    let lines = prelude(alloc)?;
    assert!(rt; again.as_slice().strip_prefix(lines.as_slice()) == Some(text));
    Ok(())
}

// The text of the parts.
fn joined(alloc: Global, parts: &Parts, times: usize) -> Result<Vec<u8>, Fail> {
    let [front, open, middle, close, back] = parts;
    let mut text = Vec::new(alloc);
    text.extend_from_slice(front.as_bytes())?;
    for _ in 0..times {
        text.extend_from_slice(open.as_bytes())?;
    }
    text.extend_from_slice(middle.as_bytes())?;
    for _ in 0..times {
        text.extend_from_slice(close.as_bytes())?;
    }
    text.extend_from_slice(back.as_bytes())?;
    Ok(text)
}

#[test]
fn statements_and_brackets(rt: HostRuntime) -> Result<(), Fail> {
    let alloc = rt.alloc();
    stays(&rt, alloc, STATEMENTS.as_bytes())?;
    stays(&rt, alloc, joined(alloc, &BRACKETS, 255)?.as_slice())
}

#[test]
fn a_long_subscript(rt: HostRuntime) -> Result<(), Fail> {
    let alloc = rt.alloc();
    stays(&rt, alloc, joined(alloc, &SUBSCRIPT, 50_000)?.as_slice())
}
