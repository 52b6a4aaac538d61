// Data texts, read whole and in pieces.
ghost use Rattle.c_grammar.specs.Program.{IsProgram};
ghost use Rattle.c_judge.specs.Rules.{KeepsRules};
ghost use Rattle.c_tokens.specs.Pieces.{tokens_of};

use c_loops::read_program;
use c_tree::Program;
use chill_base::{List, Stop, Text};
use csr_data::{DataReader, Values, ValuesFault, print_values};
use std::alloc::Global;
use std::process::Abort;
use std::test::Fail;

/// A sparse product, whose data are read.
const PRODUCT: &[u8] = b"#pragma sparse csr(index, col, a, n, m, nnz)
void spmv(int64_t n, int64_t m, int64_t nnz, int64_t index[n+1], int64_t col[nnz], uint64_t a[nnz], uint64_t x[m], uint64_t y[n])
{
  for (int64_t i = 0; i < n; i++)
    for (int64_t k = index[i]; k < index[i+1]; k++)
      y[i] += a[k] * x[col[k]];
}
";

/// A copy, likewise.
const COPY: &[u8] =
    b"void f(int64_t n, uint64_t b[n], uint64_t c[n]) { for (int64_t i = 0; i < n; i++) b[i] = c[i]; }";

/// Texts that are cut short, each up to a `|`.
const SHORT: &[u8] = b"|\
    n 3|\
    n 3\nm 4\nnnz 5|\
    n 3\nm 4\nnnz 5\nindex 0 2|\
    n 3\nm 4\nnnz 5\nindex 0 2 3 5\ncol 0 2 1 0 3\na 5 6 7 8 9\nx 1 2 3 4\n";

/// Texts of which a line is none: another name, another count for a parameter, what is no number, blanks and line ends in wrong
/// places.
const LINES: &[u8] = b"n x\n|\
    n \xff\n|\
    n\n|\
    n \n|\
    n 3 4\n|\
    n 03\n|\
    n -3\n|\
    n +3\n|\
    n3\n|\
    m 3\n|\
    nn 3\n|\
    \x20n 3\n|\
    n\t3\n|\
    n 3\r\n|\
    n 18446744073709551616\n|\
    n 3\n\n|\
    n 3\nm 4\nnnz 5\nindex 0 2 3 5\ncol 0 2 1 0 3\na 5 6 7 8 9\ny 0 0 0\n|\
    n 3\nm 4\nnnz 5\nindex 0 2 3 5\ncol 0 2 1 0 3\na 5 6 7 8 18446744073709551616\n|\
    n 3\nm 4\nnnz 5\nindex 0 2 3 5\ncol 0 2 1 0 3\na 5 6 7 8,9\n|\
    n 3\nm 4\nnnz 5\nindex 0 2 3 5\ncol 0 2 1 0 3\na 5 6 7 8 9\nx 1 2 3 4\ny 0 0 0\n\n|\
    n 3\nm 4\nnnz 5\nindex 0 2 3 5\ncol 0 2 1 0 3\na 5 6 7 8 9\nx 1 2 3 4\ny 0 0 0\n |\
    n 3\nm 4\nnnz 5\nindex 0 2 3 5\ncol 0 2 1 0 3\na 5 6 7 8 9\nx 1 2 3 4\ny 0 0 0\nz 1\n";

/// Parameters past their limit, arrays of other lengths, and two faults of which the first one counts.
const COUNTS: &[u8] = b"n 16777216\n|\
    n 16777217\n|\
    n 3\nm 9223372036854775807\n|\
    n 3\nm 9223372036854775808\n|\
    n 3\nm 4\nnnz 18446744073709551615\n|\
    n 3\nm 4\nnnz 5\nindex 0 2 3 5 6\n|\
    n 3\nm 4\nnnz 5\nindex 0 2 3 5\ncol\n|\
    n 3\nm 4\nnnz 5\nindex 0 2 3 5\ncol 0 2 1 0 3\na 5 6 7 8 9\nx 1 2 3 4\ny 0 0 0 0\n|\
    n 4\nm 4\nnnz 5\nindex 0 2 3 5\n|\
    n 3\nm 4\nnnz 5\nindex 0 2 3 5\ncol 0 2 1 0 3\na 5 6 x\n|\
    n 3\nm 4\nnnz 5\nindex 0 2 3 5\ncol 0 2 1 0 3\na 5 6\nx y\n|\
    n 16777217\nm x\n";

/// Arrays that are no matrix.
const MATRICES: &[u8] =
    b"n 3\nm 4\nnnz 5\nindex 1 2 3 5\ncol 0 2 1 0 3\na 5 6 7 8 9\nx 1 2 3 4\ny 0 0 0\n|\
    n 3\nm 4\nnnz 5\nindex 1 0 3 5\ncol 0 2 1 0 3\na 5 6 7 8 9\nx 1 2 3 4\ny 0 0 0\n|\
    n 3\nm 4\nnnz 5\nindex 0 3 2 5\ncol 0 2 1 0 3\na 5 6 7 8 9\nx 1 2 3 4\ny 0 0 0\n|\
    n 3\nm 4\nnnz 5\nindex 0 3 2 1\ncol 0 2 1 0 3\na 5 6 7 8 9\nx 1 2 3 4\ny 0 0 0\n|\
    n 3\nm 4\nnnz 5\nindex 0 18446744073709551615 3 5\ncol 0 2 1 0 3\na 5 6 7 8 9\nx 1 2 3 4\ny 0 0 0\n|\
    n 3\nm 4\nnnz 5\nindex 0 2 3 4\ncol 0 2 1 0 3\na 5 6 7 8 9\nx 1 2 3 4\ny 0 0 0\n|\
    n 3\nm 4\nnnz 5\nindex 0 2 3 18446744073709551615\ncol 0 2 1 0 3\na 5 6 7 8 9\nx 1 2 3 4\ny 0 0 0\n|\
    n 3\nm 4\nnnz 5\nindex 0 2 3 6\ncol 9 2 1 0 3\na 5 6 7 8 9\nx 1 2 3 4\ny 0 0 0\n|\
    n 3\nm 4\nnnz 5\nindex 0 2 3 5\ncol 0 2 1 0 4\na 5 6 7 8 9\nx 1 2 3 4\ny 0 0 0\n|\
    n 3\nm 4\nnnz 5\nindex 0 2 3 5\ncol 0 2 4 9 4\na 5 6 7 8 9\nx 1 2 3 4\ny 0 0 0\n|\
    n 3\nm 4\nnnz 5\nindex 0 2 3 5\ncol 0 18446744073709551615 1 0 3\na 5 6 7 8 9\nx 1 2 3 4\ny 0 0 0\n|\
    n 3\nm 4\nnnz 5\nindex 1 2 3 5\ncol 0 2 1 0 3\na 5 6 7 8 9\nx 1 2 3 4\ny 0\n";

/// What a text gives: the values, printed, or its first fault.
#[derive(Drop)]
struct Answer {
    text: Text,
    fault: Option<ValuesFault>,
}

// What a reader gives that takes the text in pieces of this many bytes.
#[tactic(auto, using(crate::proofs::Laws::divides))]
fn read_by(
    rt: &impl Abort,
    alloc: Global,
    _source: &[u8],
    program: &Program,
    text: &[u8],
    size: usize,
) -> Result<Values, Stop<ValuesFault>>
    requires grammar { IsProgram (tokens_of _source.now) program.now }
    requires rules { KeepsRules program.now }
{
    let mut reader = DataReader::new(alloc, program)?;
    assert!(rt; size > 0);
    for piece in text.chunks(size) {
        assert!(rt; reader.taken() < 1000000 && piece.len() < 1000000);
        let _ = reader.feed(piece);
    }
    reader.finish()
}

fn told(alloc: Global, read: Result<Values, Stop<ValuesFault>>) -> Result<Answer, Fail> {
    match read {
        Ok(values) => Ok(Answer {
            text: print_values(alloc, &values)?,
            fault: None,
        }),
        Err(Stop::Refused(fault)) => Ok(Answer {
            text: List::new(alloc),
            fault: Some(fault),
        }),
        Err(Stop::NoMemory) => Err(Fail::new("no memory")),
    }
}

// What the text gives for this source, whether it comes whole, byte by byte or in pieces of seven bytes.
fn told_of(rt: &impl Abort, alloc: Global, source: &[u8], text: &[u8]) -> Result<Answer, Fail> {
    let Ok(program) = read_program(alloc, source) else {
        return Err(Fail::new("a program"));
    };
    let whole = told(alloc, read_by(rt, alloc, source, &program, text, 1000))?;
    for size in [1, 7] {
        let cut = told(alloc, read_by(rt, alloc, source, &program, text, size))?;
        assert!(rt; cut.fault == whole.fault);
        assert!(rt; cut.text.as_slice() == whole.text.as_slice());
    }
    Ok(whole)
}

#[test]
fn refused_data(rt: HostRuntime) -> Result<(), Fail> {
    for texts in [SHORT, LINES, COUNTS, MATRICES] {
        for text in texts.split(|b| *b == b'|') {
            let told = told_of(&rt, rt.alloc(), PRODUCT, text)?;
            assert!(rt; told.fault.is_some());
        }
    }
    Ok(())
}

#[test]
fn read_data(rt: HostRuntime) -> Result<(), Fail> {
    for (source, text) in [
        (
            PRODUCT,
            b"n 3\nm 4\nnnz 5\nindex 0 2 3 5\ncol 0 2 1 0 3\na 5 6 7 8 9\nx 1 2 3 4\ny 0 0 0\n".as_slice(),
        ),
        (COPY, b"n 2\nb 18446744073709551615 0\nc 1 10\n".as_slice()),
    ] {
        let told = told_of(&rt, rt.alloc(), source, text)?;
        assert!(rt; told.text.as_slice() == text);
    }
    Ok(())
}
