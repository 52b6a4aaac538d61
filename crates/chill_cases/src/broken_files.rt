// Each call of the files fails in its turn.
use crate::calls::{Breaks, Call, EMIT, RUN, TRACE, WHOLE, WORK, ending};
use crate::texts::{COPY, FIVES, PRODUCT, THREE, TWO};
use std::alloc::Global;
use std::process::Abort;
use std::test::Fail;

/// A call, how many calls of the first and of the second file it wants, and its status and its line where none fails. A file is
/// opened, read and found to be at its end, and an empty one is opened and found so. A file is read to its end before it is
/// judged, and the second one is opened behind that.
type Wanted = (Call, [u64; 2], u8, &'static str);

const EMITTED: [Wanted; 4] = [
    ((EMIT, "", COPY), [2, 3], 0, ""),
    ((EMIT, "", PRODUCT), [2, 3], 0, ""),
    (
        (EMIT, "shift(0,2,1)", COPY),
        [3, 3],
        1,
        "chill: command 1: shape 2\n",
    ),
    ((EMIT, "shift", COPY), [3, 0], 1, "chill: recipe line 1\n"),
];

/// Runs and traces alike: the program and its data, and the same as above.
const RUNS: [([&str; 2], [u64; 2], u8, &str); 4] = [
    ([FIVES, TWO], [3, 3], 0, ""),
    (
        [FIVES, THREE],
        [3, 3],
        1,
        "chill: executor 0.2.0: outside y\n",
    ),
    ([FIVES, "n x\ny 1 2\n"], [3, 3], 1, "chill: data: line 1\n"),
    (["void", TWO], [3, 0], 1, "chill: syntax at token 2\n"),
];

// Where the call of the files with this number fails, nothing but this line is written.
fn hold_broken(
    rt: &impl Abort,
    alloc: Global,
    call: &Call,
    file: u64,
    line: &str,
) -> Result<(), Fail> {
    let ended = ending(alloc, call, Breaks { file, ..WHOLE })?;
    assert_eq!(rt; ended.status, 3, "status at {file}");
    assert!(rt; ended.out.bytes().is_empty(), "text at {file}");
    assert!(rt; ended.err.bytes() == line.as_bytes(), "line at {file}");
    Ok(())
}

// Each call of the files fails in its turn, and then one that isn't made.
fn hold(rt: &impl Abort, alloc: Global, wanted: &Wanted) -> Result<(), Fail> {
    let (call, [first, second], status, line) = *wanted;
    let whole = ending(alloc, &call, WHOLE)?;
    for file in 0..first {
        hold_broken(rt, alloc, &call, file, "chill: file 1: read fault\n")?;
    }
    let all = first.saturating_add(second);
    for file in first..all {
        hold_broken(rt, alloc, &call, file, "chill: file 2: read fault\n")?;
    }
    let behind = ending(alloc, &call, Breaks { file: all, ..WHOLE })?;
    assert_eq!(rt; (whole.status, behind.status), (status, status), "{line}");
    assert!(rt; behind.out.bytes() == whole.out.bytes(), "{line}");
    assert!(rt; whole.err.bytes() == line.as_bytes(), "{line}");
    assert!(rt; behind.err.bytes() == line.as_bytes(), "{line}");
    Ok(())
}

#[test]
fn each_call_of_the_files_fails(rt: HostRuntime) -> Result<(), Fail> {
    let alloc = rt.alloc();
    for wanted in &EMITTED {
        hold(&rt, alloc, wanted)?;
    }
    for &([first, second], calls, status, line) in &RUNS {
        hold(&rt, alloc, &((RUN, first, second), calls, status, line))?;
        hold(&rt, alloc, &((TRACE, first, second), calls, status, line))?;
    }
    hold(&rt, alloc, &((WORK, "", ""), [0, 0], 0, ""))
}
