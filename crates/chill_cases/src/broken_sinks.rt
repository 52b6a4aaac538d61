// Each write fails in its turn.
use crate::calls::{Breaks, Call, EMIT, RUN, TRACE, WHOLE, WORK, ending};
use crate::texts::{COPY, FIVES, MATRIX, PRODUCT, READ_THROUGH, THREE, ZEROS};
use std::alloc::Global;
use std::process::Abort;
use std::test::Fail;

/// A call, how many bytes a write takes at most, and whether each write but the last takes so many.
type Narrow = (Call, usize, bool);

const TEXTS: [Narrow; 6] = [
    ((EMIT, "", COPY), 64, true),
    ((EMIT, "", PRODUCT), 64, true),
    ((RUN, PRODUCT, MATRIX), 16, true),
    ((RUN, PRODUCT, MATRIX), 4096, true),
    ((RUN, FIVES, THREE), 1, true),
    ((WORK, "", ""), 16, true),
];

const TRACES: [Narrow; 4] = [
    ((TRACE, READ_THROUGH, ZEROS), 1, true),
    ((TRACE, READ_THROUGH, ZEROS), 4096, false),
    ((TRACE, FIVES, THREE), 1, true),
    ((TRACE, FIVES, THREE), 4096, false),
];

// Each write of the call fails in turn: what was taken is then a front of the text, and nothing comes behind a failed write.
// Where none fails any more, the call ends as it does where none fails.
fn hold(rt: &impl Abort, alloc: Global, narrow: &Narrow) -> Result<(), Fail> {
    let (call, most, is_full) = narrow;
    let breaks = Breaks {
        most: *most,
        ..WHOLE
    };
    let whole = ending(alloc, call, breaks)?;
    let text = whole.out.bytes();
    for write in 0..512 {
        let ended = ending(alloc, call, Breaks { write, ..breaks })?;
        let taken = ended.out.bytes();
        if ended.status != 4 {
            assert_eq!(rt; ended.status, whole.status);
            assert!(rt; taken == text && ended.err.bytes() == whole.err.bytes());
            return Ok(());
        }
        assert!(rt; text.starts_with(taken) && taken.len() < text.len());
        assert!(rt; taken.len() as u64 >= write);
        assert!(rt; !*is_full || taken.len() as u64 == write.saturating_mul(*most as u64));
        assert!(rt; ended.err.bytes() == b"chill: write fault\n".as_slice());
    }
    Err(Fail::new("no end"))
}

#[test]
fn each_write_fails(rt: HostRuntime) -> Result<(), Fail> {
    for table in [TEXTS.as_slice(), TRACES.as_slice()] {
        for narrow in table {
            hold(&rt, rt.alloc(), narrow)?;
        }
    }
    Ok(())
}

#[test]
fn each_write_of_the_line_fails(rt: HostRuntime) -> Result<(), Fail> {
    let alloc = rt.alloc();
    let line = b"chill: command 1: shape 2\n".as_slice();
    for at in 0..line.len() {
        let breaks = Breaks {
            line: at as u64,
            most: 1,
            ..WHOLE
        };
        let ended = ending(alloc, &(EMIT, "shift(0,2,1)", COPY), breaks)?;
        assert_eq!(rt; ended.status, 1, "status at {at}");
        assert!(rt; ended.out.bytes().is_empty(), "text at {at}");
        assert!(rt; ended.err.bytes() == &line[..at], "line at {at}");
    }
    Ok(())
}
