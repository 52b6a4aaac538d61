// A call of the program on two files in memory, and how it ends.
use chill_base::{List, MemFiles, MemSink, NoMemory};
use chill_top::chill;
use outcomes::status;
use std::alloc::Global;
use std::test::Fail;

/// The names of the files of a call.
const FIRST: &str = "first";

const SECOND: &str = "second";

/// A call: its words, and the texts of its two files.
pub type Call = ([&'static str; 3], &'static str, &'static str);

pub const EMIT: [&str; 3] = ["emit", FIRST, SECOND];

pub const RUN: [&str; 3] = ["run", FIRST, SECOND];

pub const TRACE: [&str; 3] = ["trace", FIRST, SECOND];

pub const WORK: [&str; 3] = ["work", "1", "2"];

/// The calls of the files and the writes that fail, by their numbers, and how many bytes a write takes at most.
#[derive(Clone, Copy)]
pub struct Breaks {
    pub file: u64,
    pub write: u64,
    pub line: u64,
    pub most: usize,
}

/// How a call ended, and what it wrote.
#[derive(Drop)]
pub struct Ended {
    pub status: u8,
    pub out: MemSink,
    pub err: MemSink,
}

/// Nothing fails.
pub const WHOLE: Breaks = Breaks {
    file: u64::MAX,
    write: u64::MAX,
    line: u64::MAX,
    most: 4096,
};

// A sink that fails at the write with this number.
fn sink(alloc: Global, most: usize, failing: u64) -> Result<MemSink, NoMemory> {
    MemSink::new(
        alloc,
        65536,
        most.max(1),
        List::from_slice(alloc, &[failing])?,
    )
}

/// Makes the call with what breaks.
pub fn ending(alloc: Global, call: &Call, breaks: Breaks) -> Result<Ended, Fail> {
    let (words, first, second) = call;
    let mut files = MemFiles::new(alloc, List::from_slice(alloc, &[breaks.file])?);
    files.add(FIRST, first.as_bytes())?;
    files.add(SECOND, second.as_bytes())?;
    let mut out = sink(alloc, breaks.most, breaks.write)?;
    let mut err = sink(alloc, breaks.most, breaks.line)?;
    let mut owned = Vec::new(alloc);
    for word in words {
        owned.push(String::from_str(alloc, word)?)?;
    }
    let outcome = chill(alloc, owned.as_slice(), &mut files, &mut out, &mut err);
    let status = status(&outcome);
    Ok(Ended { status, out, err })
}
