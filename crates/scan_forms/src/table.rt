// The table of the reads that a scan speaks of.
ghost use Rattle.std.specs.Prelude.{◌≡◌, ◌≤◌, ◌<◌, length, IsTrue, IfOk};
ghost use Rattle.std.specs.List.{list_all};
ghost use Rattle.scan_forms.specs.Reads.{has_places};

use crate::reads::{Read, find_read};
use chill_base::{List, NoMemory};
use std::alloc::Global;

/// The reads that a scan speaks of, each once.
#[derive(Drop)]
pub struct Table {
    pub reads: List<Read>,
    pub ghost shaped: { IsTrue (list_all has_places reads) },
}

impl Table {
    pub fn new(alloc: Global) -> Table {
        Table {
            reads: List::new(alloc),
        }
    }

    pub fn as_slice(&self) -> &[Read]
        ensures value { result.now ≡ self.now.reads }
        ensures shaped { IsTrue (list_all has_places result.now) }
    {
        self.reads.as_slice()
    }

    /// The number of a read. One that isn't there yet becomes the last.
    pub fn enter(&mut self, read: Read) -> Result<usize, NoMemory>
        requires { IsTrue (has_places read) }
        ensures grown { length self.old.reads ≤ length self.new.reads }
        ensures within { IfOk result (λ at. at < length self.new.reads) }
    {
        match find_read(self.reads.as_slice(), &read) {
            Some(at) => Ok(at),
            None => {
                let at = self.reads.len();
                self.reads.push(read)?;
                Ok(at)
            }
        }
    }
}
