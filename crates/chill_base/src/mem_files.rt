// Files in memory, which fail at the calls that they are told to.
ghost use Rattle.std.specs.Prelude.{◌≡◌, ◌≤◌, ◌<◌, [], ◌++◌, length, min, take, drop, slice_index_or, slice_set, IfSome, OnOk, OnErr, None};
ghost use Rattle.chill_base.specs.Outside.{Opens, Reads};
ghost use Rattle.chill_base.specs.MemSink.{has, counted};
ghost use Rattle.chill_base.specs.MemFiles.{Drawer, drawer_state, new_drawer, added, appended, place, broken, IsFirst, IsSound, OpensDrawer, ReadsDrawer};

use crate::{Failed, Files, List, NoMemory, Text};
use std::alloc::Global;
use std::marker::Model;

/// Names with bytes. The calls of `open_file` and `read` with these numbers fail.
#[derive(Drop)]
pub struct MemFiles {
    alloc: Global,
    names: Vec<Text>,
    contents: Vec<Text>,
    breaks: Vec<u64>,
    fails: List<u64>,
    calls: u64,
    faults: u64,
    opened: Option<usize>,
    at: usize,
}

impl Model for MemFiles {
    ghost use Rattle.chill_base.specs.MemFiles.{Drawer};

    ghost Value = { Drawer };

    ghost use Rattle.chill_base.specs.MemFilesInside.{drawer_of, IsDrawer};

    ghost view = { drawer_of };

    ghost invariant = { IsDrawer };
}

impl MemFiles {
    pub fn new(alloc: Global, fails: List<u64>) -> MemFiles
        ensures { result ≡ new_drawer fails }
    {
        MemFiles {
            alloc,
            names: Vec::new(alloc),
            contents: Vec::new(alloc),
            breaks: Vec::new(alloc),
            fails,
            calls: 0,
            faults: 0,
            opened: None,
            at: 0,
        }
    }

    /// Adds a file. A name that is held gets the new bytes. Whatever file is open is closed.
    pub fn add(&mut self, name: &str, bytes: &[u8]) -> Result<(), NoMemory>
        ensures ok { OnOk result (self.new ≡ added self.old name.now bytes.now) }
        ensures err { OnErr result (self.new ≡ self.old) }
    {
        let bytes = List::from_slice(self.alloc, bytes)?;
        if let Some(file) = self.find(name.as_bytes()) {
            self.replace(file, bytes);
            return Ok(());
        }
        let name = List::from_slice(self.alloc, name.as_bytes())?;
        self.append(name, bytes)
    }

    // Puts other bytes in place of those of a file.
    fn replace(&mut self, file: usize, bytes: Text)
        requires { file < length self.old.contents }
        ensures { self.new ≡ record self.old { contents = slice_set self.old.contents file bytes; opened = None; left = [] } }
    {
        self.contents[file] = bytes;
        self.opened = None;
        self.at = 0;
    }

    // Puts a file behind the others.
    fn append(&mut self, name: Text, bytes: Text) -> Result<(), NoMemory>
        ensures ok { OnOk result (self.new ≡ appended self.old name bytes) }
        ensures err { OnErr result (self.new ≡ self.old) }
    {
        self.names.reserve(1)?;
        self.contents.reserve(1)?;
        self.breaks.reserve(1)?;
        self.names.push(name).unwrap();
        self.contents.push(bytes).unwrap();
        self.breaks.push(0).unwrap();
        self.opened = None;
        self.at = 0;
        Ok(())
    }

    // The first place of the name.
    fn find(&self, name: &[u8]) -> Option<usize>
        ensures place { result ≡ place name.now self.now.names }
        ensures sound { IsSound self.now }
    {
        self.names.iter().position(|n| n.as_slice() == name)
    }

    fn opened(&self) -> Option<usize>
        ensures opened { result ≡ self.now.opened }
        ensures sound { IsSound self.now }
    {
        self.opened
    }

    // Counts a call, and says whether it is one of those that fail.
    fn count_call(&mut self) -> bool
        ensures listed { result ≡ has self.old.fails self.old.calls }
        ensures calls { self.new ≡ record self.old { calls = counted self.old.calls } }
    {
        let listed = self.fails.as_slice().contains(&self.calls);
        self.calls = self.calls.saturating_add(1);
        listed
    }

    // Counts a fault, and a break of the file at that place.
    fn fail(&mut self, file: Option<usize>)
        requires { IfSome file (λ i. i < length self.old.breaks) }
        ensures { self.new ≡ broken self.old file }
    {
        self.faults = self.faults.saturating_add(1);
        if let Some(i) = file {
            self.breaks[i] = self.breaks[i].saturating_add(1);
        }
    }

    fn start(&mut self, file: usize)
        requires { IsFirst self.old.names file }
        ensures { self.new ≡ record self.old { opened = Some file; left = slice_index_or self.old.contents file [] } }
    {
        self.opened = Some(file);
        self.at = 0;
    }

    // Takes what comes next of the file at that place.
    fn take(&mut self, file: usize, buf: &mut [u8]) -> usize
        requires { self.old.opened ≡ Some file }
        ensures count { result ≡ min (length self.old.left) (length buf.old) }
        ensures bytes { self.old.left ≡ take result buf.new ++ self.new.left }
        ensures rest { self.new ≡ record self.old { left = drop result self.old.left } }
    {
        let all = self.contents[file].as_slice();
        let count = (all.len() - self.at).min(buf.len());
        buf[..count].copy_from_slice(&all[self.at..self.at + count]);
        self.at += count;
        count
    }
}

impl Files for MemFiles {
    ghost state = { drawer_state };

    fn faults(&self) -> u64 {
        self.faults
    }

    fn open_file(&mut self, name: &str) -> Result<(), Failed>
        ensures opens { Opens (drawer_state self.old) name.now (drawer_state self.new) result }
        ensures exact { OpensDrawer self.old name.now self.new result }
    {
        let found = self.find(name.as_bytes());
        let listed = self.count_call();
        if let (false, Some(file)) = (listed, found) {
            self.start(file);
            return Ok(());
        }
        self.fail(found);
        Err(Failed)
    }

    fn read(&mut self, buf: &mut [u8]) -> Result<usize, Failed>
        ensures reads { Reads (drawer_state self.old) (length buf.old) buf.new (drawer_state self.new) result }
        ensures exact { ReadsDrawer self.old (length buf.old) self.new result }
    {
        let opened = self.opened();
        let listed = self.count_call();
        if let (false, Some(file)) = (listed, opened) {
            return Ok(self.take(file, buf));
        }
        self.fail(opened);
        Err(Failed)
    }
}
