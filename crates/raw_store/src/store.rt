// Cells that grow and never move: a directory of blocks, each twice as long as the one before.
ghost use Rattle.std.specs.Prelude.{◌≡◌, ℕ, ◌+◌, ◌-◌, ◌^◌, ◌<◌, ◌≤◌, [], ◌++◌, length, replicate, reverse, slice_index_or, slice_set, IfOk, OnOk, OnErr};
ghost use Rattle.raw_store.specs.Directory.{span, IsAt, zero_blocks};

use crate::block::Block;
use chill_base::NoMemory;
use std::alloc::Global;
use std::marker::Model;

/// The most cells that a directory of 55 blocks holds.
const MOST: usize = 1152921504606846944;

/// A list of cells in raw memory. A growth moves no cell.
#[derive(Drop)]
pub struct Cells {
    alloc: Global,
    blocks: Vec<Block>,
    len: usize,
}

impl Model for Cells {
    ghost use Rattle.std.specs.Prelude.{ℕ, List};

    ghost Value = { List ℕ };

    ghost use Rattle.raw_store.specs.Directory.{cells, IsDirectory};

    ghost view = { λ c. cells c.blocks.items c.len };

    ghost invariant = { λ c. IsDirectory c.blocks.items c.len };
}

// How many cells the block has.
fn block_len(block: usize) -> usize
    requires { block < 55 }
    ensures { (result ≡ span block) × (result < 2 ^ 60) }
{
    1 << (block + 5)
}

// The block of a cell, and the place in the block.
fn locate(at: usize) -> (usize, usize)
    requires { at + 32 < 2 ^ 60 }
    ensures { IsAt at result.0 result.1 }
{
    let skewed = at + 32;
    let block = skewed.ilog2() as usize - 5;
    (block, skewed - block_len(block))
}

// The blocks from `from` up to `to`, the largest of them first.
fn fresh_blocks(alloc: Global, from: usize, to: usize) -> Result<Vec<Block>, NoMemory>
    requires { (from ≤ to) × (to ≤ 55) }
    ensures { IfOk result (λ v. v.items ≡ reverse (zero_blocks from (to - from))) }
{
    let mut blocks = Vec::new(alloc);
    let mut next = to;
    while next > from {
        next -= 1;
        blocks.push(Block::zeroed(alloc, block_len(next))?)?;
    }
    Ok(blocks)
}

// Appends blocks of zeros, up to `to` of them. Where one is refused, the new ones are given back.
fn add_blocks(alloc: Global, blocks: &mut Vec<Block>, to: usize) -> Result<(), NoMemory>
    requires { to ≤ 55 }
    ensures added { OnOk result (blocks.new.items ≡ blocks.old.items ++ zero_blocks (length blocks.old.items) (to - length blocks.old.items)) }
    ensures kept { OnErr result (blocks.new.items ≡ blocks.old.items) }
{
    let from = blocks.len();
    if to <= from {
        return Ok(());
    }
    let Ok(()) = blocks.try_reserve(to - from) else {
        return Err(NoMemory);
    };
    let mut fresh = fresh_blocks(alloc, from, to)?;
    while let Some(block) = fresh.pop() {
        blocks.push_reserved(block);
    }
    Ok(())
}

impl Cells {
    pub fn new(alloc: Global) -> Cells
        ensures { result ≡ [] }
    {
        Cells {
            alloc,
            blocks: Vec::new(alloc),
            len: 0,
        }
    }

    /// Appends zeros. No cell moves, and the largest new block is asked for first.
    pub fn grow(&mut self, count: usize) -> Result<(), NoMemory>
        ensures grown { OnOk result (self.new ≡ self.old ++ replicate count 0) }
        ensures kept { OnErr result (self.new ≡ self.old) }
    {
        if count == 0 {
            return Ok(());
        }
        if count > MOST - self.len {
            return Err(NoMemory);
        }
        let len = self.len + count;
        let (last, _) = locate(len - 1);
        add_blocks(self.alloc, &mut self.blocks, last + 1)?;
        self.len = len;
        Ok(())
    }

    pub fn len(&self) -> usize
        ensures { result ≡ length self.now }
    {
        self.len
    }

    pub fn get(&self, at: usize) -> u64
        requires { at < length self.now }
        ensures { result ≡ slice_index_or self.now at 0 }
    {
        let _len = self.len;
        let (block, offset) = locate(at);
        self.blocks[block].get(offset)
    }

    pub fn set(&mut self, at: usize, value: u64)
        requires { at < length self.old }
        ensures { self.new ≡ slice_set self.old at value }
    {
        let _len = self.len;
        let (block, offset) = locate(at);
        self.blocks[block].set(offset, value);
    }
}
