// A block of cells in raw memory.
ghost use Rattle.std.specs.Prelude.{◌≡◌, ℕ, ◌^◌, ◌<◌, length, replicate, slice_index_or, slice_set, IfOk};
ghost use Rattle.core.specs.Mem.Slots.{slots_items, slots_ptr, slots_len, IsFull, SamePlaces};

use crate::memory::{Deed, release, reserve};
use chill_base::NoMemory;
use core::slots::Slots;
use std::alloc::Global;
use std::marker::Model;

/// Cells in one block of raw memory, which is given back when the block is dropped.
pub(crate) struct Block {
    cells: Slots<u64>,
    deed: Deed<u64, Global>,
    alloc: Global,
}

impl Model for Block {
    ghost use Rattle.std.specs.Prelude.{ℕ, List};
    ghost use Rattle.core.specs.Mem.Slots.{slots_items};

    ghost Value = { List ℕ };

    ghost use Rattle.raw_store.specs.Block.{IsWhole};

    ghost view = { λ b. slots_items b.cells };

    ghost invariant = { IsWhole };
}

// Puts 0 into each place.
fn clear(places: &mut Slots<u64>)
    ensures full { IsFull places.new }
    ensures zeros { slots_items places.new ≡ replicate (slots_len places.old) 0 }
    ensures same { SamePlaces places.old places.new }
{
    for at in 0..places.len() {
        places.put(at, 0);
    }
}

impl Block {
    /// A block of zeros.
    pub(crate) fn zeroed(alloc: Global, len: usize) -> Result<Block, NoMemory>
        requires { len < 2 ^ 60 }
        ensures { IfOk result (λ b. b ≡ replicate len 0) }
    {
        let Ok((mut cells, deed)) = reserve(&alloc, len) else {
            return Err(NoMemory);
        };
        clear(&mut cells);
        Ok(Block { cells, deed, alloc })
    }

    pub(crate) fn get(&self, at: usize) -> u64
        requires { at < length self.now }
        ensures { result ≡ slice_index_or self.now at 0 }
    {
        *self.cells.get(at)
    }

    pub(crate) fn set(&mut self, at: usize, value: u64)
        requires { at < length self.old }
        ensures { self.new ≡ slice_set self.old at value }
    {
        self.cells.put(at, value);
    }
}

impl Drop for Block {
    fn drop(self) {
        let Block { cells, deed, alloc } = self;
        release(&alloc, cells, deed);
    }
}
