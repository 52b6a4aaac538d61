// The summary of a measured run.
ghost use Rattle.std.specs.Prelude.{◌≡◌, ◌++◌, ◌<◌, ◌^◌, ◌%◌, ℕ, length, slice_index_or, OnOk, IfOk};
ghost use Rattle.measured_run.specs.Figures.{total, weighed};
ghost use Rattle.measured_run.specs.Work.{number_line, figures_text};

use chill_base::{List, NoMemory, Text};
use itoa::Buffer;
use raw_store::Cells;
use std::alloc::Global;

/// The numbers of a summary.
#[derive(Clone, Copy)]
pub(crate) struct Figures {
    pub(crate) size: u64,
    pub(crate) entries: u64,
    pub(crate) blocks: u64,
    pub(crate) layout: u64,
    pub(crate) sum: u64,
}

fn push_line(text: &mut Vec<u8>, word: &str, number: u64) -> Result<(), NoMemory>
    ensures { OnOk result (text.new.items ≡ text.old.items ++ number_line word.now number) }
{
    let mut buffer = Buffer::new();
    text.extend_from_slice(word.as_bytes())?;
    text.extend_from_slice(buffer.format(number).as_bytes())?;
    text.push(b'\n')?;
    Ok(())
}

/// The lines of the summary.
pub(crate) fn lines(alloc: Global, figures: &Figures) -> Result<Text, NoMemory>
    ensures { IfOk result (λ text. text ≡ figures_text figures.now) }
{
    let mut text = Vec::new(alloc);
    push_line(&mut text, "size ", figures.size)?;
    push_line(&mut text, "entries ", figures.entries)?;
    push_line(&mut text, "blocks ", figures.blocks)?;
    push_line(&mut text, "layout ", figures.layout)?;
    push_line(&mut text, "sum ", figures.sum)?;
    Ok(List::from_vec(text))
}

/// The sum of the cells modulo 2^64.
#[tactic(auto, using(crate::proofs::Sums::total_more))]
pub(crate) fn sum(cells: &Cells) -> u64
    ensures sum { result ≡ total cells.now }
    ensures words { (k : ℕ) → k < length cells.now → slice_index_or cells.now k 0 < 2 ^ 64 }
{
    let mut sum: u64 = 0;
    for at in 0..cells.len() {
        sum = sum.wrapping_add(cells.get(at));
    }
    sum
}

/// The sum modulo 2^64 of the cells, each times one more than its place.
#[tactic(auto, using(crate::proofs::Sums::weighed_more))]
pub(crate) fn layout(cells: &Cells) -> u64
    ensures sum { result ≡ weighed 0 cells.now % 2 ^ 64 }
    ensures words { (k : ℕ) → k < length cells.now → slice_index_or cells.now k 0 < 2 ^ 64 }
{
    let mut layout: u64 = 0;
    for at in 0..cells.len() {
        layout = layout.wrapping_add(cells.get(at).wrapping_mul(at as u64 + 1));
    }
    layout
}
