// The reader of a data text.
ghost use Rattle.std.specs.Prelude.{◌≡◌, ◌≤◌, ◌+◌, ◌++◌, ◌^◌, [], ℕ, List, length, None, OnOk, OnErr, IfOk};
ghost use Rattle.c_judge.specs.Rules.{KeepsRules};
ghost use Rattle.csr_data.specs.Divisors.{ExtentsHaveDivisors};
ghost use Rattle.csr_data.specs.Parameters.{AreSmall};
ghost use Rattle.csr_data.specs.Values.{params_of};
ghost use Rattle.csr_data.specs.Lines.{dues, says_from};
ghost use Rattle.csr_data.specs.Reading.{told, checked, ReadsStop, TellsStop, Repeats, Stops};

use crate::fault::{Halt, ValuesFault};
use crate::parts::Held;
use crate::values::Values;
use c_tree::Program;
use chill_base::{NoMemory, Stop};
use std::alloc::Global;

/// Reads a data text in any pieces. The numbers go straight into cells; no text is kept but for the number at hand.
#[derive(Drop)]
pub struct DataReader<'a> {
    held: Held<'a>,
    taken: u64,
    halt: Option<Halt>,
    ghost same: { halt ≡ None → held.read ≡ taken },
    ghost few: { taken ≤ 2 ^ 62 },
}

impl<'a> DataReader<'a> {
    pub fn new(alloc: Global, program: &'a Program) -> Result<DataReader<'a>, NoMemory>
        requires rules { KeepsRules program.now }
        requires divisors { ExtentsHaveDivisors program.now }
        ensures taken { IfOk result (λ r. r.taken ≡ 0) }
        ensures goes { IfOk result (λ r. r.halt ≡ None) }
        ensures program { IfOk result (λ r. r.held.program.now ≡ program.now) }
        // What a text says is what its lines say.
        ensures told { IfOk result (λ r. (more : List ℕ) → told r.halt r.held more ≡ says_from 1 (dues program.now) (record { params = []; arrays = [] }) more) }
    {
        Ok(DataReader {
            held: Held::new(alloc, program),
            taken: 0,
            halt: None,
        })
    }

    /// The number of bytes of the pieces for which `feed` answered Ok.
    pub fn taken(&self) -> u64
        ensures { result ≡ self.now.taken }
    {
        self.taken
    }

    /// Takes a piece of the text. After a fault the reader answers that fault from then on, and so after want of memory.
    pub fn feed(&mut self, piece: &[u8]) -> Result<(), Stop<ValuesFault>>
        requires { self.old.taken + length piece.now ≤ 2 ^ 62 }
        ensures taken { OnOk result (self.new.taken ≡ self.old.taken + length piece.now) }
        ensures stays { OnErr result (self.new.taken ≡ self.old.taken) }
        ensures program { OnOk result (self.new.held.program ≡ self.old.held.program) }
        // Whatever is still to come, the text says the same by what is held before and behind the piece; or the fault.
        ensures reads { ReadsStop result (λ more. told self.old.halt self.old.held (piece.now ++ more)) (told self.new.halt self.new.held) }
        ensures stops { Stops result self.new.halt }
        ensures repeats { Repeats self.old.halt result }
    {
        match self.halt {
            Some(halt) => Err(halt.stop()),
            None => self.feed_on(piece),
        }
    }

    // Takes a piece where no fault has come.
    fn feed_on(&mut self, piece: &[u8]) -> Result<(), Stop<ValuesFault>>
        requires few { self.old.taken + length piece.now ≤ 2 ^ 62 }
        requires goes { self.old.halt ≡ None }
        ensures taken { OnOk result (self.new.taken ≡ self.old.taken + length piece.now) }
        ensures stays { OnErr result (self.new.taken ≡ self.old.taken) }
        ensures program { OnOk result (self.new.held.program ≡ self.old.held.program) }
        ensures reads { ReadsStop result (λ more. told self.old.halt self.old.held (piece.now ++ more)) (told self.new.halt self.new.held) }
        ensures stops { Stops result self.new.halt }
    {
        match self.held.take_all(piece) {
            Ok(()) => {
                self.taken += piece.len() as u64;
                Ok(())
            }
            Err(halt) => {
                self.halt = Some(halt);
                Err(halt.stop())
            }
        }
    }

    /// The values that the text gives, or the first fault.
    pub fn finish(self) -> Result<Values, Stop<ValuesFault>>
        ensures small { IfOk result (λ values. AreSmall (params_of values)) }
        ensures tells { TellsStop result (checked self.entry.held.program.now (told self.entry.halt self.entry.held [])) }
        ensures repeats { Repeats self.entry.halt result }
    {
        let DataReader { held, halt, .. } = self;
        match halt {
            Some(halt) => Err(halt.stop()),
            None => match held.end() {
                Ok(values) => Ok(values),
                Err(halt) => Err(halt.stop()),
            },
        }
    }
}
