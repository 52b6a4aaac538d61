// The reader of a data text, byte by byte.
ghost use Rattle.std.specs.Prelude.{◌≡◌, ◌≢◌, ◌≤◌, ◌<◌, ◌+◌, ◌++◌, ◌∷◌, [], ◌^◌, ◌↔◌, ℕ, List, length, true, false, None, Some, Ok, Err, suc, IsTrue, OnOk, OnErr, IfOk, MatchResult};
ghost use Rattle.std.specs.Option.{option_to_list};
ghost use Rattle.csr_data.specs.Text.{digit};
ghost use Rattle.csr_data.specs.Extents.{first_negative, cells_wanted, Stores};
ghost use Rattle.csr_data.specs.Lines.{name_of, is_parameter};
ghost use Rattle.csr_data.specs.Wanted.{due_of, given_of};
ghost use Rattle.csr_data.specs.declared.fault.ValuesFault.TheVariants.{Line};

use crate::fault::{Halt, ValuesFault};
use crate::line::{add_line, shape_behind, wanted_at};
use crate::matrix::matrix_fault;
use crate::parts::{Held, Wanted};
use crate::shape::Shape;
use crate::values::Values;
use c_tree::Program;
use chill_base::{Name, NoMemory};
use raw_store::Cells;
use std::alloc::Global;
use std::mem;

// Appends a cell.
fn push(cells: &mut Cells, value: u64) -> Result<(), NoMemory>
    ensures pushed { OnOk result (cells.new ≡ cells.old ++ value ∷ []) }
    ensures kept { OnErr result (cells.new ≡ cells.old) }
{
    let at = cells.len();
    cells.grow(1)?;
    cells.set(at, value);
    Ok(())
}

// Whether one more number is one of the line's.
fn has_room(shape: &Shape, found: u64) -> bool
    ensures { IsTrue result ↔ (first_negative shape.now ≡ None) × (found < cells_wanted shape.now) }
{
    match shape.negative() {
        Some(_) => false,
        None => (found as u128) < shape.wanted(),
    }
}

// Stores one more number, where the line wants it.
fn store(cells: &mut Cells, shape: &Shape, found: u64, value: u64) -> Result<(), NoMemory>
    requires { Stores shape.now found cells.old }
    ensures stored { OnOk result (Stores shape.now (found + 1) cells.new) }
    ensures wanted { OnOk result (first_negative shape.now ≡ None → found < cells_wanted shape.now → cells.new ≡ cells.old ++ value ∷ []) }
    ensures kept { OnErr result (cells.new ≡ cells.old) }
{
    if has_room(shape, found) {
        return push(cells, value);
    }
    Ok(())
}

// The number that one more digit makes.
fn add_digit(token: Option<u64>, byte: u8) -> Option<u64>
    ensures { result ≡ digit token byte }
{
    if !byte.is_ascii_digit() {
        return None;
    }
    let last = (byte - b'0') as u64;
    match token {
        None => Some(last),
        Some(0) => None,
        Some(value) => value.checked_mul(10)?.checked_add(last),
    }
}

// The name of a line.
fn line_name(wanted: &Wanted) -> Name
    ensures { result ≡ name_of (due_of wanted.now) }
{
    match wanted {
        Wanted::Parameter(name) => *name,
        Wanted::Array(array) => array.name,
    }
}

// Whether a line is a parameter's.
fn is_parameter(wanted: &Wanted) -> bool
    ensures { result ≡ is_parameter (due_of wanted.now) }
{
    match wanted {
        Wanted::Parameter(_) => true,
        Wanted::Array(_) => false,
    }
}

impl<'a> Held<'a> {
    ghost use Rattle.csr_data.specs.Reading.{IsAbout, IsSameLine, rest_of, open_of, closed_of, Counts, Reads, checked, Tells};
    ghost use Rattle.csr_data.specs.Lines.{says_from, dues};
    ghost use Rattle.csr_data.specs.Signature.{IsSignature};
    ghost use Rattle.csr_data.specs.Values.{params_of};
    ghost use Rattle.csr_data.specs.Parameters.{AreSmall};

    pub(crate) fn new(alloc: Global, program: &'a Program) -> Held<'a>
        requires { IsSignature program.now }
        ensures read { result.read ≡ 0 }
        ensures program { result.program.now ≡ program.now }
        ensures told { (more : List ℕ) → rest_of result more ≡ says_from 1 (dues program.now) (record { params = []; arrays = [] }) more }
    {
        let values = Values {
            params: Vec::new(alloc),
            arrays: Vec::new(alloc),
        };
        let shape = shape_behind(program, values.params.as_slice(), 0);
        Held {
            alloc,
            program,
            values,
            lines: 0,
            shape,
            begun: false,
            headed: false,
            matched: 0,
            token: None,
            found: 0,
            cells: Cells::new(alloc),
            read: 0,
        }
    }

    // The line at hand isn't the one that the signature wants.
    fn line_fault(&self) -> ValuesFault
        ensures { result ≡ Line (suc self.now.lines) }
    {
        ValuesFault::Line {
            number: self.lines + 1,
        }
    }

    // A byte of a line comes: of a line that has begun, or of the next one.
    fn begin(&mut self) -> Result<Wanted<'a>, ValuesFault>
        ensures about { IfOk result (λ w. IsAbout self.new w) }
        ensures same { OnOk result ((self.new.program ≡ self.old.program) × (self.new.read ≡ self.old.read) × (self.new.found ≡ self.old.found) × (self.new.token ≡ self.old.token)) }
        ensures byte { MatchResult result (λ w. (byte : ℕ) (more : List ℕ) → rest_of self.old (byte ∷ more) ≡ open_of self.new w (byte ∷ more)) (λ f. (byte : ℕ) (more : List ℕ) → rest_of self.old (byte ∷ more) ≡ Err f) }
        ensures open { MatchResult result (λ w. self.old.begun ≡ true → (more : List ℕ) → rest_of self.old more ≡ open_of self.new w more) (λ f. self.old.begun ≡ true → (more : List ℕ) → rest_of self.old more ≡ Err f) }
    {
        match wanted_at(self.program, self.lines) {
            Some(wanted) => {
                self.begun = true;
                Ok(wanted)
            }
            None => Err(self.line_fault()),
        }
    }

    /// Takes one byte.
    pub(crate) fn take(&mut self, byte: u8) -> Result<(), Halt>
        requires { self.old.read < 2 ^ 62 }
        ensures read { OnOk result ((self.new.read ≡ self.old.read + 1) × (self.new.program ≡ self.old.program)) }
        ensures reads { Reads result (λ more. rest_of self.old (byte ∷ more)) (rest_of self.new) }
    {
        self.read += 1;
        match self.begin() {
            Ok(wanted) => self.take_in(&wanted, byte),
            Err(fault) => Err(Halt::Fault(fault)),
        }
    }

    // Takes one byte of a line.
    fn take_in(&mut self, wanted: &Wanted, byte: u8) -> Result<(), Halt>
        requires about { IsAbout self.old wanted.now }
        requires counted { self.old.found + length (option_to_list self.old.token) < self.old.read }
        requires few { self.old.read ≤ 2 ^ 62 }
        ensures read { OnOk result ((self.new.read ≡ self.old.read) × (self.new.program ≡ self.old.program)) }
        ensures reads { Reads result (λ more. open_of self.old wanted.now (byte ∷ more)) (rest_of self.new) }
    {
        if byte == b'\n' {
            self.end_line(wanted)
        } else {
            self.take_inside(wanted, byte)
        }
    }

    // Takes one byte of a line, which isn't its end.
    fn take_inside(&mut self, wanted: &Wanted, byte: u8) -> Result<(), Halt>
        requires about { IsAbout self.old wanted.now }
        requires counted { self.old.found + length (option_to_list self.old.token) < self.old.read }
        requires few { self.old.read ≤ 2 ^ 62 }
        requires inside { byte ≢ 10 }
        ensures read { OnOk result ((self.new.read ≡ self.old.read) × (self.new.program ≡ self.old.program)) }
        ensures reads { Reads result (λ more. open_of self.old wanted.now (byte ∷ more)) (rest_of self.new) }
    {
        if self.headed {
            self.take_number(wanted, byte)
        } else {
            self.take_name(wanted, byte)
        }
    }

    // Takes a byte of the name, or the blank behind it.
    fn take_name(&mut self, wanted: &Wanted, byte: u8) -> Result<(), Halt>
        requires about { IsAbout self.old wanted.now }
        requires headed { self.old.headed ≡ false }
        requires inside { byte ≢ 10 }
        ensures read { OnOk result ((self.new.read ≡ self.old.read) × (self.new.program ≡ self.old.program)) }
        ensures reads { Reads result (λ more. open_of self.old wanted.now (byte ∷ more)) (rest_of self.new) }
    {
        let number = self.lines + 1;
        let name = line_name(wanted);
        let bytes = name.bytes();
        if self.matched < bytes.len() {
            if bytes[self.matched] != byte {
                return Err(Halt::Fault(ValuesFault::Line { number }));
            }
            self.matched += 1;
            return Ok(());
        }
        if byte != b' ' {
            return Err(Halt::Fault(ValuesFault::Line { number }));
        }
        self.headed = true;
        Ok(())
    }

    // Takes a byte behind the name, which isn't the line's end. A line of one number has no second one.
    fn take_number(&mut self, wanted: &Wanted, byte: u8) -> Result<(), Halt>
        requires about { IsAbout self.old wanted.now }
        requires headed { self.old.headed ≡ true }
        requires counted { self.old.found + length (option_to_list self.old.token) < self.old.read }
        requires few { self.old.read ≤ 2 ^ 62 }
        requires inside { byte ≢ 10 }
        ensures read { OnOk result ((self.new.read ≡ self.old.read) × (self.new.program ≡ self.old.program)) }
        ensures reads { Reads result (λ more. open_of self.old wanted.now (byte ∷ more)) (rest_of self.new) }
    {
        if byte == b' ' {
            self.end_number(wanted)
        } else if is_parameter(wanted) && self.found > 0 {
            Err(Halt::Fault(self.line_fault()))
        } else {
            self.take_digit(wanted, byte)
        }
    }

    // Takes a byte of a number.
    fn take_digit(&mut self, _wanted: &Wanted, byte: u8) -> Result<(), Halt>
        requires about { IsAbout self.old _wanted.now }
        requires headed { self.old.headed ≡ true }
        requires counted { self.old.found + length (option_to_list self.old.token) < self.old.read }
        requires few { self.old.read ≤ 2 ^ 62 }
        requires inside { (byte ≢ 10) × (byte ≢ 32) }
        ensures read { OnOk result ((self.new.read ≡ self.old.read) × (self.new.program ≡ self.old.program)) }
        ensures reads { Reads result (λ more. open_of self.old _wanted.now (byte ∷ more)) (rest_of self.new) }
    {
        let number = self.lines + 1;
        match add_digit(self.token, byte) {
            Some(value) => {
                self.token = Some(value);
                Ok(())
            }
            None => Err(Halt::Fault(ValuesFault::Line { number })),
        }
    }

    // Ends the number at hand, if there is one.
    fn end_number(&mut self, wanted: &Wanted) -> Result<(), Halt>
        requires about { IsAbout self.old wanted.now }
        requires headed { self.old.headed ≡ true }
        requires few { self.old.read ≤ 2 ^ 62 }
        ensures memory { (f : ValuesFault) → result ≢ Err (Halt.Fault f) }
        ensures counts { OnOk result (Counts wanted.now self.old self.new) }
        ensures same { OnOk result (IsSameLine self.old self.new) }
        ensures read { OnOk result ((self.new.read ≡ self.old.read) × (self.new.program ≡ self.old.program)) }
        ensures ended { OnOk result ((self.new.headed ≡ true) × (self.new.token ≡ None)) }
    {
        match self.token {
            Some(value) => self.add_number(wanted, value),
            None => Ok(()),
        }
    }

    // Adds the number at hand. Past the wanted count numbers are only counted.
    fn add_number(&mut self, _wanted: &Wanted, value: u64) -> Result<(), Halt>
        requires about { IsAbout self.old _wanted.now }
        requires headed { self.old.headed ≡ true }
        requires number { self.old.token ≡ Some value }
        requires few { self.old.read ≤ 2 ^ 62 }
        ensures memory { (f : ValuesFault) → result ≢ Err (Halt.Fault f) }
        ensures counts { OnOk result (Counts _wanted.now self.old self.new) }
        ensures same { OnOk result (IsSameLine self.old self.new) }
        ensures read { OnOk result ((self.new.read ≡ self.old.read) × (self.new.program ≡ self.old.program)) }
        ensures ended { OnOk result ((self.new.headed ≡ true) × (self.new.token ≡ None)) }
    {
        match store(&mut self.cells, &self.shape, self.found, value) {
            Ok(()) => {
                self.found += 1;
                self.token = None;
                Ok(())
            }
            Err(_) => Err(Halt::NoMemory),
        }
    }

    // Ends the line's name, where no blank has ended it.
    fn end_name(&mut self, wanted: &Wanted) -> Result<(), Halt>
        requires { IsAbout self.old wanted.now }
        ensures reads { Reads result (closed_of self.old wanted.now) (closed_of self.new wanted.now) }
        ensures same { OnOk result (IsSameLine self.old self.new) }
        ensures read { OnOk result ((self.new.read ≡ self.old.read) × (self.new.program ≡ self.old.program)) }
        ensures headed { OnOk result (self.new.headed ≡ true) }
    {
        if self.headed {
            return Ok(());
        }
        let name = line_name(wanted);
        if self.matched < name.bytes().len() {
            return Err(Halt::Fault(self.line_fault()));
        }
        self.headed = true;
        Ok(())
    }

    // Ends the line.
    fn end_line(&mut self, wanted: &Wanted) -> Result<(), Halt>
        requires about { IsAbout self.old wanted.now }
        requires few { self.old.read ≤ 2 ^ 62 }
        ensures read { OnOk result ((self.new.read ≡ self.old.read) × (self.new.program ≡ self.old.program)) }
        ensures ended { OnOk result (self.new.begun ≡ false) }
        ensures reads { Reads result (closed_of self.old wanted.now) (rest_of self.new) }
    {
        match self.end_name(wanted) {
            Ok(()) => self.end_headed(wanted),
            Err(halt) => Err(halt),
        }
    }

    // Ends a line behind its name.
    fn end_headed(&mut self, wanted: &Wanted) -> Result<(), Halt>
        requires about { IsAbout self.old wanted.now }
        requires headed { self.old.headed ≡ true }
        requires few { self.old.read ≤ 2 ^ 62 }
        ensures read { OnOk result ((self.new.read ≡ self.old.read) × (self.new.program ≡ self.old.program)) }
        ensures ended { OnOk result (self.new.begun ≡ false) }
        ensures reads { Reads result (closed_of self.old wanted.now) (rest_of self.new) }
    {
        match self.end_number(wanted) {
            Ok(()) => self.add(wanted),
            Err(halt) => Err(halt),
        }
    }

    // Adds what the line gives, and turns to the next one.
    fn add(&mut self, wanted: &Wanted) -> Result<(), Halt>
        requires about { IsAbout self.old wanted.now }
        requires headed { (self.old.headed ≡ true) × (self.old.token ≡ None) }
        requires few { self.old.read ≤ 2 ^ 62 }
        ensures reads { Reads result (closed_of self.old wanted.now) (rest_of self.new) }
        ensures read { OnOk result ((self.new.read ≡ self.old.read) × (self.new.program ≡ self.old.program)) }
        ensures ended { OnOk result (self.new.begun ≡ false) }
    {
        let cells = mem::replace(&mut self.cells, Cells::new(self.alloc));
        let found = mem::replace(&mut self.found, 0);
        self.begun = false;
        self.headed = false;
        self.matched = 0;
        self.token = None;
        let number = self.lines + 1;
        match add_line(&mut self.values, wanted, number, &self.shape, found, cells) {
            Ok(()) => {
                self.lines = number;
                self.shape = shape_behind(self.program, self.values.params.as_slice(), number);
                Ok(())
            }
            Err(halt) => Err(halt),
        }
    }

    /// Takes all bytes of a piece.
    pub(crate) fn take_all(&mut self, piece: &[u8]) -> Result<(), Halt>
        requires { self.old.read + length piece.now ≤ 2 ^ 62 }
        ensures read { OnOk result ((self.new.read ≡ self.old.read + length piece.now) × (self.new.program ≡ self.old.program)) }
        ensures reads { Reads result (λ more. rest_of self.old (piece.now ++ more)) (rest_of self.new) }
    {
        let mut at = 0;
        while at < piece.len() {
            match self.take(piece[at]) {
                Ok(()) => at += 1,
                Err(halt) => return Err(halt),
            }
        }
        Ok(())
    }

    // Ends the last line, where one has begun.
    fn close(&mut self) -> Result<(), Halt>
        requires { self.old.read ≤ 2 ^ 62 }
        ensures ended { OnOk result (self.new.begun ≡ false) }
        ensures program { OnOk result (self.new.program ≡ self.old.program) }
        ensures reads { Reads result (λ more. rest_of self.old []) (λ more. rest_of self.new []) }
    {
        if self.begun {
            match self.begin() {
                Ok(wanted) => self.end_line(&wanted),
                Err(fault) => Err(Halt::Fault(fault)),
            }
        } else {
            Ok(())
        }
    }

    /// What stands where the text has ended, and no line is open.
    fn values(self) -> Result<Values, ValuesFault>
        requires { self.begun ≡ false }
        ensures small { IfOk result (λ values. AreSmall (params_of values)) }
        ensures tells { MatchResult result (λ v. checked self.entry.program.now (rest_of self.entry []) ≡ Ok (given_of v)) (λ f. checked self.entry.program.now (rest_of self.entry []) ≡ Err f) }
    {
        if let Some(wanted) = wanted_at(self.program, self.lines) {
            return Err(ValuesFault::Missing {
                name: line_name(&wanted),
            });
        }
        match matrix_fault(self.program, &self.values) {
            Some(fault) => Err(fault),
            None => {
                let Held { values, .. } = self;
                Ok(values)
            }
        }
    }

    /// The text has ended.
    pub(crate) fn end(self) -> Result<Values, Halt>
        requires { self.read ≤ 2 ^ 62 }
        ensures small { IfOk result (λ values. AreSmall (params_of values)) }
        ensures tells { Tells result (checked self.entry.program.now (rest_of self.entry [])) }
    {
        let mut held = self;
        match held.close() {
            Ok(()) => held.closed_values(),
            Err(halt) => Err(halt),
        }
    }

    // The values, or the halt.
    fn closed_values(self) -> Result<Values, Halt>
        requires { self.begun ≡ false }
        ensures small { IfOk result (λ values. AreSmall (params_of values)) }
        ensures tells { Tells result (checked self.entry.program.now (rest_of self.entry [])) }
    {
        match self.values() {
            Ok(values) => Ok(values),
            Err(fault) => Err(Halt::Fault(fault)),
        }
    }
}
