//! Eliminates the variables of a dense system of 12 variables and 60 rows, from the last to the first, until a limit
//! is passed, and tells on standard error how many rows it made and how long it took.
#![tactic(auto)]

ghost use Rattle.std.specs.Prelude.{◌≡◌, ◌<◌, length, IfOk};

use chill_base::{List, NoMemory, Stop};
use int_rows::{Aff, Excess, Row};
use int_sets::{SetFault, System};
use std::alloc::Global;
use std::io;
use std::time::Instant;

const VARS: usize = 12;

const ROWS: u64 = 60;

/// A number from -9 to 9, spread over the system.
fn number(row: u64, var: u64) -> i128 {
    let place = row.wrapping_mul(13).wrapping_add(var).wrapping_add(1);
    let mixed = place.wrapping_mul(0x9e37_79b9_7f4a_7c15);
    ((mixed >> 40) % 19) as i128 - 9
}

fn dense_row(alloc: Global, row: u64) -> Result<Row, NoMemory>
    ensures { IfOk result (λ r. length r.form.coefs ≡ 12) }
{
    let mut coefs = [0i128; VARS];
    for var in 0..VARS {
        coefs[var] = number(row, var as u64);
    }
    Ok(Row {
        equal: false,
        form: Aff {
            coefs: List::from_slice(alloc, &coefs)?,
            constant: number(row, 12),
        },
    })
}

fn dense_system(alloc: Global) -> Result<System, SetFault>
    ensures { IfOk result (λ s. s.vars ≡ 12) }
{
    let mut system = System::new(alloc, VARS);
    for row in 0..ROWS {
        system.push(dense_row(alloc, row)?)?;
    }
    Ok(system)
}

/// How many rows the elimination of the variable makes from two rows.
fn pairs(system: &System, var: usize) -> usize
    requires { var < system.now.vars }
{
    let mut above = 0usize;
    let mut below = 0usize;
    for row in 0..system.rows() {
        let coef = system.coef(row, var);
        if coef > 0 {
            above = above.saturating_add(1);
        }
        if coef < 0 {
            below = below.saturating_add(1);
        }
    }
    above.saturating_mul(below)
}

/// Eliminates the variables from the last to the first, and counts the rows that are made.
fn eliminate_all(system: &mut System, made: &mut usize) -> Result<(), SetFault> {
    let mut left = system.vars();
    while left > 0 {
        left -= 1;
        *made = made.saturating_add(pairs(system, left));
        system.eliminate(left)?;
    }
    Ok(())
}

fn end_of(answer: Result<(), SetFault>) -> &'static str {
    match answer {
        Ok(()) => "all variables are eliminated",
        Err(Stop::Refused(Excess::Large { .. })) => "a number passes the limit",
        Err(Stop::Refused(Excess::Many { .. })) => "too many rows are left",
        Err(Stop::NoMemory) => "there is no memory",
    }
}

fn main(rt: HostRuntime) -> io::Result<()> {
    let mut made = 0;
    let start = Instant::now(&rt)?;
    let answer = match dense_system(rt.alloc()) {
        Ok(mut system) => eliminate_all(&mut system, &mut made),
        Err(fault) => Err(fault),
    };
    let micros = start.elapsed(&rt)?.as_micros();
    let end = end_of(answer);
    eprintln!(rt; "{made} rows in {micros} microseconds: {end}")
}
