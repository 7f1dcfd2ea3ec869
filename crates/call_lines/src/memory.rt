// Cells by the numbers of docs/LAYOUT.md, and cells written. Only the program knows these numbers a second time: it
// writes into the tables what no call can.
ghost use Rattle.std.specs.Prelude.{◌≡◌, ◌≤◌, IfOk};
ghost use Rattle.std.specs.Fn.{FnOnceReturnsAtMut};

use crate::verdict::altered;
use std::fmt::Display;
use std::io;

pub const TABLE_LENGTH: usize = 4321;

// Lent by length, so that no caller has to prove that a call leaves it.
pub type Cells = [u64; TABLE_LENGTH];

// The tables of a case, by value: a call takes them and gives them back. To prove a row of such calls takes a third of
// the time that it takes where each is lent them.
#[derive(Clone, Copy)]
pub struct Tables {
    pub cells: Cells,
}

// One cell more than the tables have, so that a slice that is too long can be lent too.
pub const SPACE_LENGTH: usize = TABLE_LENGTH + 1;

// The shortest buffer that a snapshot is written into.
pub const BUFFER_LENGTH: usize = 65536;

// The cells of an object place, in their order.
#[derive(Clone, Copy)]
pub enum ObjectCell {
    Kind,
    Count,
    Owner,
    Attribute,
}

// The cells of a wait place, in their order; the list is the last 64.
#[derive(Clone, Copy)]
pub enum WaitCell {
    Ticket,
    Mode,
    Owner,
    Clock,
    Timeout,
    Count,
    Alert,
    Listed(u8),
}

impl WaitCell {
    fn number(self) -> usize
        ensures { result ≤ 262 }
    {
        match self {
            WaitCell::Ticket => 0,
            WaitCell::Mode => 1,
            WaitCell::Owner => 2,
            WaitCell::Clock => 3,
            WaitCell::Timeout => 4,
            WaitCell::Count => 5,
            WaitCell::Alert => 6,
            WaitCell::Listed(i) => 7 + usize::from(i),
        }
    }
}

// The first cell of the objects and of the waits, and how many cells a place has.
const OBJECTS: usize = 1;

const OBJECT_SIZE: usize = 4;

const WAITS: usize = 2049;

const WAIT_SIZE: usize = 71;

// A cell of the tables, by its place, from 0 on, and what it is there. The object of handle 1 stands in place 0.
#[derive(Clone, Copy)]
pub enum Cell {
    NextTicket,
    Object(u16, ObjectCell),
    Wait(u8, WaitCell),
}

impl Cell {
    fn number(self) -> usize {
        match self {
            Cell::NextTicket => 0,
            Cell::Object(place, cell) => OBJECTS + OBJECT_SIZE * usize::from(place) + cell as usize,
            Cell::Wait(place, cell) => WAITS + WAIT_SIZE * usize::from(place) + cell.number(),
        }
    }
}

// Writes a row from the cell on, as far as the tables go: no caller has to prove a length, and a line of `stdout` would
// show it.
pub fn put_row(t: &mut [u64], at: Cell, row: &[u64]) {
    for (cell, value) in t.iter_mut().skip(at.number()).zip(row) {
        *cell = *value;
    }
}

pub fn put(t: &mut [u64], at: Cell, value: u64) {
    put_row(t, at, &[value]);
}

impl Tables {
    // Newly made. Making must not leave the 7 that every cell holds before.
    pub fn new() -> Self {
        let mut cells = [7; TABLE_LENGTH];
        ntsync::init(&mut cells);
        Self { cells }
    }

    // Ends the line of a call that is lent the cells for writing: what it told, and whether a cell changed. The cells
    // that the call left are handed back.
    pub fn told<R: Display + Drop, F: FnOnce(&mut Cells) -> R>(
        self,
        rt: &impl Print,
        call: F,
    ) -> io::Result<Self>
        requires { F.IsAlwaysCallable call }
        ensures { IfOk result (λ t. (r : R) × FnOnceReturnsAtMut F.FnOnce call self.cells r t.cells) }
    {
        let mut cells = self.cells;
        let told = call(&mut cells);
        print!(rt; " {told}")?;
        self.then(rt, cells)
    }

    // Ends a line with whether these cells are others.
    pub fn then(self, rt: &impl Print, cells: Cells) -> io::Result<Self>
        ensures { IfOk result (λ t. t.cells ≡ cells) }
    {
        println!(rt; " {}", altered(&cells, &self.cells))?;
        Ok(Self { cells })
    }

    // What no call can write.
    pub fn put(self, at: Cell, value: u64) -> Self {
        self.put_row(at, &[value])
    }

    pub fn put_row(self, at: Cell, row: &[u64]) -> Self {
        let mut cells = self.cells;
        put_row(&mut cells, at, row);
        Self { cells }
    }

    // A cell past the end reads as 0.
    pub fn cell(self, at: Cell) -> u64 {
        self.cells.get(at.number()).copied().unwrap_or(0)
    }
}
