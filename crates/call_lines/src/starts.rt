// What several cases begin with.
use crate::memory::{Cell, Cells, Tables};
use crate::waiting::{Terms, any_on};
use std::io;

// The answer of a wait that was queued.
const QUEUED: u32 = 11;

const WAIT_PLACES: u32 = 32;

impl Tables {
    // Calls with 1, 2, 3 and on, at most n, until one gives false. The line says how many gave true; as it is only
    // printed, no clause names it.
    pub fn in_a_row<F: FnMut(&mut Cells, u32) -> bool>(
        self,
        rt: &impl Print,
        label: &str,
        n: u32,
        mut call: F,
    ) -> io::Result<Self>
        requires { F.IsAlwaysCallable call }
    {
        let mut cells = self.cells;
        let mut row = 0;
        // kept: a loop. With `take_while(..).count()` the proof did not close: that its closure, which calls `call`,
        // may be called at each number, even where `F.pre` is required at all arguments.
        for i in 1..=n {
            if !call(&mut cells, i) {
                break;
            }
            row = i;
        }
        println!(rt; "{label}: {row}")?;
        Ok(Self { cells })
    }

    // Waits for any of the list, as many as are queued, at most 32.
    pub fn queue_many(self, rt: &impl Print, list: &[u32], terms: Terms) -> io::Result<Self> {
        self.in_a_row(
            rt,
            "queued in a row",
            WAIT_PLACES,
            |cells, _| any_on(cells, list, terms).answer == QUEUED,
        )
    }

    pub fn fill_queue(self, rt: &impl Print) -> io::Result<Self> {
        self.queue_many(rt, &[1], Terms::of(9))
    }

    // Writes the next ticket, which no call sets.
    pub fn put_next(self, rt: &impl Print, label: &str, ticket: u64) -> io::Result<Self> {
        println!(rt; "{label} {ticket}")?;
        Ok(self.put(Cell::NextTicket, ticket))
    }

    // On newly made tables, those whose snapshot document 01 shows.
    pub fn put_shown(self, rt: &impl Print) -> io::Result<Self> {
        self.create_semaphore(rt, 1, 2)?
            .create_event(rt, 0, 1)?
            .all(rt, &[1, 2], 7)
    }
}
