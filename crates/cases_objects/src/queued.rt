// A queued wait, written into the cells: its ticket and cells are then known without any call. Ticket 5 waits for any
// of handle 1, a semaphore, with handle 2, an event, as its alert.
use call_lines::memory::{Cell, ObjectCell, Tables, WaitCell};
use call_lines::waiting::NEVER;
use std::io;

fn queue(t: Tables) -> Tables {
    let wait = [5, 0, 9, 0, NEVER, 1, 2, 1];
    t.put_row(Cell::Wait(0, WaitCell::Ticket), &wait)
}

fn objects(rt: &impl Print) -> io::Result<Tables> {
    Tables::new()
        .create_semaphore(rt, 0, 2)?
        .create_event(rt, 0, 1)?
        .create_event(rt, 1, 0)
}

fn while_queued(rt: &impl Print, t: Tables) -> io::Result<Tables> {
    t.read_semaphore(rt, 1)?
        .read_event(rt, 2)?
        .close(rt, 1)?
        .close(rt, 2)?
        .reset(rt, 2)?
        .close(rt, 3)?
        .close(rt, 3)?
        .cancel(rt, 4)?
        .cancel(rt, 6)?
        .cancel(rt, 0)
}

// Cancelling empties the wait's place and leaves the rest: the same wait written again gives the tables from before.
fn written_again(rt: &impl Print, t: Tables) -> io::Result<Tables> {
    let again = queue(t.cancel(rt, 5)?);
    print!(rt; "wait written again:")?;
    t.then(rt, again.cells)
}

fn cancelled(rt: &impl Print, t: Tables) -> io::Result<Tables> {
    t.cancel(rt, 5)?.cancel(rt, 5)?.close(rt, 1)?.close(rt, 2)
}

// The last ticket is spent at 18446744073709551615; the tables are sound there.
fn last_ticket(rt: &impl Print, t: Tables) -> io::Result<()> {
    let t = t
        .put_next(rt, "next ticket", u64::MAX)?
        .create_mutex(rt, 0, 0)?
        .read_mutex(rt, 1)?;
    println!(rt; "mutex 1 abandoned")?;
    t.put(Cell::Object(0, ObjectCell::Attribute), 1)
        .read_mutex(rt, 1)?
        .close(rt, 1)?;
    Ok(())
}

pub fn cases(rt: &impl Print) -> io::Result<()> {
    println!(rt; "-- a queued wait")?;
    let t = queue(objects(rt)?.put(Cell::NextTicket, 6));
    println!(rt; "ticket 5: any of 1, alert 2")?;
    let t = while_queued(rt, t)?;
    let t = written_again(rt, t)?;
    let t = cancelled(rt, t)?;
    last_ticket(rt, t)
}
