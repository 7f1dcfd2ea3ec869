// The snapshot's text (document 01: the picture): its bytes, its length and the buffer behind it, and what is refused.
// Every buffer is full of one byte before the call, so that a byte written past the text shows.
ghost use Rattle.std.specs.Prelude.{◌≡◌, true, ◌↔◌};
ghost use Rattle.call_lines.specs.Kept.{Kept};

use call_lines::memory::{BUFFER_LENGTH, Cell, Cells, TABLE_LENGTH, Tables, put};
use call_lines::verdict::{is_filled, rest};
use call_lines::waiting::{MONOTONIC, NEVER, REAL_TIME, Terms};
use ntsync::Written;
use std::io;
use std::io::Write;

// In every byte of a buffer before the call: '#', which stands in no snapshot.
const SENTINEL: u8 = b'#';

// ---- the call and its line

// Whether every byte from `from` on is the sentinel.
// kept: no plainer. Its contract names the number, 35, where `is_filled` at each caller would name none.
fn is_kept(buffer: &[u8], from: usize) -> bool
    ensures { (result ≡ true) ↔ Kept 35 buffer.now from }
{
    is_filled(buffer, from, &SENTINEL)
}

// The buffer's length, the answer and the text's length, which is handed back.
fn snapshot(rt: &impl Print, t: &[u64], buffer: &mut [u8]) -> io::Result<usize> {
    let Written { answer, length } = ntsync::snapshot(t, buffer);
    print!(rt; "snapshot into {} bytes: {answer} {length}", buffer.len())?;
    Ok(length as usize)
}

// With the text itself, each of its lines a line of the output. A length past the buffer's end would show no text.
fn shown(rt: &impl Print, t: Tables) -> io::Result<()> {
    let mut buffer = [SENTINEL; BUFFER_LENGTH];
    let length = snapshot(rt, &t.cells, &mut buffer)?;
    println!(rt)?;
    io::writer(rt).write_all(buffer.get(..length).unwrap_or(&[]))?;
    println!(rt; "behind the text: {}", rest(is_kept(&buffer, length)))
}

// Without the text. After a refusal the length is 0, so that the whole buffer is looked at.
fn measured(rt: &impl Print, t: &[u64], buffer: &mut [u8]) -> io::Result<()> {
    let length = snapshot(rt, t, buffer)?;
    println!(rt; " {}", rest(is_kept(buffer, length)))
}

// ---- texts

// P1 of document 01, which gives the whole text.
fn first_reading(rt: &impl Print) -> io::Result<()> {
    shown(rt, Tables::new().put_shown(rt)?)
}

// Handle 2 is an abandoned mutex, 4 a held one, 3 empty between objects, 5 and 6 auto events.
fn objects(rt: &impl Print) -> io::Result<Tables> {
    Tables::new()
        .create_semaphore(rt, 0, 3)?
        .create_mutex(rt, 5, 1)?
        .create_event(rt, 1, 1)?
        .create_mutex(rt, 8, u32::MAX)?
        .create_event(rt, 0, 0)?
        .create_event(rt, 1, 0)?
        .close(rt, 3)?
        .kill_owner(rt, 2, 5)
}

// Freed places are taken again: in the order of places stand the tickets 6, 2, 7, none, 5.
fn queued(rt: &impl Print, t: Tables) -> io::Result<Tables> {
    let real_time = Terms::of(10).until(REAL_TIME, 100, 99).alerted(5);
    let ceiling = Terms::of(u32::MAX).until(MONOTONIC, 1, 0).alerted(5);
    t.any(rt, &[1], 9)?
        .wait_any(rt, &[5, 4, 5], real_time)?
        .all(rt, &[2, 1], 11)?
        .any(rt, &[4], 12)?
        .wait_all(rt, &[1, 4, 2], ceiling)?
        .cancel(rt, 1)?
        .all(rt, &[4], 13)?
        .cancel(rt, 3)?
        .wait_any(rt, &[5], Terms::of(1).until(REAL_TIME, NEVER - 1, 0))?
        .cancel(rt, 4)
}

fn every_line(rt: &impl Print) -> io::Result<()> {
    shown(rt, queued(rt, objects(rt)?)?)
}

// ---- refusals

// Under the least length. The text of newly made tables would fit into the last, which is refused all the same.
fn into_shorter(rt: &impl Print, t: &Cells) -> io::Result<()> {
    measured(rt, t, &mut [SENTINEL; 0])?;
    measured(rt, t, &mut [SENTINEL; 1])?;
    measured(rt, t, &mut [SENTINEL; BUFFER_LENGTH - 1])
}

fn into_longer(rt: &impl Print, t: &Cells) -> io::Result<()> {
    measured(rt, t, &mut [SENTINEL; BUFFER_LENGTH + 1])?;
    measured(rt, t, &mut [SENTINEL; 80000])
}

// Damage is answered before a short buffer.
fn of_corrupt(rt: &impl Print) -> io::Result<()> {
    let t = Tables::new().put_next(rt, "next ticket", 0)?;
    into_shorter(rt, &t.cells)?;
    measured(rt, &t.cells, &mut [SENTINEL; BUFFER_LENGTH])?;
    into_longer(rt, &t.cells)
}

fn of_short(rt: &impl Print) -> io::Result<()> {
    let mut t = [0; TABLE_LENGTH - 1];
    put(&mut t, Cell::NextTicket, 1);
    println!(rt; "one cell short")?;
    measured(rt, &t, &mut [SENTINEL; BUFFER_LENGTH - 1])?;
    measured(rt, &t, &mut [SENTINEL; BUFFER_LENGTH])
}

fn newly_made(rt: &impl Print) -> io::Result<()> {
    let t = Tables::new();
    shown(rt, t)?;
    into_shorter(rt, &t.cells)?;
    into_longer(rt, &t.cells)
}

// ---- the longest text

// Mutexes, as many as get the handles 1, 2, 3 and on, at most 511.
fn full_mutexes(rt: &impl Print) -> io::Result<Tables> {
    Tables::new().in_a_row(
        rt,
        "full mutexes created in a row",
        511,
        |cells, i| ntsync::create_mutex(cells, u32::MAX, u32::MAX).handle == i,
    )
}

// Every number has as many digits as it can have; the event of handle 512 is every wait's alert and all of its list.
// The waits spend the last 32 tickets.
fn longest_text(rt: &impl Print) -> io::Result<Tables> {
    let terms = Terms::of(u32::MAX).alerted(512);
    full_mutexes(rt)?
        .create_event(rt, 0, 0)?
        .put_next(rt, "next ticket", NEVER - 32)?
        .queue_many(rt, &[512; 64], terms)
}

// 54,549 bytes, which as the length of a buffer are too few.
fn longest(rt: &impl Print) -> io::Result<()> {
    let t = longest_text(rt)?;
    measured(rt, &t.cells, &mut [SENTINEL; 54549])?;
    measured(rt, &t.cells, &mut [SENTINEL; BUFFER_LENGTH])
}

pub fn cases(rt: &impl Print) -> io::Result<()> {
    println!(rt; "-- the picture")?;
    first_reading(rt)?;
    every_line(rt)?;
    newly_made(rt)?;
    of_corrupt(rt)?;
    of_short(rt)?;
    longest(rt)
}
