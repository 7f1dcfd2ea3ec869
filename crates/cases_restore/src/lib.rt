// A snapshot read back (change request 3/13): accepted texts, and refused ones with their offsets. Each text is the
// library's own, whole, cut, or with one byte changed.
#![tactic(auto)]

use call_lines::memory::{BUFFER_LENGTH, Cell, Cells, ObjectCell, TABLE_LENGTH, Tables};
use call_lines::told::Told;
use call_lines::verdict::{altered, same, yes};
use std::io;

// Where a text stands, from the front on.
type Buffer = [u8; BUFFER_LENGTH];

// In every byte of a buffer before a text is written into it.
const EMPTY: Buffer = [b'#'; BUFFER_LENGTH];

// ---- the calls and their lines

fn written<'a>(cells: &Cells, buffer: &'a mut Buffer) -> &'a [u8] {
    let r = ntsync::snapshot(cells, buffer);
    buffer.get(..r.length as usize).unwrap_or(&[])
}

// The text's length, the answer and the offset; whether a cell changed.
fn read(rt: &impl Print, t: Tables, text: &[u8]) -> io::Result<Tables> {
    print!(rt; "restore bytes {}:", text.len())?;
    t.told(rt, |cells| Told(ntsync::restore(cells, text)))
}

// A copy of the text with one byte changed.
fn with<'a>(text: &[u8], at: usize, byte: u8, buffer: &'a mut Buffer) -> &'a [u8] {
    let Some(copy) = buffer.get_mut(..text.len()) else {
        return &[];
    };
    copy.copy_from_slice(text);
    if let Some(changed) = copy.get_mut(at) {
        *changed = byte;
    }
    copy
}

fn read_changed(
    rt: &impl Print,
    t: Tables,
    text: &[u8],
    at: usize,
    byte: u8,
) -> io::Result<Tables> {
    print!(rt; "byte {at} becomes {byte}; ")?;
    let mut buffer = EMPTY;
    read(rt, t, with(text, at, byte, &mut buffer))
}

// Tables whose cells are all 7: nothing of the contents matters.
const UNMADE: Tables = Tables {
    cells: [7; TABLE_LENGTH],
};

// The tables that a text of t gives, and whether they are t's own.
fn read_back(rt: &impl Print, t: Tables) -> io::Result<Tables> {
    let mut buffer = EMPTY;
    let back = read(rt, UNMADE, written(&t.cells, &mut buffer))?;
    println!(rt; "the same cells: {}", yes(same(&back.cells, &t.cells)))?;
    Ok(back)
}

// ---- accepted

// P1 of document 01, which goes on from its text as it would have: P2 wakes its wait.
fn first_reading(rt: &impl Print) -> io::Result<Tables> {
    let t = Tables::new().put_shown(rt)?;
    read_back(rt, t)?.set(rt, 2)?;
    Ok(t)
}

// Waits in the places 2 and 3, of the tickets 2 and 3, come back in the places 1 and 2. Read again they stay there.
fn placed(rt: &impl Print) -> io::Result<()> {
    let t = Tables::new()
        .create_event(rt, 0, 0)?
        .any(rt, &[1], 7)?
        .any(rt, &[1], 8)?
        .any(rt, &[1], 9)?
        .cancel(rt, 1)?;
    let back = read_back(rt, t)?;
    read_back(rt, back)?;
    Ok(())
}

// ---- refused

// The text of 195 bytes ends where a line is due, within a line, and with a byte more.
fn cut(rt: &impl Print, t: Tables) -> io::Result<()> {
    let mut buffer = EMPTY;
    written(&t.cells, &mut buffer);
    for length in [0, 6, 97, 100, 185, 194, 196] {
        read(rt, t, buffer.get(..length).unwrap_or(&[]))?;
    }
    Ok(())
}

// A byte of a number, or of the words about it.
const CHANGES: [(usize, u8); 12] = [
    (5, b'0'),
    (15, b'3'),
    (15, b'1'),
    (24, b'0'),
    (41, b'3'),
    (47, b'9'),
    (78, b'2'),
    (87, b'0'),
    (109, b'x'),
    (140, b'2'),
    (193, b'1'),
    (194, b' '),
];

fn changed(rt: &impl Print, t: Tables) -> io::Result<()> {
    let mut buffer = EMPTY;
    let text = written(&t.cells, &mut buffer);
    for (at, byte) in CHANGES {
        read_changed(rt, t, text, at, byte)?;
    }
    Ok(())
}

// Only the cells can say this: the event that a wait for any lists is signaled.
fn servable(rt: &impl Print) -> io::Result<()> {
    let t = Tables::new()
        .create_event(rt, 0, 1)?
        .any(rt, &[1], 7)?
        .put(Cell::Object(0, ObjectCell::Count), 1);
    println!(rt; "signaled by hand")?;
    let mut buffer = EMPTY;
    read(rt, t, written(&t.cells, &mut buffer))?;
    Ok(())
}

// A maximum of 0 is in its key's range, and the sum is made right: the offset is 0 (4/13).
fn no_maximum(rt: &impl Print) -> io::Result<()> {
    let t = Tables::new()
        .create_semaphore(rt, 0, 1)?
        .create_event(rt, 0, 0)?;
    read_back(rt, t)?;
    let mut buffer = EMPTY;
    let mut other = EMPTY;
    let text = written(&t.cells, &mut buffer);
    read_changed(rt, t, with(text, 104, b'5', &mut other), 47, b'0')?;
    Ok(())
}

// 9 before 13: the text is none.
fn short_tables(rt: &impl Print) -> io::Result<()> {
    let before = [7; TABLE_LENGTH - 1];
    let mut t = before;
    let told = Told(ntsync::restore(&mut t, &EMPTY));
    let altered = altered(&t, &before);
    println!(rt; "one cell short: {told} {altered}")
}

pub fn cases(rt: &impl Print) -> io::Result<()> {
    println!(rt; "-- a picture read back")?;
    let t = first_reading(rt)?;
    placed(rt)?;
    cut(rt, t)?;
    changed(rt, t)?;
    servable(rt)?;
    no_maximum(rt)?;
    short_tables(rt)
}
