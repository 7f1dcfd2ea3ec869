// Making: only the length is looked at.
use call_lines::memory::{SPACE_LENGTH, TABLE_LENGTH};
use call_lines::verdict::{altered, same, yes};
use std::io;

// The whole space is compared, so that a cell past the lent part would show too.
fn init_first(rt: &impl Print, n: usize) -> io::Result<()> {
    let before = [7; SPACE_LENGTH];
    let mut space = before;
    if let Some(part) = space.get_mut(..n) {
        let answer = ntsync::init(part);
        let altered = altered(&space, &before);
        println!(rt; "init {n} cells: {answer} {altered}")?;
    }
    Ok(())
}

// Newly made tables are 1 and then zeros; the cell behind them keeps its 7.
fn made(rt: &impl Print) -> io::Result<()> {
    let mut space = [7; SPACE_LENGTH];
    ntsync::init(&mut space[..TABLE_LENGTH]);
    let mut expected = [0; SPACE_LENGTH];
    expected[0] = 1;
    expected[TABLE_LENGTH] = 7;
    let is_made = yes(same(&space, &expected));
    println!(rt; "new tables, 7 behind them: {is_made}")
}

pub fn cases(rt: &impl Print) -> io::Result<()> {
    println!(rt; "-- making")?;
    init_first(rt, TABLE_LENGTH)?;
    made(rt)?;
    init_first(rt, TABLE_LENGTH - 1)?;
    init_first(rt, SPACE_LENGTH)?;
    init_first(rt, 0)
}
