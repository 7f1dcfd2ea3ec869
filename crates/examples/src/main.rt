// Runs the public calls on small cases of document 01 and writes a line for each: the call, its answer, the numbers
// with it, the records of the woken waits, and whether a cell of the lent tables changed, or of the wake list behind
// the records. A snapshot's line has the length of the buffer and whether a byte behind the text changed; some have the
// text between.
// Of the file `stdout` the sections from "bench readings" on were written from document 01 before the program was run,
// and so were the waits and the calls that wake in the section "damaged tables". The rest, from "making" on, was
// written by this program and then compared with document 01.
// The cases are libraries, so that their proofs are checked side by side.
#![tactic(auto)]

use std::io;

fn main(rt: HostRuntime) -> io::Result<()> {
    cases_objects::cases(&rt)?;
    cases_damage::cases(&rt)?;
    cases_waits::cases(&rt)?;
    cases_refused::cases(&rt)?;
    cases_objects::snapshot_cases(&rt)?;
    cases_restore::cases(&rt)
}
