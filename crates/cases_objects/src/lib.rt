// The calls that neither wait nor wake: making, objects and handles at the borders of their numbers; the snapshot.
#![tactic(auto)]

use std::io;

mod again;
mod full;
mod limits;
mod making;
mod queued;
mod snapshots;

pub fn cases(rt: &impl Print) -> io::Result<()> {
    making::cases(rt)?;
    full::cases(rt)?;
    limits::cases(rt)?;
    again::cases(rt)?;
    queued::cases(rt)
}

pub fn snapshot_cases(rt: &impl Print) -> io::Result<()> {
    snapshots::cases(rt)
}
