// Waits and the calls that wake: document 01's readings, the slips that it names, the limits of the queue, the clocks,
// and change request 1/13's waits for no objects.
#![tactic(auto)]

use std::io;

mod clocks;
mod queues;
mod readings;
mod sleeps;
mod slips;

pub fn cases(rt: &impl Print) -> io::Result<()> {
    readings::cases(rt)?;
    slips::cases(rt)?;
    queues::cases(rt)?;
    clocks::cases(rt)?;
    sleeps::cases(rt)
}
