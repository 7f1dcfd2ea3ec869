// What the waits and the calls that wake refuse, and the handed-out fronts of the wake list.
#![tactic(auto)]

use std::io;

mod fronts;
mod refused;

pub fn cases(rt: &impl Print) -> io::Result<()> {
    refused::waits(rt)?;
    refused::wake_lists(rt)?;
    refused::changes(rt)?;
    fronts::cases(rt)
}
