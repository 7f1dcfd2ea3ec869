// Tables that are not valid.
#![tactic(auto)]

use std::io;

mod damage;

pub fn cases(rt: &impl Print) -> io::Result<()> {
    damage::cases(rt)?;
    damage::lengths(rt)
}
