// The six calls that wake, asked one after another on one line: each with its answer, the number with it and how many
// waits were woken. The tables and the wake list may have any length.
use crate::told::Told;
use crate::waiting::NEVER;
use std::io;

// Owner 5 unlocks the mutex and is then killed.
const OWNER: u32 = 5;

// The arguments of the six calls: a handle of each kind, and the clock that is told.
#[derive(Clone, Copy)]
pub struct Targets {
    pub semaphore: u32,
    pub mutex: u32,
    pub event: u32,
    pub clock: u32,
}

pub fn ask(rt: &impl Print, t: &mut [u64], wake: &mut [u64], at: Targets) -> io::Result<()> {
    let told = Told(ntsync::post(t, wake, at.semaphore, 1));
    print!(rt; " post {told}")?;
    let told = Told(ntsync::unlock(t, wake, at.mutex, OWNER));
    print!(rt; " unlock {told}")?;
    let told = Told(ntsync::kill_owner(t, wake, at.mutex, OWNER));
    print!(rt; " kill {told}")?;
    let told = Told(ntsync::set(t, wake, at.event));
    print!(rt; " set {told}")?;
    let told = Told(ntsync::pulse(t, wake, at.event));
    print!(rt; " pulse {told}")?;
    let told = Told(ntsync::expire(t, wake, at.clock, NEVER));
    print!(rt; " expire {told}")
}
