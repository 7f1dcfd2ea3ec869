// The calls that neither wait nor wake, each with its line: the call and its arguments, the answer, the numbers with
// it, and for a call that is lent the tables for writing whether a cell changed.
use crate::memory::Tables;
use crate::told::Told;
use std::fmt::Display;
use std::io;

impl Tables {
    pub fn create_semaphore(self, rt: &impl Print, count: u32, max: u32) -> io::Result<Self> {
        print!(rt; "create semaphore {count} of {max}:")?;
        self.told(rt, |cells| Told(ntsync::create_sem(cells, count, max)))
    }

    pub fn create_mutex(self, rt: &impl Print, owner: u32, count: u32) -> io::Result<Self> {
        print!(rt; "create mutex owner {owner} count {count}:")?;
        self.told(rt, |cells| Told(ntsync::create_mutex(cells, owner, count)))
    }

    pub fn create_event(self, rt: &impl Print, signaled: u32, manual: u32) -> io::Result<Self> {
        print!(rt; "create event signaled {signaled} manual {manual}:")?;
        self.told(
            rt,
            |cells| Told(ntsync::create_event(cells, signaled, manual)),
        )
    }

    // Ends the line of a call that only reads: what it told.
    fn read<R: Display + Drop>(self, rt: &impl Print, told: R) -> io::Result<Self> {
        println!(rt; " {told}")?;
        Ok(self)
    }

    pub fn read_semaphore(self, rt: &impl Print, handle: u32) -> io::Result<Self> {
        print!(rt; "read semaphore {handle}:")?;
        self.read(rt, Told(ntsync::read_sem(&self.cells, handle)))
    }

    pub fn read_mutex(self, rt: &impl Print, handle: u32) -> io::Result<Self> {
        print!(rt; "read mutex {handle}:")?;
        self.read(rt, Told(ntsync::read_mutex(&self.cells, handle)))
    }

    pub fn read_event(self, rt: &impl Print, handle: u32) -> io::Result<Self> {
        print!(rt; "read event {handle}:")?;
        self.read(rt, Told(ntsync::read_event(&self.cells, handle)))
    }

    pub fn close(self, rt: &impl Print, handle: u32) -> io::Result<Self> {
        print!(rt; "close {handle}:")?;
        self.told(rt, |cells| ntsync::close(cells, handle))
    }

    pub fn reset(self, rt: &impl Print, handle: u32) -> io::Result<Self> {
        print!(rt; "reset {handle}:")?;
        self.told(rt, |cells| Told(ntsync::reset(cells, handle)))
    }

    pub fn cancel(self, rt: &impl Print, ticket: u64) -> io::Result<Self> {
        print!(rt; "cancel {ticket}:")?;
        self.told(rt, |cells| ntsync::cancel(cells, ticket))
    }
}
