// The calls that wake, each with its line: the answer, the number with it, how many waits were woken, a record (ticket
// answer index) for each, whether a cell of the tables changed, and whether the wake list behind the records was left.
ghost use Rattle.std.specs.Prelude.{◌≡◌, true, ◌↔◌};
ghost use Rattle.call_lines.specs.Kept.{Kept};

use crate::memory::{Cells, Tables};
use crate::told::Told;
use crate::verdict::{altered, is_filled, rest};
use ntsync::Changed;
use std::io;

pub const WAKE_LENGTH: usize = 96;

pub type WakeList = [u64; WAKE_LENGTH];

// In every cell of a wake list before the call; no ticket, answer or index here is this number.
pub const UNTOUCHED: u64 = 777;

// Whether every cell from `from` on holds UNTOUCHED.
// kept: no plainer. Its contract names the number, 777, where `is_filled` at each caller would name none.
pub fn is_untouched(wake: &[u64], from: usize) -> bool
    ensures { (result ≡ true) ↔ Kept 777 wake.now from }
{
    is_filled(wake, from, &UNTOUCHED)
}

fn records(rt: &impl Print, wake: &WakeList, woken: u32) -> io::Result<()> {
    for record in wake.chunks_exact(3).take(woken as usize) {
        print!(rt; " ({} {} {})", record[0], record[1], record[2])?;
    }
    Ok(())
}

impl Tables {
    fn woke<F: FnOnce(&mut Cells, &mut WakeList) -> Changed>(
        self,
        rt: &impl Print,
        call: F,
    ) -> io::Result<Self>
        requires { F.IsAlwaysCallable call }
    {
        let mut cells = self.cells;
        let mut wake = [UNTOUCHED; WAKE_LENGTH];
        let r = call(&mut cells, &mut wake);
        print!(rt; " {}", Told(r))?;
        records(rt, &wake, r.woken)?;
        let altered = altered(&cells, &self.cells);
        let rest = rest(is_untouched(&wake, 3 * (r.woken as usize)));
        println!(rt; " {altered} {rest}")?;
        Ok(Self { cells })
    }

    pub fn post(self, rt: &impl Print, handle: u32, add: u32) -> io::Result<Self> {
        print!(rt; "post {handle} add {add}:")?;
        self.woke(rt, |cells, wake| ntsync::post(cells, wake, handle, add))
    }

    pub fn unlock(self, rt: &impl Print, handle: u32, owner: u32) -> io::Result<Self> {
        print!(rt; "unlock {handle} owner {owner}:")?;
        self.woke(rt, |cells, wake| ntsync::unlock(cells, wake, handle, owner))
    }

    pub fn kill_owner(self, rt: &impl Print, handle: u32, owner: u32) -> io::Result<Self> {
        print!(rt; "kill {handle} owner {owner}:")?;
        self.woke(
            rt,
            |cells, wake| ntsync::kill_owner(cells, wake, handle, owner),
        )
    }

    pub fn set(self, rt: &impl Print, handle: u32) -> io::Result<Self> {
        print!(rt; "set {handle}:")?;
        self.woke(rt, |cells, wake| ntsync::set(cells, wake, handle))
    }

    pub fn pulse(self, rt: &impl Print, handle: u32) -> io::Result<Self> {
        print!(rt; "pulse {handle}:")?;
        self.woke(rt, |cells, wake| ntsync::pulse(cells, wake, handle))
    }

    pub fn expire(self, rt: &impl Print, clock: u32, time: u64) -> io::Result<Self> {
        print!(rt; "expire clock {clock} time {time}:")?;
        self.woke(rt, |cells, wake| ntsync::expire(cells, wake, clock, time))
    }
}
