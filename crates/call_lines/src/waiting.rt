// The two waits, each with its line: the list and the other arguments, then the answer, the index, the ticket, and
// whether a cell of the tables changed.
ghost use Rattle.std.specs.Prelude.{◌≡◌, [], ◌∷◌};
ghost use Rattle.model.specs.Sizes.{never};
ghost use Rattle.model.specs.Calls.{wait, nothing_lent, asks};
ghost use Rattle.model.specs.Steps.{table_step, seen, sees};
ghost use Rattle.model.specs.Waits.{any, all};

use crate::memory::Tables;
use crate::told::Told;
use ntsync::Waited;
use std::{fmt, io};

pub const NEVER: u64 = u64::MAX;

// The two clocks, as the flags of a wait name them.
pub const MONOTONIC: u32 = 0;

pub const REAL_TIME: u32 = 1;

// A longer list is shown by its length alone.
const SHOWN: usize = 8;

#[derive(Clone, Copy)]
struct Handles<'a>(&'a [u32]);

impl fmt::Display for Handles<'_> {
    fn fmt<W: fmt::Write>(&self, f: &mut fmt::Formatter<W>) -> fmt::Result {
        let list = self.0;
        if list.len() > SHOWN {
            return write!(f, "({} handles)", list.len());
        }
        write!(f, "(")?;
        for (i, handle) in list.iter().enumerate() {
            let space = if i > 0 { " " } else { "" };
            write!(f, "{space}{handle}")?;
        }
        write!(f, ")")
    }
}

// The arguments of a wait beside its list.
#[derive(Clone, Copy)]
pub struct Terms {
    pub owner: u32,
    pub alert: u32,
    pub flags: u32,
    pub pad: u32,
    pub timeout: u64,
    pub time: u64,
}

impl Terms {
    // With no alert and no end.
    pub fn of(owner: u32) -> Self
        ensures { result ≡ record { owner = owner; alert = 0; flags = 0; pad = 0; timeout = never; time = 0 } }
    {
        Self {
            owner,
            alert: 0,
            flags: MONOTONIC,
            pad: 0,
            timeout: NEVER,
            time: 0,
        }
    }

    pub fn alerted(self, alert: u32) -> Self
        ensures { result ≡ record self { alert = alert } }
    {
        Self { alert, ..self }
    }

    // Asked at `time`, with the end `timeout` on the clock of these flags.
    pub fn until(self, flags: u32, timeout: u64, time: u64) -> Self
        ensures { result ≡ record self { flags = flags; timeout = timeout; time = time } }
    {
        Self {
            flags,
            timeout,
            time,
            ..self
        }
    }
}

impl fmt::Display for Terms {
    fn fmt<W: fmt::Write>(&self, f: &mut fmt::Formatter<W>) -> fmt::Result {
        write!(
            f,
            "owner {} alert {} flags {} pad {}",
            self.owner, self.alert, self.flags, self.pad
        )?;
        write!(f, " timeout {} time {}", self.timeout, self.time)
    }
}

// The calls themselves, for any tables.
// kept: they unpack Terms for the public calls, whose arguments are those of the C interface.
pub fn any_on(t: &mut [u64], list: &[u32], w: Terms) -> Waited
    ensures { seen (table_step t.old
        (asks (wait any list.now w.owner w.flags w.pad w.alert w.timeout w.time) nothing_lent))
        ≡ sees (result.answer ∷ result.index ∷ result.ticket ∷ 0 ∷ []) nothing_lent t.new }
{
    ntsync::wait_any(t, list, w.owner, w.alert, w.flags, w.pad, w.timeout, w.time)
}

pub fn all_on(t: &mut [u64], list: &[u32], w: Terms) -> Waited
    ensures { seen (table_step t.old
        (asks (wait all list.now w.owner w.flags w.pad w.alert w.timeout w.time) nothing_lent))
        ≡ sees (result.answer ∷ result.index ∷ result.ticket ∷ 0 ∷ []) nothing_lent t.new }
{
    ntsync::wait_all(t, list, w.owner, w.alert, w.flags, w.pad, w.timeout, w.time)
}

impl Tables {
    pub fn wait_any(self, rt: &impl Print, list: &[u32], terms: Terms) -> io::Result<Self> {
        let handles = Handles(list);
        print!(rt; "wait any {handles} {terms}:")?;
        self.told(rt, |cells| Told(any_on(cells, list, terms)))
    }

    pub fn wait_all(self, rt: &impl Print, list: &[u32], terms: Terms) -> io::Result<Self> {
        let handles = Handles(list);
        print!(rt; "wait all {handles} {terms}:")?;
        self.told(rt, |cells| Told(all_on(cells, list, terms)))
    }

    // ---- with no end

    pub fn any(self, rt: &impl Print, list: &[u32], owner: u32) -> io::Result<Self> {
        self.wait_any(rt, list, Terms::of(owner))
    }

    pub fn all(self, rt: &impl Print, list: &[u32], owner: u32) -> io::Result<Self> {
        self.wait_all(rt, list, Terms::of(owner))
    }
}
