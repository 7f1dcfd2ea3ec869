// The calls that wake: an object's change is stored and the walk follows; and expire. A long enough wake list is asked
// for, and valid tables where a number is handed back: the public calls have tested both.
#![tactic(auto)]

ghost use Rattle.std.specs.Prelude.{◌≡◌, true, ◌≤◌, length};
ghost use Rattle.model.specs.Sizes.{wake_length};
ghost use Rattle.model.specs.Calls.{wake_lent, post, unlock, kill, set_event, pulse_event};
ghost use Rattle.cells.specs.Objects.{named};
ghost use Rattle.cells.specs.Validity.{valid_cells};
ghost use Rattle.cells.specs.Calls.{signal_on, expire_on};
ghost use Rattle.signals.specs.Values.{left_by, told_by, OnNamed, ChangedBy};

use kinds::{Event, Object, Refusal};
use tables::Cells;

// The number handed back, and how many records stand at the front of the wake list.
#[derive(Clone, Copy)]
pub struct Woke {
    pub previous: u32,
    pub woken: u32,
}

// The same with its answer, as C sees it. kept: the C interface's struct, an answer with two numbers beside it
#[repr(C)]
#[derive(Clone, Copy)]
pub struct Changed {
    pub answer: u32,
    pub previous: u32,
    pub woken: u32,
}

impl From<Result<Woke, Refusal>> for Changed {
    ghost from_gives = { λ r c. c ≡ told_by r };

    fn from(r: Result<Woke, Refusal>) -> Changed {
        match r {
            Ok(w) => Changed {
                answer: 0,
                previous: w.previous,
                woken: w.woken,
            },
            Err(e) => Changed {
                answer: e.into(),
                previous: 0,
                woken: 0,
            },
        }
    }
}

// An object's change: its rule says the number handed back and the next state, which is stored, and the walk follows.
fn change<F: FnOnce(Object) -> Result<(u32, Object), Refusal>>(
    t: &mut Cells,
    wake: &mut [u64],
    h: u64,
    rule: F,
) -> Result<Woke, Refusal>
    requires long { wake_length ≤ length wake.old }
    requires ruled { OnNamed (F.pre rule) h t.old }
    ensures { ChangedBy (F.post rule) h t.old wake.old (left_by result t.new wake.new) }
{
    let (previous, next) = rule(tables::named(t, h))?;
    tables::store(t, h, next);
    let k = walk::wake(t, wake, h);
    Ok(Woke {
        previous,
        woken: k as u32,
    })
}

// kept: here, in `unlock`, `set` and `pulse`, and in `calls::reset`, valid tables are a clause: a struct as
// `validity::Sound`, over a `&mut`, is no plainer, since clauses would say `t.exit.0.now` for `t.new`.
pub fn post(t: &mut Cells, wake: &mut [u64], h: u64, add: u64) -> Result<Woke, Refusal>
    requires { (valid_cells t.old ≡ true) × (wake_length ≤ length wake.old) }
    ensures { left_by result t.new wake.new ≡ signal_on (post add) h (named t.old h) t.old (wake_lent wake.old) }
{
    change(t, wake, h, |o| Ok((o.count as u32, o.post(add)?)))
}

pub fn unlock(t: &mut Cells, wake: &mut [u64], h: u64, asking: u64) -> Result<Woke, Refusal>
    requires { (valid_cells t.old ≡ true) × (wake_length ≤ length wake.old) }
    ensures { left_by result t.new wake.new ≡ signal_on (unlock asking) h (named t.old h) t.old (wake_lent wake.old) }
{
    change(t, wake, h, |o| Ok((o.count as u32, o.unlock(asking)?)))
}

pub fn kill(t: &mut Cells, wake: &mut [u64], h: u64, asking: u64) -> Result<Woke, Refusal>
    requires { wake_length ≤ length wake.old }
    ensures { left_by result t.new wake.new ≡ signal_on (kill asking) h (named t.old h) t.old (wake_lent wake.old) }
{
    change(t, wake, h, |o| Ok((0, o.kill(asking)?)))
}

pub fn set(t: &mut Cells, wake: &mut [u64], h: u64) -> Result<Woke, Refusal>
    requires { (valid_cells t.old ≡ true) × (wake_length ≤ length wake.old) }
    ensures { left_by result t.new wake.new ≡ signal_on set_event h (named t.old h) t.old (wake_lent wake.old) }
{
    change(t, wake, h, |o| Ok((o.count as u32, o.switch(Event::SET)?)))
}

// As set; then the event is cleared, whoever took it.
pub fn pulse(t: &mut Cells, wake: &mut [u64], h: u64) -> Result<Woke, Refusal>
    requires { (valid_cells t.old ≡ true) × (wake_length ≤ length wake.old) }
    ensures { left_by result t.new wake.new ≡ signal_on pulse_event h (named t.old h) t.old (wake_lent wake.old) }
{
    let r = set(t, wake, h)?;
    let o = tables::named(t, h);
    let cleared = o.switch(0).unwrap_or(o);
    tables::store(t, h, cleared);
    Ok(r)
}

// Clocks 0 and 1 are known.
pub fn expire(t: &mut Cells, wake: &mut [u64], clock: u64, time: u64) -> Result<Woke, Refusal>
    requires { wake_length ≤ length wake.old }
    ensures { left_by result t.new wake.new ≡ expire_on clock time t.old (wake_lent wake.old) }
{
    if 1 < clock {
        return Err(Refusal::Invalid);
    }
    let k = ending::end_due(t, wake, clock, time);
    Ok(Woke {
        previous: 0,
        woken: k as u32,
    })
}
