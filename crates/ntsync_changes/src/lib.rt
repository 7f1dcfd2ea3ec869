// The public calls that change and wake nobody: closing an object, resetting an event, cancelling a wait.
#![tactic(auto)]

ghost use Rattle.std.specs.Prelude.{◌≡◌, [], ◌∷◌};
ghost use Rattle.model.specs.Calls.{close, reset_event, cancel, nothing_lent, asks};
ghost use Rattle.model.specs.Steps.{table_step, seen, sees};
ghost use Rattle.cells.specs.Calls.{guarded, close_cells, reset_cells, cancel_cells};
ghost use Rattle.calls.specs.Values.{left_by, done, number, cancelled};

use kinds::{Answer, Refusal};
use ntsync_guard::guarded;
use signals::{Changed, Woke};

fn try_close(tables: &mut [u64], handle: u32) -> Result<(), Refusal>
    ensures { left_by done result tables.new
        ≡ guarded nothing_lent tables.old (close_cells handle tables.old nothing_lent) }
{
    guarded(tables, |t| calls::close(t, u64::from(handle)))
}

// kept: an answer by a match, here and in `cancel`: `map_or_else(u32::from, |()| 0)` says it no plainer.
pub fn close(tables: &mut [u64], handle: u32) -> u32
    ensures { seen (table_step tables.old (asks (close handle) nothing_lent))
        ≡ sees (result ∷ 0 ∷ 0 ∷ 0 ∷ []) nothing_lent tables.new }
{
    match try_close(tables, handle) {
        Ok(()) => 0,
        Err(r) => u32::from(r),
    }
}

fn try_reset(tables: &mut [u64], handle: u32) -> Result<u32, Refusal>
    ensures { left_by number result tables.new
        ≡ guarded nothing_lent tables.old (reset_cells handle tables.old nothing_lent) }
{
    guarded(tables, |t| calls::reset(t, u64::from(handle)))
}

pub fn reset(tables: &mut [u64], handle: u32) -> Changed
    ensures { seen (table_step tables.old (asks (reset_event handle) nothing_lent))
        ≡ sees (result.answer ∷ result.previous ∷ 0 ∷ result.woken ∷ []) nothing_lent tables.new }
{
    let r = try_reset(tables, handle);
    Changed::from(r.map(|previous| Woke { previous, woken: 0 }))
}

fn try_cancel(tables: &mut [u64], ticket: u64) -> Result<(), Refusal>
    ensures { left_by cancelled result tables.new
        ≡ guarded nothing_lent tables.old (cancel_cells ticket tables.old nothing_lent) }
{
    guarded(tables, |t| calls::cancel(t, ticket))
}

pub fn cancel(tables: &mut [u64], ticket: u64) -> u32
    ensures { seen (table_step tables.old (asks (cancel ticket) nothing_lent))
        ≡ sees (result ∷ 0 ∷ 0 ∷ 0 ∷ []) nothing_lent tables.new }
{
    match try_cancel(tables, ticket) {
        Ok(()) => u32::from(Answer::Interrupted),
        Err(r) => u32::from(r),
    }
}
