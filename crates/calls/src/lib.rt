// The calls that wake nobody, each behind its refusals, in their order. Reading takes valid tables: their objects'
// numbers have 32 bits.
#![tactic(auto)]

ghost use Rattle.std.specs.Prelude.{◌≡◌, ◌<◌, true, false};
ghost use Rattle.model.specs.Sizes.{wait_places};
ghost use Rattle.model.specs.Calls.{nothing_lent, a_semaphore, a_mutex, an_event};
ghost use Rattle.cells.specs.Fold.{some_below};
ghost use Rattle.cells.specs.Validity.{valid_cells};
ghost use Rattle.cells.specs.Calls.{busy_at, close_cells, read_pair, read_cells, reset_cells, cancel_cells};
ghost use Rattle.kinds.specs.Kinds.{cell_of};
ghost use Rattle.kinds.specs.Values.{cells_of};
ghost use Rattle.calls.specs.Values.{left_by, done, number, placed, numbers, mutex_numbers, cancelled};

use kinds::{Kind, Object, Refusal};
use tables::Cells;
use validity::Sound;

// What a constructor made, at the lowest empty place; its handle.
#[tactic(auto, unfolding(cells::specs::Calls::create_cells))]
pub fn create(t: &mut Cells, new: Result<Object, Refusal>) -> Result<u32, Refusal>
    ensures { left_by number result t.new ≡ left_by placed new t.old }
{
    let o = new?;
    let p = tables::empty_object(t).ok_or(Refusal::NoRoom)?;
    tables::put_object(t, p, o);
    Ok((p + 1) as u32)
}

// A wait is queued at place p, and names h.
#[tactic(auto, unfolding(cells::specs::Calls::busy_at))]
fn busy_at(t: &Cells, h: u64, p: usize) -> bool
    requires { p < wait_places }
    ensures { result ≡ busy_at t.now h p }
{
    0 < tables::ticket_at(t, p) && tables::names_at(t, h, p)
}

fn busy(t: &Cells, h: u64) -> bool
    ensures { result ≡ some_below (busy_at t.now h) wait_places }
{
    let mut found = false;
    for p in 0..tables::WAIT_PLACES {
        found |= busy_at(t, h, p);
    }
    found
}

#[tactic(auto, unfolding(cells::specs::Calls::close_cells))]
pub fn close(t: &mut Cells, h: u64) -> Result<(), Refusal>
    ensures { left_by done result t.new ≡ close_cells h t.old nothing_lent }
{
    if !validity::occupied(t, h) {
        return Err(Refusal::Invalid);
    }
    if busy(t, h) {
        return Err(Refusal::Busy);
    }
    tables::store(t, h, Object::EMPTY);
    Ok(())
}

// The count and the attribute of an object of this kind. kept: a call for each kind below, whose clause (`read_cells
// a_semaphore`, `read_cells an_event`) ntsync_reads cites
fn read_pair(t: Sound, h: u64, kind: Kind) -> Result<(u32, u32), Refusal>
    ensures { left_by numbers result t.entry.cells.now ≡ read_pair (cell_of kind) h t.entry.cells.now nothing_lent }
{
    let o = tables::named(t.cells, h);
    if !o.is(kind) {
        return Err(Refusal::Invalid);
    }
    Ok((o.count as u32, o.attribute as u32))
}

#[tactic(auto, unfolding(cells::specs::Calls::read_cells))]
pub fn read_semaphore(t: Sound, h: u64) -> Result<(u32, u32), Refusal>
    ensures { left_by numbers result t.entry.cells.now ≡ read_cells a_semaphore h t.entry.cells.now nothing_lent }
{
    read_pair(t, h, Kind::Semaphore)
}

#[tactic(auto, unfolding(cells::specs::Calls::read_cells))]
pub fn read_event(t: Sound, h: u64) -> Result<(u32, u32), Refusal>
    ensures { left_by numbers result t.entry.cells.now ≡ read_cells an_event h t.entry.cells.now nothing_lent }
{
    read_pair(t, h, Kind::Event)
}

// Owner and count; nothing of an abandoned mutex, which its answer tells.
#[tactic(auto, unfolding(cells::specs::Calls::read_cells))]
pub fn read_mutex(t: Sound, h: u64) -> Result<Option<(u32, u32)>, Refusal>
    ensures { left_by mutex_numbers result t.entry.cells.now ≡ read_cells a_mutex h t.entry.cells.now nothing_lent }
{
    let o = tables::named(t.cells, h);
    if !o.is(Kind::Mutex) {
        return Err(Refusal::Invalid);
    }
    if 0 < o.attribute {
        return Ok(None);
    }
    Ok(Some((o.owner as u32, o.count as u32)))
}

// An event is cleared; its former state.
#[tactic(auto, unfolding(cells::specs::Calls::reset_cells))]
pub fn reset(t: &mut Cells, h: u64) -> Result<u32, Refusal>
    requires { valid_cells t.old ≡ true }
    ensures { left_by number result t.new ≡ reset_cells h t.old nothing_lent }
{
    let o = tables::named(t, h);
    let cleared = o.switch(0)?;
    tables::store(t, h, cleared);
    Ok(o.count as u32)
}

// The wait leaves the queue.
#[tactic(auto, unfolding(cells::specs::Calls::cancel_cells))]
pub fn cancel(t: &mut Cells, ticket: u64) -> Result<(), Refusal>
    ensures { left_by cancelled result t.new ≡ cancel_cells ticket t.old nothing_lent }
{
    if ticket == 0 {
        return Err(Refusal::Invalid);
    }
    let p = tables::ticket_place(t, ticket).ok_or(Refusal::Invalid)?;
    tables::clear_wait(t, p);
    Ok(())
}
