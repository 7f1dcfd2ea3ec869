// Whether no queued wait could be served. Nothing is taken.
#![tactic(auto)]

ghost use Rattle.std.specs.Prelude.{◌≡◌, not, ◌<◌};
ghost use Rattle.model.specs.Sizes.{wait_places};
ghost use Rattle.cells.specs.Attempt.{list_serves, servable_at, ready_at, some_servable};

use tables::Cells;

// By its list. Mode 0 is any. kept: a number, since `list_serves` of cells takes any
fn list_serves(t: &Cells, mode: u64, asking: u64, list: &[u64]) -> bool
    ensures { result ≡ list_serves t.now mode asking list.now }
{
    if mode == 0 {
        return attempt::look_any(t, asking, list).is_some();
    }
    attempt::look_all(t, asking, list)
}

// By its list or its alert.
fn servable(t: &Cells, p: usize) -> bool
    requires { p < wait_places }
    ensures { result ≡ servable_at t.now p }
{
    let terms = tables::header_at(t, p).terms;
    let list = tables::list_of(t, p);
    let here = list_serves(t, terms.mode, terms.owner, list);
    if here {
        return true;
    }
    attempt::signaled(t, terms.owner, terms.alert)
}

// A wait is queued at place p and could be served.
fn ready_at(t: &Cells, p: usize) -> bool
    requires { p < wait_places }
    ensures { result ≡ ready_at t.now p }
{
    let ticket = tables::ticket_at(t, p);
    if ticket == 0 {
        return false;
    }
    servable(t, p)
}

pub fn quiet(t: &Cells) -> bool
    ensures { result ≡ not (some_servable t.now) }
{
    for p in 0..tables::WAIT_PLACES {
        let here = ready_at(t, p);
        if here {
            return false;
        }
    }
    true
}
