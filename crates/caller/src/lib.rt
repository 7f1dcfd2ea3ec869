// A caller in Rattle that takes its own part of the wake list after the plain call: it knows every cell, those behind
// the records too, which the part handed out by `post_woken` can't say (docs/DECISIONS.md).
#![tactic(auto)]

ghost use Rattle.std.specs.Prelude.{◌≡◌, [], get_or};
ghost use Rattle.model.specs.Calls.{signal, post, wake_lent, asks};
ghost use Rattle.model.specs.Steps.{table_step, seen, handed};

// Posts, and hands back the ticket of the first woken wait, 0 where none was woken.
pub fn post_first(tables: &mut [u64], wake: &mut [u64], handle: u32, add: u32) -> u64
    ensures first { result ≡ get_or (handed (table_step tables.old
        (asks (signal (post add) handle) (wake_lent wake.old)))).front 0 0 }
    ensures cells { (seen (table_step tables.old
        (asks (signal (post add) handle) (wake_lent wake.old)))).lent.wake ≡ wake.new }
    ensures tables { (seen (table_step tables.old
        (asks (signal (post add) handle) (wake_lent wake.old)))).tables ≡ tables.new }
{
    let r = ntsync::post(tables, wake, handle, add);
    let end = 3 * (r.woken as usize);
    wake[..end].first().copied().unwrap_or(0)
}
