// The public calls for Rattle callers (document 01), each by its family's crate. Nothing is required of a caller: any
// tables, any numbers. Each contract is one equation with the meaning: the answer, the numbers with it and every cell.
// A caller's line in crates.txt names this crate, and beside it the crate of each struct that it is handed.
#![tactic(auto)]

// ---- making tables and objects
pub use ntsync_objects::{Created, create_event, create_mutex, create_sem, init};

// ---- reading
pub use ntsync_reads::{EventState, MutexState, SemaphoreState, read_event, read_mutex, read_sem};

// ---- closing, resetting, cancelling
pub use ntsync_changes::{cancel, close, reset};

// ---- waiting
pub use ntsync_waits::{Waited, wait_all, wait_any};

// ---- the calls that wake
pub use ntsync_signals::{expire, kill_owner, post, pulse, set, unlock};
pub use signals::Changed;

// ---- the same, with the filled front of the wake list
pub use ntsync_fronts::{
    expire_woken, kill_owner_woken, post_woken, pulse_woken, set_woken, unlock_woken,
};

// ---- the snapshot
pub use ntsync_snapshot::{Written, snapshot};

// ---- reading a snapshot back
pub use ntsync_restore::{Restored, restore};
