// The public calls, each with the line that the program `examples` writes for it, and what the cases share: cells
// compared and written, and what the lines say of them.
// The functions are proved safe and ending, and most promise nothing more: the statements about the calls are the
// contracts of crates/ntsync. These have a contract: `same`, `is_filled`, `is_untouched` and `is_kept` (of the
// snapshot's cases), because "unaltered" and "rest kept" rest on them; the functions of `Terms`, `any_on` and `all_on`,
// which fix the wait that is asked for; `told` and `then`, which hand back the cells that a call left; and `number` of
// a wait's cell, whose bound a sum needs.
#![tactic(auto)]

pub mod asked;
pub mod memory;
pub mod starts;
pub mod told;
pub mod verdict;
pub mod waiting;
pub mod wakes;
pub mod woken;
