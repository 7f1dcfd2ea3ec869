// What the public calls share: before their work the test of the tables, and in those that wake that of the wake list.
#![tactic(auto)]

ghost use Rattle.std.specs.Prelude.{◌≡◌, List, ℕ, Result, MatchOption, true, false};
ghost use Rattle.std.specs.Borrow.{sem};
ghost use Rattle.cells.specs.Validity.{valid_cells};
ghost use Rattle.model.specs.Calls.{nothing_lent};
ghost use Rattle.cells.specs.Calls.{Result as Left, guarded};
ghost use Rattle.ntsync_guard.specs.Values.{FoundSound, LendsCells};
ghost use Rattle.ntsync_guard.specs.Work.{OnSound, LeavesRefusals, LeavesByRule};
ghost use Rattle.ntsync_guard.specs.Work.{OnSoundAndLong, LeavesRefusalsWoken, LeavesByRuleWoken, tested};

use kinds::Refusal;
use tables::Cells;
use validity::Sound;

// A record for every wait place.
const WAKE_LENGTH: usize = 3 * tables::WAIT_PLACES;

// The lent tables, where they are valid.
#[tactic(auto, using(validity::proofs::Laws::whole_short))]
pub fn sound(tables: &[u64]) -> Result<Sound, Refusal>
    ensures { FoundSound tables.now result }
{
    match tables.as_array() {
        Some(cells) if validity::valid(cells) => Ok(Sound { cells }),
        _ => Err(Refusal::Corrupt),
    }
}

// The same, to be changed. An Option, since at a Result the caller is not told what becomes of a lent slice.
fn sound_mut(tables: &mut [u64]) -> Option<&mut Cells>
    ensures* lends { sem 𝓛 (LendsCells tables.entry result) }
    ensures found { MatchOption result (valid_cells tables.old ≡ false)
        (λ t. (t.now ≡ tables.old) × (valid_cells t.now ≡ true)) }
{
    match sound(tables) {
        Ok(_) => tables.as_mut_array(),
        Err(_) => None,
    }
}

// A call's work on valid tables; corrupt ones are refused before it. (`left` is what a result leaves, `rule` what it
// should.)
pub fn guarded<R, F: FnOnce(&mut Cells) -> Result<R, Refusal>>(
    tables: &mut [u64],
    work: F,
) -> Result<R, Refusal>
    requires { OnSound (F.pre work) }
    ensures { (left : Result R Refusal → List ℕ → Left) (rule : List ℕ → Left) → LeavesRefusals left
        → LeavesByRule (F.post work) left rule
        → left result tables.new ≡ guarded nothing_lent tables.old (rule tables.old) }
{
    let t = sound_mut(tables).ok_or(Refusal::Corrupt)?;
    work(t)
}

// The work of a call that wakes; corrupt tables are refused before it, then a wake list that is too short.
pub fn guarded_wake<R, F: FnOnce(&mut Cells, &mut [u64]) -> Result<R, Refusal>>(
    tables: &mut [u64],
    wake: &mut [u64],
    work: F,
) -> Result<R, Refusal>
    requires { OnSoundAndLong (F.pre work) }
    ensures { (left : Result R Refusal → List ℕ → List ℕ → Left) (rule : List ℕ → List ℕ → Left)
        → LeavesRefusalsWoken left → LeavesByRuleWoken (F.post work) left rule
        → left result tables.new wake.new ≡ tested tables.old wake.old (rule tables.old wake.old) }
{
    let cells = sound_mut(tables).ok_or(Refusal::Corrupt)?;
    if wake.len() < WAKE_LENGTH {
        return Err(Refusal::ListShort);
    }
    work(cells, wake)
}
