// The public call that reads a snapshot back. The text is read into tables of the call's own, so that a refusal leaves
// the lent ones as they were.
#![tactic(auto)]

ghost use Rattle.std.specs.Prelude.{◌≡◌, not, [], ◌∷◌, replicate};
ghost use Rattle.model.specs.Basics.{all_of};
ghost use Rattle.model.specs.Calls.{nothing_lent};
ghost use Rattle.model.specs.Layout.{table_length, valid_tables};
ghost use Rattle.model.specs.Steps.{seen, sees};
ghost use Rattle.model.specs.Restore.{restored, restore_tables};
ghost use Rattle.cells.specs.Attempt.{some_servable};
ghost use Rattle.ntsync_restore.specs.Judged.{JudgedAs, told_by, RestoredBy};

use kinds::Refusal;
use tables::Cells;

// kept: the C interface's struct, an answer with an offset beside it
#[repr(C)]
#[derive(Clone, Copy)]
pub struct Restored {
    pub answer: u32,
    pub offset: u64,
}

// Why the tables stay as they were.
#[derive(Clone, Copy)]
enum Refused {
    // the lent tables have another length
    Corrupt,
    // no snapshot of a board as it must be: the offset of the line that is not as due, else 0
    NotASnapshot(usize),
}

impl From<Result<(), Refused>> for Restored {
    ghost from_gives = { RestoredBy };

    fn from(r: Result<(), Refused>) -> Restored {
        match r {
            Ok(()) => Restored {
                answer: 0,
                offset: 0,
            },
            Err(Refused::Corrupt) => Restored {
                answer: u32::from(Refusal::Corrupt),
                offset: 0,
            },
            Err(Refused::NotASnapshot(offset)) => Restored {
                answer: u32::from(Refusal::NotASnapshot),
                offset: offset as u64,
            },
        }
    }
}

// The lines were in order, what they show is valid, and no wait in it could be served.
fn acceptable(in_order: bool, read: &Cells) -> bool
    ensures { result ≡ all_of (in_order ∷ valid_tables read.now
        ∷ not (some_servable read.now) ∷ []) }
{
    in_order && validity::valid(read) && quiet::quiet(read)
}

// The text, read into tables of zeros, and every test of it.
fn judge(text: &[u8], read: &mut Cells) -> Result<(), Refused>
    requires { read.old ≡ replicate table_length 0 }
    ensures { JudgedAs (restored text.now) result read.new }
{
    match reader::read_snapshot(text, read) {
        Ok(in_order) if acceptable(in_order, read) => Ok(()),
        Ok(_) => Err(Refused::NotASnapshot(0)),
        Err(line) => Err(Refused::NotASnapshot(text.len() - line.from.len())),
    }
}

// Of the lent tables only the length is looked at.
fn read_back(tables: &mut [u64], text: &[u8]) -> Result<(), Refused>
    ensures { seen (restore_tables tables.old text.now) ≡ told_by result tables.new }
{
    let t = tables.as_mut_array().ok_or(Refused::Corrupt)?;
    let mut read: Cells = [0; tables::TABLE_LENGTH];
    judge(text, &mut read)?;
    tables::copy(t, &read);
    Ok(())
}

pub fn restore(tables: &mut [u64], text: &[u8]) -> Restored
    ensures { seen (restore_tables tables.old text.now)
        ≡ sees (result.answer ∷ result.offset ∷ 0 ∷ 0 ∷ []) nothing_lent tables.new }
{
    Restored::from(read_back(tables, text))
}
