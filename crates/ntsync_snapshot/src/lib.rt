// The public snapshot.
#![tactic(auto)]

ghost use Rattle.std.specs.Prelude.{◌≡◌, [], ◌∷◌};
ghost use Rattle.model.specs.Calls.{snapshot, buffer_lent, asks};
ghost use Rattle.model.specs.Steps.{table_step, seen, sees};
ghost use Rattle.cells.specs.Calls.{guarded, snapshot_cells};
ghost use Rattle.ntsync_snapshot.specs.Values.{left_by, WrittenBy};

use kinds::Refusal;
use ntsync_guard::sound;

const SNAPSHOT_BUFFER: usize = 65536;

// kept: the C interface's struct, an answer with a number beside it
#[repr(C)]
#[derive(Clone, Copy)]
pub struct Written {
    pub answer: u32,
    pub length: u32,
}

impl From<Result<u32, Refusal>> for Written {
    ghost from_gives = { WrittenBy };

    fn from(r: Result<u32, Refusal>) -> Written {
        match r {
            Ok(length) => Written { answer: 0, length },
            Err(r) => Written {
                answer: u32::from(r),
                length: 0,
            },
        }
    }
}

// The text goes to the buffer's front; its length. Room is tested by the least length, which no snapshot reaches.
fn write(tables: &[u64], buffer: &mut [u8]) -> Result<u32, Refusal>
    ensures { left_by result tables.now buffer.new ≡ guarded (buffer_lent buffer.old) tables.now
        (snapshot_cells tables.now (buffer_lent buffer.old)) }
{
    let found = sound(tables)?;
    if buffer.len() < SNAPSHOT_BUFFER {
        return Err(Refusal::ListShort);
    }
    Ok(snapshot::write(buffer, found.cells) as u32)
}

pub fn snapshot(tables: &[u64], buffer: &mut [u8]) -> Written
    ensures { seen (table_step tables.now (asks snapshot (buffer_lent buffer.old)))
        ≡ sees (result.answer ∷ result.length ∷ 0 ∷ 0 ∷ []) (buffer_lent buffer.new) tables.now }
{
    Written::from(write(tables, buffer))
}
