ghost use Rattle.std.specs.Prelude.{◌≡◌};
ghost use Rattle.kinds.specs.Kinds.{cell_of, NamesKind};

use crate::refusal::Refusal;

#[derive(Clone, Copy)]
pub enum Kind {
    Semaphore,
    Mutex,
    Event,
}

// The number of its cell (docs/LAYOUT.md).
impl From<Kind> for u64 {
    ghost from_gives = { λ kind cell. cell ≡ cell_of kind };

    fn from(kind: Kind) -> u64 {
        match kind {
            Kind::Semaphore => 1,
            Kind::Mutex => 2,
            Kind::Event => 3,
        }
    }
}

// Any other number is no kind's: 0 is the cell of an empty place, and a damaged cell can have any.
impl TryFrom<u64> for Kind {
    type Error = Refusal;

    ghost try_from_gives = { NamesKind };

    fn try_from(cell: u64) -> Result<Kind, Refusal> {
        match cell {
            1 => Ok(Kind::Semaphore),
            2 => Ok(Kind::Mutex),
            3 => Ok(Kind::Event),
            _ => Err(Refusal::Invalid),
        }
    }
}
