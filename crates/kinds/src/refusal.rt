ghost use Rattle.std.specs.Prelude.{◌≡◌};
ghost use Rattle.kinds.specs.Refusals.{number_of};

// Why a call is refused; nothing is altered then.
#[derive(Clone, Copy)]
pub enum Refusal {
    // EINVAL: a bad argument, the wrong kind of object included
    Invalid,
    // EPERM: that owner does not hold the mutex
    NotOwner,
    // EOVERFLOW: the post would exceed the maximum
    Overflow,
    // no empty object place, or no empty wait place
    NoRoom,
    TicketsSpent,
    // the tables have another length or break a rule of docs/LAYOUT.md
    Corrupt,
    // a queued wait names the object
    Busy,
    // the wake list or the buffer is too short
    ListShort,
    NotASnapshot,
}

// The number that include/ntsync.h gives it.
impl From<Refusal> for u32 {
    ghost from_gives = { λ r n. n ≡ number_of r };

    fn from(r: Refusal) -> u32 {
        match r {
            Refusal::Invalid => 1,
            Refusal::NotOwner => 2,
            Refusal::Overflow => 3,
            Refusal::NoRoom => 7,
            Refusal::TicketsSpent => 8,
            Refusal::Corrupt => 9,
            Refusal::Busy => 10,
            Refusal::ListShort => 12,
            Refusal::NotASnapshot => 13,
        }
    }
}
