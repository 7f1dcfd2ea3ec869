ghost use Rattle.std.specs.Prelude.{◌≡◌};
ghost use Rattle.model.specs.Calls.{a_mutex};
ghost use Rattle.cells.specs.Objects.{fields, no_fields};
ghost use Rattle.cells.specs.Validity.{valid_fields};
ghost use Rattle.kinds.specs.Values.{changed_by, creation};

use crate::kind::Kind;
use crate::object::Object;
use crate::refusal::Refusal;

// A new mutex's numbers, and what they may be: its constructor and the validity check both ask `valid`.
#[derive(Clone, Copy)]
pub struct Mutex {
    pub owner: u64,
    pub count: u64,
}

impl Mutex {
    // The highest owner number and recursion count: both have 32 bits.
    pub const MAX_OWNER: u64 = 4294967295;

    pub const MAX_COUNT: u64 = 4294967295;

    // A mutex with this count is signaled for nobody (house).
    pub const CEILING: u64 = Mutex::MAX_COUNT;

    // The mark of a killed owner's mutex.
    pub const ABANDONED: u64 = 1;

    // Owner and count are both 0 or neither is; an abandoned mutex has no owner.
    pub fn valid(owner: u64, count: u64, abandoned: u64) -> bool
        ensures { result ≡ valid_fields (fields 2 count owner abandoned) }
    {
        (owner <= Mutex::MAX_OWNER)
            & (count <= Mutex::MAX_COUNT)
            & (abandoned <= Mutex::ABANDONED)
            & ((owner == 0) == (count == 0))
            & ((abandoned == 0) | (owner == 0))
    }

    pub fn create(owner: u32, count: u32) -> Result<Object, Refusal>
        ensures { changed_by no_fields result ≡ creation a_mutex owner count }
    {
        let m = Mutex {
            owner: u64::from(owner),
            count: u64::from(count),
        };
        let ok = Mutex::valid(m.owner, m.count, 0);
        let o = Object {
            kind: u64::from(Kind::Mutex),
            count: m.count,
            owner: m.owner,
            ..Object::EMPTY
        };
        ok.then_some(o).ok_or(Refusal::Invalid)
    }
}
