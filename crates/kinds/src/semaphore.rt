ghost use Rattle.std.specs.Prelude.{◌≡◌};
ghost use Rattle.model.specs.Calls.{a_semaphore};
ghost use Rattle.cells.specs.Objects.{fields, no_fields};
ghost use Rattle.cells.specs.Validity.{valid_fields};
ghost use Rattle.kinds.specs.Values.{changed_by, creation};

use crate::kind::Kind;
use crate::object::Object;
use crate::refusal::Refusal;

// A semaphore's numbers, and what they may be: its constructor and the validity check both ask `valid`.
#[derive(Clone, Copy)]
pub struct Semaphore {
    pub count: u64,
    pub max: u64,
}

impl Semaphore {
    // The highest maximum: counts have 32 bits.
    pub const MAX_COUNT: u64 = 4294967295;

    // The lowest maximum: with 0 it could never be signaled (house).
    pub const LOWEST_MAX: u64 = 1;

    // The count does not exceed the maximum, and the maximum is within its limits.
    pub fn valid(count: u64, max: u64) -> bool
        ensures { result ≡ valid_fields (fields 1 count 0 max) }
    {
        (count <= max) & (max <= Semaphore::MAX_COUNT) & (Semaphore::LOWEST_MAX <= max)
    }

    // kept: a `create` for each kind, since the numbers stand in other cells and have other limits.
    pub fn create(count: u32, max: u32) -> Result<Object, Refusal>
        ensures { changed_by no_fields result ≡ creation a_semaphore count max }
    {
        let s = Semaphore {
            count: u64::from(count),
            max: u64::from(max),
        };
        let ok = Semaphore::valid(s.count, s.max);
        let o = Object {
            kind: u64::from(Kind::Semaphore),
            count: s.count,
            attribute: s.max,
            ..Object::EMPTY
        };
        ok.then_some(o).ok_or(Refusal::Invalid)
    }
}
