ghost use Rattle.std.specs.Prelude.{◌≡◌};
ghost use Rattle.model.specs.Calls.{an_event};
ghost use Rattle.cells.specs.Objects.{fields, no_fields};
ghost use Rattle.cells.specs.Validity.{valid_fields};
ghost use Rattle.kinds.specs.Values.{changed_by, creation};

use crate::kind::Kind;
use crate::object::Object;
use crate::refusal::Refusal;

// An event's flags, and what they may be: its constructor and the validity check both ask `valid`.
#[derive(Clone, Copy)]
pub struct Event {
    pub signaled: u64,
    pub manual: u64,
}

impl Event {
    // The flags of an event that is set, and of one with manual reset; else they are 0.
    pub const SET: u64 = 1;

    pub const MANUAL: u64 = 1;

    pub fn valid(signaled: u64, manual: u64) -> bool
        ensures { result ≡ valid_fields (fields 3 signaled 0 manual) }
    {
        (signaled <= Event::SET) & (manual <= Event::MANUAL)
    }

    // Any number but 0 means 1, so nothing is refused.
    pub fn create(signaled: u32, manual: u32) -> Result<Object, Refusal>
        ensures { changed_by no_fields result ≡ creation an_event signaled manual }
    {
        let e = Event {
            signaled: u64::from(signaled != 0),
            manual: u64::from(manual != 0),
        };
        let ok = Event::valid(e.signaled, e.manual);
        let o = Object {
            kind: u64::from(Kind::Event),
            count: e.signaled,
            attribute: e.manual,
            ..Object::EMPTY
        };
        ok.then_some(o).ok_or(Refusal::Invalid)
    }
}
