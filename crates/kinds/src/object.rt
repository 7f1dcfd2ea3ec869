ghost use Rattle.std.specs.Prelude.{◌≡◌, eqb};
ghost use Rattle.cells.specs.Objects.{signaled_fields, acquired_fields, abandoned_fields};
ghost use Rattle.cells.specs.Objects.{post_fields, unlock_fields, kill_fields, switch_fields};
ghost use Rattle.kinds.specs.Kinds.{cell_of};
ghost use Rattle.kinds.specs.Values.{cells_of, changed_by, HeldBy};

use crate::kind::Kind;
use crate::mutex::Mutex;
use crate::refusal::Refusal;

// An object as its four cells hold it: what a kind has no use for is 0.
#[derive(Clone, Copy, Debug, PartialEq, Eq)]
pub struct Object {
    // the number of its kind; 0 at an empty place. kept: a number and no `Kind`, since a damaged cell can hold any
    pub kind: u64,
    // a semaphore's count, a mutex's recursion count, 1 for a set event
    pub count: u64,
    // a mutex's owner
    pub owner: u64,
    // a semaphore's maximum, 1 for an abandoned mutex, 1 for a manual-reset event
    pub attribute: u64,
}

// The next state, and whether the object had been abandoned: neither says whether the other is there.
#[derive(Clone, Copy)]
pub struct Acquired {
    pub next: Object,
    pub abandoned: bool,
}

impl Object {
    // What an empty place holds.
    pub const EMPTY: Object = Object {
        kind: 0,
        count: 0,
        owner: 0,
        attribute: 0,
    };

    pub fn is(self, kind: Kind) -> bool
        ensures { result ≡ eqb self.kind (cell_of kind) }
    {
        self.kind == u64::from(kind)
    }

    // Signaled for the asking owner.
    #[tactic(auto, unfolding(cells::specs::Objects::signaled_fields))]
    pub fn signaled(self, asking: u64) -> bool
        ensures { result ≡ signaled_fields asking (cells_of self) }
    {
        match Kind::try_from(self.kind) {
            Ok(Kind::Semaphore | Kind::Event) => 0 < self.count,
            Ok(Kind::Mutex) => ((self.owner == 0) | (self.owner == asking))
                & (self.count < Mutex::CEILING),
            Err(_) => false,
        }
    }

    #[tactic(auto, unfolding(cells::specs::Objects::abandoned_fields))]
    pub fn abandoned(self) -> bool
        ensures { result ≡ abandoned_fields (cells_of self) }
    {
        self.is(Kind::Mutex) & (0 < self.attribute)
    }

    // Acquired by the asking owner; an object that is not signaled stays within its ranges.
    pub fn acquire(self, asking: u64) -> Acquired
        ensures next { cells_of result.next ≡ acquired_fields asking (cells_of self) }
        ensures dead { result.abandoned ≡ abandoned_fields (cells_of self) }
    {
        Acquired {
            next: self.acquired(asking),
            abandoned: self.abandoned(),
        }
    }

    #[tactic(auto, unfolding(cells::specs::Objects::acquired_fields))]
    fn acquired(self, asking: u64) -> Object
        ensures { cells_of result ≡ acquired_fields asking (cells_of self) }
    {
        match Kind::try_from(self.kind) {
            Ok(Kind::Semaphore) => Object {
                count: self.count.saturating_sub(1),
                ..self
            },
            Ok(Kind::Mutex) => {
                if self.count < Mutex::CEILING {
                    Object {
                        count: self.count + 1,
                        owner: asking,
                        attribute: 0,
                        ..self
                    }
                } else {
                    self
                }
            }
            Ok(Kind::Event) => {
                if self.attribute == 0 {
                    Object { count: 0, ..self }
                } else {
                    self
                }
            }
            Err(_) => self,
        }
    }

    // Refused past the maximum, compared as whole numbers.
    #[tactic(auto, unfolding(cells::specs::Objects::post_fields))]
    pub fn post(self, add: u64) -> Result<Object, Refusal>
        ensures { changed_by (cells_of self) result ≡ post_fields add (cells_of self) }
    {
        if !self.is(Kind::Semaphore) {
            return Err(Refusal::Invalid);
        }
        let count = self.count.checked_add(add).ok_or(Refusal::Overflow)?;
        if self.attribute < count {
            return Err(Refusal::Overflow);
        }
        Ok(Object { count, ..self })
    }

    // Owner 0 holds no mutex.
    fn held_by(self, asking: u64) -> Result<(), Refusal>
        ensures { HeldBy asking (cells_of self) result }
    {
        if !self.is(Kind::Mutex) || asking == 0 {
            return Err(Refusal::Invalid);
        }
        if self.owner != asking {
            return Err(Refusal::NotOwner);
        }
        Ok(())
    }

    // The last unlock leaves no owner. (A count of 0 keeps its owner; valid tables have no such mutex.)
    #[tactic(auto, unfolding(cells::specs::Objects::unlock_fields))]
    pub fn unlock(self, asking: u64) -> Result<Object, Refusal>
        ensures { changed_by (cells_of self) result ≡ unlock_fields asking (cells_of self) }
    {
        self.held_by(asking)?;
        Ok(Object {
            count: self.count.saturating_sub(1),
            owner: if self.count == 1 { 0 } else { self.owner },
            ..self
        })
    }

    #[tactic(auto, unfolding(cells::specs::Objects::kill_fields))]
    pub fn kill(self, asking: u64) -> Result<Object, Refusal>
        ensures { changed_by (cells_of self) result ≡ kill_fields asking (cells_of self) }
    {
        self.held_by(asking)?;
        Ok(Object {
            count: 0,
            owner: 0,
            attribute: Mutex::ABANDONED,
            ..self
        })
    }

    // An event set (1) or cleared (0). kept: the cell's number, as `switch_fields` takes it
    #[tactic(auto, unfolding(cells::specs::Objects::switch_fields))]
    pub fn switch(self, to: u64) -> Result<Object, Refusal>
        ensures { changed_by (cells_of self) result ≡ switch_fields to (cells_of self) }
    {
        if !self.is(Kind::Event) {
            return Err(Refusal::Invalid);
        }
        Ok(Object { count: to, ..self })
    }
}
