// What a call told, as its line shows it: the answer, and the numbers with it in the order of their fields.
use ntsync::{Changed, Created, EventState, MutexState, Restored, SemaphoreState, Waited};
use std::fmt;

#[derive(Clone, Copy)]
pub struct Told<T>(pub T);

impl fmt::Display for Told<Created> {
    fn fmt<W: fmt::Write>(&self, f: &mut fmt::Formatter<W>) -> fmt::Result {
        let Created { answer, handle } = self.0;
        write!(f, "{answer} {handle}")
    }
}

impl fmt::Display for Told<SemaphoreState> {
    fn fmt<W: fmt::Write>(&self, f: &mut fmt::Formatter<W>) -> fmt::Result {
        let SemaphoreState { answer, count, max } = self.0;
        write!(f, "{answer} {count} {max}")
    }
}

impl fmt::Display for Told<MutexState> {
    fn fmt<W: fmt::Write>(&self, f: &mut fmt::Formatter<W>) -> fmt::Result {
        let MutexState {
            answer,
            owner,
            count,
        } = self.0;
        write!(f, "{answer} {owner} {count}")
    }
}

impl fmt::Display for Told<EventState> {
    fn fmt<W: fmt::Write>(&self, f: &mut fmt::Formatter<W>) -> fmt::Result {
        let EventState {
            answer,
            signaled,
            manual,
        } = self.0;
        write!(f, "{answer} {signaled} {manual}")
    }
}

impl fmt::Display for Told<Changed> {
    fn fmt<W: fmt::Write>(&self, f: &mut fmt::Formatter<W>) -> fmt::Result {
        let Changed {
            answer,
            previous,
            woken,
        } = self.0;
        write!(f, "{answer} {previous} {woken}")
    }
}

impl fmt::Display for Told<Waited> {
    fn fmt<W: fmt::Write>(&self, f: &mut fmt::Formatter<W>) -> fmt::Result {
        let Waited {
            answer,
            index,
            ticket,
        } = self.0;
        write!(f, "{answer} {index} {ticket}")
    }
}

impl fmt::Display for Told<Restored> {
    fn fmt<W: fmt::Write>(&self, f: &mut fmt::Formatter<W>) -> fmt::Result {
        let Restored { answer, offset } = self.0;
        write!(f, "{answer} {offset}")
    }
}
