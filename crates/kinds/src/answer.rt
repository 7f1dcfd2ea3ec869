ghost use Rattle.std.specs.Prelude.{◌≡◌, cond};
ghost use Rattle.kinds.specs.Answers.{answer_number};

// What is told of a call, or of a wait, that is not refused.
#[derive(Clone, Copy)]
pub enum Answer {
    Done,
    // EOWNERDEAD: something acquired had been abandoned
    OwnerDead,
    // ETIMEDOUT
    TimedOut,
    // EINTR: the wait was cancelled
    Interrupted,
    // the wait stands in the queue
    Queued,
}

impl Answer {
    // Of a wait that is served, a fresh one or a queued one.
    pub fn acquired(abandoned: bool) -> Answer
        ensures { answer_number result ≡ cond abandoned 4 0 }
    {
        if abandoned {
            Answer::OwnerDead
        } else {
            Answer::Done
        }
    }
}

// The number that include/ntsync.h gives it.
impl From<Answer> for u32 {
    ghost from_gives = { λ a n. n ≡ answer_number a };

    fn from(a: Answer) -> u32 {
        match a {
            Answer::Done => 0,
            Answer::OwnerDead => 4,
            Answer::TimedOut => 5,
            Answer::Interrupted => 6,
            Answer::Queued => 11,
        }
    }
}
