// The kinds of object, each with its own limits, an object by value with its rules, and what a call is
// answered.
#![tactic(auto)]

pub use answer::Answer;
pub use event::Event;
pub use kind::Kind;
pub use mutex::Mutex;
pub use object::{Acquired, Object};
pub use refusal::Refusal;
pub use semaphore::Semaphore;

mod answer;
mod event;
mod kind;
mod mutex;
mod object;
mod refusal;
mod semaphore;
