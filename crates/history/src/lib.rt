// Calls and answers as values, and the promise over every list of calls.
#![tactic(auto)]

mod calls;
mod laws;
mod performing;
mod playing;

pub use calls::{Answer, Call};
pub use laws::hollow_answers_refuted;
pub use performing::perform;
pub use playing::play;
