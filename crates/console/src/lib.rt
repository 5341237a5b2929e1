// The console: one line is read, done and answered in one line.
#![tactic(auto)]

mod answers;
mod replies;
mod sessions;

pub use replies::line;
pub use sessions::session;
