// The lines of the console: how a call is written, and how a line is read.
#![tactic(auto)]

mod list;
mod number;
mod reader;

pub use reader::{Tables, read};
