// What the console answers to a line, and the text of it.
#![tactic(auto)]

pub mod answer;
pub mod faults;
pub mod reply;
