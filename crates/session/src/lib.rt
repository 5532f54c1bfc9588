// A console session: every line of a text read, obeyed and answered.
#![tactic(auto)]

pub mod obey;
pub mod session;
