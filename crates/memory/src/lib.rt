// The list memory: every call that a macro makes.
#![tactic(auto)]

pub mod memory;
pub mod token;
