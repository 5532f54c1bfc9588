// Stores of 32-bit words: what a store is, and the two that lie over lent memory.
#![tactic(auto)]

pub mod bank;
pub mod bytes;
pub mod faults;
pub mod words;
