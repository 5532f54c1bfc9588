// Atoms and the words that stand for them.
#![tactic(auto)]

pub mod axis;
pub mod count;
pub mod faults;
pub mod kind;
mod placed;
pub mod shown;
pub mod values;
