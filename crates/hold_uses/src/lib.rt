// Lawful uses of tokens, each close to a misuse that is refused.
#![tactic(auto)]

pub mod anew;
pub mod aside;
pub mod held;
