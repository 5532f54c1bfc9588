// The console's commands, and how a line says one.
#![tactic(auto)]

pub mod command;
pub mod operand;
pub mod parse;
