// The words a list memory speaks in: its refusals, what a register shows, the two words of a cell.
// What every call does is defined in specs/, on plain values.
#![tactic(auto)]

pub mod faults;
pub mod side;
pub mod sight;
pub mod worked;
