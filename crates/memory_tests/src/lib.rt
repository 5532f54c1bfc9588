// Runs of a list memory over real stores.
#![tactic(auto)]

mod feeds;
mod holds;
mod openings;
