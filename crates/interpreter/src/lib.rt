// A run of an accepted lesson over its code.
#![tactic(auto)]

pub mod execute;
pub mod report;
pub mod state;
