// From bytes to the tree in the work table, and the operation Read.
#![tactic(auto)]

pub mod read;
pub mod walk;
