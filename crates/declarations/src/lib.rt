// Refusals 20 to 28, of declarations, over the tree in the work table.
#![tactic(auto)]

pub mod classes;
pub mod heads;
pub mod heights;
pub mod index;
pub mod marks;
pub mod variables;
