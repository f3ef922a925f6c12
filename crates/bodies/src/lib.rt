// Refusals 24 and 30 to 34, of bodies, over the tree in the work table and the index of its classes.
#![tactic(auto)]

pub mod expr;
pub mod operators;
pub mod range;
pub mod scope;
pub mod stmt;
