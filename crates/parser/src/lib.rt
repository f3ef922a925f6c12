// From tokens to the tree, both in the work table.
#![tactic(auto)]

pub mod answer;
pub mod columns;
pub mod decl;
pub mod expr;
pub mod kinds;
pub mod parts;
pub mod stmt;
pub mod table;
