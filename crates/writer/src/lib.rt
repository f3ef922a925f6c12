// The code writer: what checking leaves in the work table becomes words of code.
#![tactic(auto)]

pub mod classes;
pub mod code;
pub mod expr;
pub mod job;
pub mod method;
pub mod places;
pub mod prepare;
pub mod program;
pub mod scope;
pub mod sizes;
pub mod stmt;
pub mod view;
