// The operation Check.
#![tactic(auto)]

pub mod check;
pub mod method;
