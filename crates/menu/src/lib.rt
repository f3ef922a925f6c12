// The operation Menu.
#![tactic(auto)]

pub mod least;
pub mod menu;
pub mod order;
