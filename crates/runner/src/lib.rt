// The operation Run of document 01.
#![tactic(auto)]

pub mod run;
