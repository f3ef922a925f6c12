// Definitions and theorems, in specs/: the code of a program, and that its machine reports what the tree machine reports. In Rattle there
// are only the numbers of its instructions.
#![tactic(auto)]

pub mod numbers;
