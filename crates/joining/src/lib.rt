// Definitions and theorems only, in specs/: the operation Join of document 02, (x). Its code is the crate `joiner`.
#![tactic(auto)]
