// Definitions only, in specs/: the machine, and the operation Run; and rows computed with them.
#![tactic(auto)]
